//! The program's way to the answer of a command: from a reader to a writer.

ghost use Rattle.std.specs.Prelude.{IfOk, IfErr};
ghost use Rattle.text_commands.specs.Answers.{IsDeclined};
ghost use Rattle.text_commands.specs.Serving.{ServesTrace};

use crate::answers::Answer;
use command_faults::Fault;
use shared_reading::read_trace_by_parts;
use std::alloc::Global;
use std::io::{Read, Write};
use std::mem;
use step_trace::Trace;
use trace_text::{Counting, write_text};

/// Reads a trace text to its end, and writes the answer of a command to its trace. Nothing is written before the whole
/// answer is complete. The memory of the trace is left to the end of the program: to free it step by step takes a tenth
/// of the time of a report.
///
/// Refuses, in this order: Read, or Trace for a text that is too large; Trace for any other refusal of the text; what
/// the command declines the trace for; Write with the number of bytes that went out before. Memory may come at any step
/// before the first write.
pub fn serve<A: Answer, R: Read, W: Write>(
    alloc: Global,
    command: &A,
    reader: &mut Counting<R>,
    writer: &mut Counting<W>,
) -> Result<(), Fault>
    ensures { ServesTrace (A.Gives command.now) (A.Declines command.now) R.remaining W.contents
        reader.old reader.new writer.old writer.new result }
{
    let trace = read_trace_by_parts(alloc, reader)?;
    let out = answer_of(alloc, command, trace)?;
    Ok(write_text(&out, writer)?)
}

/// The answer of a command to a trace, whose memory is left to the end of the program.
fn answer_of<A: Answer>(alloc: Global, command: &A, trace: Trace) -> Result<Vec<u8>, Fault>
    ensures gives { IfOk result (λ out. A.Gives command.now trace out.items) }
    ensures declines { IfErr result (IsDeclined (A.Declines command.now trace)) }
{
    let mut trace = trace;
    let answer = command.answer(alloc, &mut trace);
    mem::forget(trace);
    answer
}
