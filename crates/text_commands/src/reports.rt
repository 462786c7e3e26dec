//! The report of a trace text, from a reader to a writer, by several workers.

ghost use Rattle.std.specs.Prelude.{◌≢◌, ◌≤◌, OnOk, IfOk, IfErr};
ghost use Rattle.step_trace.specs.CorrectSets.{named};
ghost use Rattle.step_trace.specs.Fronts.{IsReport};
ghost use Rattle.step_trace.specs.Processors.{IsWithin};
ghost use Rattle.chunk_join.specs.Analyses.{AreLetIn};
ghost use Rattle.chunk_join.specs.declared.analyses.TheConstants.{MAX_WORKERS};
ghost use Rattle.text_commands.specs.Answers.{IsDeclined};
ghost use Rattle.text_commands.specs.Reports.{IsFaultOfWorkers, IsUnreported, TellsAnalysis};
ghost use Rattle.text_commands.specs.Serving.{ServesTrace};
ghost use Rattle.text_verdicts.specs.Reports.{IsReportFor};
ghost use Rattle.text_verdicts.specs.Texts.{HasCorrect};

use crate::traces::set_of;
use chunk_join::{AnalyseError, analyse};
use command_faults::Fault;
use front::{Report, front, write_report};
use shared_reading::read_trace_from;
use std::alloc::Global;
use std::io::{Read, Write};
use std::mem;
use std::sync::Wait;
use std::thread::Threads;
use step_trace::{Correct, Gate, ProcSet, Trace};
use trace_text::Counting;

/// Reads a trace text to its end, and writes the report of its trace, for these correct processors. With two workers
/// and more, other threads read pieces of the text, about as many at once. So many workers find the bounds, each in a
/// thread of its own, which enters the gate before that work. Whatever their number, the report is the same.
/// What the trace has taken of a long text is freed; the trace itself is left to the end of the program. Nothing is
/// written before the whole report is complete.
///
/// Asks for 1 to `MAX_WORKERS` workers, and waits for them. Refuses, in this order:
/// - Read, or Trace for a text that is too large;
/// - Trace for any other refusal of the text;
/// - Set if a correct processor is above the trace's number of processors;
/// - Threads if the gate held a worker back or its thread couldn't be started;
/// - Write with the number of bytes that went out before.
///
/// Memory may come at any step before the first write.
pub fn run_report<T: Threads + Wait + Sync, R: Read, W: Write, G: Gate>(
    rt: &T,
    alloc: Global,
    reader: &mut Counting<R>,
    writer: &mut Counting<W>,
    correct: Correct,
    workers: u64,
    gate: &G,
) -> Result<(), Fault>
    requires some { 1 ≤ workers }
    requires few { workers ≤ MAX_WORKERS }
    ensures served { ServesTrace (IsReportFor correct) (IsUnreported correct) R.remaining W.contents
        reader.old reader.new writer.old writer.new result }
    ensures entered { OnOk result (AreLetIn (G.lets gate.now) workers) }
{
    let trace = read_trace_from(rt, alloc, reader, workers)?;
    let report = report_of(rt, alloc, trace, correct, workers, gate)?;
    Ok(write_report(alloc, report.rows(), writer)?)
}

/// The report of a trace, for correct processors that are tested. The memory of the trace is left to the end of the
/// program: to free it step by step takes a tenth of the time of a report.
fn report_of<T: Threads + Wait + Sync, G: Gate>(
    rt: &T,
    alloc: Global,
    trace: Trace,
    correct: Correct,
    workers: u64,
    gate: &G,
) -> Result<Report, Fault>
    requires some { 1 ≤ workers }
    requires few { workers ≤ MAX_WORKERS }
    ensures within { OnOk result (HasCorrect correct trace) }
    ensures report { IfOk result (λ r. IsReport (named correct trace.config.n) trace r.rows) }
    ensures refused { IfErr result (IsDeclined (IsUnreported correct trace)) }
    ensures entered { OnOk result (AreLetIn (G.lets gate.now) workers) }
{
    let set = set_of(correct, &trace)?;
    let report = rows_of(rt, alloc, &trace, set, workers, gate);
    mem::forget(trace);
    report
}

/// The report of a trace, whose bounds so many workers find.
fn rows_of<T: Threads + Wait + Sync, G: Gate>(
    rt: &T,
    alloc: Global,
    trace: &Trace,
    set: ProcSet,
    workers: u64,
    gate: &G,
) -> Result<Report, Fault>
    requires within { IsWithin set trace.now.config.n }
    requires some { 1 ≤ workers }
    requires few { workers ≤ MAX_WORKERS }
    ensures report { IfOk result (λ r. IsReport set trace.now r.rows) }
    ensures refused { IfErr result IsFaultOfWorkers }
    ensures entered { OnOk result (AreLetIn (G.lets gate.now) workers) }
{
    match analyse(rt, alloc, trace, set, workers, gate) {
        Ok(stairs) => Ok(front(alloc, &stairs)?),
        Err(why) => Err(unanalysed(why)),
    }
}

/// The fault of a trace that wasn't analysed, though the number of workers was right.
fn unanalysed(why: AnalyseError) -> Fault
    requires { why ≢ AnalyseError.BadWorkers }
    ensures { TellsAnalysis why result }
{
    match why {
        AnalyseError::Held | AnalyseError::Start => Fault::Threads,
        AnalyseError::Memory => Fault::Memory,
        AnalyseError::BadWorkers => unreachable!(),
    }
}
