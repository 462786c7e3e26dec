//! Commands that make a text of a trace: each is an `Answer`. The program serves it from a reader to a writer
//! (`serving.rt`); a caller that has the trace's text in memory asks for it by `answer_to`.

ghost use Rattle.std.specs.Prelude.{ℕ, List, IfOk, IfErr};
ghost use Rattle.step_trace.specs.Traces.{Recorded};
ghost use Rattle.command_faults.specs.declared.faults.Fault.{Fault};
ghost use Rattle.text_commands.specs.Answers.{IsAnswerTo, IsDeclined, IsLeft, IsUnanswered};

use crate::traces::trace_of;
use command_faults::Fault;
use std::alloc::Global;
use step_trace::Trace;

/// A command that makes a text of a trace, in memory alone.
pub trait Answer {
    // what it gives for a trace
    ghost Gives: { Self → Recorded → List ℕ → Type 0 };

    // what it declines a trace for
    ghost Declines: { Self → Recorded → Fault → Type 0 };

    /// The answer to a trace, which may be cut meanwhile, so that its rest needs no memory. Memory may come instead of
    /// what it declines the trace for.
    fn answer(&self, alloc: Global, trace: &mut Trace) -> Result<Vec<u8>, Fault>
        ensures gives { IfOk result (λ out. Gives self.now trace.old out.items) }
        ensures declines { IfErr result (IsDeclined (Declines self.now trace.old)) }
        ensures left { IsLeft trace.old trace.new };
}

/// The answer of a command to a trace text in memory.
///
/// Refuses, in this order: Trace with the first refusal of the text; what the command declines its trace for. Memory
/// may come instead.
pub fn answer_to<A: Answer>(alloc: Global, command: &A, text: &[u8]) -> Result<Vec<u8>, Fault>
    ensures answer { IfOk result (λ out. IsAnswerTo (A.Gives command.now) text.now out.items) }
    ensures refused { IfErr result (IsUnanswered (A.Declines command.now) text.now) }
{
    let mut trace = trace_of(alloc, text)?;
    command.answer(alloc, &mut trace)
}
