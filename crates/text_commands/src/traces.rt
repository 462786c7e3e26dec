//! The trace that a text in memory encodes, and the correct processors of a trace.

ghost use Rattle.std.specs.Prelude.{◌≡◌, IfOk, IfErr, OnOk};
ghost use Rattle.step_trace.specs.CorrectSets.{named};
ghost use Rattle.text_commands.specs.Answers.{IsOutside, IsUnread};
ghost use Rattle.text_verdicts.specs.Texts.{HasCorrect, IsTextOf};

use command_faults::{Fault, SetOption, correct_set};
use shared_reading::read_trace;
use std::alloc::Global;
use step_trace::{Correct, ProcSet, Trace};

/// The trace that a text in memory encodes.
///
/// Refuses Trace with the first refusal of the text, and Memory.
pub(crate) fn trace_of(alloc: Global, text: &[u8]) -> Result<Trace, Fault>
    ensures read { IfOk result (λ t. IsTextOf text.now t) }
    ensures refused { IfErr result (IsUnread text.now) }
{
    Ok(read_trace(alloc, text)?)
}

/// The set of the correct processors of a trace.
///
/// Refuses only Set, if one of them is above the trace's number of processors; it names the least one.
pub(crate) fn set_of(correct: Correct, trace: &Trace) -> Result<ProcSet, Fault>
    ensures set { IfOk result (λ set. set ≡ named correct trace.now.config.n) }
    ensures within { OnOk result (HasCorrect correct trace.now) }
    ensures refused { IfErr result (IsOutside correct trace.now) }
{
    correct_set(SetOption::Correct, correct, trace.config().n())
}
