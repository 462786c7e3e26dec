//! The set of processors that a command is asked for.

ghost use Rattle.std.specs.Prelude.{◌≡◌, ◌≤◌, IfOk, IfErr, OnOk};
ghost use Rattle.step_trace.specs.CorrectSets.{named};
ghost use Rattle.step_trace.specs.Processors.{IsWithin};
ghost use Rattle.step_trace.specs.declared.processors.TheConstants.{MAX_MEMBER};
ghost use Rattle.command_faults.specs.Outside.{IsSetFault};

use crate::faults::{Fault, MemberOutside, SetOption};
use step_trace::{Correct, ProcSet};

/// The set of the processors that count as correct, by what this option says, if there are `n`.
///
/// Refuses only Set, if the set has a member above `n`; it names the least one.
pub fn correct_set(option: SetOption, correct: Correct, n: u64) -> Result<ProcSet, Fault>
    requires { n ≤ MAX_MEMBER }
    ensures set { IfOk result (λ set. set ≡ named correct n) }
    ensures within { OnOk result (IsWithin (named correct n) n) }
    ensures refused { IfErr result (IsSetFault option (named correct n) n) }
{
    let set = correct.named(n);
    match set.first_above(n) {
        None => Ok(set),
        Some(member) => Err(Fault::Set(option, MemberOutside { member, count: n })),
    }
}
