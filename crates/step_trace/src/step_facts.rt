//! Facts of single steps of a trace.

ghost use Rattle.std.specs.Prelude.{◌≡◌, ℕ, ◌↔◌, ◌<◌, ◌≤◌, All, IsTrue, MatchOption, Some, length};
ghost use Rattle.step_trace.specs.Traces.{IsReceiveOf, IsStepOf, IsWellFormed, ids_at, step_at};
ghost use Rattle.step_trace.specs.Bounds.{IsMessage};

use crate::processors::ProcSet;
use crate::steps::{Act, Step};
use crate::traces::Trace;

/// The step of this number. Asks for the number of a step.
pub fn step_of(trace: &Trace, no: u64) -> &Step
    requires low { 1 ≤ no }
    requires high { no ≤ length trace.now.steps }
    ensures step { step_at trace.now.steps no ≡ Some result.now }
    ensures sound { IsWellFormed trace.now.config trace.now.steps }
{
    match trace.step(no) {
        Some(step) => step,
        None => unreachable!(),
    }
}

/// The messages that the step of this number takes: numbers of earlier steps. None if there is no such step.
pub fn ids_at(trace: &Trace, no: u64) -> &[u64]
    ensures value { result.now ≡ ids_at trace.now.steps no }
    ensures earlier { All (λ s. s < no) result.now }
{
    match trace.step(no) {
        Some(step) => step.act.ids(),
        None => &[],
    }
}

/// Whether the step of number `no` is one of processor `p`.
pub fn is_step_of(trace: &Trace, no: u64, p: u64) -> bool
    ensures { IsTrue result ↔ IsStepOf trace.now.steps no p }
{
    match trace.step(no) {
        None => false,
        Some(step) => step.proc == p,
    }
}

/// Whether the step of number `no` is a Receive of processor `p`.
pub fn is_receive_of(trace: &Trace, no: u64, p: u64) -> bool
    ensures { IsTrue result ↔ IsReceiveOf trace.now.steps no p }
{
    match trace.step(no) {
        None => false,
        Some(step) => match &step.act {
            Act::Send { .. } => false,
            Act::Receive { .. } => step.proc == p,
        },
    }
}

/// The receiver of message `s`, if it goes from a member of the set to a member.
pub fn receiver(trace: &Trace, set: ProcSet, s: u64) -> Option<u64>
    ensures { MatchOption result ((b : ℕ) → ¬ IsMessage set trace.now.steps s b)
        (IsMessage set trace.now.steps s) }
{
    let step = trace.step(s)?;
    match &step.act {
        Act::Send { to } => {
            if set.contains(step.proc) && set.contains(*to) {
                Some(*to)
            } else {
                None
            }
        }
        Act::Receive { .. } => None,
    }
}
