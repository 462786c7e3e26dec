//! Facts of single steps of a trace.

ghost use Rattle.std.specs.Prelude.{◌↔◌, IsTrue};
ghost use Rattle.step_trace.specs.Traces.{TakesAt};
ghost use Rattle.bound_witness.specs.TickWindows.{IsReceiveBetween, IsStepBetween};

use step_trace::{Trace, is_receive_of, is_step_of};

/// Whether the step of number `no` is one of processor `p`, in a tick from `from` on and before `before`.
pub(crate) fn is_step_between(trace: &Trace, no: u64, p: u64, from: u64, before: u64) -> bool
    ensures { IsTrue result ↔ IsStepBetween trace.now no p from before }
{
    if !is_step_of(trace, no, p) {
        return false;
    }
    let tick = trace.tick(no);
    from <= tick && tick < before
}

/// Whether the step of number `no` is a Receive of processor `p`, in a tick from `from` on and before
/// `before`.
pub(crate) fn is_receive_between(trace: &Trace, no: u64, p: u64, from: u64, before: u64) -> bool
    ensures { IsTrue result ↔ IsReceiveBetween trace.now no p from before }
{
    if !is_receive_of(trace, no, p) {
        return false;
    }
    let tick = trace.tick(no);
    from <= tick && tick < before
}

/// Whether the step of number `no` takes message `s`.
pub(crate) fn takes(trace: &Trace, no: u64, s: u64) -> bool
    ensures { IsTrue result ↔ TakesAt trace.now.steps no s }
{
    match trace.step(no) {
        None => false,
        Some(step) => step.act.ids().iter().any(|id| *id == s),
    }
}
