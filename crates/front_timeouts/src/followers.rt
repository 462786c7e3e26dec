//! Which followers a leader has.

ghost use Rattle.std.specs.Prelude.{◌≡◌, ◌↔◌, ◌+◌, ◌≤◌, ℕ, length, Some, IfOk, IfSome};
ghost use Rattle.step_trace.specs.declared.processors.TheConstants.{MAX_MEMBER};
ghost use Rattle.step_trace.specs.Processors.{IsWithin};
ghost use Rattle.timeouts.specs.Hearing.{IsFrom};
ghost use Rattle.front_timeouts.specs.Followers.{AreReceivers, IsPair, IsProcessor, members_to};

use std::alloc::{AllocError, Global};
use step_trace::{Act, MAX_MEMBER, ProcSet, Trace};

/// The processors to which `p` sends at all. Time grows with the steps.
pub fn receivers_of(trace: &Trace, p: u64) -> ProcSet
    ensures receivers { AreReceivers trace.now.steps p (length trace.now.steps + 1) result }
    ensures within { IsWithin result trace.now.config.n }
{
    let mut receivers = ProcSet::empty();
    for no in 1..trace.len() as u64 + 1 {
        receivers = with_receiver(receivers, trace, p, no);
    }
    receivers
}

/// The set with the processor to which step `no` sends, if it is a Send of `p`.
fn with_receiver(receivers: ProcSet, trace: &Trace, p: u64, no: u64) -> ProcSet
    requires low { 1 ≤ no }
    requires high { no ≤ length trace.now.steps }
    requires before { AreReceivers trace.now.steps p no receivers }
    ensures { AreReceivers trace.now.steps p (no + 1) result }
{
    match sent_to(trace, p, no) {
        Some(q) => receivers.with(q),
        None => receivers,
    }
}

/// The processor to which step `no` sends, if it is a Send of `p`.
fn sent_to(trace: &Trace, p: u64, no: u64) -> Option<u64>
    requires low { 1 ≤ no }
    requires high { no ≤ length trace.now.steps }
    ensures to { (q : ℕ) → (result ≡ Some q) ↔ IsFrom trace.now.steps p q no }
    ensures low { IfSome result (λ q. 1 ≤ q) }
    ensures high { IfSome result (λ q. q ≤ MAX_MEMBER) }
{
    let _n = trace.config().n();
    let step = trace.step(no)?;
    match &step.act {
        Act::Send { to } if step.proc == p => Some(*to),
        _ => None,
    }
}

/// The members of a set, in rising order.
pub(crate) fn members(alloc: Global, set: ProcSet) -> Result<Vec<u64>, AllocError>
    ensures { IfOk result (λ v. v.items ≡ members_to set MAX_MEMBER) }
{
    let mut all = Vec::new(alloc);
    for p in 1..MAX_MEMBER + 1 {
        if set.contains(p) {
            all.push(p)?;
        }
    }
    Ok(all)
}

/// The set of these two.
pub(crate) fn pair(p: u64, q: u64) -> ProcSet
    requires leader { IsProcessor p }
    requires follower { IsProcessor q }
    ensures { IsPair p q result }
{
    ProcSet::empty().with(p).with(q)
}
