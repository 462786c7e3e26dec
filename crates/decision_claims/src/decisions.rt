//! Decisions of processors.

ghost use Rattle.std.specs.Prelude.{◌≡◌, ◌<◌, ◌↔◌, IsTrue, IfSome, IfNone, MatchOption, min};
ghost use Rattle.decision_claims.specs.Decisions.{HasDecidedBy, HaveDecidedBy, IsFrom};
ghost use Rattle.decision_claims.specs.LateRows.{IsLeastUndecided};

use step_trace::{MAX_MEMBER, ProcSet};

/// A decision: the processor, the tick, and the value.
#[derive(Clone, Copy, Debug, PartialEq, Eq)]
pub struct Decision {
    pub proc: u64,
    pub tick: u64,
    pub value: u64,
}

/// The tick in which a processor decided first, if it did.
pub fn first_decision(decisions: &[Decision], p: u64) -> Option<u64>
    ensures { IsFrom (HasDecidedBy decisions.now p) result }
{
    let mut first: Option<u64> = None;
    for k in 0..decisions.len() {
        if decisions[k].proc == p {
            first = Some(earlier(first, decisions[k].tick));
        }
    }
    first
}

/// The earlier of two ticks, of which the first may be missing.
pub(crate) fn earlier(first: Option<u64>, tick: u64) -> u64
    ensures { MatchOption first (result ≡ tick) (λ before. result ≡ min before tick) }
{
    match first {
        None => tick,
        Some(before) => { if before < tick { before } else { tick } }
    }
}

/// Whether a processor decided by a tick.
pub fn has_decided_by(decisions: &[Decision], p: u64, y: u64) -> bool
    ensures { IsTrue result ↔ HasDecidedBy decisions.now p y }
{
    match first_decision(decisions, p) {
        None => false,
        Some(x) => x <= y,
    }
}

/// The tick by which all members have decided, if they have: the latest of the members' first decisions.
pub fn latest_decision(set: ProcSet, decisions: &[Decision]) -> Option<u64>
    ensures { IsFrom (HaveDecidedBy set decisions.now) result }
{
    let mut latest = 0u64;
    for p in 1..MAX_MEMBER + 1 {
        if set.contains(p) {
            let tick = first_decision(decisions, p)?;
            if latest < tick {
                latest = tick;
            }
        }
    }
    Some(latest)
}

/// The least member that hadn't decided by a tick.
pub fn least_undecided(set: ProcSet, decisions: &[Decision], y: u64) -> Option<u64>
    ensures some { IfSome result (IsLeastUndecided set decisions.now y) }
    ensures none { IfNone result (HaveDecidedBy set decisions.now y) }
{
    for p in 1..MAX_MEMBER + 1 {
        if set.contains(p) {
            if !has_decided_by(decisions, p, y) {
                return Some(p);
            }
        }
    }
    None
}
