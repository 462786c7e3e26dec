//! The timeouts of one follower.

ghost use Rattle.std.specs.Prelude.{◌≡◌, ◌≤◌, IfOk, IfSome};
ghost use Rattle.step_trace.specs.Fronts.{IsReport};
ghost use Rattle.timeouts.specs.declared.timeouts.TheConstants.{MAX_TURNS};
ghost use Rattle.front_timeouts.specs.Followers.{IsPair, IsProcessor};
ghost use Rattle.front_timeouts.specs.Tables.{AreTimeoutsFor, IsFollowed, IsInside};

use crate::followers::pair;
use front::{Report, front};
use std::alloc::{AllocError, Global};
use step_trace::{ProcSet, Trace};
use suffix_staircase::Stairs;
use timeouts::{Timeout, Turns, report_timeouts, row_timeouts};

/// The timeouts of a follower, one for each row of a report, in their order.
#[derive(Debug, Drop)]
pub struct FollowerTimeouts {
    pub follower: u64,
    pub timeouts: Vec<Timeout>,
}

/// The timeouts of the follower `q` of `p`: for each row of the report whose set is the two, or for the one row that
/// applies to tick `at`.
///
/// Two passes over the trace. Fails only if an allocation fails.
pub(crate) fn follower_timeouts(
    alloc: Global,
    trace: &Trace,
    p: u64,
    q: u64,
    given: Turns,
    at: Option<u64>,
) -> Result<FollowerTimeouts, AllocError>
    requires leader { IsProcessor p }
    requires follower { IsProcessor q }
    requires leader_within { p ≤ trace.now.config.n }
    requires follower_within { q ≤ trace.now.config.n }
    requires every { given.every ≤ MAX_TURNS }
    requires polls { given.polls ≤ MAX_TURNS }
    requires at { IfSome at (IsInside trace.now) }
    ensures follower { IfOk result (λ f. f.follower ≡ q) }
    ensures followed { IfOk result (IsFollowed trace.now p given at) }
{
    let set = pair(p, q);
    let stairs = Stairs::of_trace(alloc, trace, set)?;
    let report = front(alloc, &stairs)?;
    let timeouts = timeouts_for(alloc, trace, set, &report, p, q, given, at)?;
    Ok(FollowerTimeouts {
        follower: q,
        timeouts,
    })
}

/// The timeouts for the rows of this report, or for the one that applies to a tick.
fn timeouts_for(
    alloc: Global,
    trace: &Trace,
    set: ProcSet,
    report: &Report,
    p: u64,
    q: u64,
    given: Turns,
    at: Option<u64>,
) -> Result<Vec<Timeout>, AllocError>
    requires pair { IsPair p q set }
    requires report { IsReport set trace.now report.now.rows }
    requires len { report.now.len ≡ trace.now.last }
    requires every { given.every ≤ MAX_TURNS }
    requires polls { given.polls ≤ MAX_TURNS }
    requires at { IfSome at (IsInside trace.now) }
    ensures { IfOk result (λ ts. AreTimeoutsFor set trace.now p q given at ts.items) }
{
    let _last = trace.last_tick();
    let Some(tick) = at else {
        return report_timeouts(alloc, trace, set, report.rows(), p, q, given);
    };
    match report.at(tick) {
        Some(row) => row_timeouts(alloc, trace, set, &[row], p, q, given),
        None => unreachable!(),
    }
}
