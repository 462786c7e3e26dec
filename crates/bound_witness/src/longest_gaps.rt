//! The longest gaps of the members.

ghost use Rattle.std.specs.Prelude.{◌≡◌, ◌+◌, ◌<◌, ◌↔◌, ◌++◌, Contains, AllPairs, OnOk, OnErr, IfOk};
ghost use Rattle.step_trace.specs.Processors.{IsWithin};
ghost use Rattle.bound_witness.specs.LongestGaps.{IsLongestGap, ListsGapsBy, Precedes, gap_between};

use std::alloc::{AllocError, Global};
use step_trace::{Gap, ProcSet, Trace, is_step_of};

/// Appends the gap between the ticks of two steps of processor `proc`, if they aren't neighbours.
/// Refuses only if they aren't.
fn push_gap_between(found: &mut Vec<Gap>, proc: u64, last: u64, next: u64) -> Result<(), AllocError>
    requires { last < next }
    ensures appended { OnOk result
        (found.new.items ≡ found.old.items ++ gap_between proc last next) }
    ensures more { OnErr result (last + 1 < next) }
{
    if last + 1 < next {
        found.push(Gap {
            proc,
            from: last + 1,
            to: next - 1,
        })?;
    }
    Ok(())
}

/// Appends the longest gaps of processor `p`, if it is a member.
fn push_gaps_of(trace: &Trace, set: ProcSet, p: u64, found: &mut Vec<Gap>) -> Result<(), AllocError>
    requires { ListsGapsBy set trace.now p 0 found.old.items }
    ensures listed { OnOk result (ListsGapsBy set trace.now (p + 1) 0 found.new.items) }
    ensures more { OnErr result ((w : Gap) × IsLongestGap set trace.now w) }
{
    if !set.contains(p) {
        return Ok(());
    }
    let end = trace.last_tick() + 1;
    let mut last = 0;
    for no in 1..trace.len() as u64 + 1 {
        if is_step_of(trace, no, p) {
            let tick = trace.tick(no);
            push_gap_between(found, p, last, tick)?;
            last = tick;
        }
    }
    push_gap_between(found, p, last, end)
}

/// The gaps of the members that no longer gap covers: the longest intervals of ticks, from 1 to the last
/// tick, in which a member takes no step. They are listed by processor, then by beginning.
///
/// Fails only if out of memory, and only if there is a gap to list.
pub fn gaps(alloc: Global, trace: &Trace, set: ProcSet) -> Result<Vec<Gap>, AllocError>
    requires { IsWithin set trace.now.config.n }
    ensures listed { IfOk result
        (λ v. (w : Gap) → (Contains v.items w ↔ IsLongestGap set trace.now w)) }
    ensures ordered { IfOk result (λ v. AllPairs Precedes v.items) }
    ensures more { OnErr result ((w : Gap) × IsLongestGap set trace.now w) }
{
    let mut found = Vec::new(alloc);
    for p in 1..trace.config().n() + 1 {
        push_gaps_of(trace, set, p, &mut found)?;
    }
    Ok(found)
}
