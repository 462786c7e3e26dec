//! The first tick by which every member of a set has taken a step since each tick, by the silences of the members.

ghost use Rattle.std.specs.Prelude.{◌+◌, ◌^◌, ◌≤◌, length, IfOk};
ghost use Rattle.step_trace.specs.Processors.{IsWithin};
ghost use Rattle.certificate_checker.specs.Silences.{AreSilences};
ghost use Rattle.certificate_checker.specs.Closings.{AreClosings, IsCarried};

use crate::silences::Silence;
use std::alloc::{AllocError, Global};
use step_trace::{ProcSet, Trace};

/// For each tick, the first tick by which every member of a set has taken a step from that tick on, or the tick
/// after the last if there is none.
pub(crate) fn closings(
    alloc: Global,
    trace: &Trace,
    set: ProcSet,
    silences: &[Silence],
) -> Result<Vec<u32>, AllocError>
    requires set { IsWithin set trace.now.config.n }
    requires silences { AreSilences set trace.now silences.now }
    ensures { IfOk result (λ v. AreClosings set trace.now v.items) }
{
    let mut ends = vec![in alloc; 0u32; trace.last_tick() as usize + 1]?;
    for p in 1..trace.config().n() + 1 {
        if set.contains(p) {
            silences[p as usize].put_ends(trace, &mut ends);
        }
    }
    carry(&mut ends);
    Ok(ends)
}

/// Carries the latest end so far on to each tick: the tick itself if none is later.
fn carry(ends: &mut Vec<u32>)
    requires { length ends.old.items ≤ 2 ^ 32 }
    ensures { IsCarried ends.old.items ends.new.items }
{
    let mut latest = 0;
    for x in 0..ends.len() {
        latest = latest.max(ends[x]).max(x as u32);
        ends[x] = latest;
    }
}
