//! The gaps of a trace, by the silences of its processors.

ghost use Rattle.std.specs.Prelude.{◌≤◌, ◌↔◌, IsTrue, MatchOption};
ghost use Rattle.step_trace.specs.declared.traces.TheConstants.{MAX_TICKS};
ghost use Rattle.step_trace.specs.Processors.{IsWithin};
ghost use Rattle.step_trace.specs.Witnesses.{IsGap};
ghost use Rattle.certificate_checker.specs.Silences.{AreSilences};
ghost use Rattle.certificate_checker.specs.LongestWitnesses.{HasNoGapAt, IsLongestGapAt};

use crate::silences::Silence;
use step_trace::{Gap, ProcSet, Trace};

/// Whether this is a gap of the trace and the set.
pub(crate) fn is_gap(trace: &Trace, set: ProcSet, silences: &[Silence], gap: Gap) -> bool
    requires set { IsWithin set trace.now.config.n }
    requires known { AreSilences set trace.now silences.now }
    ensures exact { IsTrue result ↔ IsGap set trace.now gap }
    ensures limit { IsTrue result → gap.to ≤ MAX_TICKS }
{
    if !set.contains(gap.proc) || gap.from == 0 {
        return false;
    }
    if gap.to < gap.from || trace.last_tick() < gap.to {
        return false;
    }
    gap.to < silences[gap.proc as usize].end(trace, gap.from)
}

/// Of the gaps that begin in tick `from` the longest, and of these that of the least processor.
pub(crate) fn longest_gap_at(
    trace: &Trace,
    set: ProcSet,
    silences: &[Silence],
    from: u64,
) -> Option<Gap>
    requires set { IsWithin set trace.now.config.n }
    requires known { AreSilences set trace.now silences.now }
    requires low { 1 ≤ from }
    requires high { from ≤ trace.now.last }
    ensures { MatchOption result (HasNoGapAt set trace.now from)
        (IsLongestGapAt set trace.now from) }
{
    let mut proc = 0;
    let mut end = from;
    for p in 1..trace.config().n() + 1 {
        if set.contains(p) {
            let next = silences[p as usize].end(trace, from);
            if end < next {
                proc = p;
                end = next;
            }
        }
    }
    if proc == 0 {
        return None;
    }
    Some(Gap {
        proc,
        from,
        to: end - 1,
    })
}
