//! Whether the bounds of rows hold: the longest miss and the longest gap from each stabilization time on, from the
//! last row back to the first.

ghost use Rattle.std.specs.Prelude.{◌≡◌, ◌+◌, ◌-◌, ◌<◌, ◌≤◌, length, IfSome};
ghost use Rattle.step_trace.specs.Processors.{IsWithin};
ghost use Rattle.certificate_checker.specs.declared.verdicts.Reason.TheVariants.{DeltaFails, PhiFails};
ghost use Rattle.certificate_checker.specs.LongestWitnesses.{HasSpan, span_of, longer_miss, KnowsMissesAfter};
ghost use Rattle.certificate_checker.specs.LongestWitnesses.{AreFrom, AreBefore};
ghost use Rattle.certificate_checker.specs.Verdicts.{Stands};
ghost use Rattle.certificate_checker.specs.Searches.{IsFirstWith, AreInOrder};
ghost use Rattle.certificate_checker.specs.Receives.{KnowsReceives};
ghost use Rattle.certificate_checker.specs.Silences.{AreSilences};
ghost use Rattle.certificate_checker.specs.Closings.{AreClosings};
ghost use Rattle.certificate_checker.specs.LongestSilences.{IsAhead, IsLongestSilence, IsTooShort};

use crate::gaps::longest_gap_at;
use crate::receives::Receives;
use crate::silences::Silence;
use step_trace::{Gap, Miss, ProcSet, Row, Trace};

/// The longest miss of the messages after a number.
#[derive(Clone, Copy, Debug)]
struct LongestMiss {
    after: u64,
    miss: Option<Miss>,
}

/// The length of a miss.
fn span(trace: &Trace, miss: Miss) -> u64
    requires { HasSpan trace.now miss }
    ensures { result ≡ span_of trace.now miss }
{
    trace.tick(miss.missed) - trace.tick(miss.sent)
}

/// The longer of the miss of an earlier message and this one: this one if they are equally long.
fn longer_miss(trace: &Trace, earlier: Option<Miss>, miss: Option<Miss>) -> Option<Miss>
    requires earlier { IfSome earlier (HasSpan trace.now) }
    requires miss { IfSome miss (HasSpan trace.now) }
    ensures { result ≡ longer_miss trace.now earlier miss }
{
    let Some(new) = earlier else {
        return miss;
    };
    let Some(old) = miss else {
        return earlier;
    };
    if span(trace, old) < span(trace, new) {
        earlier
    } else {
        miss
    }
}

/// Goes back over the messages that were sent in tick `from` or later.
fn misses_from(
    trace: &Trace,
    set: ProcSet,
    receives: &Receives,
    from: u64,
    longest: LongestMiss,
) -> LongestMiss
    requires set { IsWithin set trace.now.config.n }
    requires receives { KnowsReceives trace.now (length trace.now.steps) receives.now }
    requires high { longest.after ≤ length trace.now.steps }
    requires known { KnowsMissesAfter set trace.now longest.after longest.miss }
    requires above { AreFrom trace.now longest.after from }
    ensures high { result.after ≤ longest.after }
    ensures known { KnowsMissesAfter set trace.now result.after result.miss }
    ensures above { AreFrom trace.now result.after from }
    ensures below { AreBefore trace.now result.after from }
{
    let mut miss = longest.miss;
    for s in (1..longest.after + 1).rev() {
        if trace.tick(s) < from {
            return LongestMiss { after: s, miss };
        }
        miss = longer_miss(trace, receives.last_miss(trace, set, s), miss);
    }
    LongestMiss { after: 0, miss }
}

/// The first row whose communication bound doesn't hold, with the longest miss from there on.
pub(crate) fn first_failing_delta(
    trace: &Trace,
    set: ProcSet,
    receives: &Receives,
    rows: &[Row],
) -> Option<(u64, Miss)>
    requires set { IsWithin set trace.now.config.n }
    requires receives { KnowsReceives trace.now (length trace.now.steps) receives.now }
    requires order { AreInOrder rows.now trace.now.last }
    ensures { IsFirstWith (λ k m. Stands set trace.now rows.now (DeltaFails k m)) result }
{
    let mut longest = LongestMiss {
        after: trace.len() as u64,
        miss: None,
    };
    let mut found = None;
    for k in (0..rows.len()).rev() {
        longest = misses_from(trace, set, receives, rows[k].gst, longest);
        if let Some(miss) = longest.miss {
            if rows[k].delta <= span(trace, miss) {
                found = Some((k as u64 + 1, miss));
            }
        }
    }
    found
}

/// The ticks of the longest silence from a tick on: a member takes no step from `start` to before `end`. If they
/// are one there is none.
#[derive(Clone, Copy, Debug)]
struct LongestSilence {
    start: u64,
    end: u64,
}

/// Goes back over the ticks from `from` to before `until`.
fn silence_from(closings: &[u32], from: u64, until: u64, longest: LongestSilence) -> LongestSilence
    requires closings { IsAhead closings.now }
    requires order { from ≤ until }
    requires high { until ≤ length closings.now }
    requires known { IsLongestSilence closings.now until longest }
    ensures { IsLongestSilence closings.now from result }
{
    let mut longest = longest;
    for x in (from..until).rev() {
        let end = u64::from(closings[x as usize]);
        if longest.end - longest.start < end - x {
            longest = LongestSilence { start: x, end };
        }
    }
    longest
}

/// The first row whose processor bound is no longer than the longest silence from its stabilization time on.
fn first_too_short(closings: &[u32], rows: &[Row]) -> Option<(u64, LongestSilence)>
    requires closings { IsAhead closings.now }
    requires order { AreInOrder rows.now (length closings.now - 1) }
    ensures { IsFirstWith (IsTooShort closings.now rows.now) result }
{
    let mut until = closings.len() as u64;
    let mut longest = LongestSilence {
        start: until,
        end: until,
    };
    let mut found = None;
    for k in (0..rows.len()).rev() {
        longest = silence_from(closings, rows[k].gst, until, longest);
        until = rows[k].gst;
        let length = longest.end - longest.start;
        if 0 < length && rows[k].phi <= length {
            found = Some((k as u64 + 1, longest));
        }
    }
    found
}

/// The first row whose processor bound doesn't hold, with the longest gap from there on.
pub(crate) fn first_failing_phi(
    trace: &Trace,
    set: ProcSet,
    silences: &[Silence],
    closings: &[u32],
    rows: &[Row],
) -> Option<(u64, Gap)>
    requires set { IsWithin set trace.now.config.n }
    requires silences { AreSilences set trace.now silences.now }
    requires closings { AreClosings set trace.now closings.now }
    requires order { AreInOrder rows.now trace.now.last }
    ensures { IsFirstWith (λ k w. Stands set trace.now rows.now (PhiFails k w)) result }
{
    let (row, longest) = first_too_short(closings, rows)?;
    match longest_gap_at(trace, set, silences, longest.start) {
        Some(gap) => Some((row, gap)),
        None => unreachable!(),
    }
}
