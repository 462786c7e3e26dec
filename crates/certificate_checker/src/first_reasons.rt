//! The first reason against rows, by the parts of the list of reasons.

ghost use Rattle.std.specs.Prelude.{◌≡◌, ℕ, length};
ghost use Rattle.step_trace.specs.Traces.{Recorded};
ghost use Rattle.step_trace.specs.Processors.{IsWithin};
ghost use Rattle.certificate_checker.specs.Searches.{IsFirstReason, AreInOrder};
ghost use Rattle.certificate_checker.specs.Receives.{KnowsReceives};
ghost use Rattle.certificate_checker.specs.Silences.{AreSilences};
ghost use Rattle.certificate_checker.specs.Closings.{AreClosings};

use crate::bounds::{first_failing_delta, first_failing_phi};
use crate::receives::Receives;
use crate::row_order::{first_above, first_beyond, first_not_rising, first_repeated};
use crate::silences::Silence;
use crate::verdicts::Reason;
use crate::witnesses::{first_bad_gap, first_bad_miss};
use step_trace::{ProcSet, Row, Trace};

/// The first of the reasons that need no look at the steps: `NoRows` to `SameAsBefore`. Takes no memory.
pub(crate) fn order_reason(rows: &[Row], last: u64) -> Option<Reason>
    ensures { (set : ℕ) (trace : Recorded) → trace.last ≡ last
        → IsFirstReason set trace rows.now 1 6 result }
{
    if rows.len() == 0 {
        return if last > 0 { Some(Reason::NoRows) } else { None };
    }
    if rows[0].gst != 1 {
        return Some(Reason::FirstNotOne);
    }
    if let Some(row) = first_not_rising(rows) {
        return Some(Reason::NotRising(row));
    }
    if let Some(row) = first_beyond(rows, last) {
        return Some(Reason::BeyondEnd(row));
    }
    if let Some(row) = first_above(rows) {
        return Some(Reason::NotNonIncreasing(row));
    }
    if let Some(row) = first_repeated(rows) {
        return Some(Reason::SameAsBefore(row));
    }
    None
}

/// The first of the reasons against witnesses and bounds: `BadMiss` to `PhiFails`.
pub(crate) fn step_reason(
    trace: &Trace,
    set: ProcSet,
    receives: &Receives,
    silences: &[Silence],
    closings: &[u32],
    rows: &[Row],
) -> Option<Reason>
    requires set { IsWithin set trace.now.config.n }
    requires receives { KnowsReceives trace.now (length trace.now.steps) receives.now }
    requires silences { AreSilences set trace.now silences.now }
    requires closings { AreClosings set trace.now closings.now }
    requires order { AreInOrder rows.now trace.now.last }
    ensures { IsFirstReason set trace.now rows.now 7 10 result }
{
    if let Some(row) = first_bad_miss(trace, set, receives, rows) {
        return Some(Reason::BadMiss(row));
    }
    if let Some(row) = first_bad_gap(trace, set, silences, rows) {
        return Some(Reason::BadGap(row));
    }
    if let Some((row, miss)) = first_failing_delta(trace, set, receives, rows) {
        return Some(Reason::DeltaFails(row, miss));
    }
    if let Some((row, gap)) = first_failing_phi(trace, set, silences, closings, rows) {
        return Some(Reason::PhiFails(row, gap));
    }
    None
}
