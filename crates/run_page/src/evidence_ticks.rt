//! The ticks that show evidence.

ghost use Rattle.std.specs.Prelude.{◌≡◌, ℕ, IfOk, IfSome};
ghost use Rattle.step_trace.specs.Fronts.{IsReport};
ghost use Rattle.picture_marks.specs.Messages.{taker_in};
ghost use Rattle.run_page.specs.EvidenceTicks.{IsEvidenceWindow, IsWindowOf, around_gap, around_miss, both};
ghost use Rattle.run_page.specs.EvidenceTicks.{core_of, drawn_first, drawn_of, margin, miss_end, padded};
ghost use Rattle.run_page.specs.EvidenceTicks.{taker_of, widened};

use crate::scales::Span;
use picture_marks::takers::{taker_in, takers};
use picture_marks::{MAX_WINDOW, Window};
use run_story::{Delay, Evidence, Stall, evidence_of};
use std::alloc::{AllocError, Global};
use step_trace::{Row, Trace};

/// A Receive that takes a late message is near to its miss if it comes fewer ticks after it than the miss is long, or
/// than this.
const NEAR: u64 = 20;

/// What part of its own length is added to a stretch at both ends, and how many ticks at least.
const MARGINS: u64 = 7;

const LEAST_MARGIN: u64 = 4;

/// The ticks in which a picture shows the first evidence of a report of the trace: at most `MAX_WINDOW`, the first ones
/// of evidence that has more; none if there is no evidence. They are ticks of the trace.
///
/// Time grows with the trace and the rows, apart from the sorting of the evidence. Fails only if out of memory.
pub fn evidence_window(
    alloc: Global,
    trace: &Trace,
    rows: &[Row],
) -> Result<Option<Window>, AllocError>
    ensures window { IfOk result (IsEvidenceWindow trace.now rows.now) }
    ensures inside { IfOk result (λ w. (set : ℕ) → IsReport set trace.now rows.now
        → IfSome w (IsWindowOf trace.now.last)) }
{
    let evidence = evidence_of(alloc, trace, rows)?;
    let Some(first) = evidence.get(0) else {
        return Ok(None);
    };
    let takers = takers(alloc, trace)?;
    let core = core_of(trace, first, taker_of(&takers, first));
    Ok(Some(drawn_of(core, trace.last_tick())))
}

/// The ticks that are drawn of these. No more are added than leave room for the beginning of long evidence.
fn drawn_of(span: Span, last: u64) -> Window
    ensures { result ≡ drawn_of last span }
{
    let more = margin(span).min(MAX_WINDOW / MARGINS);
    drawn_first(widened(span, more, last))
}

/// The first of these ticks, as many as may be drawn.
fn drawn_first(span: Span) -> Window
    ensures { result ≡ drawn_first span }
{
    Window {
        first: span.first,
        to: span.to.min(span.first.saturating_add(MAX_WINDOW - 1)),
    }
}

/// The Receive that takes the late message of evidence, if it has one that is taken.
pub(crate) fn taker_of(takers: &[Option<u64>], evidence: &Evidence) -> Option<u64>
    ensures { result ≡ taker_of (taker_in takers.now) evidence.now.delay }
{
    match evidence.delay {
        Some(delay) => taker_in(takers, delay.miss.sent),
        None => None,
    }
}

/// The ticks of evidence: of its gap, with the steps at both ends; or of its miss, with the Receive that takes the
/// message if that is near. `taken` is that Receive, if there is one.
pub(crate) fn core_of(trace: &Trace, evidence: &Evidence, taken: Option<u64>) -> Span
    ensures { result ≡ core_of trace.now evidence.now.stall evidence.now.delay taken }
{
    match (evidence.stall, evidence.delay) {
        (Some(stall), Some(delay)) => both(
            around_gap(trace, stall),
            around_miss(trace, delay, taken),
        ),
        (Some(stall), None) => around_gap(trace, stall),
        (None, Some(delay)) => around_miss(trace, delay, taken),
        (None, None) => Span { first: 1, to: 1 },
    }
}

/// The ticks of both.
fn both(one: Span, other: Span) -> Span
    ensures { result ≡ both one other }
{
    Span {
        first: one.first.min(other.first),
        to: one.to.max(other.to),
    }
}

/// From the tick before a gap to the tick after it.
fn around_gap(trace: &Trace, stall: Stall) -> Span
    ensures { result ≡ around_gap trace.now.last stall }
{
    Span {
        first: stall.gap.from.saturating_sub(1),
        to: stall.gap.to.min(trace.last_tick()) + 1,
    }
}

/// From the Send of a late message to the Receive that takes it, if that is near, and else to the one that misses it.
fn around_miss(trace: &Trace, delay: Delay, taken: Option<u64>) -> Span
    ensures { result ≡ around_miss trace.now delay taken }
{
    Span {
        first: trace.tick_at(delay.miss.sent),
        to: miss_end(trace, delay, taken),
    }
}

fn miss_end(trace: &Trace, delay: Delay, taken: Option<u64>) -> u64
    ensures { result ≡ miss_end trace.now delay taken }
{
    let missed = trace.tick_at(delay.miss.missed);
    let Some(taken) = taken else {
        return missed;
    };
    let tick = trace.tick_at(taken);
    if tick.saturating_sub(missed) < delay.ticks.max(NEAR) {
        tick.max(missed)
    } else {
        missed
    }
}

/// How many ticks are added to these at both ends.
fn margin(span: Span) -> u64
    ensures { result ≡ margin span }
{
    (span.to.saturating_sub(span.first) / MARGINS).max(LEAST_MARGIN)
}

/// These ticks with a seventh more at both ends, as far as the trace goes.
pub(crate) fn padded(span: Span, last: u64) -> Span
    ensures { result ≡ padded last span }
{
    widened(span, margin(span), last)
}

/// These ticks with so many more at both ends, as far as the trace goes.
fn widened(span: Span, more: u64, last: u64) -> Span
    ensures { result ≡ widened more last span }
{
    Span {
        first: span.first.saturating_sub(more).max(1),
        to: span.to.saturating_add(more).min(last),
    }
}
