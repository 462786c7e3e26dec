//! Seats and views, compared with a configuration, and with what they must be for a trace.

ghost use Rattle.std.specs.Prelude.{ℕ, ◌≡◌, ◌<◌, ◌↔◌, Option, length, slice_index_or, IsTrue, IfSome, IfNone};
ghost use Rattle.locked_recorder.specs.Seats.{Turns};
ghost use Rattle.locked_recorder.specs.Audits.{AreInOrder, AreTagged, IsExtended, AreExtended, IsFirstWithout};
ghost use Rattle.locked_recorder.specs.Comparisons.{IsWhole, AreWhole};

use crate::seats::Seat;
use crate::views::View;
use step_trace::{Config, Trace};

/// Whether there is one seat for each processor, in order.
pub(crate) fn are_in_order(config: &Config, seats: &[Seat]) -> bool
    ensures { IsTrue result ↔ AreInOrder config.now seats.now }
{
    if seats.len() as u64 != config.n() {
        return false;
    }
    for (i, seat) in seats.iter().enumerate() {
        if seat.proc() != i as u64 + 1 {
            return false;
        }
    }
    true
}

/// Whether they are seats of recorders with this tag.
pub(crate) fn are_tagged(tag: u64, seats: &[Seat]) -> bool
    ensures { IsTrue result ↔ AreTagged tag seats.now }
{
    seats.iter().all(|seat| seat.tag == tag)
}

/// The index of the first seat of which not all agreed.
pub(crate) fn first_differing(seats: &[Seat], agreed: &[Option<usize>]) -> Option<usize>
    requires { length agreed.now ≡ length seats.now }
    ensures none { IfNone result (AreWhole seats.now agreed.now (length seats.now)) }
    ensures within { IfSome result (λ i. i < length seats.now) }
    ensures before { IfSome result (λ i. AreWhole seats.now agreed.now i) }
    ensures differs { IfSome result (λ i. (s : Turns) (m : Option ℕ)
        → ¬ IsWhole (slice_index_or seats.now i s) (slice_index_or agreed.now i m)) }
{
    for (i, seat) in seats.iter().enumerate() {
        if agreed[i] != Some(seat.done().len()) {
            return Some(i);
        }
    }
    None
}

/// The index of the first view that has seen what the trace doesn't extend.
pub(crate) fn first_not_extended(trace: &Trace, views: &[View]) -> Option<u64>
    ensures none { IfNone result (AreExtended trace.now views.now) }
    ensures some { IfSome result (λ k. IsFirstWithout (λ v. IsExtended trace.now v) views.now k) }
{
    for (i, view) in views.iter().enumerate() {
        if !extends(trace, view) {
            return Some(i as u64);
        }
    }
    None
}

/// Whether the trace extends what a view has seen.
fn extends(trace: &Trace, view: &View) -> bool
    ensures { IsTrue result ↔ IsExtended trace.now view.now }
{
    match view.seen() {
        Some(seen) => trace.begins(seen),
        None => true,
    }
}
