//! Silences as runs of rows that name them.

ghost use Rattle.std.specs.Prelude.{◌≡◌, ◌↔◌, ◌+◌, ◌<◌, ℕ, Contains, IfOk};
ghost use Rattle.std.specs.Prelude.{IsTrue, MatchOption, None, OnErr, length};
ghost use Rattle.step_trace.specs.Fronts.{IsReport};
ghost use Rattle.step_trace.specs.Ticks.{IsTimed};
ghost use Rattle.step_trace.specs.Traces.{Recorded};
ghost use Rattle.run_story.specs.Stalls.{AreStalls, IsStall, IsWholeSilence, NamesSilence, gap_at};

use std::alloc::{AllocError, Global};
use step_trace::{Gap, Row};

/// A silence and the rows that name it, from place `first` to place `last`, which count from 0: their gaps are of one
/// processor and end in one tick. `gap` is that of the first row.
#[derive(Clone, Copy, Debug, PartialEq, Eq)]
pub struct Stall {
    pub gap: Gap,
    pub first: usize,
    pub last: usize,
}

/// The stalls of rows, in their order: each row with a gap is in one. In a report the gap of each is a whole silence.
///
/// Time grows with the rows. Fails only if out of memory, and only if there is a row.
pub fn stalls_of(alloc: Global, rows: &[Row]) -> Result<Vec<Stall>, AllocError>
    ensures stalls { IfOk result (λ stalls. AreStalls rows.now stalls.items) }
    ensures whole { IfOk result (λ stalls. (set : ℕ) (trace : Recorded) → IsTimed trace
        → IsReport set trace rows.now → (s : Stall) → Contains stalls.items s
        → IsWholeSilence trace s.gap) }
    ensures more { OnErr result (0 < length rows.now) }
{
    let mut stalls = Vec::new(alloc);
    let mut next = 0;
    while next < rows.len() {
        match stall_from(rows, next) {
            Some(stall) => {
                stalls.push(stall)?;
                next = stall.last + 1;
            }
            None => next += 1,
        }
    }
    Ok(stalls)
}

/// The stall whose first row is at this place, if that has a gap.
fn stall_from(rows: &[Row], first: usize) -> Option<Stall>
    ensures stall { MatchOption result (gap_at rows.now first ≡ None) (IsStall rows.now) }
    ensures first { MatchOption result (gap_at rows.now first ≡ None) (λ s. s.first ≡ first) }
{
    let gap = gap_at(rows, first)?;
    let mut last = first;
    while names_silence(rows, gap, last + 1) {
        last += 1;
    }
    Some(Stall { gap, first, last })
}

/// Whether the row at this place has a gap of the same processor as this one, with the same end.
fn names_silence(rows: &[Row], gap: Gap, place: usize) -> bool
    ensures { IsTrue result ↔ NamesSilence rows.now gap place }
{
    match gap_at(rows, place) {
        Some(other) => other.proc == gap.proc && other.to == gap.to,
        None => false,
    }
}

/// The gap of the row at this place.
fn gap_at(rows: &[Row], place: usize) -> Option<Gap>
    ensures { result ≡ gap_at rows.now place }
{
    rows.get(place)?.gap
}
