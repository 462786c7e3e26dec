//! In which columns of ticks each processor makes steps.

ghost use Rattle.std.specs.Prelude.{◌≡◌, ◌≢◌, ◌<◌, ◌≤◌, ◌==◌, ◌&&◌, ℕ, IfNone, IfOk, IfSome, OnErr};
ghost use Rattle.std.specs.Prelude.{false, true, if◌then◌else◌, length, slice_index_or};
ghost use Rattle.step_trace.specs.declared.processors.TheConstants.{MAX_MEMBER};
ghost use Rattle.picture_marks.specs.declared.report_rows.TheConstants.{COLUMNS};
ghost use Rattle.picture_marks.specs.declared.strokes.TheConstants.{PLACES};
ghost use Rattle.picture_marks.specs.Strokes.{IsNextStroke, ShowsSteps, busy_at, columns_for, has_stroke, steps_to};

use crate::messages::processor_at;
use crate::report_rows::{COLUMNS, column_in};
use std::alloc::{AllocError, Global};
use step_trace::{MAX_MEMBER, Trace};

/// `COLUMNS` places for each number of a processor, from 0 to `MAX_MEMBER`.
const PLACES: usize = 65_000;

/// The columns in which each processor makes a step.
#[derive(Debug, Drop)]
pub struct Strokes {
    /// How many columns all ticks have.
    pub columns: u64,
    // For each processor and each column whether there is a step; nothing if nobody makes one.
    busy: Vec<bool>,
}

/// The columns from `first` to the one before `end`.
#[derive(Clone, Copy, Debug, PartialEq, Eq)]
pub struct Stroke {
    pub first: u64,
    pub end: u64,
}

/// The columns of a trace's steps, of so many columns for all of its ticks, in time that grows with the trace. Of more
/// than `COLUMNS` columns only the first `COLUMNS` show steps.
///
/// Fails only if out of memory, and only if there is a step.
pub fn strokes_of(alloc: Global, trace: &Trace, columns: u64) -> Result<Strokes, AllocError>
    ensures columns { IfOk result (λ s. s.columns ≡ columns) }
    ensures exact { IfOk result (ShowsSteps trace.now) }
    ensures more { OnErr result (0 < length trace.now.steps) }
{
    let busy = busy_columns(alloc, trace, columns)?;
    Ok(Strokes { columns, busy })
}

/// How many columns a picture of so many ticks has: one for each tick, up to `COLUMNS`.
pub(crate) fn columns_for(last: u64) -> u64
    ensures { result ≡ columns_for last }
{
    last.clamp(1, COLUMNS)
}

fn busy_columns(alloc: Global, trace: &Trace, columns: u64) -> Result<Vec<bool>, AllocError>
    ensures marked { IfOk result (λ busy. (p c : ℕ) → p ≤ MAX_MEMBER → c < COLUMNS
        → busy_at busy.items p c ≡ steps_to trace.now columns p c (length trace.now.steps)) }
    ensures more { OnErr result (0 < length trace.now.steps) }
{
    if trace.len() == 0 {
        return Ok(Vec::new(alloc));
    }
    let mut busy = blank(alloc, PLACES)?;
    for i in 0..trace.len() {
        let no = i as u64 + 1;
        let column = column_in(columns, trace.last_tick(), trace.tick_at(no));
        note(&mut busy, processor_at(trace, no), column);
    }
    Ok(busy)
}

/// So many places, and no step in any of them.
fn blank(alloc: Global, count: usize) -> Result<Vec<bool>, AllocError>
    ensures len { IfOk result (λ busy. length busy.items ≡ count) }
    ensures none { IfOk result (λ busy. (k : ℕ) → slice_index_or busy.items k false ≡ false) }
{
    vec![in alloc; false; count]
}

/// Notes that a processor makes a step in a column, if there is a place for both.
fn note(busy: &mut [bool], processor: u64, column: u128)
    requires { length busy.old ≡ PLACES }
    ensures len { length busy.new ≡ PLACES }
    ensures each { (p c : ℕ) → p ≤ MAX_MEMBER → c < COLUMNS
        → busy_at busy.new p c
        ≡ (if processor == p && column == c then true else busy_at busy.old p c) }
{
    if processor <= MAX_MEMBER && column < u128::from(COLUMNS) {
        busy[(processor * COLUMNS + column as u64) as usize] = true;
    }
}

impl Strokes {
    /// Whether a processor makes a step in this column.
    pub fn has(&self, processor: u64, column: u64) -> bool
        ensures { result ≡ has_stroke self.now processor column }
    {
        if processor > MAX_MEMBER || column >= COLUMNS {
            return false;
        }
        match self.busy.get((processor * COLUMNS + column) as usize) {
            Some(is) => *is,
            None => false,
        }
    }

    /// The first stroke of a processor that begins in this column or later.
    pub fn stroke_from(&self, processor: u64, from: u64) -> Option<Stroke>
        ensures some { IfSome result (IsNextStroke self.now processor from) }
        ensures none { IfNone result ((c : ℕ) → from ≤ c
            → has_stroke self.now processor c ≡ false) }
    {
        let first = self.first_with(processor, from, true);
        if first >= COLUMNS {
            return None;
        }
        let end = self.first_with(processor, first, false);
        Some(Stroke { first, end })
    }

    /// The first column from this one on in which a processor makes a step, or in which it makes none; COLUMNS if there
    /// is no such column.
    fn first_with(&self, processor: u64, from: u64, is_busy: bool) -> u64
        ensures high { result ≤ COLUMNS }
        ensures low { result < COLUMNS → from ≤ result }
        ensures here { result < COLUMNS → has_stroke self.now processor result ≡ is_busy }
        ensures before { (c : ℕ) → from ≤ c → c < result
            → has_stroke self.now processor c ≢ is_busy }
    {
        for column in from..COLUMNS {
            if self.has(processor, column) == is_busy {
                return column;
            }
        }
        COLUMNS
    }
}
