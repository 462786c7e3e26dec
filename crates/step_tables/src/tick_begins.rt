//! When the ticks of a trace begin, by a table of its steps.

ghost use Rattle.std.specs.Prelude.{◌≡◌, ◌≤◌, ◌<◌, ◌+◌, ◌-◌, ◌*◌, IfSome, None, Some, length, true, false};
ghost use Rattle.step_tables.specs.TickBegins.{AreAt, AreTickTimes, AreUntimed, begin_at, is_at_time, ticks_before};

use crate::tables::StepRow;
use step_trace::Trace;

/// When ticks begin, in what the times of a table are counted in: tick t at `first` + (t - 1) `width`.
#[derive(Clone, Copy, Debug)]
pub struct TickTimes {
    /// When tick 1 begins.
    pub first: u64,
    /// The length of a tick, at least 1.
    pub width: u64,
}

/// When the ticks of a trace begin, if that is what a table says about its steps. None if the first step and the last
/// one are in the same tick, which leaves the length of a tick open; and if some step is said to begin at no time, or
/// at another one.
///
/// Time grows with the steps.
pub fn tick_times(trace: &Trace, rows: &[StepRow]) -> Option<TickTimes>
    ensures known { IfSome result (AreTickTimes trace.now rows.now) }
    ensures told { IfSome result (λ _. ticks_before trace.now 1
        < ticks_before trace.now (length rows.now)) }
    ensures unknown { result ≡ None → AreUntimed trace.now rows.now }
{
    let times = times_of_ends(trace, rows)?;
    if are_at(trace, rows, times) {
        Some(times)
    } else {
        None
    }
}

/// The times by which the ticks of the first and the last row begin.
fn times_of_ends(trace: &Trace, rows: &[StepRow]) -> Option<TickTimes>
    ensures positive { IfSome result (λ t. 1 ≤ t.width) }
    ensures told { IfSome result (λ _. ticks_before trace.now 1
        < ticks_before trace.now (length rows.now)) }
    ensures only { (t : TickTimes) → 1 ≤ t.width → AreAt trace.now t rows.now
        → ticks_before trace.now 1 < ticks_before trace.now (length rows.now) → result ≡ Some t }
{
    let count = rows.len();
    let begin = begin_at(rows, 0)?;
    let end = begin_at(rows, count.saturating_sub(1))?;
    let before = ticks_before(trace, 1);
    times_between(before, begin, ticks_before(trace, count as u64), end)
}

/// The times by which a tick with so many before it begins at one time, and a later one at another time.
fn times_between(before: u64, begin: u64, later: u64, end: u64) -> Option<TickTimes>
    ensures positive { IfSome result (λ t. 1 ≤ t.width) }
    ensures told { IfSome result (λ _. before < later) }
    ensures only { (t : TickTimes) → 1 ≤ t.width → begin ≡ t.first + before * t.width
        → end ≡ t.first + later * t.width → before < later → result ≡ Some t }
{
    if later <= before {
        return None;
    }
    if end <= begin {
        return None;
    }
    let width = (end - begin) / (later - before);
    let passed = before.saturating_mul(width);
    if width == 0 {
        return None;
    }
    if begin < passed {
        return None;
    }
    let first = begin - passed;
    Some(TickTimes { first, width })
}

/// How many ticks come before that of the step of this number; 0 if there is no such step.
fn ticks_before(trace: &Trace, no: u64) -> u64
    ensures { result ≡ ticks_before trace.now no }
{
    // Its contract says that each step has a tick, and no other number.
    let _ = trace.last_tick();
    if no == 0 || no > trace.len() as u64 {
        return 0;
    }
    trace.tick(no).saturating_sub(1)
}

/// When the tick of the step at a place is said to begin.
fn begin_at(rows: &[StepRow], place: usize) -> Option<u64>
    ensures { result ≡ begin_at rows.now place }
{
    match rows.get(place) {
        Some(row) => row.begins(),
        None => None,
    }
}

/// Whether each step is said to begin at these times.
fn are_at(trace: &Trace, rows: &[StepRow], times: TickTimes) -> bool
    ensures fit { result ≡ true → AreAt trace.now times rows.now }
    ensures unfit { result ≡ false → AreAt trace.now times rows.now → ⊥ }
{
    for place in 0..rows.len() {
        if !is_at(trace, rows, times, place) {
            return false;
        }
    }
    true
}

/// Whether the step at a place is said to begin at these times.
fn is_at(trace: &Trace, rows: &[StepRow], times: TickTimes, place: usize) -> bool
    ensures { result ≡ is_at_time trace.now times rows.now place }
{
    let Some(begin) = begin_at(rows, place) else {
        return false;
    };
    let later = u128::from(ticks_before(trace, place as u64 + 1)) * u128::from(times.width);
    u128::from(begin) == u128::from(times.first) + later
}
