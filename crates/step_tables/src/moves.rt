//! How far the events of a table were moved to later ticks.

ghost use Rattle.std.specs.Prelude.{◌≡◌, ◌≤◌, count_by};
ghost use Rattle.step_tables.specs.Moves.{ahead_of, farthest_of, is_moved, is_timed, moved_by, moves_of};

use crate::tables::StepRow;

/// How many events of a table have times, how many of them were moved to later ticks, and by how many ticks at most.
#[derive(Clone, Copy, Debug, PartialEq, Eq)]
pub struct Moves {
    pub events: u64,
    pub moved: u64,
    pub farthest: u64,
}

/// How far the events of a table were moved, by the time from each to the beginning of its tick, in ticks of this
/// length, rounded up.
///
/// Time grows with the rows.
pub fn count_moves(rows: &[StepRow], width: u64) -> Moves
    requires { 1 ≤ width }
    ensures { result ≡ moves_of width rows.now }
{
    Moves {
        events: timed_in(rows) as u64,
        moved: moved_in(rows) as u64,
        farthest: farthest_of(rows, width),
    }
}

/// How many events have times.
fn timed_in(rows: &[StepRow]) -> usize
    ensures { result ≡ count_by is_timed rows.now }
{
    let mut count = 0;
    for row in rows {
        if row.time().is_some() {
            count += 1;
        }
    }
    count
}

/// How many were moved.
fn moved_in(rows: &[StepRow]) -> usize
    ensures { result ≡ count_by is_moved rows.now }
{
    let mut count = 0;
    for row in rows {
        if ahead_of(row) > 0 {
            count += 1;
        }
    }
    count
}

/// By how many ticks an event was moved at most.
fn farthest_of(rows: &[StepRow], width: u64) -> u64
    requires { 1 ≤ width }
    ensures { result ≡ farthest_of width rows.now }
{
    let mut most = 0;
    for row in rows {
        most = most.max(moved_by(row, width));
    }
    most
}

/// By how many ticks an event was moved.
fn moved_by(row: &StepRow, width: u64) -> u64
    requires { 1 ≤ width }
    ensures { result ≡ moved_by width row.now }
{
    ahead_of(row).div_ceil(width)
}

/// How long before its tick begins an event was; 0 if it wasn't, or the table doesn't say it.
fn ahead_of(row: &StepRow) -> u64
    ensures { result ≡ ahead_of row.now }
{
    let Some(time) = row.time() else {
        return 0;
    };
    let Some(begin) = row.begins() else {
        return 0;
    };
    begin.saturating_sub(time)
}
