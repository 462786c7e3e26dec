//! Reasons that rows give by themselves. Rows count from 1.

ghost use Rattle.std.specs.Prelude.{◌≡◌, ◌<◌, ◌≤◌, ◌⊎◌};
ghost use Rattle.certificate_checker.specs.Verdicts.{HasRow, HasTwoRows};
ghost use Rattle.certificate_checker.specs.Searches.{IsFirst};

use step_trace::Row;

/// The first row whose stabilization time isn't above that of the row before.
pub(crate) fn first_not_rising(rows: &[Row]) -> Option<u64>
    ensures { IsFirst (λ k. (a : HasTwoRows rows.now k) × (a.row.gst ≤ a.before.gst)) result }
{
    for k in 1..rows.len() {
        if rows[k].gst <= rows[k - 1].gst {
            return Some(k as u64 + 1);
        }
    }
    None
}

/// The first row whose stabilization time is above the last tick.
pub(crate) fn first_beyond(rows: &[Row], last: u64) -> Option<u64>
    ensures { IsFirst (λ k. (a : HasRow rows.now k) × (last < a.row.gst)) result }
{
    for k in 0..rows.len() {
        if last < rows[k].gst {
            return Some(k as u64 + 1);
        }
    }
    None
}

/// The first row of which a bound is above that of the row before.
pub(crate) fn first_above(rows: &[Row]) -> Option<u64>
    ensures { IsFirst (λ k. (a : HasTwoRows rows.now k)
        × ((a.before.delta < a.row.delta) ⊎ (a.before.phi < a.row.phi))) result }
{
    for k in 1..rows.len() {
        if rows[k - 1].delta < rows[k].delta || rows[k - 1].phi < rows[k].phi {
            return Some(k as u64 + 1);
        }
    }
    None
}

/// The first row of which both bounds are those of the row before.
pub(crate) fn first_repeated(rows: &[Row]) -> Option<u64>
    ensures { IsFirst (λ k. (a : HasTwoRows rows.now k)
        × ((a.row.delta ≡ a.before.delta) × (a.row.phi ≡ a.before.phi))) result }
{
    for k in 1..rows.len() {
        if rows[k].delta == rows[k - 1].delta && rows[k].phi == rows[k - 1].phi {
            return Some(k as u64 + 1);
        }
    }
    None
}
