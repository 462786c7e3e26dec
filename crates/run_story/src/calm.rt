//! The row in which a run is calm.

ghost use Rattle.std.specs.Prelude.{◌≡◌, ◌↔◌, ◌+◌, ◌*◌, ◌≤◌, ◌^◌, [], All, IsTrue, MatchOption};
ghost use Rattle.step_trace.specs.declared.traces.TheConstants.{MAX_TICKS};
ghost use Rattle.step_trace.specs.Fronts.{IsReport};
ghost use Rattle.run_story.specs.CalmRows.{FitsIn, IsCalmer, IsCalmRow, is_poor, rest};

use step_trace::{MAX_TICKS, ProcSet, Row, Trace};

/// For how often the greater bound the rest of a run has room, if it isn't poor.
const ROOMS: u128 = 3;

/// The place of the calm row of a report, from 0: the row with the greatest (L - gst + 1)² / (Δ · Φ), where L is the
/// last tick. The first of several. None if there is no row.
pub fn calm_row(trace: &Trace, set: ProcSet, rows: &[Row]) -> Option<usize>
    requires { IsReport set trace.now rows.now }
    ensures { MatchOption result (rows.now ≡ []) (IsCalmRow trace.now.last rows.now) }
{
    calmest(rows, trace.last_tick())
}

/// The place of the calmest of these rows, and of several the first.
fn calmest(rows: &[Row], last: u64) -> Option<usize>
    requires last { last ≤ MAX_TICKS }
    requires rows { All (FitsIn last) rows.now }
    ensures { MatchOption result (rows.now ≡ []) (IsCalmRow last rows.now) }
{
    if rows.len() == 0 {
        return None;
    }
    let mut calm = 0;
    for k in 1..rows.len() {
        if is_calmer(&rows[k], &rows[calm], last) {
            calm = k;
        }
    }
    Some(calm)
}

/// Whether the rest of a run, from the tick of a row to the last one, has room for less than three times the greater
/// bound.
pub fn is_poor(row: &Row, last: u64) -> bool
    ensures { result ≡ is_poor last row.now }
{
    u128::from(rest(row, last)) < ROOMS * u128::from(row.delta.max(row.phi))
}

/// Whether the rest from a row on has more room for its bounds than that from another row on.
fn is_calmer(row: &Row, than: &Row, last: u64) -> bool
    requires last { last ≤ MAX_TICKS }
    requires row { FitsIn last row.now }
    requires than { FitsIn last than.now }
    ensures { IsTrue result ↔ IsCalmer last row.now than.now }
{
    let (rest, other) = (rest(row, last), rest(than, last));
    let less = scaled(product(other, other), product(row.delta, row.phi));
    let more = scaled(product(rest, rest), product(than.delta, than.phi));
    less < more
}

/// How many ticks there are from the row's to the last.
fn rest(row: &Row, last: u64) -> u64
    ensures value { result ≡ rest last row.now }
    ensures limit { result ≤ last }
{
    last.saturating_sub(row.gst.saturating_sub(1))
}

fn product(a: u64, b: u64) -> u128
    requires a { a ≤ MAX_TICKS + 1 }
    requires b { b ≤ MAX_TICKS + 1 }
    ensures value { result ≡ a * b }
    ensures limit { result ≤ 2 ^ 40 }
{
    u128::from(a) * u128::from(b)
}

fn scaled(a: u128, b: u128) -> u128
    requires a { a ≤ 2 ^ 40 }
    requires b { b ≤ 2 ^ 40 }
    ensures { result ≡ a * b }
{
    a * b
}
