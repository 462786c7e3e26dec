//! The rows of a report whose witnesses or corners are drawn.

ghost use Rattle.std.specs.Prelude.{◌≡◌, ◌<◌, ◌^◌};
ghost use Rattle.step_trace.specs.ReportRows.{row_at};
ghost use Rattle.picture_marks.specs.Rows.{miss_at, gap_at, same_miss, share_end};
ghost use Rattle.picture_marks.specs.Rows.{column, column_in, share_column};
ghost use Rattle.picture_marks.specs.Pictures.{shown_miss, shown_gap, shows_gap, shows_miss, corner};

use crate::messages::processor_at;
use crate::windows::Window;
use step_trace::{Gap, Miss, ProcSet, Row, Trace};

/// How many columns of pixels the picture of all ticks has.
pub const COLUMNS: u64 = 1_000;

/// Row `k`, if it has a miss that is shown and the row before has another or none.
pub(crate) fn shown_miss(
    trace: &Trace,
    window: Window,
    lanes: ProcSet,
    rows: &[Row],
    k: u64,
) -> Option<Row>
    ensures { result ≡ shown_miss trace.now window lanes rows.now k }
{
    let Some(miss) = miss_at(rows, k) else {
        return None;
    };
    if !shows_miss(trace, window, lanes, miss) {
        return None;
    }
    if same_miss(miss_at(rows, k.saturating_sub(1)), Some(miss)) {
        return None;
    }
    row_at(rows, k)
}

/// Whether a miss touches the window and goes from a lane to a lane.
fn shows_miss(trace: &Trace, window: Window, lanes: ProcSet, miss: Miss) -> bool
    ensures { result ≡ shows_miss trace.now window lanes miss }
{
    window.touches(trace.tick_at(miss.sent), trace.tick_at(miss.missed))
        && (lanes.contains(processor_at(trace, miss.sent))
            && lanes.contains(processor_at(trace, miss.missed)))
}

/// Row `k`, if it has a gap that is shown, and that of the row before isn't of the same processor with the same end.
pub(crate) fn shown_gap(window: Window, lanes: ProcSet, rows: &[Row], k: u64) -> Option<Row>
    ensures { result ≡ shown_gap window lanes rows.now k }
{
    let Some(gap) = gap_at(rows, k) else {
        return None;
    };
    if !shows_gap(window, lanes, gap) {
        return None;
    }
    if share_end(gap_at(rows, k.saturating_sub(1)), Some(gap)) {
        return None;
    }
    row_at(rows, k)
}

/// Whether a gap touches the window and its processor has a lane.
fn shows_gap(window: Window, lanes: ProcSet, gap: Gap) -> bool
    ensures { result ≡ shows_gap window lanes gap }
{
    window.touches(gap.from, gap.to) && lanes.contains(gap.proc)
}

/// Row `k`, unless the rows before and after it begin in its column.
pub(crate) fn corner(last: u64, rows: &[Row], k: u64) -> Option<Row>
    requires { k < 2 ^ 63 }
    ensures { result ≡ corner last rows.now k }
{
    let row = row_at(rows, k);
    if share_column(last, row_at(rows, k.saturating_sub(1)), row)
        && share_column(last, row, row_at(rows, k + 1))
    {
        return None;
    }
    row
}

fn row_at(rows: &[Row], k: u64) -> Option<Row>
    ensures { result ≡ row_at rows.now k }
{
    if k == 0 {
        return None;
    }
    rows.get(k as usize - 1).copied()
}

fn miss_at(rows: &[Row], k: u64) -> Option<Miss>
    ensures { result ≡ miss_at rows.now k }
{
    match row_at(rows, k) {
        Some(row) => row.miss,
        None => None,
    }
}

fn gap_at(rows: &[Row], k: u64) -> Option<Gap>
    ensures { result ≡ gap_at rows.now k }
{
    match row_at(rows, k) {
        Some(row) => row.gap,
        None => None,
    }
}

fn same_miss(a: Option<Miss>, b: Option<Miss>) -> bool
    ensures { result ≡ same_miss a b }
{
    match (a, b) {
        (Some(a), Some(b)) => a.sent == b.sent && a.missed == b.missed,
        _ => false,
    }
}

fn share_end(a: Option<Gap>, b: Option<Gap>) -> bool
    ensures { result ≡ share_end a b }
{
    match (a, b) {
        (Some(a), Some(b)) => a.proc == b.proc && a.to == b.to,
        _ => false,
    }
}

/// The column in which a tick begins, of so many columns.
pub(crate) fn column_in(columns: u64, last: u64, g: u64) -> u128
    ensures { result ≡ column_in columns last g }
{
    u128::from(g.saturating_sub(1)) * u128::from(columns) / u128::from(last.max(1))
}

/// The column of pixels in which a tick begins.
fn column(last: u64, g: u64) -> u128
    ensures { result ≡ column last g }
{
    column_in(COLUMNS, last, g)
}

fn share_column(last: u64, a: Option<Row>, b: Option<Row>) -> bool
    ensures { result ≡ share_column last a b }
{
    match (a, b) {
        (Some(a), Some(b)) => column(last, a.gst) == column(last, b.gst),
        _ => false,
    }
}
