//! Reports of a run's prefixes.

ghost use Rattle.std.specs.Prelude.{◌≡◌, ◌≤◌, ◌<◌, ◌+◌, length, map, IfOk};
ghost use Rattle.step_trace.specs.Ticks.{IsTrace};
ghost use Rattle.step_trace.specs.Traces.{Recorded};
ghost use Rattle.step_trace.specs.Cuts.{IsCutAt};
ghost use Rattle.step_trace.specs.Fronts.{IsReport};
ghost use Rattle.step_trace.specs.declared.traces.TheConstants.{MAX_TICKS};
ghost use Rattle.suffix_staircase.specs.Levels.{rows_of};
ghost use Rattle.judged_runs.specs.LaterRows.{AreRowsAfter, later_by};

use chunk_join::PrefixAnalyst;
use front::{Report, front};
use std::alloc::{AllocError, Global};
use step_trace::Row;
use suffix_staircase::Stairs;

/// The report of the prefix that ends in this tick.
///
/// Takes time that grows with the steps since the prefix before, the rows, and what is under way. Fails only if out of
/// memory.
pub(crate) fn report_until(
    alloc: Global,
    analyst: &mut PrefixAnalyst<'_>,
    tick: u64,
) -> Result<Report, AllocError>
    requires { tick ≤ analyst.old.seen.last }
    ensures report { IfOk result (λ report. (cut : Recorded) → IsTrace cut
        → IsCutAt analyst.old.seen tick cut → IsReport analyst.old.set cut report.rows) }
    ensures same { analyst.new ≡ analyst.old }
    ensures sound { IsTrace analyst.old.seen }
{
    let stairs = analyst.stairs_until(alloc, 1, tick)?;
    front(alloc, &stairs)
}

/// The rows of the prefix that ends in this tick, from the tick after `after` on: the least bounds of each stretch of
/// these ticks.
///
/// Takes time that grows with the steps since the prefix before, these ticks, and what is under way. Fails only if out
/// of memory.
pub(crate) fn rows_after(
    alloc: Global,
    analyst: &mut PrefixAnalyst<'_>,
    after: u64,
    tick: u64,
) -> Result<Vec<Row>, AllocError>
    requires order { after < tick }
    requires inside { tick ≤ analyst.old.seen.last }
    ensures rows { IfOk result (λ rows. (cut : Recorded) → IsTrace cut
        → IsCutAt analyst.old.seen tick cut → AreRowsAfter analyst.old.set cut after rows.items) }
    ensures same { analyst.new ≡ analyst.old }
    ensures sound { IsTrace analyst.old.seen }
{
    let stairs = analyst.stairs_until(alloc, after + 1, tick)?;
    later_rows(alloc, &stairs, after)
}

/// The rows of stairs, so many ticks later.
fn later_rows(alloc: Global, stairs: &Stairs, after: u64) -> Result<Vec<Row>, AllocError>
    requires { length stairs.now + after ≤ MAX_TICKS }
    ensures { IfOk result (λ rows. rows.items ≡ map (later_by after) (rows_of stairs.now)) }
{
    let mut rows = Vec::new(alloc);
    while let Some(row) = stairs.row(rows.len()) {
        rows.push(later_by(after, row))?;
    }
    Ok(rows)
}

/// A row, so many ticks later.
fn later_by(after: u64, row: Row) -> Row
    requires { row.gst + after ≤ MAX_TICKS }
    ensures { result ≡ later_by after row }
{
    Row {
        gst: row.gst + after,
        ..row
    }
}
