//! The rows of a certificate as they are claimed one by one: kept while they are in order.

ghost use Rattle.std.specs.Prelude.{◌≡◌, ◌≤◌, ◌+◌, ◌^◌, ◌<◌, ◌⊎◌, [], true, List, IfOk, OnErr, length};
ghost use Rattle.step_trace.specs.declared.rows.Row.{Row};
ghost use Rattle.step_trace.specs.Processors.{IsWithin};
ghost use Rattle.certificate_checker.specs.declared.claims.ClaimedRows.TheVariants.{InOrder};
ghost use Rattle.certificate_checker.specs.declared.verdicts.Reason.{Reason};
ghost use Rattle.certificate_checker.specs.Claims.{claimed, count_of, is_in_order, last_gst};
ghost use Rattle.certificate_checker.specs.Claims.{next_beyond, next_in_order, with_row};
ghost use Rattle.certificate_checker.specs.Verdicts.{IsVerdict, Stands, place_of};

use crate::certificates::check;
use crate::verdicts::{Reason, Verdict};
use std::alloc::{AllocError, Global};
use std::marker::Model;
use step_trace::{ProcSet, Row, Trace};

/// Rows in memory.
#[derive(Debug, Drop)]
pub struct RowList {
    items: Vec<Row>,
}

impl Model for RowList {
    ghost use Rattle.std.specs.Prelude.{List};
    ghost use Rattle.step_trace.specs.declared.rows.Row.{Row};

    ghost Value = { List Row };

    ghost view = { λ a. a.items.items };
}

impl RowList {
    /// The rows, in their order.
    pub fn as_slice(&self) -> &[Row]
        ensures { result.now ≡ self.now }
    {
        &self.items
    }
}

/// What is kept of the rows of a certificate while they are read. Only rows whose stabilization times rise from tick
/// 1 and end by the last tick are kept, and so no more than there are ticks. Of others the verdict is known without
/// them.
#[derive(Debug, Drop)]
pub enum ClaimedRows {
    /// All rows: their stabilization times rise from 1 to the last tick at most.
    InOrder(RowList),
    /// The rows rise from 1, but go beyond the last tick.
    Beyond {
        /// The number of the first row whose stabilization time is above the last tick.
        first: u64,
        /// How many rows there are.
        count: u64,
        /// The stabilization time of the last row, in ticks.
        gst: u64,
    },
    /// The first row isn't of tick 1, or the rows don't rise.
    Refuted {
        /// `FirstNotOne`, or `NotRising` with the number of the first row that doesn't rise.
        why: Reason,
        /// How many rows there are.
        count: u64,
    },
}

impl ClaimedRows {
    /// No rows yet.
    pub fn new(alloc: Global) -> Self
        ensures { result ≡ InOrder [] }
    {
        let rows = RowList {
            items: Vec::new(alloc),
        };
        ClaimedRows::InOrder(rows)
    }

    /// How many rows were claimed.
    pub fn count(&self) -> u64
        ensures { result ≡ count_of self.now }
    {
        match self {
            ClaimedRows::InOrder(rows) => rows.items.len() as u64,
            ClaimedRows::Beyond { count, .. } | ClaimedRows::Refuted { count, .. } => *count,
        }
    }

    /// These rows and one more, claimed of a trace with this last tick. It fails only if the row is kept, or if
    /// a `u64` has no number left for it.
    pub fn with(self, last: u64, row: Row) -> Result<Self, AllocError>
        ensures rows { IfOk result (λ more. more ≡ with_row last self row) }
        ensures more { OnErr result
            ((is_in_order (with_row last self row) ≡ true) ⊎ (2 ^ 64 ≤ count_of self + 1)) }
    {
        let count = self.count().checked_add(1).ok_or(AllocError)?;
        match self {
            ClaimedRows::InOrder(rows) => in_order_with(rows, count, last, row),
            ClaimedRows::Beyond { first, gst, .. } => Ok(beyond_with(first, count, gst, row)),
            ClaimedRows::Refuted { why, .. } => Ok(ClaimedRows::Refuted { why, count }),
        }
    }
}

/// Rows in order and one more, of which this is the number.
fn in_order_with(rows: RowList, count: u64, last: u64, row: Row) -> Result<ClaimedRows, AllocError>
    requires { count ≡ length rows + 1 }
    ensures rows { IfOk result (λ more. more ≡ next_in_order last rows row) }
    ensures more { OnErr result (is_in_order (next_in_order last rows row) ≡ true) }
{
    if count == 1 && row.gst != 1 {
        let why = Reason::FirstNotOne;
        return Ok(ClaimedRows::Refuted { why, count });
    }
    if count > 1 && row.gst <= last_gst(rows.as_slice()) {
        let why = Reason::NotRising(count);
        return Ok(ClaimedRows::Refuted { why, count });
    }
    if last < row.gst {
        let (first, gst) = (count, row.gst);
        return Ok(ClaimedRows::Beyond { first, count, gst });
    }
    let mut rows = rows;
    rows.items.push(row)?;
    Ok(ClaimedRows::InOrder(rows))
}

/// The stabilization time of the last row; 0 if there is none.
fn last_gst(rows: &[Row]) -> u64
    ensures { result ≡ last_gst rows.now }
{
    if rows.len() == 0 {
        return 0;
    }
    rows[rows.len() - 1].gst
}

/// Rows that go beyond the last tick, and one more, of which `count` is the number.
fn beyond_with(first: u64, count: u64, gst: u64, row: Row) -> ClaimedRows
    ensures { result ≡ next_beyond first count gst row }
{
    if gst < row.gst {
        let gst = row.gst;
        return ClaimedRows::Beyond { first, count, gst };
    }
    let why = Reason::NotRising(count);
    ClaimedRows::Refuted { why, count }
}

/// What `check` answers for all rows that were claimed of this trace. Fails only if out of memory, and only if the
/// rows are in order and none of the first six reasons holds against them.
pub fn check_claimed(
    alloc: Global,
    trace: &Trace,
    set: ProcSet,
    rows: &ClaimedRows,
) -> Result<Verdict, AllocError>
    requires { IsWithin set trace.now.config.n }
    ensures verdict { (all : List Row) → rows.now ≡ claimed trace.now.last all
        → IfOk result (λ v. IsVerdict set trace.now all v) }
    ensures more { (all : List Row) → rows.now ≡ claimed trace.now.last all
        → OnErr result ((0 < length all)
        × ((why : Reason) → place_of why ≤ 6 → ¬ Stands set trace.now all why)) }
{
    match rows {
        ClaimedRows::InOrder(rows) => check(alloc, trace, set, rows.as_slice()),
        ClaimedRows::Beyond { first, .. } => Ok(Verdict::No(Reason::BeyondEnd(*first))),
        ClaimedRows::Refuted { why, .. } => Ok(Verdict::No(*why)),
    }
}
