//! Reports: the rows of the front, and the row that applies to each tick.

ghost use Rattle.std.specs.Prelude.{◌≡◌, ◌≤◌, ◌<◌, length, map, IfOk, OnErr, IsSomeAnd, ℕ, List};
ghost use Rattle.std.specs.List.Sorted.{IsStrictlyIncreasing};
ghost use Rattle.step_trace.specs.Traces.{Recorded};
ghost use Rattle.step_trace.specs.Ticks.{IsTimed};
ghost use Rattle.step_trace.specs.Fronts.{IsReport};
ghost use Rattle.suffix_staircase.specs.Levels.{rows_of};
ghost use Rattle.suffix_staircase.specs.Analysis.{AreLevels};
ghost use Rattle.front.specs.Reports.{last_begun};

use std::alloc::{AllocError, Global};
use std::marker::Model;
use step_trace::Row;
use suffix_staircase::Stairs;

/// The report of a trace and of a set of processors that are named as correct. It has the triples of a
/// stabilization time, a communication bound and a processor bound that no other triple betters. Each
/// has the evidence against smaller bounds.
#[derive(Debug, Drop)]
pub struct Report {
    len: usize,
    rows: Vec<Row>,
}

impl Model for Report {
    ghost use Rattle.std.specs.Prelude.{map};
    ghost use Rattle.std.specs.List.Sorted.{IsStrictlyIncreasing};
    ghost use Rattle.front.specs.Reports.{Reported};

    ghost Value = { Reported };

    ghost view = { λ a. record { len = a.len; rows = a.rows.items } };

    ghost invariant = { λ a. IsStrictlyIncreasing (map (λ r. r.gst) a.rows.items) };
}

impl Report {
    ghost use Rattle.step_trace.specs.Traces.{Recorded};
    ghost use Rattle.step_trace.specs.Ticks.{IsTimed};
    ghost use Rattle.front.specs.Reports.{row_at, Serves};

    /// The last tick of the trace.
    pub fn len(&self) -> usize
        ensures { result ≡ self.now.len }
    {
        self.len
    }

    /// The rows, in rising stabilization time.
    pub fn rows(&self) -> &[Row]
        ensures { result.now ≡ self.now.rows }
    {
        &self.rows
    }

    /// The row that applies to tick `g`: the last one that begins at `g` or before, or none if `g` is
    /// no tick of the trace.
    ///
    /// In a report its bounds are the least ones that hold from `g`, and its evidence refutes each
    /// smaller positive bound from `g`.
    pub fn at(&self, g: u64) -> Option<Row>
        ensures row { result ≡ row_at self.now g }
        ensures serves { (set : ℕ) (trace : Recorded) → IsTimed trace
            → IsReport set trace self.now.rows → self.now.len ≡ trace.last → 1 ≤ g
            → g ≤ self.now.len → IsSomeAnd result (Serves set trace g) }
    {
        let Report { len, rows } = self;
        if g == 0 || (*len as u64) < g {
            return None;
        }
        last_begun(rows, g)
    }
}

/// The report of a trace, from its stairs: a row for each start of a stretch of equal bounds.
///
/// Takes time that grows with the rows, not with the steps. Fails only if out of memory, and never without a tick.
pub fn front(alloc: Global, stairs: &Stairs) -> Result<Report, AllocError>
    ensures rows { IfOk result (λ r. r.rows ≡ rows_of stairs.now) }
    ensures report { IfOk result
        (λ r. (set : ℕ) (trace : Recorded) → AreLevels set trace stairs.now
        → IsReport set trace r.rows) }
    ensures only { IfOk result
        (λ r. (set : ℕ) (trace : Recorded) (rows : List Row) → IsTimed trace
        → AreLevels set trace stairs.now
        → IsReport set trace rows → rows ≡ r.rows) }
    ensures len { IfOk result (λ r. r.len ≡ length stairs.now) }
    ensures rising { IfOk result (λ r. IsStrictlyIncreasing (map (λ row. row.gst) r.rows)) }
    ensures more { OnErr result (0 < length stairs.now) }
{
    let rows = rows_of(alloc, stairs)?;
    Ok(Report {
        len: stairs.len(),
        rows,
    })
}

/// The rows of all starts.
fn rows_of(alloc: Global, stairs: &Stairs) -> Result<Vec<Row>, AllocError>
    ensures items { IfOk result (λ v. v.items ≡ rows_of stairs.now) }
    ensures rising { IfOk result (λ v. IsStrictlyIncreasing (map (λ row. row.gst) v.items)) }
    ensures more { OnErr result (0 < length stairs.now) }
{
    let mut rows = Vec::new(alloc);
    while let Some(row) = stairs.row(rows.len()) {
        rows.push(row)?;
    }
    Ok(rows)
}

/// The last row that begins at `g` or before, of rows in rising stabilization time.
fn last_begun(rows: &[Row], g: u64) -> Option<Row>
    requires { IsStrictlyIncreasing (map (λ r. r.gst) rows.now) }
    ensures { result ≡ last_begun rows.now g }
{
    let count = rows.partition_point(|row| row.gst <= g);
    if count == 0 {
        return None;
    }
    Some(rows[count - 1])
}
