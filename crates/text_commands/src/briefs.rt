//! A report of those rows alone that name other evidence than the row before: the command `brief`.

ghost use Rattle.std.specs.Prelude.{◌≡◌, IfOk};
ghost use Rattle.text_commands.specs.Briefs.{brief_after, names_other, same_miss, same_silence};

use crate::answers::Answer;
use crate::report_parts::{cut_to, report_of};
use crate::traces::set_of;
use command_faults::Fault;
use command_options::Brief;
use front::report_text_of;
use std::alloc::{AllocError, Global};
use step_trace::{Gap, Miss, Row, Trace};

/// A brief report. A silence gives a row for each of its ticks, and all of them name the same processor and the same
/// last tick; the first of them is kept.
///
/// Declines a trace, in this order, by: Set if a correct processor is above its number of processors; Report if it
/// hasn't the tick up to which it is reported.
impl Answer for Brief {
    ghost use Rattle.text_commands.specs.Briefs.{IsBriefOf, IsNoBrief};

    ghost Gives = { λ b. IsBriefOf b };

    ghost Declines = { λ b. IsNoBrief b };

    fn answer(&self, alloc: Global, trace: &mut Trace) -> Result<Vec<u8>, Fault> {
        let set = set_of(self.correct, trace)?;
        cut_to(alloc, trace, self.until)?;
        let report = report_of(alloc, trace, set)?;
        let rows = brief_rows(alloc, report.rows())?;
        Ok(report_text_of(alloc, &rows)?)
    }
}

/// The rows that name other evidence than the row before.
fn brief_rows(alloc: Global, rows: &[Row]) -> Result<Vec<Row>, AllocError>
    ensures { IfOk result (λ kept. kept.items ≡ brief_after None rows.now) }
{
    let mut kept = Vec::new(alloc);
    let mut before = None;
    for row in rows {
        if names_other(before, row) {
            kept.push(*row)?;
        }
        before = Some(*row);
    }
    Ok(kept)
}

/// Whether a row names other evidence than the row before it, if there is one.
fn names_other(before: Option<Row>, row: &Row) -> bool
    ensures { result ≡ names_other before row.now }
{
    match before {
        Some(before) => { !(same_miss(before.miss, row.miss) && same_silence(before.gap, row.gap)) }
        None => true,
    }
}

/// Whether the same message was missed at the same Receive, or none.
fn same_miss(one: Option<Miss>, other: Option<Miss>) -> bool
    ensures { result ≡ same_miss one other }
{
    match (one, other) {
        (Some(one), Some(other)) => one.sent == other.sent && one.missed == other.missed,
        (None, None) => true,
        _ => false,
    }
}

/// Whether the same processor is silent up to the same tick, or none.
fn same_silence(one: Option<Gap>, other: Option<Gap>) -> bool
    ensures { result ≡ same_silence one other }
{
    match (one, other) {
        (Some(one), Some(other)) => one.proc == other.proc && one.to == other.to,
        (None, None) => true,
        _ => false,
    }
}
