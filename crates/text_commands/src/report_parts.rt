//! A part of the report of a trace: of the trace up to a tick or of all of it, all rows or the one that applies to a
//! tick. The command `report`, but for its workers (`reports.rt`).

ghost use Rattle.std.specs.Prelude.{◌≡◌, ◌↔◌, Some, IfOk, IfErr, IfSome, IsTrue, OnOk};
ghost use Rattle.step_trace.specs.Fronts.{IsReport};
ghost use Rattle.step_trace.specs.Processors.{IsWithin};
ghost use Rattle.step_trace.specs.Ticks.{IsTimed};
ghost use Rattle.text_commands.specs.Answers.{IsLeft};
ghost use Rattle.text_commands.specs.ReportParts.{IsAtFault, IsRowAt, IsTextFor, IsUntilFault};
ghost use Rattle.text_verdicts.specs.Cuts.{IsReportedTo, IsTickOf};

use crate::answers::Answer;
use crate::traces::set_of;
use command_faults::{Fault, ReportOption, TickOutside};
use command_options::ReportPart;
use front::{Report, front, report_text_of};
use std::alloc::{AllocError, Global};
use step_trace::{ProcSet, Row, Trace};
use suffix_staircase::Stairs;

/// A part of a report. One thread finds its bounds.
///
/// Declines a trace, in this order, by:
/// - Set if a correct processor is above its number of processors;
/// - Report for a tick that it hasn't: first the one up to which it is reported, then, up to there, the one whose row
///   is asked for.
impl Answer for ReportPart {
    ghost use Rattle.text_commands.specs.ReportParts.{IsPartOfReport, IsUntoldPart};

    ghost Gives = { λ p. IsPartOfReport p };

    ghost Declines = { λ p. IsUntoldPart p };

    fn answer(&self, alloc: Global, trace: &mut Trace) -> Result<Vec<u8>, Fault> {
        let set = set_of(self.correct, trace)?;
        cut_to(alloc, trace, self.until)?;
        text_for(alloc, trace, set, self.at)
    }
}

/// Leaves of a trace what is reported of it: all, or the part up to a tick. The memory of the rest is freed.
///
/// Refuses, in this order: Report, if the trace hasn't the tick; Memory.
pub(crate) fn cut_to(alloc: Global, trace: &mut Trace, until: Option<u64>) -> Result<(), Fault>
    ensures reported { OnOk result (IsReportedTo until trace.old trace.new) }
    ensures count { OnOk result (trace.new.config.n ≡ trace.old.config.n) }
    ensures refused { IfErr result (IsUntilFault until trace.old) }
    ensures left { IsLeft trace.old trace.new }
{
    let Some(tick) = until else {
        return Ok(());
    };
    if !has_tick(trace, tick) {
        return Err(outside(ReportOption::Until, trace, tick));
    }
    *trace = trace.until(alloc, tick)?;
    Ok(())
}

/// The text of the rows that are asked for: of all of the report of a trace, or of the row that applies to a tick.
fn text_for(alloc: Global, trace: &Trace, set: ProcSet, at: Option<u64>) -> Result<Vec<u8>, Fault>
    requires within { IsWithin set trace.now.config.n }
    ensures rows { IfOk result (λ text. IsTextFor set trace.now at text.items) }
    ensures refused { IfErr result (IsAtFault at trace.now) }
{
    let Some(tick) = at else {
        let report = report_of(alloc, trace, set)?;
        return Ok(report_text_of(alloc, report.rows())?);
    };
    let row = row_at(alloc, trace, set, tick)?;
    Ok(report_text_of(alloc, &[row])?)
}

/// The row that applies to a tick of a trace.
fn row_at(alloc: Global, trace: &Trace, set: ProcSet, tick: u64) -> Result<Row, Fault>
    requires within { IsWithin set trace.now.config.n }
    ensures row { IfOk result (IsRowAt set trace.now tick) }
    ensures refused { IfErr result (IsAtFault (Some tick) trace.now) }
{
    if !has_tick(trace, tick) {
        return Err(outside(ReportOption::At, trace, tick));
    }
    let report = report_of(alloc, trace, set)?;
    match report.at(tick) {
        Some(row) => Ok(row),
        None => unreachable!(),
    }
}

/// Tests whether the tick that is asked for, if one is, is one of the trace.
///
/// Refuses only Report, if it isn't.
pub(crate) fn test_at(trace: &Trace, at: Option<u64>) -> Result<(), Fault>
    ensures inside { OnOk result (IfSome at (IsTickOf trace.now)) }
    ensures refused { IfErr result (IsAtFault at trace.now) }
{
    let Some(tick) = at else {
        return Ok(());
    };
    if !has_tick(trace, tick) {
        return Err(outside(ReportOption::At, trace, tick));
    }
    Ok(())
}

/// The fault of a tick that the trace hasn't, for which this option asks.
pub(crate) fn outside(option: ReportOption, trace: &Trace, tick: u64) -> Fault
    ensures { result ≡ Fault.Report option (record { tick = tick; last = trace.now.last }) }
{
    let last = trace.last_tick();
    Fault::Report(option, TickOutside { tick, last })
}

/// Whether this is a tick of the trace.
pub(crate) fn has_tick(trace: &Trace, tick: u64) -> bool
    ensures exact { IsTrue result ↔ IsTickOf trace.now tick }
    ensures timed { IsTimed trace.now }
{
    tick <= trace.last_tick() && 1 <= tick
}

/// The report of a trace, by one backward pass.
pub(crate) fn report_of(alloc: Global, trace: &Trace, set: ProcSet) -> Result<Report, AllocError>
    requires within { IsWithin set trace.now.config.n }
    ensures report { IfOk result (λ r. IsReport set trace.now r.rows) }
    ensures len { IfOk result (λ r. r.len ≡ trace.now.last) }
{
    let stairs = Stairs::of_trace(alloc, trace, set)?;
    front(alloc, &stairs)
}
