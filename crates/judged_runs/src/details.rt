//! What is printed of a judgement: the line of its verdict, and then the details that are asked for.

ghost use Rattle.std.specs.Prelude.{◌⊎◌, IfOk, IsTrue, OnErr, string_bytes};
ghost use Rattle.step_trace.specs.Processors.{IsWithin};
ghost use Rattle.decision_claims.specs.Formulas.{deadline};
ghost use Rattle.judged_runs.specs.DeadlineRows.{IsRowsText};
ghost use Rattle.judged_runs.specs.Details.{AreDetails, IsFactorLine, IsJudgement};

use crate::deadline_rows::rows_text;
use crate::factors::factor_for;
use crate::judgements::{Demands, Verdict, judge};
use crate::verdict_lines::verdict_text;
use decision_claims::{Decision, Formula, latest_decision};
use front::front;
use std::alloc::{AllocError, Global};
use std::fmt;
use step_trace::{ProcSet, Trace};
use suffix_staircase::Stairs;

/// What is asked for besides the verdict.
#[derive(Clone, Copy, Debug, PartialEq, Eq)]
pub struct Details {
    /// The least factor with which the claim would be kept.
    pub factor: bool,
    /// The rows of the report of the whole run, with their deadlines.
    pub rows: bool,
}

/// A verdict, and what is printed of it.
#[derive(Drop)]
pub struct Judgement {
    pub verdict: Verdict,
    pub text: String,
}

/// Judges the decisions of a run as `judge` does. The text has the line of the verdict, and then the details.
pub fn judgement_of(
    alloc: Global,
    trace: &Trace,
    set: ProcSet,
    decisions: &[Decision],
    formula: &Formula,
    demands: Demands,
    details: Details,
) -> Result<Judgement, AllocError>
    requires { IsWithin set trace.now.config.n }
    ensures { IfOk result (λ j. IsJudgement set trace.now decisions.now formula.now demands details
        j.verdict (string_bytes j.text)) }
{
    let verdict = judge(alloc, trace, set, decisions, formula, demands)?;
    let mut text = verdict_text(alloc, verdict)?;
    let more = details_text(alloc, trace, set, decisions, formula, demands, details)?;
    text.push_str(more.as_str())?;
    Ok(Judgement { verdict, text })
}

/// The details that are asked for. Memory may come only if there are any.
fn details_text(
    alloc: Global,
    trace: &Trace,
    set: ProcSet,
    decisions: &[Decision],
    formula: &Formula,
    demands: Demands,
    details: Details,
) -> Result<String, AllocError>
    requires { IsWithin set trace.now.config.n }
    ensures text { IfOk result
        (λ text. AreDetails set trace.now decisions.now formula.now demands details
        (string_bytes text)) }
    ensures more { OnErr result (IsTrue details.factor ⊎ IsTrue details.rows) }
{
    let mut text = String::new(alloc);
    if details.factor {
        let factor = factor_line(alloc, trace, set, decisions, formula, demands)?;
        text.push_str(factor.as_str())?;
    }
    if details.rows {
        let rows = report_rows(alloc, trace, set, decisions, formula, demands.start)?;
        text.push_str(rows.as_str())?;
    }
    Ok(text)
}

/// The line of the least factor.
fn factor_line(
    alloc: Global,
    trace: &Trace,
    set: ProcSet,
    decisions: &[Decision],
    formula: &Formula,
    demands: Demands,
) -> Result<String, AllocError>
    requires { IsWithin set trace.now.config.n }
    ensures { IfOk result
        (λ text. IsFactorLine set trace.now decisions.now formula.now demands (string_bytes text)) }
{
    let Demands { start, whole, .. } = demands;
    let factor = factor_for(alloc, trace, set, decisions, start, formula, whole)?;
    FactorLine(factor).to_string(alloc)
}

/// The rows of the report with their deadlines.
fn report_rows(
    alloc: Global,
    trace: &Trace,
    set: ProcSet,
    decisions: &[Decision],
    formula: &Formula,
    start: u64,
) -> Result<String, AllocError>
    requires { IsWithin set trace.now.config.n }
    ensures { IfOk result (λ text. IsRowsText set trace.now decisions.now
        (deadline trace.now.config start formula.now) (string_bytes text)) }
{
    let stairs = Stairs::of_trace(alloc, trace, set)?;
    let report = front(alloc, &stairs)?;
    let decided = latest_decision(set, decisions);
    rows_text(alloc, trace, report.rows(), decided, start, formula)
}

/// The line of a least factor, with its line feed.
#[derive(Clone, Copy)]
struct FactorLine(Option<u64>);

impl fmt::Display for FactorLine {
    ghost use Rattle.std.specs.Prelude.{Some};
    ghost use Rattle.judged_runs.specs.Details.{told_factor};

    ghost output = { λ line. Some (told_factor line.0) };

    fn fmt<W: fmt::Write>(&self, f: &mut fmt::Formatter<W>) -> fmt::Result {
        match self.0 {
            Some(factor) => writeln!(f, "factor {factor}"),
            None => f.write_str("factor none\n"),
        }
    }
}
