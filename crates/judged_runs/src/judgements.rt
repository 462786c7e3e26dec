//! The verdict on the decisions of a run.

ghost use Rattle.std.specs.Prelude.{IfOk, IfSome, IsNone, OnErr};
ghost use Rattle.step_trace.specs.Fronts.{IsReport};
ghost use Rattle.step_trace.specs.Processors.{IsWithin};
ghost use Rattle.decision_claims.specs.Formulas.{deadline};
ghost use Rattle.decision_claims.specs.LateRows.{AllKept};
ghost use Rattle.judged_runs.specs.Judgements.{AreSound, IsRefutedBy, IsVerdict, Keeps};

use crate::prefixes::first_late_in_time;
use decision_claims::{
    Decision, Formula, Late, Tested, first_difference, first_foreign, first_late, tested_by,
};
use front::front;
use std::alloc::{AllocError, Global};
use step_trace::{ProcSet, Row, Trace};
use suffix_staircase::Stairs;

/// What is demanded of the decisions of a run, besides agreement and a formula for their deadlines.
#[derive(Clone, Copy, Debug, PartialEq, Eq)]
pub struct Demands {
    /// The tick in which the instance of agreement started.
    pub start: u64,
    /// Whether each decision has to be an initial value.
    pub valid: bool,
    /// Whether only the bounds of the whole run count, and not those of its prefixes.
    pub whole: bool,
    /// How many rows of the report have to be due at least.
    pub due: u64,
}

/// The first thing that is wrong, in the order of the cases after the first, or that nothing is.
#[derive(Clone, Copy, Debug, PartialEq, Eq)]
pub enum Verdict {
    /// Members agree, their values are initial if that was asked, and the claim is kept: this was tested of it.
    Yes(Tested),
    /// The first decision of a member, and the first one of a member that differs from it.
    Differ(Decision, Decision),
    /// The first decision of a member that is nobody's initial value.
    Foreign(Decision),
    /// A row that refutes the claim, its deadline, and the least member that hadn't decided by it.
    LateBy(Late),
    /// So many rows of the report were due, and more were asked for.
    Untested(u64),
}

/// Judges the decisions of a run: agreement of the members of a set, validity if it is asked, and the claim that each
/// of them decides by the deadline of a formula. In time, the bounds of each prefix count; else those of the whole run
/// alone. Memory may come only if nothing is wrong with agreement and validity, so that bounds have to be found.
pub fn judge(
    alloc: Global,
    trace: &Trace,
    set: ProcSet,
    decisions: &[Decision],
    formula: &Formula,
    demands: Demands,
) -> Result<Verdict, AllocError>
    requires { IsWithin set trace.now.config.n }
    ensures verdict { IfOk result (IsVerdict set trace.now decisions.now formula.now demands) }
    ensures more { OnErr result (AreSound set trace.now.config.init decisions.now demands.valid) }
{
    if let Some((one, other)) = first_difference(set, decisions) {
        return Ok(Verdict::Differ(one, other));
    }
    if demands.valid {
        if let Some(decision) = first_foreign(set, trace.config().init(), decisions) {
            return Ok(Verdict::Foreign(decision));
        }
    }
    judge_claim(alloc, trace, set, decisions, formula, demands)
}

/// Judges the claim of decisions that are sound.
fn judge_claim(
    alloc: Global,
    trace: &Trace,
    set: ProcSet,
    decisions: &[Decision],
    formula: &Formula,
    demands: Demands,
) -> Result<Verdict, AllocError>
    requires set { IsWithin set trace.now.config.n }
    requires sound { AreSound set trace.now.config.init decisions.now demands.valid }
    ensures { IfOk result (IsVerdict set trace.now decisions.now formula.now demands) }
{
    let stairs = Stairs::of_trace(alloc, trace, set)?;
    let report = front(alloc, &stairs)?;
    let rows = report.rows();
    match late_by(alloc, trace, set, rows, decisions, formula, demands)? {
        Some(late) => Ok(Verdict::LateBy(late)),
        None => {
            let tested = tested_by(trace, set, rows, decisions, demands.start, formula);
            if tested.due < demands.due {
                Ok(Verdict::Untested(tested.due))
            } else {
                Ok(Verdict::Yes(tested))
            }
        }
    }
}

/// What refutes the claim, by the rows of the report or in time.
fn late_by(
    alloc: Global,
    trace: &Trace,
    set: ProcSet,
    rows: &[Row],
    decisions: &[Decision],
    formula: &Formula,
    demands: Demands,
) -> Result<Option<Late>, AllocError>
    requires set { IsWithin set trace.now.config.n }
    requires report { IsReport set trace.now rows.now }
    ensures late { IfOk result
        (λ found. IfSome found (IsRefutedBy demands.whole set trace.now decisions.now
        (deadline trace.now.config demands.start formula.now))) }
    ensures kept { IfOk result (λ found. IsNone found
        → Keeps demands.whole set trace.now decisions.now
        (deadline trace.now.config demands.start formula.now)) }
    ensures rows { IfOk result (λ found. IsNone found
        → AllKept set trace.now rows.now decisions.now
        (deadline trace.now.config demands.start formula.now)) }
{
    if demands.whole {
        let end = trace.last_tick();
        Ok(first_late(trace, end, set, rows, decisions, demands.start, formula))
    } else {
        first_late_in_time(alloc, trace, set, decisions, demands.start, formula)
    }
}
