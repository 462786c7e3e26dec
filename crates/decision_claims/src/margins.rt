//! What was tested of a claim that is kept.

ghost use Rattle.std.specs.Prelude.{◌≡◌, ◌+◌, length};
ghost use Rattle.std.specs.List.{count_by};
ghost use Rattle.decision_claims.specs.Formulas.{deadline};
ghost use Rattle.decision_claims.specs.LateRows.{AllKept, is_due};
ghost use Rattle.decision_claims.specs.Margins.{IsMargin, IsTested};

use crate::decisions::{Decision, latest_decision};
use crate::formulas::Formula;
use crate::lateness::{due_rows, least_due};
use step_trace::{ProcSet, Row, Trace};

/// How many rows say something of a claim, and by how much it is kept.
#[derive(Clone, Copy, Debug, PartialEq, Eq)]
pub struct Tested {
    /// The rows whose deadline is no later than the last tick.
    pub due: u64,
    /// The other rows.
    pub later: u64,
    /// How many ticks before the least deadline that is due all members had decided; None if none is due.
    pub margin: Option<u64>,
}

/// What was tested of the claim that each member decides by the deadline of a formula, if the rows keep it, in an
/// instance of agreement that started in this tick.
pub fn tested_by(
    trace: &Trace,
    set: ProcSet,
    rows: &[Row],
    decisions: &[Decision],
    start: u64,
    formula: &Formula,
) -> Tested
    ensures due { result.due ≡ count_by
        (is_due trace.now (deadline trace.now.config start formula.now)) rows.now }
    ensures later { result.due + result.later ≡ length rows.now }
    ensures tested { AllKept set trace.now rows.now decisions.now
        (deadline trace.now.config start formula.now)
        → IsTested set trace.now rows.now decisions.now
        (deadline trace.now.config start formula.now) result }
{
    let due = due_rows(trace, start, formula, rows);
    Tested {
        due: due as u64,
        later: (rows.len() - due) as u64,
        margin: margin(trace, set, rows, decisions, start, formula),
    }
}

/// By how many ticks the rows keep the claim.
fn margin(
    trace: &Trace,
    set: ProcSet,
    rows: &[Row],
    decisions: &[Decision],
    start: u64,
    formula: &Formula,
) -> Option<u64>
    ensures { AllKept set trace.now rows.now decisions.now
        (deadline trace.now.config start formula.now)
        → IsMargin set trace.now rows.now decisions.now
        (deadline trace.now.config start formula.now) result }
{
    let Some(least) = least_due(trace, start, formula, rows) else {
        return None;
    };
    let Some(decided) = latest_decision(set, decisions) else {
        return None;
    };
    if decided <= least {
        Some(least - decided)
    } else {
        None
    }
}
