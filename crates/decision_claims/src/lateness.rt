//! Rows of the front whose deadline wasn't kept.

ghost use Rattle.std.specs.Prelude.{◌≡◌, ◌+◌, ◌≤◌, ◌<◌, ◌↔◌, length};
ghost use Rattle.std.specs.Prelude.{IfSome, IfNone, IsNone, MatchOption};
ghost use Rattle.std.specs.List.{count_by};
ghost use Rattle.step_trace.specs.Fronts.{triple_of, IsReport};
ghost use Rattle.step_trace.specs.Traces.{Recorded};
ghost use Rattle.decision_claims.specs.Formulas.{deadline};
ghost use Rattle.decision_claims.specs.Decisions.{HaveDecidedBy, IsFrom};
ghost use Rattle.decision_claims.specs.Claims.{KeepsClaim};
ghost use Rattle.decision_claims.specs.LateRows.{AllKept, AreAllLater, IsFirstLate, IsLeastDue};
ghost use Rattle.decision_claims.specs.LateRows.{IsLeastUndecided, is_due};

use crate::decisions::{Decision, earlier, latest_decision, least_undecided};
use crate::formulas::{Formula, begin_of, words_at};
use step_trace::{ProcSet, Row, Trace};

/// A row whose deadline is no later than the last tick, the deadline, and the least member that hadn't decided by it.
#[derive(Clone, Copy, Debug, PartialEq, Eq)]
pub struct Late {
    pub row: Row,
    pub deadline: u64,
    pub proc: u64,
}

/// The first row that refutes the claim that each member decides by the deadline of a formula, in an instance of
/// agreement that started in this tick, if the run ends in tick `end`; None if each row keeps it. That is the last tick
/// of the trace, or an earlier one.
///
/// Takes time that grows with the rows and, for each member, with the decisions; no memory.
pub fn first_late(
    trace: &Trace,
    end: u64,
    set: ProcSet,
    rows: &[Row],
    decisions: &[Decision],
    start: u64,
    formula: &Formula,
) -> Option<Late>
    requires { end ≤ trace.now.last }
    ensures late { IfSome result (λ w. (run : Recorded) → run.last ≡ end
        → IsFirstLate set run rows.now decisions.now
        (deadline trace.now.config start formula.now) w) }
    ensures kept { IfNone result ((run : Recorded) → run.last ≡ end
        → AllKept set run rows.now decisions.now (deadline trace.now.config start formula.now)) }
    ensures claim { (run : Recorded) → run.last ≡ end → IsReport set run rows.now → IsNone result
        ↔ KeepsClaim set run decisions.now (deadline trace.now.config start formula.now) }
{
    let latest = latest_decision(set, decisions);
    for k in 0..rows.len() {
        if let Some(deadline) = due_by(trace, end, start, formula, rows[k]) {
            if let Some(proc) = undecided_at(set, decisions, latest, deadline) {
                return Some(Late {
                    row: rows[k],
                    deadline,
                    proc,
                });
            }
        }
    }
    None
}

/// The deadline of a row, if it is no later than tick `end`.
fn due_by(trace: &Trace, end: u64, start: u64, formula: &Formula, row: Row) -> Option<u64>
    requires { end ≤ trace.now.last }
    ensures { MatchOption result
        (end < deadline trace.now.config start formula.now (triple_of row))
        (λ y. (y ≡ deadline trace.now.config start formula.now (triple_of row)) × (y ≤ end)) }
{
    let deadline = due_deadline(trace, start, formula, row)?;
    if deadline <= end {
        Some(deadline)
    } else {
        None
    }
}

/// The deadline of a row, if it is no later than the last tick.
pub fn due_deadline(trace: &Trace, start: u64, formula: &Formula, row: Row) -> Option<u64>
    ensures { MatchOption result
        (trace.now.last < deadline trace.now.config start formula.now (triple_of row))
        (λ y. (y ≡ deadline trace.now.config start formula.now (triple_of row))
        × (y ≤ trace.now.last)) }
{
    let last = trace.last_tick();
    let from = begin_of(start, row);
    if last < from {
        return None;
    }
    let rest = last + 1 - from;
    let value = formula.capped_value(words_at(trace.config(), row), rest);
    if value < rest {
        Some(from + value)
    } else {
        None
    }
}

/// The least member that hadn't decided by a tick, which is looked for only if not all members had.
fn undecided_at(set: ProcSet, decisions: &[Decision], latest: Option<u64>, y: u64) -> Option<u64>
    requires { IsFrom (HaveDecidedBy set decisions.now) latest }
    ensures some { IfSome result (IsLeastUndecided set decisions.now y) }
    ensures none { IfNone result (HaveDecidedBy set decisions.now y) }
{
    if let Some(x) = latest {
        if x <= y {
            return None;
        }
    }
    least_undecided(set, decisions, y)
}

/// How many rows have a deadline that is no later than the last tick: only these say something of the claim.
pub fn due_rows(trace: &Trace, start: u64, formula: &Formula, rows: &[Row]) -> usize
    ensures count { result ≡ count_by
        (is_due trace.now (deadline trace.now.config start formula.now)) rows.now }
    ensures few { result ≤ length rows.now }
{
    let mut count = 0usize;
    for k in 0..rows.len() {
        if due_deadline(trace, start, formula, rows[k]).is_some() {
            count += 1;
        }
    }
    count
}

/// The least deadline of these rows that is no later than the last tick; None if each is later.
pub fn least_due(trace: &Trace, start: u64, formula: &Formula, rows: &[Row]) -> Option<u64>
    ensures { MatchOption result
        (AreAllLater trace.now rows.now (deadline trace.now.config start formula.now))
        (IsLeastDue trace.now rows.now (deadline trace.now.config start formula.now)) }
{
    let mut least: Option<u64> = None;
    for k in 0..rows.len() {
        if let Some(deadline) = due_deadline(trace, start, formula, rows[k]) {
            least = Some(earlier(least, deadline));
        }
    }
    least
}
