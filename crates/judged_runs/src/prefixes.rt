//! The search for a deadline that wasn't kept in time, by the prefixes of a run.

ghost use Rattle.std.specs.Prelude.{ℕ, List, ◌≡◌, ◌≤◌, ◌<◌, ◌+◌, ◌↔◌, IfOk, IfSome};
ghost use Rattle.std.specs.Prelude.{IsNone, MatchOption, OnErr, max, min};
ghost use Rattle.step_trace.specs.Fronts.{Triple, triple_of};
ghost use Rattle.step_trace.specs.Traces.{Recorded};
ghost use Rattle.step_trace.specs.declared.traces.TheConstants.{MAX_TICKS};
ghost use Rattle.decision_claims.specs.declared.decisions.Decision.{Decision as OneDecision};
ghost use Rattle.decision_claims.specs.Decisions.{HaveDecidedBy};
ghost use Rattle.decision_claims.specs.Formulas.{deadline};
ghost use Rattle.decision_claims.specs.Claims.{KeepsClaim, KeepsClaimInTime};
ghost use Rattle.judged_runs.specs.LateInTime.{AreFalling, AreNoEarlier, AreOldLater, IsAhead, IsGlance, IsLateInTime};
ghost use Rattle.judged_runs.specs.LateInTime.{IsLook, IsNextLook, IsNextTick, KeepsBefore, begun_after};

use crate::prefix_reports::{report_until, rows_after};
use chunk_join::PrefixAnalyst;
use decision_claims::{Decision, Formula, Late, due_deadline, first_late, latest_decision};
use std::alloc::{AllocError, Global};
use step_trace::{ProcSet, Row, Trace};

/// How many ticks of a prefix are its last ones, of which the bounds still rise from look to look.
const LAST: u64 = 64;

/// How many ticks may be looked at before bounds from all but the last ones of them are old.
const MOST: u64 = 5 * LAST;

/// Where a search goes on.
#[derive(Clone, Copy)]
pub(crate) struct Ahead {
    /// The tick in which the next prefix ends. No prefix that ends before it refutes the claim.
    pub(crate) tick: u64,
    /// The bounds that hold from this tick or an earlier one on are old.
    pub(crate) after: u64,
    /// A tick that is no later than the deadline of any old bounds.
    pub(crate) old: u64,
}

/// What a look at a prefix finds.
enum Looked {
    /// A row of it refutes the claim.
    LateBy(Late),
    /// None does, nor one of a longer prefix that ends before the search goes on.
    GoOn(Ahead),
}

/// The least deadline that wasn't kept in time. It is of the shortest prefix of the run that refutes the claim that
/// each member decides by the deadline of a formula, in an instance of agreement that started in this tick: the first
/// row of that prefix. None if the claim is kept in time.
///
/// Finds the bounds of some of the prefixes that end before all members have decided. After one that ends in tick x, it
/// goes on at the least deadline of its rows, or of bounds of 1 from the next tick on if that is less. No prefix
/// between has a deadline that is due. Of most prefixes it finds the bounds of the last ticks alone: those of earlier
/// ticks only grow, so they are due no earlier than when they were found last. Memory may come only if there is such a
/// prefix.
pub fn first_late_in_time(
    alloc: Global,
    trace: &Trace,
    set: ProcSet,
    decisions: &[Decision],
    start: u64,
    formula: &Formula,
) -> Result<Option<Late>, AllocError>
    ensures late { IfOk result
        (λ found. IfSome found
        (IsLateInTime set trace.now decisions.now
        (deadline trace.now.config start formula.now))) }
    ensures kept { IfOk result (λ found. IsNone found
        ↔ KeepsClaimInTime set trace.now decisions.now
        (deadline trace.now.config start formula.now)) }
    ensures whole { IfOk result (λ found. IsNone found
        → KeepsClaim set trace.now decisions.now (deadline trace.now.config start formula.now)) }
    ensures more { OnErr result (¬ HaveDecidedBy set decisions.now 0) }
{
    let end = undecided_until(set, decisions, trace.last_tick());
    let mut analyst = PrefixAnalyst::new(trace, set);
    let mut ahead = beginning();
    while ahead.tick < end {
        match look_at(alloc, &mut analyst, decisions, start, formula, ahead)? {
            Looked::LateBy(late) => return Ok(Some(late)),
            Looked::GoOn(next) => {
                ahead = next;
            }
        }
    }
    Ok(None)
}

/// Where each search begins.
pub(crate) fn beginning() -> Ahead
    ensures { (set : ℕ) (trace : Recorded) (decisions : List OneDecision) (due : Triple → ℕ)
        → IsAhead set trace decisions due result }
{
    Ahead {
        tick: 0,
        after: 0,
        old: 0,
    }
}

/// The tick up to which prefixes are looked at: the one in which all members have decided, or the one after the last.
pub(crate) fn undecided_until(set: ProcSet, decisions: &[Decision], last: u64) -> u64
    requires { last ≤ MAX_TICKS }
    ensures inside { result ≤ last + 1 }
    ensures decided { (y : ℕ) → result ≤ y → y ≤ last → HaveDecidedBy set decisions.now y }
    ensures undecided { (y : ℕ) → y < result → ¬ HaveDecidedBy set decisions.now y }
{
    up_to_end(latest_decision(set, decisions), last)
}

/// A tick, but at most the one after the last; that if there is none.
fn up_to_end(tick: Option<u64>, last: u64) -> u64
    requires { last ≤ MAX_TICKS }
    ensures { MatchOption tick (result ≡ last + 1) (λ y. result ≡ min y (last + 1)) }
{
    match tick {
        None => last + 1,
        Some(y) => { if y < last + 1 { y } else { last + 1 } }
    }
}

/// Looks at the prefix with which the search goes on: at its last ticks, and at all if that isn't enough.
fn look_at(
    alloc: Global,
    analyst: &mut PrefixAnalyst<'_>,
    decisions: &[Decision],
    start: u64,
    formula: &Formula,
    ahead: Ahead,
) -> Result<Looked, AllocError>
    requires inside { ahead.tick ≤ analyst.old.seen.last }
    requires ahead { IsAhead analyst.old.set analyst.old.seen decisions.now
        (deadline analyst.old.seen.config start formula.now) ahead }
    ensures look { IfOk result (IsLook analyst.old.set analyst.old.seen decisions.now
        (deadline analyst.old.seen.config start formula.now) ahead.tick) }
    ensures same { analyst.new ≡ analyst.old }
{
    let next = glance_at(alloc, analyst, start, formula, ahead)?;
    if ahead.tick < next.tick {
        return Ok(Looked::GoOn(next));
    }
    look_at_all(alloc, analyst, decisions, start, formula, ahead.tick)
}

/// Where the search goes on by a glance at the last ticks of the next prefix: no deadline is due before. If they may
/// say too little, it is at that prefix.
pub(crate) fn glance_at(
    alloc: Global,
    analyst: &mut PrefixAnalyst<'_>,
    start: u64,
    formula: &Formula,
    ahead: Ahead,
) -> Result<Ahead, AllocError>
    requires inside { ahead.tick ≤ analyst.old.seen.last }
    requires order { ahead.after ≤ ahead.tick }
    requires old { AreOldLater analyst.old.set analyst.old.seen
        (deadline analyst.old.seen.config start formula.now) ahead.tick ahead.after ahead.old }
    ensures glance { IfOk result
        (IsGlance analyst.old.set analyst.old.seen
        (deadline analyst.old.seen.config start formula.now) ahead.tick) }
    ensures same { analyst.new ≡ analyst.old }
{
    let x = ahead.tick;
    if x <= ahead.after || ahead.old <= x {
        return Ok(ahead);
    }
    let rows = rows_after(alloc, analyst, ahead.after, x)?;
    let trace = analyst.trace();
    let of_rows = before_deadlines(trace, start, formula, &rows, x);
    let of_others = others_deadline(trace, start, formula, x);
    let tick = lesser(lesser(of_rows, of_others), ahead.old);
    if tick <= x {
        return Ok(ahead);
    }
    Ok(aged(trace, start, formula, &rows, ahead, tick))
}

/// The search goes on at a later tick, after these rows of the last ticks of its prefix. If they are many, most are old
/// from now on.
fn aged(
    trace: &Trace,
    start: u64,
    formula: &Formula,
    rows: &[Row],
    ahead: Ahead,
    tick: u64,
) -> Ahead
    requires falling { AreFalling rows.now }
    ensures tick { result.tick ≡ tick }
    ensures order { result.after ≤ max ahead.after ahead.tick }
    ensures old { result.old ≤ ahead.old }
    ensures rows { ahead.after < result.after → AreNoEarlier rows.now
        (deadline trace.now.config start formula.now) result.after result.old }
{
    if ahead.tick.saturating_sub(ahead.after) <= MOST {
        return Ahead { tick, ..ahead };
    }
    let after = ahead.tick.saturating_sub(LAST);
    let of_rows = before_deadlines(trace, start, formula, rows, after);
    Ahead {
        tick,
        after,
        old: lesser(of_rows, ahead.old),
    }
}

/// Looks at the prefix that ends in this tick, if each deadline before it was kept.
fn look_at_all(
    alloc: Global,
    analyst: &mut PrefixAnalyst<'_>,
    decisions: &[Decision],
    start: u64,
    formula: &Formula,
    x: u64,
) -> Result<Looked, AllocError>
    requires inside { x ≤ analyst.old.seen.last }
    requires before { KeepsBefore analyst.old.set analyst.old.seen decisions.now
        (deadline analyst.old.seen.config start formula.now) x }
    ensures look { IfOk result (IsLook analyst.old.set analyst.old.seen decisions.now
        (deadline analyst.old.seen.config start formula.now) x) }
    ensures same { analyst.new ≡ analyst.old }
{
    let report = report_until(alloc, analyst, x)?;
    let trace = analyst.trace();
    let set = analyst.set();
    let rows = report.rows();
    let next = next_look(trace, start, formula, rows, x);
    if x + 1 < next.tick {
        // No deadline is due yet.
        return Ok(Looked::GoOn(next));
    }
    match first_late(trace, x, set, rows, decisions, start, formula) {
        Some(late) => Ok(Looked::LateBy(late)),
        None => Ok(Looked::GoOn(next)),
    }
}

/// Where the search goes on after the prefix that ends in tick x, whose rows these are.
pub(crate) fn next_look(trace: &Trace, start: u64, formula: &Formula, rows: &[Row], x: u64) -> Ahead
    requires inside { x ≤ trace.now.last }
    requires falling { AreFalling rows.now }
    ensures next { IsNextLook rows.now (deadline trace.now.config start formula.now) x result }
{
    let after = x.saturating_sub(LAST);
    Ahead {
        tick: next_tick(trace, start, formula, rows, x),
        after,
        old: before_deadlines(trace, start, formula, rows, after),
    }
}

/// The tick at which the search goes on after the prefix that ends in tick x, whose rows these are.
fn next_tick(trace: &Trace, start: u64, formula: &Formula, rows: &[Row], x: u64) -> u64
    requires inside { x ≤ trace.now.last }
    requires falling { AreFalling rows.now }
    ensures { IsNextTick rows.now (deadline trace.now.config start formula.now) x result }
{
    let of_rows = before_deadlines(trace, start, formula, rows, x);
    let of_others = others_deadline(trace, start, formula, x);
    let next = lesser(of_rows, of_others);
    if next <= x { x + 1 } else { next }
}

/// A tick that is no later than the deadline of any bounds that hold from a tick after x on, nor than the one after the
/// last tick.
fn others_deadline(trace: &Trace, start: u64, formula: &Formula, x: u64) -> u64
    requires { x ≤ trace.now.last }
    ensures early { result ≤ deadline trace.now.config start formula.now (begun_after x) }
    ensures limit { x ≤ MAX_TICKS }
{
    let last = trace.last_tick();
    up_to_end(due_deadline(trace, start, formula, begun_after(x)), last)
}

/// What the rows from one on say of their deadlines.
#[derive(Clone, Copy)]
struct Nearest {
    /// A tick that is no later than any of them.
    least: u64,
    /// How long each row before has at least.
    time: u64,
}

/// A tick that is no later than the deadline of any of these rows that begins by tick `until`, nor than the one after
/// the last tick.
///
/// Bounds fall from row to row, so an earlier row has a time that is no shorter. It is asked for its deadline only if
/// that may be the least.
fn before_deadlines(trace: &Trace, start: u64, formula: &Formula, rows: &[Row], until: u64) -> u64
    requires { AreFalling rows.now }
    ensures end { result ≤ trace.now.last + 1 }
    ensures rows { AreNoEarlier rows.now (deadline trace.now.config start formula.now)
        until result }
{
    let mut nearest = Nearest {
        least: trace.last_tick() + 1,
        time: 0,
    };
    for k in (0..rows.len()).rev() {
        nearest = nearer(trace, start, formula, &rows[k], until, nearest);
    }
    nearest.least
}

/// The same with one row before, whose time is known to be at least that long.
fn nearer(
    trace: &Trace,
    start: u64,
    formula: &Formula,
    row: &Row,
    until: u64,
    nearest: Nearest,
) -> Nearest
    requires time { max row.now.gst start + nearest.time ≤ deadline trace.now.config start
        formula.now (triple_of row.now) }
    ensures least { result.least ≤ nearest.least }
    ensures row { row.now.gst ≤ until
        → result.least ≤ deadline trace.now.config start formula.now (triple_of row.now) }
    ensures time { max row.now.gst start + result.time ≤ deadline trace.now.config start formula.now
        (triple_of row.now) }
{
    if until < row.gst {
        return nearest;
    }
    let begin = begin_of(start, row.gst);
    if nearest.least <= begin.saturating_add(nearest.time) {
        return nearest;
    }
    let deadline = up_to_end(due_deadline(trace, start, formula, *row), trace.last_tick());
    Nearest {
        least: lesser(deadline, nearest.least),
        time: deadline.saturating_sub(begin),
    }
}

/// The lesser of two numbers.
fn lesser(a: u64, b: u64) -> u64
    ensures { result ≡ min a b }
{
    if a < b { a } else { b }
}

/// The tick from which on a time counts: the stabilization time, or the start if that is later.
fn begin_of(start: u64, gst: u64) -> u64
    ensures { result ≡ max gst start }
{
    if gst < start { start } else { gst }
}

/// The row of the least bounds that there are, from the next tick on.
fn begun_after(x: u64) -> Row
    requires { x ≤ MAX_TICKS }
    ensures { triple_of result ≡ begun_after x }
{
    Row {
        gst: x + 1,
        delta: 1,
        phi: 1,
        miss: None,
        gap: None,
    }
}
