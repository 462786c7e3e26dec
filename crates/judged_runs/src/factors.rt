//! The least factor with which a claim would be kept: a constant that a run measures.

ghost use Rattle.std.specs.Prelude.{ℕ, ◌≡◌, ◌+◌, ◌≤◌, ◌<◌, ◌⊎◌, IfOk, IsTrue, OnErr, Some, max};
ghost use Rattle.step_trace.specs.Processors.{IsWithin};
ghost use Rattle.decision_claims.specs.Claims.{KeepsClaim, KeepsClaimInTime, deadline_times};
ghost use Rattle.decision_claims.specs.Decisions.{HaveDecidedBy, IsFrom};
ghost use Rattle.judged_runs.specs.Factors.{IsMeasured, IsNeeded, IsReached};
ghost use Rattle.judged_runs.specs.Judgements.{Keeps};

use crate::prefix_reports::report_until;
use crate::prefixes::{Ahead, beginning, glance_at, next_look, undecided_until};
use chunk_join::PrefixAnalyst;
use decision_claims::{Decision, Formula, least_factor};
use front::front;
use std::alloc::{AllocError, Global};
use step_trace::{ProcSet, Trace};
use suffix_staircase::Stairs;

/// How many prefixes are looked at first, about.
const FIRST: u64 = 64;

/// How far a search for a factor is.
#[derive(Clone, Copy)]
struct Measured {
    /// No smaller factor is enough.
    factor: u64,
    /// Where the search goes on. With this factor no prefix that ends before refutes the claim.
    ahead: Ahead,
}

/// The least factor c such that each member decides within c times a formula, in an instance of agreement that started
/// in this tick: by the bounds of the whole run, or in time. None if no factor is enough. In time, Memory may come only
/// if not all members had decided at once.
pub fn factor_for(
    alloc: Global,
    trace: &Trace,
    set: ProcSet,
    decisions: &[Decision],
    start: u64,
    formula: &Formula,
    whole: bool,
) -> Result<Option<u64>, AllocError>
    requires { IsWithin set trace.now.config.n }
    ensures factor { IfOk result
        (IsFrom (λ c. Keeps whole set trace.now decisions.now
        (deadline_times trace.now.config start formula.now c))) }
    ensures more { OnErr result (IsTrue whole ⊎ ¬ HaveDecidedBy set decisions.now 0) }
{
    if whole {
        least_factor_in_whole(alloc, trace, set, decisions, start, formula)
    } else {
        least_factor_in_time(alloc, trace, set, decisions, start, formula)
    }
}

/// The least factor by the bounds of the whole run.
fn least_factor_in_whole(
    alloc: Global,
    trace: &Trace,
    set: ProcSet,
    decisions: &[Decision],
    start: u64,
    formula: &Formula,
) -> Result<Option<u64>, AllocError>
    requires { IsWithin set trace.now.config.n }
    ensures { IfOk result
        (IsFrom (λ c. KeepsClaim set trace.now decisions.now
        (deadline_times trace.now.config start formula.now c))) }
{
    let stairs = Stairs::of_trace(alloc, trace, set)?;
    let report = front(alloc, &stairs)?;
    let end = trace.last_tick();
    Ok(least_factor(trace, end, set, report.rows(), decisions, start, formula))
}

/// The least factor c such that each member decides in time within c times a formula, in an instance of agreement that
/// started in this tick. It is the greatest of those of all prefixes of the run. None if no factor is enough.
///
/// First finds what some prefixes need, from the start of the run to its end. Then it looks at the prefixes at which
/// `first_late_in_time` would look for the formula times the factor so far, and likewise at the last ticks of most:
/// only if a deadline is due there, the prefix may need a greater factor. Memory may come only if there is such a
/// prefix.
pub fn least_factor_in_time(
    alloc: Global,
    trace: &Trace,
    set: ProcSet,
    decisions: &[Decision],
    start: u64,
    formula: &Formula,
) -> Result<Option<u64>, AllocError>
    ensures factor { IfOk result
        (IsFrom (λ c. KeepsClaimInTime set trace.now decisions.now
        (deadline_times trace.now.config start formula.now c))) }
    ensures more { OnErr result (¬ HaveDecidedBy set decisions.now 0) }
{
    let end = undecided_until(set, decisions, trace.last_tick());
    match needed_by_some(alloc, trace, set, decisions, start, formula, end)? {
        Some(needed) => { least_from(alloc, trace, set, decisions, start, formula, end, needed) }
        None => Ok(None),
    }
}

/// What some of the prefixes that end before a tick need, among them the last. None if no factor is enough.
fn needed_by_some(
    alloc: Global,
    trace: &Trace,
    set: ProcSet,
    decisions: &[Decision],
    start: u64,
    formula: &Formula,
    end: u64,
) -> Result<Option<u64>, AllocError>
    requires { end ≤ trace.now.last + 1 }
    ensures needed { IfOk result
        (IsNeeded set trace.now decisions.now (deadline_times trace.now.config start formula.now)) }
    ensures more { OnErr result (0 < end) }
{
    let mut analyst = PrefixAnalyst::new(trace, set);
    let mut factor = 0u64;
    let stride = end / FIRST + 1;
    let mut x = end.saturating_sub(1) % stride;
    while x < end {
        match needed_at(alloc, &mut analyst, decisions, start, formula, x)? {
            Some(own) => {
                factor = greater(own, factor);
                x = x.saturating_add(stride);
            }
            None => return Ok(None),
        }
    }
    Ok(Some(factor))
}

/// What the prefix that ends in this tick needs. None if no factor is enough.
fn needed_at(
    alloc: Global,
    analyst: &mut PrefixAnalyst<'_>,
    decisions: &[Decision],
    start: u64,
    formula: &Formula,
    x: u64,
) -> Result<Option<u64>, AllocError>
    requires { x ≤ analyst.old.seen.last }
    ensures needed { IfOk result
        (IsNeeded analyst.old.set analyst.old.seen decisions.now
        (deadline_times analyst.old.seen.config start formula.now)) }
    ensures same { analyst.new ≡ analyst.old }
{
    let report = report_until(alloc, analyst, x)?;
    let trace = analyst.trace();
    let set = analyst.set();
    let rows = report.rows();
    Ok(least_factor(trace, x, set, rows, decisions, start, formula))
}

/// The least factor, from one on that is needed.
fn least_from(
    alloc: Global,
    trace: &Trace,
    set: ProcSet,
    decisions: &[Decision],
    start: u64,
    formula: &Formula,
    end: u64,
    needed: u64,
) -> Result<Option<u64>, AllocError>
    requires inside { end ≤ trace.now.last + 1 }
    requires decided { (y : ℕ) → end ≤ y → y ≤ trace.now.last → HaveDecidedBy set decisions.now y }
    requires needed { IsNeeded set trace.now decisions.now
        (deadline_times trace.now.config start formula.now) (Some needed) }
    ensures factor { IfOk result
        (IsFrom (λ c. KeepsClaimInTime set trace.now decisions.now
        (deadline_times trace.now.config start formula.now c))) }
    ensures more { OnErr result (0 < end) }
{
    let mut analyst = PrefixAnalyst::new(trace, set);
    let mut so_far = Measured {
        factor: needed,
        ahead: beginning(),
    };
    while so_far.ahead.tick < end {
        match measure_at(alloc, &mut analyst, decisions, start, formula, so_far)? {
            Some(next) => {
                so_far = next;
            }
            None => return Ok(None),
        }
    }
    Ok(Some(so_far.factor))
}

/// Goes on with a search: by a glance at the last ticks of the next prefix, and at all if that isn't enough. None if no
/// factor is enough.
fn measure_at(
    alloc: Global,
    analyst: &mut PrefixAnalyst<'_>,
    decisions: &[Decision],
    start: u64,
    formula: &Formula,
    so_far: Measured,
) -> Result<Option<Measured>, AllocError>
    requires inside { so_far.ahead.tick ≤ analyst.old.seen.last }
    requires reached { IsReached analyst.old.set analyst.old.seen decisions.now
        (deadline_times analyst.old.seen.config start formula.now) so_far }
    ensures measured { IfOk result
        (IsMeasured analyst.old.set analyst.old.seen decisions.now
        (deadline_times analyst.old.seen.config start formula.now) so_far.ahead.tick) }
    ensures same { analyst.new ≡ analyst.old }
{
    let times = formula.times(alloc, so_far.factor)?;
    let ahead = glance_at(alloc, analyst, start, &times, so_far.ahead)?;
    if so_far.ahead.tick < ahead.tick {
        return Ok(Some(Measured { ahead, ..so_far }));
    }
    measure_all(alloc, analyst, decisions, start, formula, so_far)
}

/// Goes on with a search by all of the next prefix. None if no factor is enough.
fn measure_all(
    alloc: Global,
    analyst: &mut PrefixAnalyst<'_>,
    decisions: &[Decision],
    start: u64,
    formula: &Formula,
    so_far: Measured,
) -> Result<Option<Measured>, AllocError>
    requires inside { so_far.ahead.tick ≤ analyst.old.seen.last }
    requires reached { IsReached analyst.old.set analyst.old.seen decisions.now
        (deadline_times analyst.old.seen.config start formula.now) so_far }
    ensures measured { IfOk result
        (IsMeasured analyst.old.set analyst.old.seen decisions.now
        (deadline_times analyst.old.seen.config start formula.now) so_far.ahead.tick) }
    ensures same { analyst.new ≡ analyst.old }
{
    let x = so_far.ahead.tick;
    let report = report_until(alloc, analyst, x)?;
    let trace = analyst.trace();
    let rows = report.rows();
    match least_factor(trace, x, analyst.set(), rows, decisions, start, formula) {
        Some(own) => {
            let factor = greater(own, so_far.factor);
            let times = formula.times(alloc, factor)?;
            let ahead = next_look(trace, start, &times, rows, x);
            Ok(Some(Measured { factor, ahead }))
        }
        None => Ok(None),
    }
}

/// The greater of two numbers.
fn greater(a: u64, b: u64) -> u64
    ensures { result ≡ max a b }
{
    if a < b { b } else { a }
}
