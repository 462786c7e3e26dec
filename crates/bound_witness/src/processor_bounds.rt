//! Steps that members don't take, and the processor bound.

ghost use Rattle.std.specs.Prelude.{ℕ, ◌+◌, ◌^◌, ◌<◌, ◌≤◌, ◌↔◌, IsTrue, IfSome, MatchOption};
ghost use Rattle.step_trace.specs.Processors.{IsWithin};
ghost use Rattle.step_trace.specs.Bounds.{StepsWithin, PhiHolds, IsPhi};
ghost use Rattle.step_trace.specs.Witnesses.{IsNamedGap, GapRefutes, NamesGap};
ghost use Rattle.bound_witness.specs.WitnessSearches.{AllStepWithin, IsFirstSilent, IsSteadyGap};

use crate::step_facts::is_step_between;
use step_trace::{Gap, ProcSet, Trace};

/// Whether processor `p` takes a step in one of the `f` ticks from `x` on.
fn steps_within(trace: &Trace, p: u64, x: u64, f: u64) -> bool
    requires { x + f < 2 ^ 64 }
    ensures { IsTrue result ↔ StepsWithin trace.now p x f }
{
    for no in 1..trace.len() as u64 + 1 {
        if is_step_between(trace, no, p, x, x + f) {
            return true;
        }
    }
    false
}

/// The least member that takes no step in the `f` ticks from `x` on.
fn first_silent(trace: &Trace, set: ProcSet, x: u64, f: u64) -> Option<u64>
    requires set { IsWithin set trace.now.config.n }
    requires fits { x + f < 2 ^ 64 }
    ensures { MatchOption result (AllStepWithin set trace.now x f)
        (IsFirstSilent set trace.now x f) }
{
    for p in 1..trace.config().n() + 1 {
        if set.contains(p) && !steps_within(trace, p, x, f) {
            return Some(p);
        }
    }
    None
}

/// Whether the processor bound `f` holds from tick `g`.
fn phi_holds(trace: &Trace, set: ProcSet, g: u64, f: u64) -> bool
    requires set { IsWithin set trace.now.config.n }
    requires bound { f ≤ trace.now.last }
    ensures { IsTrue result ↔ PhiHolds set trace.now g f }
{
    for x in g..trace.last_tick() - f + 2 {
        if first_silent(trace, set, x, f).is_some() {
            return false;
        }
    }
    true
}

/// The least processor bound that holds from tick `g`.
fn least_phi(trace: &Trace, set: ProcSet, g: u64) -> u64
    requires set { IsWithin set trace.now.config.n }
    requires start { 1 ≤ g }
    ensures least { IsPhi set trace.now g result }
    ensures limit { result ≤ trace.now.last + 1 }
{
    let end = trace.last_tick() + 1;
    for f in 1..end {
        if phi_holds(trace, set, g, f) {
            return f;
        }
    }
    end
}

/// Of the gaps of this length that begin in tick `g` or later, the one with the greatest beginning,
/// then of the least processor.
fn last_gap_of_length(trace: &Trace, set: ProcSet, g: u64, span: u64) -> Option<Gap>
    requires set { IsWithin set trace.now.config.n }
    requires start { 1 ≤ g }
    requires positive { 1 ≤ span }
    requires bound { span ≤ trace.now.last }
    ensures { MatchOption result (PhiHolds set trace.now g span)
        (IsNamedGap set trace.now g (span + 1)) }
{
    for from in (g..trace.last_tick() - span + 2).rev() {
        if let Some(proc) = first_silent(trace, set, from, span) {
            return Some(Gap {
                proc,
                from,
                to: from + span - 1,
            });
        }
    }
    None
}

/// The least positive processor bound that holds from tick `g` to the last tick, in ticks, which are
/// the real-time steps, and its witness (section 2 of the 1988 paper).
///
/// The witness of a bound above 1 refutes each smaller bound. It is one of the gaps that begin in `g`
/// or later and are one tick shorter than the bound: the one with the greatest beginning, then of the
/// least processor. At 1 there is none. Takes no memory.
pub fn phi_at(trace: &Trace, set: ProcSet, g: u64) -> (u64, Option<Gap>)
    requires set { IsWithin set trace.now.config.n }
    requires start { 1 ≤ g }
    requires end { g ≤ trace.now.last }
    ensures phi { IsPhi set trace.now g result.0 }
    ensures gap { NamesGap set trace.now g result.0 result.1 }
    ensures steady { IsSteadyGap set trace.now g result.0 result.1 }
    ensures refutes { IfSome result.1
        (λ w. (f : ℕ) → f < result.0 → GapRefutes set trace.now g f w) }
{
    let phi = least_phi(trace, set, g);
    if phi == 1 {
        return (phi, None);
    }
    (phi, last_gap_of_length(trace, set, g, phi - 1))
}
