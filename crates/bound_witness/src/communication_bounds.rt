//! Messages that are taken late, and the communication bound.

ghost use Rattle.std.specs.Prelude.{ℕ, ◌+◌, ◌<◌, ◌≤◌, ◌↔◌, length, IsTrue, IfSome, MatchOption};
ghost use Rattle.step_trace.specs.Processors.{IsWithin};
ghost use Rattle.step_trace.specs.Ticks.{tick_of, IsTimed};
ghost use Rattle.step_trace.specs.Bounds.{IsDelivered, DeltaHolds, DeltaHoldsFor, IsDelta};
ghost use Rattle.step_trace.specs.Witnesses.{IsMiss, IsNamedMiss, MissRefutes, NamesMiss};
ghost use Rattle.bound_witness.specs.LastMisses.{HasNoMiss, IsLastMiss};
ghost use Rattle.bound_witness.specs.TickWindows.{NoReceiveBetween, IsLastReceiveBetween};
ghost use Rattle.bound_witness.specs.WitnessSearches.{HasNoMissOf, SentHasNoMissOf, IsMissOfSent, IsSteadyMiss};

use crate::step_facts::{is_receive_between, takes};
use step_trace::{Miss, ProcSet, Trace, receiver};

/// The tick in which message `s` is taken; the tick after the last one if it isn't.
fn delivery(trace: &Trace, s: u64) -> u64
    ensures after { tick_of trace.now s < result }
    ensures end { result ≤ trace.now.last + 1 }
    ensures exact { (y : ℕ) → y ≤ trace.now.last → (IsDelivered trace.now s y ↔ (result ≤ y)) }
    ensures timed { IsTimed trace.now }
{
    let end = trace.last_tick() + 1;
    for no in 1..trace.len() as u64 + 1 {
        if takes(trace, no, s) {
            return trace.tick(no);
        }
    }
    end
}

/// The last Receive of processor `p` in a tick from `from` on and before `before`.
fn last_receive_between(trace: &Trace, p: u64, from: u64, before: u64) -> Option<u64>
    ensures { MatchOption result (NoReceiveBetween trace.now p from before)
        (IsLastReceiveBetween trace.now p from before) }
{
    for no in (1..trace.len() as u64 + 1).rev() {
        if is_receive_between(trace, no, p, from, before) {
            return Some(no);
        }
    }
    None
}

/// Whether this is a miss of the trace and the set.
fn is_miss(trace: &Trace, set: ProcSet, miss: Miss) -> bool
    ensures { IsTrue result ↔ IsMiss set trace.now miss }
{
    let Some(to) = receiver(trace, set, miss.sent) else {
        return false;
    };
    let first = trace.tick(miss.sent) + 1;
    is_receive_between(trace, miss.missed, to, first, delivery(trace, miss.sent))
}

/// The last miss of message `sent`: the one with the greatest `missed`. There is none if each Receive
/// of the receiver in a later tick than the Send's finds the message delivered. Nor is there one if
/// `sent` is no message from a member to a member. Takes no memory.
pub fn last_miss(trace: &Trace, set: ProcSet, sent: u64) -> Option<Miss>
    requires { IsWithin set trace.now.config.n }
    ensures { MatchOption result (HasNoMiss set trace.now sent) (IsLastMiss set trace.now sent) }
{
    let Some(to) = receiver(trace, set, sent) else {
        return None;
    };
    let first = trace.tick(sent) + 1;
    let delivered = delivery(trace, sent);
    let missed = last_receive_between(trace, to, first, delivered)?;
    Some(Miss { sent, missed })
}

/// Whether the communication bound `d` holds for message `s`.
fn delta_holds_for(trace: &Trace, set: ProcSet, s: u64, d: u64) -> bool
    requires { d ≤ trace.now.last }
    ensures { IsTrue result ↔ DeltaHoldsFor set trace.now s d }
{
    let Some(to) = receiver(trace, set, s) else {
        return true;
    };
    let first = trace.tick(s) + d;
    let delivered = delivery(trace, s);
    match last_receive_between(trace, to, first, delivered) {
        None => true,
        Some(_) => false,
    }
}

/// Whether the communication bound `d` holds from tick `g`.
fn delta_holds(trace: &Trace, set: ProcSet, g: u64, d: u64) -> bool
    requires { d ≤ trace.now.last }
    ensures { IsTrue result ↔ DeltaHolds set trace.now g d }
{
    for s in 1..trace.len() as u64 + 1 {
        if g <= trace.tick(s) && !delta_holds_for(trace, set, s, d) {
            return false;
        }
    }
    true
}

/// The least communication bound that holds from tick `g`.
fn least_delta(trace: &Trace, set: ProcSet, g: u64) -> u64
    ensures least { IsDelta set trace.now g result }
    ensures limit { result ≤ trace.now.last + 1 }
    ensures timed { IsTimed trace.now }
{
    let end = trace.last_tick() + 1;
    for d in 1..end {
        if delta_holds(trace, set, g, d) {
            return d;
        }
    }
    end
}

/// The miss of message `sent` of this length, if it is sent in tick `g` or later.
fn miss_of_length(trace: &Trace, set: ProcSet, g: u64, span: u64, sent: u64) -> Option<Miss>
    requires low { 1 ≤ sent }
    requires high { sent ≤ length trace.now.steps }
    requires span { span ≤ trace.now.last }
    ensures { MatchOption result (SentHasNoMissOf set trace.now g span sent)
        (IsMissOfSent set trace.now g span sent) }
{
    let from = trace.tick(sent);
    if from < g {
        return None;
    }
    for missed in 1..trace.len() as u64 + 1 {
        let miss = Miss { sent, missed };
        if trace.tick(missed) == from + span && is_miss(trace, set, miss) {
            return Some(miss);
        }
    }
    None
}

/// Of the misses of this length of messages sent in tick `g` or later, the one with the greatest Send.
fn last_miss_of_length(trace: &Trace, set: ProcSet, g: u64, span: u64) -> Option<Miss>
    requires span { span ≤ trace.now.last }
    requires timed { IsTimed trace.now }
    ensures { MatchOption result (HasNoMissOf set trace.now g span)
        (IsNamedMiss set trace.now g (span + 1)) }
{
    for sent in (1..trace.len() as u64 + 1).rev() {
        if let Some(miss) = miss_of_length(trace, set, g, span, sent) {
            return Some(miss);
        }
    }
    None
}

/// The least positive communication bound that holds from tick `g`, in ticks, which are the real-time
/// steps, and its witness (section 2 of the 1988 paper).
///
/// The witness of a bound above 1 refutes each smaller bound. It is one of the misses of messages sent
/// in `g` or later that are one tick shorter than the bound: the one with the greatest tick of its
/// Send, then the greatest number. At 1 there is none. Takes no memory.
pub fn delta_at(trace: &Trace, set: ProcSet, g: u64) -> (u64, Option<Miss>)
    requires set { IsWithin set trace.now.config.n }
    requires start { 1 ≤ g }
    requires end { g ≤ trace.now.last }
    ensures delta { IsDelta set trace.now g result.0 }
    ensures miss { NamesMiss set trace.now g result.0 result.1 }
    ensures steady { IsSteadyMiss set trace.now g result.0 result.1 }
    ensures refutes { IfSome result.1
        (λ m. (d : ℕ) → d < result.0 → MissRefutes set trace.now g d m) }
{
    let delta = least_delta(trace, set, g);
    if delta == 1 {
        return (delta, None);
    }
    (delta, last_miss_of_length(trace, set, g, delta - 1))
}
