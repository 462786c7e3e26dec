//! A cycle of clocks whose messages no offsets bring into order.

ghost use Rattle.std.specs.Prelude.{◌≡◌, ◌≤◌, ◌-ℤ◌, IfOk, IfSome, IsTrue, length, nat_le};
ghost use Rattle.timed_events.specs.Causes.{IsSentTo};
ghost use Rattle.std.specs.List.{list_all, list_any};
ghost use Rattle.timed_events.specs.Checks.{is_message, time_at};
ghost use Rattle.clock_offsets.specs.ClockCycles.{BeginAtFirst, IsClockCycle, IsClockHop};

use crate::needs::{clock_at, needs_among};
use crate::offsets::{CLOCKS, by_way_of, is_ahead};
use crate::refusals::OffsetError;
use std::alloc::{AllocError, Global};
use step_trace::MAX_STEPS;
use timed_events::{Event, Hop, hops_of, time_at};

/// A message on its way from one clock to another.
#[derive(Clone, Copy, Debug, PartialEq, Eq)]
pub struct ClockHop {
    /// The place of the event that received it.
    pub event: u32,
    /// The place of the event that sent it.
    pub message: u32,
    /// How long it took by the times, which is below 0 if it was received before it was sent.
    pub took: i128,
}

/// Messages that lead from a clock back to it and take together less than one unit each.
#[derive(Debug, Drop)]
pub struct ClockCycle {
    pub hops: Vec<ClockHop>,
    /// How long they take together.
    pub total: i128,
}

/// A cycle of clocks whose messages no offsets bring into order, begun at the first of its events: why `clock_offsets`
/// refuses. It isn't promised that an existing cycle is found.
///
/// Refuses TooFar for sums of times that no 128 bits hold, and Memory.
pub fn clock_cycle(alloc: Global, events: &[Event]) -> Result<Option<ClockCycle>, OffsetError>
    requires few { length events.now ≤ MAX_STEPS }
    ensures cycle { IfOk result (λ cycle. IfSome cycle (λ c. IsClockCycle events.now c)) }
{
    let hops = hops_of(alloc, events)?;
    let round = short_round(alloc, events, &hops)?;
    let round = begun_at_first(alloc, &round)?;
    Ok(tested_cycle(alloc, events, &round)?)
}

/// Messages that lead from a clock back to it, by the greatest needs that follow by way of other clocks. None if none
/// is to be ahead of itself. What it gives is tested elsewhere.
fn short_round(alloc: Global, events: &[Event], hops: &[Hop]) -> Result<Vec<Hop>, OffsetError> {
    let mut through = needs_among(alloc, events, hops)?;
    let mut firsts = first_hops(alloc, events, hops)?;
    for clock in 0..CLOCKS {
        if is_ahead(through[clock * CLOCKS + clock]) {
            return Ok(followed(alloc, events, &firsts, clock)?);
        }
        let next = by_way_of(alloc, &through, clock)?;
        turn_firsts(&through, &next, clock, &mut firsts);
        through = next;
    }
    Ok(Vec::new(alloc))
}

/// For each two clocks the message between them that needs most, the first of several; row after row.
fn first_hops(
    alloc: Global,
    events: &[Event],
    hops: &[Hop],
) -> Result<Vec<Option<Hop>>, AllocError> {
    let mut firsts = vec![in alloc; None; CLOCKS * CLOCKS]?;
    for hop in hops {
        let from = clock_at(events, hop.message as usize);
        let to = clock_at(events, hop.event as usize);
        if let Some(first) = firsts.get_mut(from.saturating_mul(CLOCKS).saturating_add(to)) {
            if is_tighter(events, *hop, *first) {
                *first = Some(*hop);
            }
        }
    }
    Ok(firsts)
}

/// Whether a message took less than another.
fn is_tighter(events: &[Event], hop: Hop, than: Option<Hop>) -> bool {
    let Some(than) = than else {
        return true;
    };
    match (took(events, hop), took(events, than)) {
        (Some(less), Some(more)) => less < more,
        _ => false,
    }
}

/// How long a message took, if a number holds it.
fn took(events: &[Event], hop: Hop) -> Option<i128>
    ensures { IfSome result
        (λ took. took ≡ time_at events.now hop.event -ℤ time_at events.now hop.message) }
{
    let received = time_at(events, hop.event as usize);
    let sent = time_at(events, hop.message as usize);
    received.checked_sub(sent)
}

/// If a need by way of a clock is greater, its first message is that to the clock.
fn turn_firsts(
    through: &[Option<i128>],
    next: &[Option<i128>],
    clock: usize,
    firsts: &mut Vec<Option<Hop>>,
) {
    for place in 0..firsts.len() {
        if next.get(place) != through.get(place) {
            let by_way = (place / CLOCKS * CLOCKS).saturating_add(clock);
            if let Some(first) = firsts.get(by_way) {
                firsts[place] = *first;
            }
        }
    }
}

/// The messages that lead from a clock back to it, each the first on its way.
fn followed(
    alloc: Global,
    events: &[Event],
    firsts: &[Option<Hop>],
    clock: usize,
) -> Result<Vec<Hop>, AllocError> {
    let mut round = Vec::new(alloc);
    let mut at = clock;
    for _ in 0..CLOCKS {
        let place = at.saturating_mul(CLOCKS).saturating_add(clock);
        let Some(Some(hop)) = firsts.get(place) else {
            return Ok(round);
        };
        round.push(*hop)?;
        at = clock_at(events, hop.event as usize);
        if at == clock {
            return Ok(round);
        }
    }
    Ok(round)
}

/// The same round, begun at the first of its events.
fn begun_at_first(alloc: Global, round: &[Hop]) -> Result<Vec<Hop>, AllocError> {
    let mut first = 0;
    for place in 0..round.len() {
        if round[place].event < round[first].event {
            first = place;
        }
    }
    let mut turned = Vec::from_slice(alloc, &round[first..])?;
    turned.extend_from_slice(&round[..first])?;
    Ok(turned)
}

/// The cycle of clocks that these messages are; nothing if they are none.
fn tested_cycle(
    alloc: Global,
    events: &[Event],
    round: &[Hop],
) -> Result<Option<ClockCycle>, AllocError>
    ensures cycle { IfOk result (λ cycle. IfSome cycle (λ c. IsClockCycle events.now c)) }
{
    let Some(first) = round.first() else {
        return Ok(None);
    };
    let clock = clock_at(events, first.message as usize);
    let mut at = clock;
    let mut total = 0;
    let mut hops = Vec::with_capacity(alloc, round.len())?;
    for hop in round {
        let Some(next) = clock_hop(events, *hop, at) else {
            return Ok(None);
        };
        let Some(sum) = i128::checked_add(total, next.took) else {
            return Ok(None);
        };
        hops.push(next)?;
        total = sum;
        at = clock_at(events, hop.event as usize);
    }
    if at != clock || total >= hops.len() as i128 || !begin_at_first(&hops) {
        return Ok(None);
    }
    Ok(Some(ClockCycle { hops, total }))
}

/// Whether the first of these events is the one at the least place.
fn begin_at_first(hops: &[ClockHop]) -> bool
    ensures { IsTrue result → BeginAtFirst hops.now }
{
    match hops.first() {
        Some(first) => are_from(hops, first.event),
        None => true,
    }
}

/// Whether none of these events is at a lesser place.
fn are_from(hops: &[ClockHop], place: u32) -> bool
    ensures { result ≡ list_all (λ hop. nat_le place hop.event) hops.now }
{
    hops.iter().all(|hop| place <= hop.event)
}

/// A message that was sent from a clock, with how long it took; nothing if it wasn't.
fn clock_hop(events: &[Event], hop: Hop, from: usize) -> Option<ClockHop>
    ensures hop { IfSome result (λ h. IsClockHop events.now from h) }
    ensures same { IfSome result (λ h. (h.event ≡ hop.event) × (h.message ≡ hop.message)) }
{
    if clock_at(events, hop.message as usize) != from || !is_received(events, hop) {
        return None;
    }
    let took = took(events, hop)?;
    Some(ClockHop {
        event: hop.event,
        message: hop.message,
        took,
    })
}

/// Whether an event received a message that an event sent.
fn is_received(events: &[Event], hop: Hop) -> bool
    ensures { IsTrue result → IsSentTo events.now hop.event hop.message }
{
    let Some(event) = events.get(hop.event as usize) else {
        return false;
    };
    if hop.message as usize >= events.len() {
        return false;
    }
    has_message(event.act.messages(), hop.message)
}

/// Whether a message is among these.
fn has_message(messages: &[Option<u32>], sent: u32) -> bool
    ensures { result ≡ list_any (is_message sent) messages.now }
{
    messages.iter().any(|message| is_message(*message, sent))
}

/// Whether this is that message.
fn is_message(message: Option<u32>, sent: u32) -> bool
    ensures { result ≡ is_message sent message }
{
    match message {
        Some(message) => message == sent,
        None => false,
    }
}
