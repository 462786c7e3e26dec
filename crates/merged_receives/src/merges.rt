//! The events of which each is made if receives are merged.

ghost use Rattle.std.specs.Prelude.{◌≡◌, ◌<◌, ◌≤◌, ◌+◌, ◌==◌, ℕ, Err, IfErr, IfOk, None, if◌then◌else◌, length};
ghost use Rattle.std.specs.Prelude.{slice_index};
ghost use Rattle.timed_events.specs.Causes.{IsTimeOrder};
ghost use Rattle.timed_events.specs.Checks.{AreOfProcessors, IsEventRefusal};
ghost use Rattle.timed_events.specs.Times.{times_refusal};
ghost use Rattle.merged_receives.specs.Merges.{AreMerged};
ghost use Rattle.merged_receives.specs.MergeWalks.{AreHeadsOf, AreParts, AreRising, head_if, own_parts, places_before};

use crate::actors::actors_of;
use crate::counting::{ends_of, places_by_head, put_begins, sizes_of};
use crate::parts::Parts;
use std::alloc::{AllocError, Global};
use step_trace::{MAX_PROCESSORS, MAX_STEPS};
use timed_events::{Clock, Event, EventError, span_of, ticks_of, time_order_of};

/// The events of which each is made that stays if receives are merged.
#[derive(Drop)]
pub struct MergedParts {
    /// Of each event that stays the places of those of which it is made, in the order of their times.
    pub parts: Parts,
    /// Of each event how many before it stay.
    pub places: Vec<u32>,
}

/// The receives of a processor in one tick of their times as one, if it sends nothing between them.
///
/// Asks for events of processors, at least one and at most `MAX_STEPS`. Refuses UntilTooEarly and TooManyTicks, in this
/// order, and Memory.
pub fn merged_parts(
    alloc: Global,
    events: &[Event],
    clock: &Clock,
) -> Result<MergedParts, EventError>
    requires some { 0 < length events.now }
    requires few { length events.now ≤ MAX_STEPS }
    requires processors { AreOfProcessors events.now }
    requires width { 0 < clock.now.width }
    ensures merged { IfOk result
        (λ m. AreMerged events.now clock.now m.parts m.places.items) }
    ensures inside { IfOk result (λ m. AreParts (length events.now) m.parts) }
    ensures some { IfOk result (λ m. 0 < length m.parts) }
    ensures refused { IfErr result
        (λ why. IsEventRefusal why (times_refusal events.now clock.now)) }
    ensures more { result ≡ Err EventError.Memory → times_refusal events.now clock.now ≡ None }
{
    let span = span_of(events, clock)?;
    let order = time_order_of(alloc, events)?;
    let ticks = ticks_of(alloc, events, clock, span.least)?;
    let heads = heads_of(alloc, events, &ticks, &order)?;
    let parts = parts_of(alloc, &heads, &order)?;
    let places = places_before(alloc, &heads)?;
    Ok(MergedParts { parts, places })
}

/// Of each event the one into which it is merged, or itself.
fn heads_of(
    alloc: Global,
    events: &[Event],
    ticks: &[u32],
    order: &[u32],
) -> Result<Vec<u32>, AllocError>
    requires few { length events.now ≤ MAX_STEPS }
    requires processors { AreOfProcessors events.now }
    requires long { length ticks.now ≡ length events.now }
    requires ordered { IsTimeOrder events.now order.now }
    requires rising { AreRising ticks.now order.now }
    ensures { IfOk result (λ heads. AreHeadsOf events.now ticks.now heads.items) }
{
    let none = events.len() as u32;
    let actors = actors_of(alloc, events)?;
    let mut opens = vec![in alloc; none; MAX_PROCESSORS as usize]?;
    let mut heads = vec![in alloc; none; events.len()]?;
    for k in 0..order.len() {
        let place = order[k] as usize;
        let actor = actors[place];
        let processor = actor.processor as usize - 1;
        let head = head_of(actor.receives, ticks, opens[processor], place);
        heads[place] = head;
        opens[processor] = open_after(actor.receives, head, none);
    }
    Ok(heads)
}

/// The event into which the one at a place is merged, or itself: if it receives in the tick of the receive of its
/// processor that is open. The number of all events denotes that none is.
fn head_of(receives: bool, ticks: &[u32], latest: u32, place: usize) -> u32
    requires inside { place < length ticks.now }
    requires few { length ticks.now ≤ MAX_STEPS }
    ensures { result ≡ head_if receives (length ticks.now) ticks.now latest place }
{
    if !receives {
        return place as u32;
    }
    let last = latest as usize;
    if last >= ticks.len() {
        return place as u32;
    }
    if ticks[last] != ticks[place] {
        return place as u32;
    }
    latest
}

/// The receive of a processor that is open after one of its events, whose head this is: none if it sends.
fn open_after(receives: bool, head: u32, none: u32) -> u32
    ensures { result ≡ (if receives then head else none) }
{
    if receives {
        return head;
    }
    none
}

/// Of each event that is some event's head the events of which it is the head, in their order.
fn parts_of(alloc: Global, heads: &[u32], order: &[u32]) -> Result<Parts, AllocError>
    requires few { length order.now ≤ MAX_STEPS }
    requires order { (k : ℕ) → k < length order.now → slice_index order.now k < length heads.now }
    requires heads { (i : ℕ) → i < length heads.now → slice_index heads.now i < length heads.now }
    ensures { IfOk result (λ parts. parts ≡ own_parts heads.now order.now) }
{
    let mut sizes = sizes_of(alloc, heads, order)?;
    let ends = ends_of(alloc, &sizes)?;
    put_begins(&mut sizes);
    let places = places_by_head(alloc, heads, order, &mut sizes)?;
    Ok(Parts::new(ends, places))
}

/// Of each event how many before it are their own heads.
fn places_before(alloc: Global, heads: &[u32]) -> Result<Vec<u32>, AllocError>
    requires { length heads.now ≤ MAX_STEPS }
    ensures { IfOk result (λ places. places.items ≡ places_before heads.now) }
{
    let mut places = Vec::with_capacity(alloc, heads.len())?;
    let mut count = 0;
    for (place, head) in heads.iter().enumerate() {
        places.push(count)?;
        count = counted(count, *head, place);
    }
    Ok(places)
}

/// One more, if an event is its own head.
fn counted(count: u32, head: u32, place: usize) -> u32
    requires { count < MAX_STEPS }
    ensures { result ≡ count + (if head == place then 1 else 0) }
{
    if head as usize == place {
        return count + 1;
    }
    count
}
