//! The events of a log of which its trace is made, if lost sends are left out or receives are merged.

ghost use Rattle.std.specs.Prelude.{◌≡◌, ◌<◌, ◌≤◌, ◌⊎◌, ℕ, [], Err, IfErr, IfOk, MatchBool, None};
ghost use Rattle.std.specs.Prelude.{Some, ⊤, false, length, map, slice_index, true};
ghost use Rattle.timed_events.specs.Checks.{AreOfProcessors};
ghost use Rattle.timed_events.specs.Times.{times_refusal};
ghost use Rattle.event_log.specs.LogPlaces.{log_place};
ghost use Rattle.event_log.specs.TakenEvents.{AreTaken, IsEmptied, IsTimesError, IsUnmergedOf, kept_count};
ghost use Rattle.event_log.specs.Logs.{seen_log};
ghost use Rattle.event_log.specs.LostSends.{AreLeft, left_places};
ghost use Rattle.event_log.specs.MergedLogs.{AreMergedIn, ArePartsWithin};
ghost use Rattle.event_log.specs.Naming.{is_memory};
ghost use Rattle.event_log.specs.SoundLogs.{IsSound};

use crate::joined_receives::{MergedEvents, first_places, merged_events};
use crate::log_places::LogPlaces;
use crate::logs::NamedEvents;
use crate::lost_sends::{LeftEvents, events_left};
use crate::names::NameSet;
use crate::reading::MAX_EVENTS;
use crate::refusals::LogError;
use merged_receives::Parts;
use std::alloc::{AllocError, Global};
use timed_events::{Clock, Event, EventError};

/// The events of a log of which its trace is made.
#[derive(Drop)]
pub(crate) struct TakenEvents {
    /// The nodes of the log.
    pub(crate) nodes: NameSet,
    /// Their messages are by the places of the sends among these events.
    pub(crate) events: Vec<Event>,
    /// Where they are in the log: the first ones if they are made of several.
    pub(crate) places: Vec<u32>,
    /// Where the events are in the log of which each is made, if receives are merged.
    pub(crate) parts: Option<Parts>,
    /// How many events are left before receives are merged.
    pub(crate) kept: usize,
}

/// The events of a log without lost sends, if `drop`, and then with merged receives, if `merge`. Asks for one of the
/// two.
///
/// Refuses NoEvents if none is left; UntilUnfit and TooManyTicks before receives are merged; and Memory.
pub(crate) fn taken_events(
    alloc: Global,
    log: NamedEvents,
    clock: &Clock,
    drop: bool,
    merge: bool,
) -> Result<TakenEvents, LogError>
    requires sound { IsSound (seen_log log) }
    requires width { 0 < clock.now.width }
    requires asked { drop ≡ false → merge ≡ true }
    ensures taken { IfOk result
        (λ t. AreTaken drop merge log.events.items clock.now t.events.items
        (Some t.places.items) t.parts) }
    ensures nodes { IfOk result (λ t. t.nodes ≡ log.nodes) }
    ensures kept { IfOk result (λ t. t.kept ≡ kept_count drop log.events.items) }
    ensures within { IfOk result (λ t. (k : ℕ) → k < length t.places.items
        → slice_index t.places.items k < MAX_EVENTS) }
    ensures parts { IfOk result (λ t. ArePartsWithin t.parts (length log.events.items)) }
    ensures some { IfOk result (λ t. 0 < length t.places.items) }
    ensures refused { IfErr result
        (λ why. MatchBool (is_memory why) ⊤ (IsEmptied drop log.events.items why
        ⊎ IsUnmergedOf drop merge log.events.items clock.now why)) }
{
    let NamedEvents { nodes, events, .. } = log;
    if !drop {
        return merged_in(alloc, nodes, events, clock, &LogPlaces::all());
    }
    let kept = kept_events(alloc, events)?;
    if !merge {
        return Ok(unmerged(nodes, kept));
    }
    let LeftEvents { events, places } = kept;
    merged_in(alloc, nodes, events, clock, &LogPlaces::of(places))
}

/// The events but lost sends.
///
/// Refuses NoEvents if none is left, and Memory.
fn kept_events(alloc: Global, events: Vec<Event>) -> Result<LeftEvents, LogError>
    requires few { length events.items ≤ MAX_EVENTS }
    ensures left { IfOk result (λ left. AreLeft events.items left.events.items left.places.items) }
    ensures within { IfOk result (λ left. (k : ℕ) → k < length left.places.items
        → slice_index left.places.items k < length events.items) }
    ensures some { IfOk result (λ left. 0 < length left.places.items) }
    ensures refused { IfErr result
        (λ why. MatchBool (is_memory why) ⊤ ((left_places events.items ≡ [])
        × (why ≡ LogError.NoEvents))) }
{
    let Ok(left) = events_left(alloc, events) else {
        return Err(LogError::Memory);
    };
    if left.places.len() == 0 {
        return Err(LogError::NoEvents);
    }
    Ok(left)
}

/// Events of these nodes, of which none is made of several.
fn unmerged(nodes: NameSet, left: LeftEvents) -> TakenEvents
    ensures nodes { result.nodes ≡ nodes }
    ensures events { result.events.items ≡ left.events.items }
    ensures places { result.places.items ≡ left.places.items }
    ensures parts { result.parts ≡ None }
    ensures kept { result.kept ≡ length left.events.items }
{
    let LeftEvents { events, places } = left;
    let kept = events.len();
    TakenEvents {
        nodes,
        events,
        places,
        parts: None,
        kept,
    }
}

/// Events of these nodes, where they are at these places of a log, with merged receives.
///
/// Refuses UntilUnfit and TooManyTicks, in this order, and Memory.
fn merged_in(
    alloc: Global,
    nodes: NameSet,
    events: Vec<Event>,
    clock: &Clock,
    at: &LogPlaces,
) -> Result<TakenEvents, LogError>
    requires some { 0 < length events.items }
    requires few { length events.items ≤ MAX_EVENTS }
    requires processors { AreOfProcessors events.items }
    requires width { 0 < clock.now.width }
    ensures merged { IfOk result
        (λ t. AreMergedIn events.items clock.now at.now t.events.items t.places.items
        t.parts) }
    ensures nodes { IfOk result (λ t. t.nodes ≡ nodes) }
    ensures kept { IfOk result (λ t. t.kept ≡ length events.items) }
    ensures refused { IfErr result
        (λ why. MatchBool (is_memory why) ⊤ ((reason : EventError)
        × (times_refusal events.items clock.now ≡ Some reason) × IsTimesError reason why)) }
{
    let kept = events.len();
    let merged = match merged_events(alloc, events, clock) {
        Ok(merged) => merged,
        Err(why) => return Err(times_error(why)),
    };
    match placed_in(alloc, nodes, merged, kept, at) {
        Ok(taken) => Ok(taken),
        Err(_) => Err(LogError::Memory),
    }
}

/// The refusal of a log for a reason against the times of its events, or Memory.
fn times_error(why: EventError) -> LogError
    ensures { MatchBool (is_memory result) ⊤ (IsTimesError why result) }
{
    match why {
        EventError::UntilTooEarly => LogError::UntilUnfit,
        EventError::TooManyTicks => LogError::TooManyTicks,
        _ => LogError::Memory,
    }
}

/// Events of these nodes with merged receives, of so many, by their places in the log.
fn placed_in(
    alloc: Global,
    nodes: NameSet,
    merged: MergedEvents,
    kept: usize,
    at: &LogPlaces,
) -> Result<TakenEvents, AllocError>
    ensures nodes { IfOk result (λ t. t.nodes ≡ nodes) }
    ensures events { IfOk result (λ t. t.events.items ≡ merged.events.items) }
    ensures parts { IfOk result
        (λ t. t.parts ≡ Some
        (map (map (log_place at.now)) merged.parts)) }
    ensures places { IfOk result
        (λ t. t.places.items ≡ map (λ part. slice_index part 0)
        (map (map (log_place at.now)) merged.parts)) }
    ensures kept { IfOk result (λ t. t.kept ≡ kept) }
{
    let MergedEvents { events, parts } = merged;
    let parts = at.of_parts(parts);
    let places = first_places(alloc, &parts)?;
    Ok(TakenEvents {
        nodes,
        events,
        places,
        parts: Some(parts),
        kept,
    })
}
