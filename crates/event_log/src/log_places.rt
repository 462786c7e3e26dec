//! Where the events that are left of a log are in it.

ghost use Rattle.std.specs.Prelude.{◌≡◌, ◌<◌, ◌^◌, ℕ, [], IfOk, None, Some, length};
ghost use Rattle.std.specs.Prelude.{map, option_map, slice_index, slice_index_or};
ghost use Rattle.timed_events.specs.declared.cause_cycles.Hop.{Hop};
ghost use Rattle.merged_receives.specs.MergeWalks.{AreParts};
ghost use Rattle.event_log.specs.LogPlaces.{hop_in, log_place, moved_in, place_in, reason_in, source_in, source_of};
ghost use Rattle.event_log.specs.MergedLogs.{ArePartsWithin};

use merged_receives::Parts;
use std::alloc::{AllocError, Global};
use std::marker::Model;
use timed_events::{Event, EventError, Hop, Moved};

/// Where the events that are left of a log are in it: each at its own place, or at these.
#[derive(Drop)]
pub(crate) struct LogPlaces {
    places: Option<Vec<u32>>,
}

impl Model for LogPlaces {
    ghost use Rattle.std.specs.Prelude.{ℕ, List, Option, option_map};

    ghost Value = { Option (List ℕ) };

    ghost view = { λ p. option_map (λ v. v.items) p.places };
}

impl LogPlaces {
    /// Each event is at its own place.
    pub(crate) fn all() -> LogPlaces
        ensures { result ≡ None }
    {
        LogPlaces { places: None }
    }

    /// The events are at these places.
    pub(crate) fn of(places: Vec<u32>) -> LogPlaces
        ensures { result ≡ Some places.items }
    {
        LogPlaces {
            places: Some(places),
        }
    }

    /// The place in the log of the event at this place.
    pub(crate) fn at(&self, place: usize) -> usize
        requires { place < 2 ^ 32 }
        ensures is { result ≡ log_place self.now place }
        ensures small { result < 2 ^ 32 }
    {
        match &self.places {
            None => place,
            Some(places) => place_in(places, place) as usize,
        }
    }

    /// Parts of events by the places of these in the log. Takes no memory.
    pub(crate) fn of_parts(&self, parts: Parts) -> Parts
        ensures { result ≡ map (map (log_place self.now)) parts }
    {
        match &self.places {
            None => parts,
            Some(places) => {
                let mut parts = parts;
                parts.renumber(places);
                parts
            }
        }
    }
}

/// The place in the log of the event at a place among those that are at these places; 0 if there is none.
pub fn place_in(places: &[u32], place: usize) -> u32
    ensures { result ≡ place_in places.now place }
{
    match places.get(place) {
        Some(place) => *place,
        None => 0,
    }
}

/// How far events moved, by the place of the farthest in the log.
pub fn moved_in(places: &[u32], moved: Moved) -> Moved
    ensures { result ≡ moved_in (Some places.now) moved }
{
    let farthest = match moved.farthest {
        Some(place) => Some(place_in(places, place) as usize),
        None => None,
    };
    Moved {
        events: moved.events,
        ticks: moved.ticks,
        farthest,
    }
}

/// The place in the log of the event that received message `message` of the event at a place, and which of its messages
/// it is.
fn source_in(
    events: &[Event],
    places: &[u32],
    parts: &Option<Parts>,
    event: usize,
    message: usize,
) -> (usize, usize)
    requires { ArePartsWithin parts.now (length events.now) }
    ensures { result ≡ source_in events.now places.now parts.now event message }
{
    match parts {
        None => (place_in(places, event) as usize, message),
        Some(parts) => source_at(events, parts, event, message),
    }
}

/// The same if each event is made of events of the log.
fn source_at(events: &[Event], parts: &Parts, event: usize, message: usize) -> (usize, usize)
    requires { AreParts (length events.now) parts.now }
    ensures { result ≡ source_of events.now (slice_index_or parts.now event []) message }
{
    source_of(events, parts.part(event), message)
}

/// The same of an event that is made of these events of the log.
fn source_of(events: &[Event], part: &[u32], message: usize) -> (usize, usize)
    requires { (k : ℕ) → k < length part.now → slice_index part.now k < length events.now }
    ensures { result ≡ source_of events.now part.now message }
{
    let mut message = message;
    for place in part {
        let place = *place as usize;
        let count = events[place].act.messages().len();
        if message < count {
            return (place, message);
        }
        message -= count;
    }
    (0, message)
}

/// A reason by the place of its event in the log: against a message by that of the event that received it.
pub(crate) fn reason_in(
    events: &[Event],
    places: &[u32],
    parts: &Option<Parts>,
    why: EventError,
) -> EventError
    requires { ArePartsWithin parts.now (length events.now) }
    ensures { result ≡ reason_in events.now places.now parts.now why }
{
    match why {
        EventError::NeverSent { event, message } => {
            let (event, message) = source_in(events, places, parts, event, message);
            EventError::NeverSent { event, message }
        }
        EventError::WrongReceiver { event, message } => {
            let (event, message) = source_in(events, places, parts, event, message);
            EventError::WrongReceiver { event, message }
        }
        EventError::ReceivedBefore { event, message } => {
            let (event, message) = source_in(events, places, parts, event, message);
            EventError::ReceivedBefore { event, message }
        }
        EventError::NotLater {
            event,
            message,
            hint,
        } => {
            let (event, message) = source_in(events, places, parts, event, message);
            EventError::NotLater {
                event,
                message,
                hint,
            }
        }
        EventError::SecondEvent { event, tick, hint } => EventError::SecondEvent {
            event: place_in(places, event) as usize,
            tick,
            hint,
        },
        EventError::Cycle { event } => EventError::Cycle {
            event: place_in(places, event) as usize,
        },
        EventError::UntilTooEarly => EventError::UntilTooEarly,
        EventError::TooManyTicks => EventError::TooManyTicks,
        EventError::Memory => EventError::Memory,
    }
}

/// Hops by the places of their events in the log.
pub(crate) fn hops_in(alloc: Global, places: &[u32], hops: &[Hop]) -> Result<Vec<Hop>, AllocError>
    ensures { IfOk result (λ v. v.items ≡ map (hop_in places.now) hops.now) }
{
    let mut placed = Vec::with_capacity(alloc, hops.len())?;
    for hop in hops {
        placed.push(hop_in(places, *hop))?;
    }
    Ok(placed)
}

/// A hop by the places of its events in the log.
fn hop_in(places: &[u32], hop: Hop) -> Hop
    ensures { result ≡ hop_in places.now hop }
{
    Hop {
        event: place_in(places, hop.event as usize),
        message: place_in(places, hop.message as usize),
    }
}
