//! The events of a log but the sends of messages that no record receives.

ghost use Rattle.std.specs.Prelude.{◌≡◌, ◌==◌, ◌||◌, ◌∷◌, ◌++◌, [], ◌<◌, ◌≤◌, if◌then◌else◌, ℕ, IfOk};
ghost use Rattle.std.specs.Prelude.{OnOk, false, length, map, slice_index, slice_index_or};
ghost use Rattle.std.specs.List.{list_any};
ghost use Rattle.event_log.specs.Events.{seen};
ghost use Rattle.event_log.specs.LostSends.{AreLeft, is_lost, is_received, left_event};
ghost use Rattle.event_log.specs.LostSends.{left_message, left_places, new_places};

use crate::kept_events::kept_at;
use crate::reading::MAX_EVENTS;
use std::alloc::{AllocError, Global};
use timed_events::{Event, EventAct, Hop, Messages, hops_of};

/// The events of a log but lost sends.
#[derive(Drop)]
pub(crate) struct LeftEvents {
    /// Their messages are by the places of the sends among these events.
    pub(crate) events: Vec<Event>,
    /// The places of these events among all.
    pub(crate) places: Vec<u32>,
}

/// The events but the sends of messages that none of them received. Takes no second list of events.
pub(crate) fn events_left(alloc: Global, events: Vec<Event>) -> Result<LeftEvents, AllocError>
    requires few { length events.items ≤ MAX_EVENTS }
    ensures left { IfOk result (λ left. AreLeft events.items left.events.items left.places.items) }
    ensures within { IfOk result (λ left. (k : ℕ) → k < length left.places.items
        → slice_index left.places.items k < length events.items) }
{
    let received = received_sends(alloc, events.as_slice())?;
    let places = places_left(alloc, events.as_slice(), &received)?;
    let left = renumbered(alloc, kept_at(events, &places.old), &places.new)?;
    Ok(LeftEvents {
        events: left,
        places: places.old,
    })
}

/// Of each event whether some event received its message.
fn received_sends(alloc: Global, events: &[Event]) -> Result<Vec<bool>, AllocError>
    requires few { length events.now ≤ MAX_EVENTS }
    ensures received { IfOk result (λ v. (s : ℕ) → s < length events.now
        → slice_index_or v.items s false ≡ is_received events.now s) }
{
    let hops = hops_of(alloc, events)?;
    marked(alloc, &hops, events.len())
}

/// Of each of so many places whether some hop has its message.
fn marked(alloc: Global, hops: &[Hop], count: usize) -> Result<Vec<bool>, AllocError>
    ensures { IfOk result (λ v. (s : ℕ) → s < count
        → slice_index_or v.items s false ≡ list_any (λ hop. hop.message == s) hops.now) }
{
    let mut marks = vec![in alloc; false; count]?;
    for hop in hops {
        mark(&mut marks, hop.message as usize);
    }
    Ok(marks)
}

/// Marks a place, if there is such a one.
fn mark(marks: &mut Vec<bool>, place: usize)
    ensures long { length marks.new.items ≡ length marks.old.items }
    ensures marked { (s : ℕ) → s < length marks.old.items
        → slice_index_or marks.new.items s false
        ≡ (slice_index_or marks.old.items s false || place == s) }
{
    if place < marks.len() {
        marks[place] = true;
    }
}

/// The places of the events that are left, and of each event how many are left before it.
#[derive(Drop)]
struct Places {
    old: Vec<u32>,
    new: Vec<u32>,
}

/// The places of the events but lost sends.
fn places_left(alloc: Global, events: &[Event], received: &[bool]) -> Result<Places, AllocError>
    requires few { length events.now ≤ MAX_EVENTS }
    requires received { (s : ℕ) → s < length events.now
        → slice_index_or received.now s false ≡ is_received events.now s }
    ensures old { IfOk result (λ places. places.old.items ≡ left_places events.now) }
    ensures new { IfOk result (λ places. places.new.items ≡ new_places events.now) }
    ensures within { IfOk result (λ places. (k : ℕ) → k < length places.old.items
        → slice_index places.old.items k < length events.now) }
{
    let mut old = Vec::with_capacity(alloc, events.len())?;
    let mut new = Vec::with_capacity(alloc, events.len())?;
    for place in 0..events.len() {
        new.push(old.len() as u32)?;
        push_left(&mut old, place, is_lost(events, received, place))?;
    }
    Ok(Places { old, new })
}

/// Puts a place last, unless its event is lost.
fn push_left(places: &mut Vec<u32>, place: usize, lost: bool) -> Result<(), AllocError>
    requires { place < MAX_EVENTS }
    ensures { OnOk result
        (places.new.items ≡ (if lost then places.old.items else places.old.items ++ place ∷ [])) }
{
    if lost {
        return Ok(());
    }
    places.push(place as u32)?;
    Ok(())
}

/// Whether the event at a place sends a message that no event received.
fn is_lost(events: &[Event], received: &[bool], place: usize) -> bool
    requires inside { place < length events.now }
    requires received { slice_index_or received.now place false ≡ is_received events.now place }
    ensures { result ≡ is_lost events.now place }
{
    match events[place].act {
        EventAct::Send { .. } => !received.get(place).copied().unwrap_or(false),
        EventAct::Receive { .. } => false,
    }
}

/// The events, with their messages by the new places of the sends. Takes no second list of events.
pub(crate) fn renumbered(
    alloc: Global,
    events: Vec<Event>,
    places: &[u32],
) -> Result<Vec<Event>, AllocError>
    ensures { IfOk result
        (λ v. map seen v.items ≡ map (left_event places.now) (map seen events.items)) }
{
    let mut renumbered = events;
    for event in renumbered.iter_mut() {
        renumber(alloc, event, places)?;
    }
    Ok(renumbered)
}

/// Puts the messages of an event by the new places of the sends.
fn renumber(alloc: Global, event: &mut Event, places: &[u32]) -> Result<(), AllocError>
    ensures { OnOk result (seen event.new ≡ left_event places.now (seen event.old)) }
{
    let left = match &event.act {
        EventAct::Send { .. } => return Ok(()),
        EventAct::Receive { messages } => left_messages(alloc, messages.as_slice(), places)?,
    };
    event.act = EventAct::Receive { messages: left };
    Ok(())
}

/// The messages by the new places of the sends. Takes memory only if there is more than one.
fn left_messages(
    alloc: Global,
    messages: &[Option<u32>],
    places: &[u32],
) -> Result<Messages, AllocError>
    ensures { IfOk result (λ left. left ≡ map (left_message places.now) messages.now) }
{
    if messages.len() == 1 {
        return Messages::copied(alloc, &[left_message(messages[0], places)]);
    }
    let mut left = Vec::with_capacity(alloc, messages.len())?;
    for message in messages {
        left.push(left_message(*message, places))?;
    }
    Messages::new(alloc, left)
}

/// A message by the new place of its send.
pub(crate) fn left_message(message: Option<u32>, places: &[u32]) -> Option<u32>
    ensures { result ≡ left_message places.now message }
{
    let sent = message?;
    places.get(sent as usize).copied()
}
