//! The events of a log with the receives of a node in one tick as one event, if the node sends nothing between them.

ghost use Rattle.std.specs.Prelude.{◌≡◌, ◌<◌, ◌≤◌, ◌++◌, ℕ, IfErr, IfOk, OnOk, Some, fold, length, map, slice_index};
ghost use Rattle.std.specs.List.Sorted.{IsStrictlyIncreasing};
ghost use Rattle.timed_events.specs.Checks.{AreOfProcessors, IsEventRefusal, messages_at};
ghost use Rattle.timed_events.specs.Times.{times_refusal};
ghost use Rattle.merged_receives.specs.MergeWalks.{AreParts};
ghost use Rattle.event_log.specs.Events.{seen};
ghost use Rattle.event_log.specs.LostSends.{left_message};
ghost use Rattle.event_log.specs.Merges.{AreJoined, joined_at, joined_from, joined_messages, joined_receive};
ghost use Rattle.event_log.specs.Merges.{with_messages};

use crate::kept_events::kept_at;
use crate::log_places::place_in;
use crate::lost_sends::{left_message, renumbered};
use crate::reading::MAX_EVENTS;
use merged_receives::{MergedParts, Parts, merged_parts};
use std::alloc::{AllocError, Global};
use timed_events::{Clock, Event, EventAct, EventError, Messages};

/// The events of a log, of which some are made of several receives.
#[derive(Drop)]
pub(crate) struct MergedEvents {
    /// Their messages are by the places of the sends among these events.
    pub(crate) events: Vec<Event>,
    /// Of each the places of the events of which it is made, in the order of their times.
    pub(crate) parts: Parts,
}

/// The events with the receives of a node in one tick as one event, if the node sends nothing between them. Takes no
/// second list of events.
///
/// Refuses the first reason against the times, and Memory.
pub(crate) fn merged_events(
    alloc: Global,
    events: Vec<Event>,
    clock: &Clock,
) -> Result<MergedEvents, EventError>
    requires some { 0 < length events.items }
    requires few { length events.items ≤ MAX_EVENTS }
    requires processors { AreOfProcessors events.items }
    requires width { 0 < clock.now.width }
    ensures merged { IfOk result
        (λ m. AreJoined events.items clock.now m.events.items m.parts) }
    ensures inside { IfOk result (λ m. AreParts (length events.items) m.parts) }
    ensures some { IfOk result (λ m. 0 < length m.parts) }
    ensures refused { IfErr result
        (λ why. IsEventRefusal why (times_refusal events.items clock.now)) }
{
    let MergedParts { parts, places } = merged_parts(alloc, events.as_slice(), clock)?;
    let joined = joined_events(alloc, events, &parts, &places)?;
    Ok(MergedEvents {
        events: joined,
        parts,
    })
}

/// Of each part its first event, with the messages of all by the new places of their sends. The first events are in the
/// order of their places.
fn joined_events(
    alloc: Global,
    events: Vec<Event>,
    parts: &Parts,
    places: &[u32],
) -> Result<Vec<Event>, AllocError>
    requires few { length events.items ≤ MAX_EVENTS }
    requires inside { AreParts (length events.items) parts.now }
    requires rising { IsStrictlyIncreasing (map (λ part. slice_index part 0) parts.now) }
    ensures { IfOk result (λ joined. map (λ e. Some (seen e)) joined.items ≡ map
        (joined_at events.items places.now) parts.now) }
{
    let receives = joined_receives(alloc, events.as_slice(), parts, places)?;
    let heads = first_places(alloc, parts)?;
    let mut kept = kept_at(events, &heads);
    kept.shrink_to_fit();
    let left = renumbered(alloc, kept, places)?;
    Ok(receiving(left, receives))
}

/// The first place of each part; 0 if it is empty.
pub(crate) fn first_places(alloc: Global, parts: &Parts) -> Result<Vec<u32>, AllocError>
    ensures { IfOk result
        (λ places. places.items ≡ map (λ part. slice_index part 0) parts.now) }
{
    let mut places = Vec::with_capacity(alloc, parts.len())?;
    for k in 0..parts.len() {
        places.push(place_in(parts.part(k), 0))?;
    }
    Ok(places)
}

/// A receive that is made of several, by its place among the events that are left, and the messages of all.
#[derive(Drop)]
struct JoinedReceive {
    event: u32,
    messages: Messages,
}

/// The events, of which each that is listed has the messages that are listed for it, if it receives.
fn receiving(events: Vec<Event>, receives: Vec<JoinedReceive>) -> Vec<Event>
    ensures { map seen result.items ≡ fold with_messages (map seen events.items) receives.items }
{
    let mut events = events;
    for receive in receives {
        give(&mut events, receive);
    }
    events
}

/// Gives a receive among the events these messages in place of its own.
fn give(events: &mut [Event], receive: JoinedReceive)
    ensures { map seen events.new ≡ with_messages (map seen events.old) receive }
{
    let JoinedReceive { event, messages } = receive;
    if event as usize >= events.len() {
        return;
    }
    let event = &mut events[event as usize];
    match event.act {
        EventAct::Send { .. } => {}
        EventAct::Receive { .. } => event.act = EventAct::Receive { messages },
    }
}

/// Of the parts of several events those of receives, with the messages of all their events by the new places of their
/// sends.
fn joined_receives(
    alloc: Global,
    events: &[Event],
    parts: &Parts,
    places: &[u32],
) -> Result<Vec<JoinedReceive>, AllocError>
    requires inside { AreParts (length events.now) parts.now }
    requires few { length parts.now ≤ MAX_EVENTS }
    ensures { IfOk result
        (λ receives. receives.items ≡ joined_from events.now places.now 0 parts.now) }
{
    let mut receives = Vec::new(alloc);
    for k in 0..parts.len() {
        push_joined(
            alloc,
            events,
            parts.part(k),
            places,
            k as u32,
            &mut receives,
        )?;
    }
    Ok(receives)
}

/// Puts last the part at a place, if it has several events.
fn push_joined(
    alloc: Global,
    events: &[Event],
    part: &[u32],
    places: &[u32],
    event: u32,
    receives: &mut Vec<JoinedReceive>,
) -> Result<(), AllocError>
    requires { (k : ℕ) → k < length part.now → slice_index part.now k < length events.now }
    ensures { OnOk result (receives.new.items ≡ receives.old.items
        ++ joined_receive events.now places.now event part.now) }
{
    if part.len() < 2 {
        return Ok(());
    }
    let messages = joined_messages(alloc, events, part, places)?;
    receives.push(JoinedReceive { event, messages })?;
    Ok(())
}

/// The messages of these events by the new places of their sends. Takes memory only if there is more than one.
fn joined_messages(
    alloc: Global,
    events: &[Event],
    part: &[u32],
    places: &[u32],
) -> Result<Messages, AllocError>
    requires { (k : ℕ) → k < length part.now → slice_index part.now k < length events.now }
    ensures { IfOk result
        (λ messages. messages ≡ joined_messages events.now places.now part.now) }
{
    let mut messages = Vec::new(alloc);
    for place in part {
        push_messages(events, *place as usize, places, &mut messages)?;
    }
    Messages::new(alloc, messages)
}

/// Puts the messages of the event at a place last.
fn push_messages(
    events: &[Event],
    place: usize,
    places: &[u32],
    messages: &mut Vec<Option<u32>>,
) -> Result<(), AllocError>
    requires { place < length events.now }
    ensures { OnOk result (messages.new.items ≡ messages.old.items
        ++ map (left_message places.now) (messages_at events.now place)) }
{
    for message in events[place].act.messages() {
        messages.push(left_message(*message, places))?;
    }
    Ok(())
}
