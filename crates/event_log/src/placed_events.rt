//! The events of a log once all its sends are known, in little memory.

ghost use Rattle.std.specs.Prelude.{◌≡◌, ◌++◌, IfOk, OnOk, length, map};
ghost use Rattle.std.specs.List.{All};
ghost use Rattle.event_log.specs.Events.{received, resolved, seen};
ghost use Rattle.trace_text.specs.Names.{words_of};
ghost use Rattle.event_log.specs.PackedEvents.{ActIsWithin, ArePlaced, IsWithin, placed, placed_act, unpacked};
ghost use Rattle.event_log.specs.SentMessages.{place_for};

use crate::packed_events::{LentAct, PackedAct, PackedEvent, narrow, unpacked};
use crate::sent_messages::SentMessages;
use crate::workers::Workers;
use std::alloc::{AllocError, Global};
use std::marker::Model;
use std::thread;
use std::thread::Threads;
use timed_events::{Event, EventAct, Messages};

/// The events of a log once all its sends are known, each in 32 bytes, and the messages that they receive: each message
/// by the place of the event that sent it.
#[derive(Drop)]
pub(crate) struct PlacedEvents {
    events: Vec<PackedEvent>,
    /// How many events the front half has.
    half: usize,
    /// The messages of all receives of the front half, one after the other.
    front: Vec<Option<u32>>,
    /// Those of the back half.
    back: Vec<Option<u32>>,
}

impl Model for PlacedEvents {
    ghost use Rattle.std.specs.Prelude.{◌++◌, ◌≤◌, List, drop, length, map, take};
    ghost use Rattle.std.specs.List.{All};
    ghost use Rattle.event_log.specs.Events.{Seen};
    ghost use Rattle.event_log.specs.PackedEvents.{IsWithin, placed};

    ghost Value = { List Seen };

    ghost view = { λ p. map (placed p.front.items) (take p.half p.events.items)
        ++ map (placed p.back.items) (drop p.half p.events.items) };

    ghost invariant = { λ p.
        (p.half ≤ length p.events.items)
        × All (IsWithin (length p.front.items)) (take p.half p.events.items)
        × All (IsWithin (length p.back.items)) (drop p.half p.events.items) };
}

impl PlacedEvents {
    /// These events, with the places of the sends in place of the names of messages. Takes no second list of events. Of
    /// two threads, each places the messages of one half.
    pub(crate) fn of<W: Workers>(
        workers: &W,
        alloc: Global,
        sent: &SentMessages,
        names: &[u8],
        mut events: Vec<PackedEvent>,
    ) -> Result<PlacedEvents, AllocError>
        requires { All (IsWithin (length names.now)) events.items }
        ensures { IfOk result
            (λ p. p ≡ map (resolved sent.now) (map (unpacked names.now) events.items)) }
    {
        let half = events.len() / 2;
        let (low, high) = events.split_at_mut(half);
        let (front, back) = workers.place_messages(alloc, sent, names, low, high);
        let front = front?;
        let back = back?;
        Ok(PlacedEvents {
            events,
            half,
            front,
            back,
        })
    }

    /// The events, in their order.
    pub(crate) fn into_events(self, alloc: Global) -> Result<Vec<Event>, AllocError>
        ensures { IfOk result (λ events. map seen events.items ≡ self) }
    {
        let mut all = Vec::with_capacity(alloc, self.events.len())?;
        let (low, high) = self.events.split_at(self.half);
        push_events(alloc, &mut all, &self.front, low)?;
        push_events(alloc, &mut all, &self.back, high)?;
        Ok(all)
    }
}

/// Puts the places of the sends in place of the names of messages, in both halves of the events. Gives the messages of
/// each half. Another thread does the first half, if it can be started.
pub(crate) fn place_by_two<T: Threads>(
    rt: &T,
    alloc: Global,
    sent: &SentMessages,
    names: &[u8],
    low: &mut [PackedEvent],
    high: &mut [PackedEvent],
) -> (
    Result<Vec<Option<u32>>, AllocError>,
    Result<Vec<Option<u32>>, AllocError>,
)
    requires low { All (IsWithin (length names.now)) low.old }
    requires high { All (IsWithin (length names.now)) high.old }
    ensures low { IfOk result.0
        (λ messages. ArePlaced sent.now names.now messages.items low.old low.new) }
    ensures high { IfOk result.1
        (λ messages. ArePlaced sent.now names.now messages.items high.old high.new) }
{
    let mut first = || -> Result<Vec<Option<u32>>, AllocError>
        requires { All (IsWithin (length names.now)) low.now }
        ensures { IfOk result (λ messages. ArePlaced sent.entry.now names.entry.now messages.items
            low.entry.now low.exit.now) }
    { place_all(alloc, sent, names, low) };
    let mut second = || -> Result<Vec<Option<u32>>, AllocError>
        requires { All (IsWithin (length names.now)) high.now }
        ensures { IfOk result (λ messages. ArePlaced sent.entry.now names.entry.now messages.items
            high.entry.now high.exit.now) }
    { place_all(alloc, sent, names, high) };
    thread::join_mut(rt, &mut first, &mut second)
}

/// Puts the places of the sends in place of the names of messages. Gives the messages of all events.
pub(crate) fn place_all(
    alloc: Global,
    sent: &SentMessages,
    names: &[u8],
    events: &mut [PackedEvent],
) -> Result<Vec<Option<u32>>, AllocError>
    requires { All (IsWithin (length names.now)) events.old }
    ensures { IfOk result
        (λ messages. ArePlaced sent.now names.now messages.items events.old events.new) }
{
    let mut messages = Vec::new(alloc);
    for i in 0..events.len() {
        events[i].act = placed_act(alloc, sent, names, &events[i], &mut messages)?;
    }
    Ok(messages)
}

/// What an event does, with the places of the sends in place of the names of messages. These places go after those of
/// the events before.
#[tactic(auto, unfolding(crate::specs::PackedEvents::ActIsWithin))]
fn placed_act(
    alloc: Global,
    sent: &SentMessages,
    names: &[u8],
    event: &PackedEvent,
    messages: &mut Vec<Option<u32>>,
) -> Result<PackedAct, AllocError>
    requires { IsWithin (length names.now) event.now }
    ensures messages { OnOk result (messages.new.items ≡ messages.old.items
        ++ received (resolved sent.now (unpacked names.now event.now)).act) }
    ensures within { IfOk result (λ act. ActIsWithin (length messages.new.items) act) }
    ensures placed { IfOk result
        (λ act. placed_act messages.new.items act
        ≡ (resolved sent.now (unpacked names.now event.now)).act) }
{
    let event = unpacked(names, event);
    match event.act {
        LentAct::Send { to } => Ok(PackedAct::Send { to: narrow(to)? }),
        LentAct::Receive { messages: names } => {
            let from = narrow(messages.len() as u64)?;
            push_places(alloc, sent, event.processor, names, messages)?;
            let to = narrow(messages.len() as u64)?;
            Ok(PackedAct::Receive { from, to })
        }
    }
}

/// Puts last the places of the sends of messages that a processor receives. Their names have one space between them.
fn push_places(
    alloc: Global,
    sent: &SentMessages,
    processor: u64,
    names: &[u8],
    places: &mut Vec<Option<u32>>,
) -> Result<(), AllocError>
    ensures { OnOk result (places.new.items ≡ places.old.items
        ++ map (place_for sent.now processor) (words_of names.now)) }
{
    if names.len() == 0 {
        return Ok(());
    }
    for name in names.split(|byte| *byte == b' ') {
        let place = sent.place_for(alloc, processor, name)?;
        places.push(place)?;
    }
    Ok(())
}

/// Puts last the events with their messages out of these.
fn push_events(
    alloc: Global,
    events: &mut Vec<Event>,
    messages: &[Option<u32>],
    kept: &[PackedEvent],
) -> Result<(), AllocError>
    requires { All (IsWithin (length messages.now)) kept.now }
    ensures { OnOk result (map seen events.new.items ≡ map seen events.old.items
        ++ map (placed messages.now) kept.now) }
{
    for event in kept {
        events.push(event_of(alloc, messages, event)?)?;
    }
    Ok(())
}

/// The event, with its messages out of these.
#[tactic(auto, unfolding(crate::specs::PackedEvents::ActIsWithin))]
fn event_of(
    alloc: Global,
    messages: &[Option<u32>],
    kept: &PackedEvent,
) -> Result<Event, AllocError>
    requires { IsWithin (length messages.now) kept.now }
    ensures { IfOk result (λ event. seen event ≡ placed messages.now kept.now) }
{
    let act = match kept.act {
        PackedAct::Send { to } => EventAct::Send { to: u64::from(to) },
        PackedAct::Receive { from, to } => EventAct::Receive {
            messages: Messages::copied(alloc, &messages[from as usize..to as usize])?,
        },
    };
    Ok(Event {
        time: kept.time,
        processor: u64::from(kept.processor),
        act,
    })
}
