//! The events of a log as they are kept until all sends are known, in little memory.

ghost use Rattle.std.specs.Prelude.{◌≡◌, ◌++◌, ◌∷◌, [], IfOk, OnOk, length, map, option_map, slice_get};
ghost use Rattle.event_log.specs.Events.{resolved};
ghost use Rattle.event_log.specs.KeptEvents.{names_of};
ghost use Rattle.event_log.specs.PackedEvents.{ActIsWithin, IsWithin, lent_act, lent_event, packed_act};
ghost use Rattle.event_log.specs.PackedEvents.{packed_event, unpacked, unpacked_act};

use crate::placed_events::PlacedEvents;
use crate::sent_messages::SentMessages;
use crate::workers::Workers;
use std::alloc::{AllocError, Global};
use std::marker::Model;
use std::mem::size_of;

/// An event with numbers in place of the names of nodes.
#[derive(Clone, Copy)]
pub(crate) struct LentEvent<'a> {
    pub(crate) time: i128,
    pub(crate) processor: u64,
    pub(crate) act: LentAct<'a>,
}

#[derive(Clone, Copy)]
pub(crate) enum LentAct<'a> {
    Send { to: u64 },
    /// The names of the messages, which may be sent by a later record.
    Receive { messages: &'a [u8] },
}

/// Events, each in 32 bytes, and the names of the messages that they receive.
#[derive(Drop)]
pub(crate) struct PackedEvents {
    events: Vec<PackedEvent>,
    /// The names of all receives, one after the other.
    names: Vec<u8>,
}

/// An event, in 32 bytes. Of a receive it has a range of a list that all events share: first of the bytes of names, and
/// later of the places of sends.
#[derive(Clone, Copy)]
pub struct PackedEvent {
    /// When it happened, in the unit of the log's times.
    pub time: i128,
    /// The number of its node.
    pub processor: u32,
    pub act: PackedAct,
}

/// What a packed event does.
#[derive(Clone, Copy)]
pub enum PackedAct {
    /// It sends to the node of this number.
    Send { to: u32 },
    /// Where its messages, or their names, begin in the list, and where they end.
    Receive { from: u32, to: u32 },
}

const _: () = prove!(size_of::<PackedEvent>() == 32);

impl Model for PackedEvents {
    ghost use Rattle.std.specs.Prelude.{List, length, map};
    ghost use Rattle.std.specs.List.{All};
    ghost use Rattle.event_log.specs.KeptEvents.{KeptEvent};
    ghost use Rattle.event_log.specs.PackedEvents.{IsWithin, unpacked};

    ghost Value = { List KeptEvent };

    ghost view = { λ p. map (unpacked p.names.items) p.events.items };

    ghost invariant = { λ p. All (IsWithin (length p.names.items)) p.events.items };
}

impl PackedEvents {
    /// No events.
    pub(crate) fn new(alloc: Global) -> PackedEvents
        ensures { result ≡ [] }
    {
        PackedEvents {
            events: Vec::new(alloc),
            names: Vec::new(alloc),
        }
    }

    /// How many events there are.
    pub(crate) fn len(&self) -> usize
        ensures { result ≡ length self.now }
    {
        self.events.len()
    }

    /// The event at a place, from 0.
    pub(crate) fn get(&self, place: usize) -> Option<LentEvent<'_>>
        ensures { option_map lent_event result ≡ slice_get self.now place }
    {
        let event = self.events.get(place)?;
        Some(unpacked(self.names.as_slice(), event))
    }

    /// Takes in one more event.
    pub(crate) fn push(&mut self, event: &LentEvent<'_>) -> Result<(), AllocError>
        ensures { OnOk result (self.new ≡ self.old ++ lent_event event.now ∷ []) }
    {
        let packed = packed_event(self.names.len(), event)?;
        self.events.reserve(1)?;
        self.names.extend_from_slice(names_of(&event.act))?;
        self.events.push_reserved(packed);
        Ok(())
    }

    /// The same events with the places of the sends in place of the names of messages. Takes no second list of events.
    pub(crate) fn into_placed<W: Workers>(
        self,
        workers: &W,
        alloc: Global,
        sent: &SentMessages,
    ) -> Result<PlacedEvents, AllocError>
        ensures { IfOk result (λ p. p ≡ map (resolved sent.now) self) }
    {
        let PackedEvents { events, names } = self;
        PlacedEvents::of(workers, alloc, sent, names.as_slice(), events)
    }
}

/// The event that was packed, with its names out of these bytes.
pub(crate) fn unpacked<'a>(names: &'a [u8], event: &PackedEvent) -> LentEvent<'a>
    requires { IsWithin (length names.now) event.now }
    ensures { lent_event result ≡ unpacked names.now event.now }
{
    LentEvent {
        time: event.time,
        processor: u64::from(event.processor),
        act: unpacked_act(names, event.act),
    }
}

#[tactic(auto, unfolding(crate::specs::PackedEvents::ActIsWithin))]
fn unpacked_act<'a>(names: &'a [u8], act: PackedAct) -> LentAct<'a>
    requires { ActIsWithin (length names.now) act }
    ensures { lent_act result ≡ unpacked_act names.now act }
{
    match act {
        PackedAct::Send { to } => LentAct::Send { to: u64::from(to) },
        PackedAct::Receive { from, to } => LentAct::Receive {
            messages: &names[from as usize..to as usize],
        },
    }
}

/// The event packed, if its names begin at a place.
fn packed_event(start: usize, event: &LentEvent<'_>) -> Result<PackedEvent, AllocError>
    ensures { IfOk result (λ packed. packed ≡ packed_event start (lent_event event.now)) }
{
    Ok(PackedEvent {
        time: event.time,
        processor: narrow(event.processor)?,
        act: packed_act(start, &event.act)?,
    })
}

fn packed_act(start: usize, act: &LentAct<'_>) -> Result<PackedAct, AllocError>
    ensures { IfOk result (λ packed. packed ≡ packed_act start (lent_act act.now)) }
{
    match act {
        LentAct::Send { to } => Ok(PackedAct::Send { to: narrow(*to)? }),
        LentAct::Receive { messages } => {
            let end = start.saturating_add(messages.len());
            Ok(PackedAct::Receive {
                from: narrow(start as u64)?,
                to: narrow(end as u64)?,
            })
        }
    }
}

/// The number in four bytes. A greater one counts as out of memory, but none comes: a text is too short for such a
/// place, and the nodes are too few.
pub(crate) fn narrow(number: u64) -> Result<u32, AllocError>
    ensures { IfOk result (λ narrow. narrow ≡ number) }
{
    match u32::try_from(number) {
        Ok(narrow) => Ok(narrow),
        Err(_) => Err(AllocError),
    }
}

/// The names of the messages that an event receives.
fn names_of<'a>(act: &LentAct<'a>) -> &'a [u8]
    ensures { result.now ≡ names_of (lent_act act.now) }
{
    match act {
        LentAct::Send { .. } => &[],
        LentAct::Receive { messages } => *messages,
    }
}
