//! The nodes and the messages of a log, numbered as its events name them.

ghost use Rattle.std.specs.Prelude.{◌≡◌, ◌+◌, true, IfOk, OnOk, length, map, not};
ghost use Rattle.trace_text.specs.Records.{GivesUnless, ReachesUnless};
ghost use Rattle.event_log.specs.Naming.{IsUnless, Named, act_after, after_said, begun, is_memory, is_send_to};
ghost use Rattle.event_log.specs.Naming.{nodes_after, number_of, number_to, sends_to, sent_after, was_sent};
ghost use Rattle.event_log.specs.Naming.{was_sent_to};
ghost use Rattle.event_log.specs.SentMessages.{with_send};
ghost use Rattle.event_log.specs.Events.{resolved, seen};
ghost use Rattle.event_log.specs.LogRecords.{said};
ghost use Rattle.event_log.specs.Names.{with_name};
ghost use Rattle.event_log.specs.PackedEvents.{lent_act};

use crate::names::{MAX_NODES, Name, NameSet};
use crate::nodes::Nodes;
use crate::packed_events::{LentAct, LentEvent, PackedEvents};
use crate::placed_events::PlacedEvents;
use crate::records::{Told, Verb};
use crate::refusals::LogError;
use crate::results::both;
use crate::sent_messages::SentMessages;
use crate::workers::Workers;
use std::alloc::{AllocError, Global};
use std::marker::Model;
use timed_events::Event;

/// The names of the events so far, and these events.
#[derive(Drop)]
pub(crate) struct Naming {
    /// The nodes: one's number is its place and 1.
    nodes: Nodes,
    /// The messages that they sent.
    sent: SentMessages,
    events: PackedEvents,
}

impl Model for Naming {
    ghost Value = { Named };

    ghost view = { λ n. record { nodes = n.nodes; sent = n.sent; events = n.events } };
}

impl Naming {
    /// No events, and these nodes.
    pub(crate) fn new(alloc: Global, nodes: NameSet) -> Naming
        ensures { result ≡ begun nodes }
    {
        Naming {
            nodes: Nodes::new(nodes),
            sent: SentMessages::new(alloc),
            events: PackedEvents::new(alloc),
        }
    }

    /// How many nodes are numbered.
    pub(crate) fn node_count(&self) -> usize
        ensures { result ≡ length self.now.nodes }
    {
        self.nodes.len()
    }

    /// The nodes, and the events with the places of sends in place of the names of messages.
    pub(crate) fn into_events<W: Workers>(
        self,
        workers: &W,
        alloc: Global,
    ) -> Result<(NameSet, Vec<Event>), AllocError>
        ensures nodes { IfOk result (λ r. r.0 ≡ self.nodes) }
        ensures events { IfOk result
            (λ r. map seen r.1.items ≡ map (resolved self.sent) self.events) }
    {
        let events = events_of(workers, alloc, self.sent, self.events);
        both(Ok(self.nodes.into_names()), events)
    }

    /// Takes in the names of the event at this place, from 0.
    ///
    /// Refuses TooManyNodes and SentBefore with the event's record, in this order.
    pub(crate) fn take(
        &mut self,
        alloc: Global,
        place: u32,
        told: &Told<'_>,
    ) -> Result<(), LogError>
        ensures { ReachesUnless is_memory result self.new
            (after_said place self.old (said told.now)) }
    {
        let at = u64::from(place) + 2;
        let Ok(numbers) = name_nodes(alloc, &mut self.nodes, told) else {
            return Err(LogError::Memory);
        };
        if numbers.count > MAX_NODES {
            return Err(LogError::TooManyNodes(at));
        }
        let act = name_act(alloc, &mut self.sent, &self.events, place, numbers.to, told)?;
        let event = LentEvent {
            time: told.moment.time,
            processor: numbers.processor,
            act,
        };
        match self.events.push(&event) {
            Ok(()) => Ok(()),
            Err(_) => Err(LogError::Memory),
        }
    }
}

/// The events with the places of sends in place of the names of messages. The names are freed before these events take
/// memory.
fn events_of<W: Workers>(
    workers: &W,
    alloc: Global,
    sent: SentMessages,
    events: PackedEvents,
) -> Result<Vec<Event>, AllocError>
    ensures { IfOk result (λ made. map seen made.items ≡ map (resolved sent) events) }
{
    let placed = placed_events(workers, alloc, sent, events)?;
    placed.into_events(alloc)
}

/// The events with the places of sends in place of the names of messages, which are freed.
fn placed_events<W: Workers>(
    workers: &W,
    alloc: Global,
    sent: SentMessages,
    events: PackedEvents,
) -> Result<PlacedEvents, AllocError>
    ensures { IfOk result (λ placed. placed ≡ map (resolved sent) events) }
{
    events.into_placed(workers, alloc, &sent)
}

/// The numbers of the nodes that an event names.
#[derive(Clone, Copy)]
struct Numbers {
    processor: u64,
    /// That of the node that a send is for; in a receive that of its own node.
    to: u64,
    /// How many nodes there are now.
    count: usize,
}

/// Takes in the nodes that an event names: its own, and then the one that it sends to.
fn name_nodes(alloc: Global, nodes: &mut Nodes, told: &Told<'_>) -> Result<Numbers, AllocError>
    ensures nodes { OnOk result (nodes.new ≡ nodes_after nodes.old (said told.now)) }
    ensures processor { IfOk result (λ n. n.processor ≡ number_of nodes.old told.now.node.now) }
    ensures to { IfOk result (λ n. n.to ≡ number_to nodes.old (said told.now)) }
    ensures count { IfOk result (λ n. n.count ≡ length nodes.new) }
{
    let (processor, count) = name_node(alloc, nodes, told.node)?;
    if let Verb::Receive = told.verb {
        return Ok(Numbers {
            processor,
            to: processor,
            count,
        });
    }
    let (to, count) = name_node(alloc, nodes, told.to)?;
    Ok(Numbers {
        processor,
        to,
        count,
    })
}

/// Takes in the name of a node, and gives its number and how many nodes there are now.
fn name_node(alloc: Global, nodes: &mut Nodes, name: &[u8]) -> Result<(u64, usize), AllocError>
    ensures nodes { OnOk result (nodes.new ≡ with_name nodes.old name.now) }
    ensures number { IfOk result (λ n. n.0 ≡ number_of nodes.old name.now) }
    ensures count { IfOk result (λ n. n.1 ≡ length nodes.new) }
{
    let place = nodes.add(alloc, name)?;
    let count = nodes.len();
    Ok((place as u64 + 1, count))
}

/// Takes in the message of a send, and gives what is kept of what the event at a place does.
fn name_act<'a>(
    alloc: Global,
    sent: &mut SentMessages,
    events: &PackedEvents,
    place: u32,
    to: u64,
    told: &Told<'a>,
) -> Result<LentAct<'a>, LogError>
    ensures sent { OnOk result (sent.new ≡ sent_after place to sent.old (said told.now)) }
    ensures act { GivesUnless is_memory lent_act result
        (act_after (place + 2) to sent.old events.now (said told.now)) }
{
    if let Verb::Receive = told.verb {
        return Ok(LentAct::Receive {
            messages: told.messages,
        });
    }
    match put_send(alloc, sent, events, place, to, told.messages) {
        Ok(true) => Ok(LentAct::Send { to }),
        Ok(false) => Err(sent_before(alloc, u64::from(place) + 2, told.messages)),
        Err(_) => Err(LogError::Memory),
    }
}

/// Takes in a message that the event at a place sends to a node, unless its name was sent to this node before. Gives
/// whether it is new.
fn put_send(
    alloc: Global,
    sent: &mut SentMessages,
    events: &PackedEvents,
    place: u32,
    to: u64,
    name: &[u8],
) -> Result<bool, AllocError>
    ensures is_new { IfOk result (λ is_new. was_sent sent.old events.now to name.now ≡ not is_new) }
    ensures sent { IfOk result (λ is_new. is_new ≡ true
        → sent.new ≡ with_send place to name.now sent.old) }
{
    if sent.add_first(alloc, name, place)? {
        return Ok(true);
    }
    if was_sent_to(alloc, sent, events, to, name)? {
        return Ok(false);
    }
    sent.add_copy(alloc, to, name, place)?;
    Ok(true)
}

/// Whether the send that is looked up for a name and a node is for this node.
fn was_sent_to(
    alloc: Global,
    sent: &SentMessages,
    events: &PackedEvents,
    to: u64,
    name: &[u8],
) -> Result<bool, AllocError>
    ensures { IfOk result (λ was. was ≡ was_sent_to sent.now events.now to name.now) }
{
    match sent.place_for(alloc, to, name)? {
        Some(place) => Ok(is_send_to(events, place as usize, to)),
        None => Ok(false),
    }
}

/// Whether the event at a place is a send to a node.
fn is_send_to(events: &PackedEvents, place: usize, to: u64) -> bool
    ensures { result ≡ is_send_to events.now place to }
{
    match events.get(place) {
        Some(event) => sends_to(&event.act, to),
        None => false,
    }
}

fn sends_to(act: &LentAct<'_>, node: u64) -> bool
    ensures { result ≡ sends_to (lent_act act.now) node }
{
    match act {
        LentAct::Send { to } => *to == node,
        LentAct::Receive { .. } => false,
    }
}

/// The refusal of a message that was sent before.
fn sent_before(alloc: Global, at: u64, message: &[u8]) -> LogError
    ensures { IsUnless is_memory result (LogError.SentBefore at message.now) }
{
    match Name::new(alloc, message) {
        Ok(name) => LogError::SentBefore(at, name),
        Err(_) => LogError::Memory,
    }
}
