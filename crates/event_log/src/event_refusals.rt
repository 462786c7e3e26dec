//! The refusals of a log whose events make no trace.

ghost use Rattle.std.specs.Prelude.{◌≡◌, ◌<◌, ◌≤◌, ◌+◌, ℕ, None, IfOk, length, slice_index_or};
ghost use Rattle.timed_events.specs.Checks.{messages_at, processor_at, AreOfProcessors};
ghost use Rattle.event_log.specs.EventRefusals.{event_place, receiver_at, receiver_of, IsBehindCycle};
ghost use Rattle.event_log.specs.EventRefusals.{IsCycleError, IsErrorOf, IsErrorUnlessMemory};
ghost use Rattle.event_log.specs.EventRefusals.{IsIdleErrorUnlessMemory, idle_place};
ghost use Rattle.event_log.specs.ToldNames.{node_name};

use crate::hop_lines::hop_lines;
use crate::logs::NamedEvents;
use crate::message_names::message_name;
use crate::names::{Name, NameSet};
use crate::reading::MAX_EVENTS;
use crate::refusals::LogError;
use std::alloc::{AllocError, Global};
use timed_events::{Event, EventAct, EventError, IdleError, cycle_of_causes};

/// The refusal of a log for a reason against its events, or Memory.
///
/// Asks for a reason that holds, so that it names one of `MAX_EVENTS` events, if any. If it is a cycle, asks for events
/// against whose messages there is nothing.
pub(crate) fn error_of(
    alloc: Global,
    text: &[u8],
    nodes: &NameSet,
    events: &[Event],
    why: EventError,
) -> LogError
    requires place { event_place why < MAX_EVENTS }
    requires few { length events.now ≤ MAX_EVENTS }
    requires processors { AreOfProcessors events.now }
    requires behind { (i : ℕ) → why ≡ EventError.Cycle i → IsBehindCycle events.now i }
    ensures { IsErrorUnlessMemory text.now nodes.now events.now why result }
{
    match told_error(alloc, text, nodes, events, why) {
        Ok(error) => error,
        Err(_) => LogError::Memory,
    }
}

/// The refusal of a log for a reason against its events, or Memory.
///
/// Asks for the same as `error_of`.
pub(crate) fn log_error(alloc: Global, text: &[u8], log: &NamedEvents, why: IdleError) -> LogError
    requires place { idle_place why < MAX_EVENTS }
    requires few { length log.now.events.items ≤ MAX_EVENTS }
    requires processors { AreOfProcessors log.now.events.items }
    requires behind { (i : ℕ) → why ≡ IdleError.Events (EventError.Cycle i)
        → IsBehindCycle log.now.events.items i }
    ensures { IsIdleErrorUnlessMemory text.now log.now.nodes log.now.events.items why result }
{
    match why {
        IdleError::Events(why) => error_of(alloc, text, &log.nodes, log.events.as_slice(), why),
        IdleError::TooManySteps => LogError::TooManySteps,
    }
}

fn told_error(
    alloc: Global,
    text: &[u8],
    nodes: &NameSet,
    events: &[Event],
    why: EventError,
) -> Result<LogError, AllocError>
    requires place { event_place why < MAX_EVENTS }
    requires few { length events.now ≤ MAX_EVENTS }
    requires processors { AreOfProcessors events.now }
    requires behind { (i : ℕ) → why ≡ EventError.Cycle i → IsBehindCycle events.now i }
    ensures { IfOk result (λ error. IsErrorOf text.now nodes.now events.now why error) }
{
    Ok(match why {
        EventError::UntilTooEarly => LogError::UntilUnfit,
        EventError::TooManyTicks => LogError::TooManyTicks,
        EventError::NeverSent { event, message } => {
            let name = message_name(alloc, text, event, message)?;
            LogError::NeverSent(record_number(event), name)
        }
        EventError::WrongReceiver { event, message } => {
            let name = message_name(alloc, text, event, message)?;
            let node = node_name(alloc, nodes, receiver_of(events, event, message))?;
            LogError::WrongReceiver(record_number(event), name, node)
        }
        EventError::ReceivedBefore { event, message } => {
            let name = message_name(alloc, text, event, message)?;
            LogError::ReceivedBefore(record_number(event), name)
        }
        EventError::NotLater {
            event,
            message,
            hint,
        } => {
            let name = message_name(alloc, text, event, message)?;
            LogError::NotLater(record_number(event), name, hint)
        }
        EventError::SecondEvent { event, tick, hint } => {
            let node = node_name(alloc, nodes, processor_at(events, event))?;
            LogError::SecondEvent(record_number(event), node, tick, hint)
        }
        EventError::Cycle { event } => cycle_error(alloc, text, nodes, events, event)?,
        EventError::Memory => LogError::Memory,
    })
}

/// The refusal of a log with the event at a place behind a cycle.
fn cycle_error(
    alloc: Global,
    text: &[u8],
    nodes: &NameSet,
    events: &[Event],
    event: usize,
) -> Result<LogError, AllocError>
    requires place { event < MAX_EVENTS }
    requires few { length events.now ≤ MAX_EVENTS }
    requires processors { AreOfProcessors events.now }
    requires behind { IsBehindCycle events.now event }
    ensures { IfOk result (λ error. IsCycleError text.now nodes.now events.now event error) }
{
    let hops = cycle_of_causes(alloc, events)?;
    let lines = hop_lines(alloc, text, nodes, events, &hops)?;
    Ok(LogError::Cycle(record_number(event), lines))
}

/// The number of the record of the event at a place: the first event is in record 2.
fn record_number(event: usize) -> u64
    requires { event < MAX_EVENTS }
    ensures { result ≡ event + 2 }
{
    event as u64 + 2
}

/// The name of a node, by its number.
pub(crate) fn node_name(alloc: Global, nodes: &NameSet, number: u64) -> Result<Name, AllocError>
    ensures { IfOk result (λ name. name ≡ node_name nodes.now number) }
{
    match nodes.name_at(number.saturating_sub(1) as usize) {
        Some(name) => Name::new(alloc, name),
        None => Name::new(alloc, &[]),
    }
}

/// The processor of the event at a place, or 0 if there is none.
pub(crate) fn processor_at(events: &[Event], place: usize) -> u64
    ensures { result ≡ processor_at events.now place }
{
    match events.get(place) {
        Some(event) => event.processor,
        None => 0,
    }
}

/// The processor to which a message of the event at a place was sent, or 0 if no event sent it.
fn receiver_of(events: &[Event], place: usize, message: usize) -> u64
    ensures { result ≡ receiver_of events.now place message }
{
    match sent_place(events, place, message) {
        Some(sent) => receiver_at(events, sent as usize),
        None => 0,
    }
}

/// The place of the event that sent a message of the event at a place.
fn sent_place(events: &[Event], place: usize, message: usize) -> Option<u32>
    ensures { result ≡ slice_index_or (messages_at events.now place) message None }
{
    let event = events.get(place)?;
    let sent = event.act.messages().get(message)?;
    *sent
}

/// The processor to which the event at a place sends, or 0 if it doesn't.
fn receiver_at(events: &[Event], place: usize) -> u64
    ensures { result ≡ receiver_at events.now place }
{
    match events.get(place) {
        Some(event) => match event.act {
            EventAct::Send { to } => to,
            EventAct::Receive { .. } => 0,
        },
        None => 0,
    }
}
