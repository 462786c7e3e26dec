//! Messages that are received no later than they are sent, by the times of the events.

ghost use Rattle.std.specs.Prelude.{◌≡◌, ◌<◌, ◌≤◌, IfOk, OnErr, length};
ghost use Rattle.timed_events.specs.Checks.{time_at};
ghost use Rattle.timed_events.specs.Received.{hops_of};
ghost use Rattle.timed_events.specs.Lateness.{is_late, late_message, lateness_among, lateness_of, worse};

use crate::cause_cycles::Hop;
use crate::events::Event;
use crate::received::hops_of;
use std::alloc::{AllocError, Global};
use step_trace::MAX_STEPS;

/// A message that is received no later than it is sent, by the times of the events.
#[derive(Clone, Copy, Debug, PartialEq, Eq)]
pub struct LateMessage {
    /// The place of the event that received it.
    pub event: u32,
    /// The place of the event that sent it.
    pub message: u32,
    /// How long after it is received it is sent, in the unit of the times.
    pub by: u128,
}

/// How many messages are received no later than they are sent.
#[derive(Clone, Copy, Debug, PartialEq, Eq)]
pub struct Lateness {
    pub messages: u64,
    /// The one that is sent longest after it is received; of several the first, in the order of the events that
    /// received them.
    pub worst: Option<LateMessage>,
}

/// How many messages the events received no later than they were sent, by the times of the events. Fails only if out of
/// memory, and never if they received no message that an event sent.
pub fn lateness_of(alloc: Global, events: &[Event]) -> Result<Lateness, AllocError>
    requires few { length events.now ≤ MAX_STEPS }
    ensures lateness { IfOk result (λ l. l ≡ lateness_of events.now) }
    ensures more { OnErr result (0 < length (hops_of events.now)) }
{
    let hops = hops_of(alloc, events)?;
    Ok(lateness_among(events, &hops))
}

/// How many of these messages were received no later than they were sent.
fn lateness_among(events: &[Event], hops: &[Hop]) -> Lateness
    ensures { result ≡ lateness_among events.now hops.now }
{
    let mut lateness = Lateness {
        messages: 0,
        worst: None,
    };
    for hop in hops {
        if is_late(events, *hop) {
            let late = late_message(events, *hop);
            lateness.messages += 1;
            lateness.worst = Some(worse(lateness.worst, late));
        }
    }
    lateness
}

/// Whether a message was received no later than it was sent.
fn is_late(events: &[Event], hop: Hop) -> bool
    ensures { result ≡ is_late events.now hop }
{
    time_at(events, hop.event as usize) <= time_at(events, hop.message as usize)
}

/// A message that was received no later than it was sent, with how long it was.
fn late_message(events: &[Event], hop: Hop) -> LateMessage
    ensures { result ≡ late_message events.now hop }
{
    let received = time_at(events, hop.event as usize);
    let sent = time_at(events, hop.message as usize);
    LateMessage {
        event: hop.event,
        message: hop.message,
        by: sent.abs_diff(received),
    }
}

/// The time of the event at a place; 0 if there is none.
pub fn time_at(events: &[Event], place: usize) -> i128
    ensures { result ≡ time_at events.now place }
{
    match events.get(place) {
        Some(event) => event.time,
        None => 0,
    }
}

/// The one of two messages that was sent longer after it was received; the first if both were so long.
fn worse(worst: Option<LateMessage>, late: LateMessage) -> LateMessage
    ensures { result ≡ worse worst late }
{
    let Some(first) = worst else {
        return late;
    };
    if first.by < late.by {
        return late;
    }
    first
}
