//! What walks over events in the order of their times or causes ask of each, in a table that is small enough to stay
//! near the processor.

ghost use Rattle.std.specs.Prelude.{◌≡◌, ◌<◌, ◌≤◌, ◌-◌, ℕ, IfOk, length, map, true};
ghost use Rattle.timed_events.specs.Checks.{AreOfProcessors, is_for, messages_at, processor_at};
ghost use Rattle.timed_events.specs.WalkBriefs.{count_of, message_of, one_at, walk_brief_of};

use crate::events::{Event, EventAct};
use std::alloc::{AllocError, Global};
use std::mem::size_of;
use step_trace::MAX_PROCESSORS;

/// The processor of an event, that to which it sends, and what it receives if that is one message. 255 denotes any
/// processor above.
#[derive(Clone, Copy, Debug)]
pub(crate) struct WalkBrief {
    processor: u8,
    /// 0 in a receive.
    to: u8,
    /// 0 if it receives nothing, 1 if it receives one message that an event sent; 2 denotes all else.
    count: u8,
    /// The message, if it receives one.
    message: u32,
}

// (there is one for each event)
const _: () = prove!(size_of::<WalkBrief>() == 8);

/// The briefs of the events.
pub(crate) fn walk_briefs_of(alloc: Global, events: &[Event]) -> Result<Vec<WalkBrief>, AllocError>
    ensures { IfOk result (λ v. v.items ≡ map walk_brief_of events.now) }
{
    let mut briefs = Vec::with_capacity(alloc, events.len())?;
    for event in events {
        briefs.push(walk_brief_of(event))?;
    }
    Ok(briefs)
}

fn walk_brief_of(event: &Event) -> WalkBrief
    ensures { result ≡ walk_brief_of event.now }
{
    let to = match &event.act {
        EventAct::Send { to } => *to,
        EventAct::Receive { .. } => 0,
    };
    let messages = event.act.messages();
    WalkBrief {
        processor: event.processor.min(255) as u8,
        to: to.min(255) as u8,
        count: count_of(messages),
        message: message_of(messages),
    }
}

fn count_of(messages: &[Option<u32>]) -> u8
    ensures { result ≡ count_of messages.now }
{
    if messages.is_empty() {
        return 0;
    }
    if messages.len() == 1 && messages[0].is_some() {
        return 1;
    }
    2
}

/// The first message; 0 if there is none, or no event sent it.
fn message_of(messages: &[Option<u32>]) -> u32
    ensures { result ≡ message_of messages.now }
{
    if messages.is_empty() {
        return 0;
    }
    messages[0].unwrap_or(0)
}

/// The processor of the event at a place, counted from 0, by the briefs of the events, which are read by the clauses
/// alone.
pub(crate) fn processor_of(events: &[Event], briefs: &[WalkBrief], place: usize) -> usize
    requires inside { place < length events.now }
    requires briefs { briefs.now ≡ map walk_brief_of events.now }
    requires processors { AreOfProcessors events.now }
    ensures value { result ≡ processor_at events.now place - 1 }
    ensures inside { result < MAX_PROCESSORS }
{
    briefs[place].processor as usize - 1
}

/// The processor to which the event at a place is a Send, 0 for a Receive, by the briefs of the events, which are read
/// by the clauses alone.
pub(crate) fn receiver_at(events: &[Event], briefs: &[WalkBrief], place: usize) -> u64
    requires inside { place < length events.now }
    requires briefs { briefs.now ≡ map walk_brief_of events.now }
    ensures { (p : ℕ) → p ≤ MAX_PROCESSORS → is_for events.now place p ≡ true → result ≡ p }
{
    u64::from(briefs[place].to)
}

/// The message of the event at a place as a list, if it receives one that an event sent.
pub(crate) fn one_at(briefs: &[WalkBrief], place: usize) -> [Option<u32>; 1]
    requires { place < length briefs.now }
    ensures { result ≡ one_at briefs.now place }
{
    [Some(briefs[place].message)]
}

/// The messages of the event at a place, by the briefs of the events. Looks at the event itself unless it receives
/// nothing or one message that an event sent.
pub(crate) fn messages_of<'a>(
    events: &'a [Event],
    briefs: &[WalkBrief],
    place: usize,
    one: &'a [Option<u32>],
) -> &'a [Option<u32>]
    requires inside { place < length events.now }
    requires briefs { briefs.now ≡ map walk_brief_of events.now }
    requires one { one.now ≡ one_at briefs.now place }
    ensures { result.now ≡ messages_at events.now place }
{
    match briefs[place].count {
        0 => &[],
        1 => one,
        _ => events[place].act.messages(),
    }
}
