//! What the walk that merges asks of events in any order, in a table that is small enough to stay near the processor.

ghost use Rattle.std.specs.Prelude.{◌≡◌, IfOk, map};
ghost use Rattle.merged_receives.specs.Actors.{actor_of};

use std::alloc::{AllocError, Global};
use timed_events::{Event, EventAct};

/// The processor of an event, and whether the event receives.
#[derive(Clone, Copy, Debug)]
pub(crate) struct Actor {
    /// 255 denotes any above.
    pub(crate) processor: u8,
    pub(crate) receives: bool,
}

/// The table of the events.
pub(crate) fn actors_of(alloc: Global, events: &[Event]) -> Result<Vec<Actor>, AllocError>
    ensures { IfOk result (λ v. v.items ≡ map actor_of events.now) }
{
    let mut actors = Vec::with_capacity(alloc, events.len())?;
    for event in events {
        actors.push(actor_of(event))?;
    }
    Ok(actors)
}

fn actor_of(event: &Event) -> Actor
    ensures { result ≡ actor_of event.now }
{
    let receives = match &event.act {
        EventAct::Send { .. } => false,
        EventAct::Receive { .. } => true,
    };
    Actor {
        processor: event.processor.min(255) as u8,
        receives,
    }
}
