//! The messages that events received.

ghost use Rattle.std.specs.Prelude.{◌≡◌, ◌≤◌, ◌<◌, ◌++◌, IfOk, OnErr, OnOk, length};
ghost use Rattle.timed_events.specs.Received.{hop_in, hops_at, hops_of};

use crate::cause_cycles::Hop;
use crate::events::Event;
use std::alloc::{AllocError, Global};
use step_trace::MAX_STEPS;

/// The messages that the events received and that an event sent, in the order of the events that received them. Fails
/// only if out of memory, and never if there is none.
pub fn hops_of(alloc: Global, events: &[Event]) -> Result<Vec<Hop>, AllocError>
    requires few { length events.now ≤ MAX_STEPS }
    ensures hops { IfOk result (λ v. v.items ≡ hops_of events.now) }
    ensures more { OnErr result (0 < length (hops_of events.now)) }
{
    let mut hops = Vec::new(alloc);
    for place in 0..events.len() {
        push_hops(events, place, &mut hops)?;
    }
    Ok(hops)
}

/// Puts the messages of the event at `place` last.
fn push_hops(events: &[Event], place: usize, hops: &mut Vec<Hop>) -> Result<(), AllocError>
    requires few { length events.now ≤ MAX_STEPS }
    requires inside { place < length events.now }
    ensures more { OnOk result (hops.new.items ≡ hops.old.items ++ hops_at events.now place) }
    ensures some { OnErr result (0 < length (hops_at events.now place)) }
{
    let messages = events[place].act.messages();
    for message in messages {
        push_hop(events.len(), place, *message, hops)?;
    }
    Ok(())
}

/// Puts a message of the event at `place` last, if one of `count` events sent it.
fn push_hop(
    count: usize,
    place: usize,
    message: Option<u32>,
    hops: &mut Vec<Hop>,
) -> Result<(), AllocError>
    requires place { place < MAX_STEPS }
    ensures more { OnOk result (hops.new.items ≡ hops.old.items ++ hop_in count place message) }
    ensures some { OnErr result (0 < length (hop_in count place message)) }
{
    let Some(sent) = message else {
        return Ok(());
    };
    if sent as usize >= count {
        return Ok(());
    }
    let event = place as u32;
    let message = sent;
    hops.push(Hop { event, message })?;
    Ok(())
}
