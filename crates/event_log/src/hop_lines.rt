//! The lines that report a cycle of messages, for which a log makes no trace.

ghost use Rattle.std.specs.Prelude.{◌≡◌, ◌<◌, ℕ, IfOk, length, get_or};
ghost use Rattle.timed_events.specs.declared.cause_cycles.Hop.{Hop};
ghost use Rattle.event_log.specs.HopLines.{hop_line, hop_lines, shown_lines};

use crate::cycle_lines::{CycleLine, CycleLines};
use crate::event_refusals::{node_name, processor_at};
use crate::message_names::message_name;
use crate::names::NameSet;
use crate::reading::MAX_EVENTS;
use std::alloc::{AllocError, Global};
use timed_events::{Event, Hop};

/// The greatest number of hops that are listed one by one.
pub(crate) const MAX_SHOWN: usize = 8;

/// The lines of the hops of a cycle: one for each of the first `MAX_SHOWN`, and how many more there are.
pub(crate) fn hop_lines(
    alloc: Global,
    text: &[u8],
    nodes: &NameSet,
    events: &[Event],
    hops: &[Hop],
) -> Result<CycleLines, AllocError>
    requires { (k : ℕ) (d : Hop) → k < length hops.now
        → (get_or hops.now k d).message < MAX_EVENTS }
    ensures { IfOk result (λ lines. lines ≡ hop_lines text.now nodes.now events.now hops.now) }
{
    let mut lines = shown_lines(alloc, text, nodes, events, hops)?;
    lines.push(CycleLine::More(hops.len().saturating_sub(MAX_SHOWN)))?;
    Ok(CycleLines::new(lines))
}

/// The lines of the first `MAX_SHOWN` hops.
fn shown_lines(
    alloc: Global,
    text: &[u8],
    nodes: &NameSet,
    events: &[Event],
    hops: &[Hop],
) -> Result<Vec<CycleLine>, AllocError>
    requires { (k : ℕ) (d : Hop) → k < length hops.now
        → (get_or hops.now k d).message < MAX_EVENTS }
    ensures { IfOk result
        (λ lines. lines.items ≡ shown_lines text.now nodes.now events.now hops.now) }
{
    let mut lines = Vec::new(alloc);
    for k in 0..hops.len().min(MAX_SHOWN) {
        let next = hops[(k + 1) % hops.len()];
        lines.push(hop_line(alloc, text, nodes, events, hops[k], next.event)?)?;
    }
    Ok(lines)
}

/// The line of a hop: who receives which message in which record, and who sends it in which record, `after` the event
/// at that place.
fn hop_line(
    alloc: Global,
    text: &[u8],
    nodes: &NameSet,
    events: &[Event],
    hop: Hop,
    after: u32,
) -> Result<CycleLine, AllocError>
    requires { hop.message < MAX_EVENTS }
    ensures { IfOk result (λ line. line ≡ hop_line text.now nodes.now events.now hop after) }
{
    let node = node_name(alloc, nodes, processor_at(events, hop.event as usize))?;
    let message = message_name(alloc, text, hop.message as usize, 0)?;
    let sender = node_name(alloc, nodes, processor_at(events, hop.message as usize))?;
    Ok(CycleLine::Hop {
        number: u64::from(hop.event) + 2,
        node,
        message,
        sender,
        sent: u64::from(hop.message) + 2,
        after: u64::from(after) + 2,
    })
}
