//! The lines that report a cycle of clocks, for which no offsets align those of a log.

ghost use Rattle.std.specs.Prelude.{◌≡◌, ◌<◌, ℕ, IfOk, length, get_or};
ghost use Rattle.clock_offsets.specs.declared.clock_cycles.ClockHop.{ClockHop};
ghost use Rattle.event_log.specs.ClockLines.{clock_line, clock_lines, cycle_lines, shown_clock_lines};

use crate::cycle_lines::{CycleLine, CycleLines};
use crate::event_refusals::{node_name, processor_at};
use crate::hop_lines::MAX_SHOWN;
use crate::message_names::message_name;
use crate::names::NameSet;
use crate::reading::MAX_EVENTS;
use clock_offsets::{ClockCycle, ClockHop};
use std::alloc::{AllocError, Global};
use timed_events::Event;

/// The lines of a cycle of clocks: one for each of the first `MAX_SHOWN` messages, how many more there are, and how
/// long they take together. None if there is no cycle.
pub(crate) fn clock_lines(
    alloc: Global,
    text: &[u8],
    nodes: &NameSet,
    events: &[Event],
    cycle: Option<ClockCycle>,
) -> Result<CycleLines, AllocError>
    requires { (c : ClockCycle) (k : ℕ) (d : ClockHop) → cycle ≡ Some c → k < length c.hops.items
        → (get_or c.hops.items k d).message < MAX_EVENTS }
    ensures { IfOk result (λ lines. lines ≡ clock_lines text.now nodes.now events.now cycle) }
{
    match cycle {
        None => Ok(CycleLines::new(Vec::new(alloc))),
        Some(cycle) => {
            let lines = cycle_lines(alloc, text, nodes, events, &cycle)?;
            Ok(CycleLines::new(lines))
        }
    }
}

/// The lines of a cycle of clocks.
fn cycle_lines(
    alloc: Global,
    text: &[u8],
    nodes: &NameSet,
    events: &[Event],
    cycle: &ClockCycle,
) -> Result<Vec<CycleLine>, AllocError>
    requires { (k : ℕ) (d : ClockHop) → k < length cycle.now.hops.items
        → (get_or cycle.now.hops.items k d).message < MAX_EVENTS }
    ensures { IfOk result
        (λ lines. lines.items ≡ cycle_lines text.now nodes.now events.now cycle.now) }
{
    let mut lines = shown_clock_lines(alloc, text, nodes, events, &cycle.hops)?;
    lines.push(CycleLine::More(cycle.hops.len().saturating_sub(MAX_SHOWN)))?;
    lines.push(CycleLine::Together(cycle.total))?;
    Ok(lines)
}

/// The lines of the first `MAX_SHOWN` messages.
fn shown_clock_lines(
    alloc: Global,
    text: &[u8],
    nodes: &NameSet,
    events: &[Event],
    hops: &[ClockHop],
) -> Result<Vec<CycleLine>, AllocError>
    requires { (k : ℕ) (d : ClockHop) → k < length hops.now
        → (get_or hops.now k d).message < MAX_EVENTS }
    ensures { IfOk result
        (λ lines. lines.items ≡ shown_clock_lines text.now nodes.now events.now hops.now) }
{
    let mut lines = Vec::new(alloc);
    for k in 0..hops.len().min(MAX_SHOWN) {
        lines.push(clock_line(alloc, text, nodes, events, hops[k])?)?;
    }
    Ok(lines)
}

/// The line of a message: the record that receives it, from which node to which it went, how long it took, and the
/// record that sends it.
fn clock_line(
    alloc: Global,
    text: &[u8],
    nodes: &NameSet,
    events: &[Event],
    hop: ClockHop,
) -> Result<CycleLine, AllocError>
    requires { hop.message < MAX_EVENTS }
    ensures { IfOk result (λ line. line ≡ clock_line text.now nodes.now events.now hop) }
{
    let message = message_name(alloc, text, hop.message as usize, 0)?;
    let sender = node_name(alloc, nodes, processor_at(events, hop.message as usize))?;
    let receiver = node_name(alloc, nodes, processor_at(events, hop.event as usize))?;
    Ok(CycleLine::Clock {
        number: u64::from(hop.event) + 2,
        message,
        sender,
        receiver,
        took: hop.took,
        sent: u64::from(hop.message) + 2,
    })
}
