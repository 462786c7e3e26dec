//! What the messages of events need of the clocks of their processors.

ghost use Rattle.std.specs.Prelude.{◌≡◌, ◌<◌, ◌-◌, ℕ, IfErr, IfOk, OnOk, Some, length};
ghost use Rattle.clock_offsets.specs.ClockOffsets.{greater};
ghost use Rattle.clock_offsets.specs.EventNeeds.{clock_at, need_of, with_need, AreNeedsAmong};
ghost use Rattle.clock_offsets.specs.Matrices.{needs_at, IsWant};

use crate::offsets::CLOCKS;
use crate::refusals::OffsetError;
use std::alloc::Global;
use timed_events::{Event, Hop, time_at};

/// The greatest need that any of these messages has, for each two clocks: row after row, what the second needs of the
/// first.
///
/// Refuses TooFar for a need that is beyond the numbers that are held, and Memory.
pub(crate) fn needs_among(
    alloc: Global,
    events: &[Event],
    hops: &[Hop],
) -> Result<Vec<Option<i128>>, OffsetError>
    ensures needs { IfOk result (λ v. AreNeedsAmong events.now hops.now v.items) }
    ensures refused { IfErr result (λ why. IsWant why) }
{
    let mut needs = vec![in alloc; None; CLOCKS * CLOCKS]?;
    for hop in hops {
        note_need(events, *hop, &mut needs)?;
    }
    Ok(needs)
}

/// Notes the need of a message, if it is greater than those before it.
fn note_need(events: &[Event], hop: Hop, needs: &mut Vec<Option<i128>>) -> Result<(), OffsetError>
    requires long { length needs.old.items ≡ 4096 }
    ensures long { OnOk result (length needs.new.items ≡ 4096) }
    ensures each { OnOk result ((i j : ℕ) → i < 64 → j < 64
        → needs_at needs.new.items i j ≡ with_need events.now i j
        (needs_at needs.old.items i j) hop) }
    ensures refused { IfErr result (λ why. IsWant why) }
{
    let from = clock_at(events, hop.message as usize);
    let to = clock_at(events, hop.event as usize);
    if from >= CLOCKS || to >= CLOCKS {
        return Ok(());
    }
    let need = need_of(events, hop)?;
    let place = from * CLOCKS + to;
    needs[place] = Some(greater(needs[place], need));
    Ok(())
}

/// By how much the clock of the receiver of a message has to be ahead of that of its sender.
fn need_of(events: &[Event], hop: Hop) -> Result<i128, OffsetError>
    ensures need { IfOk result (λ need. need ≡ need_of events.now hop) }
    ensures refused { IfErr result (λ why. IsWant why) }
{
    let sent = time_at(events, hop.message as usize);
    let received = time_at(events, hop.event as usize);
    let Some(after) = sent.checked_sub(received) else {
        return Err(OffsetError::TooFar);
    };
    let Some(need) = after.checked_add(1) else {
        return Err(OffsetError::TooFar);
    };
    Ok(need)
}

/// The greater of two needs, of which there is the second.
fn greater(old: Option<i128>, need: i128) -> i128
    ensures { Some result ≡ greater old (Some need) }
{
    match old {
        Some(old) => old.max(need),
        None => need,
    }
}

/// The clock of the event at a place, counted from 0.
pub(crate) fn clock_at(events: &[Event], place: usize) -> usize
    ensures { result ≡ clock_at events.now place }
{
    match events.get(place) {
        Some(event) => event.processor.saturating_sub(1) as usize,
        None => 0,
    }
}
