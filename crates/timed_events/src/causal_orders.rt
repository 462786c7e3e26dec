//! An order of events that keeps their causes: the earlier events of their processors, and the Sends of what they
//! received.

ghost use Rattle.std.specs.Prelude.{◌≡◌, ◌<◌, ◌≤◌, ◌+◌, ◌∷◌, ◌++◌, ℕ, [], length, map};
ghost use Rattle.std.specs.Prelude.{IfNone, IfOk, IfErr, IfSome, OnOk, slice_index};
ghost use Rattle.std.specs.List.{range_with_len};
ghost use Rattle.timed_events.specs.WalkBriefs.{walk_brief_of};
ghost use Rattle.timed_events.specs.Checks.{AreOfProcessors};
ghost use Rattle.timed_events.specs.Causes.{IsCausalOrder, IsSentTo, IsTimeOrder};
ghost use Rattle.timed_events.specs.CausalWalks.{left_to_do, AreFirsts, AreMet, AreNexts, AreRightlyReceived};
ghost use Rattle.timed_events.specs.CausalWalks.{IsIn, IsCycleRefusal, IsWaiting, IsWalked};

use crate::events::{Event, EventError};
use crate::own_sequences::own_sequences;
use crate::walk_briefs::{WalkBrief, messages_of, one_at, receiver_at, walk_briefs_of};
use std::alloc::{AllocError, Global};
use step_trace::{MAX_PROCESSORS, MAX_STEPS};

/// A walk over the events of all processors, each in its own order, that places each event behind its causes.
#[derive(Drop)]
pub(crate) struct Walk {
    /// Of each processor its first event that isn't placed; the number of all events if there is none.
    pub(crate) heads: Vec<u32>,
    /// How many of the messages of that event are known as sent by placed events.
    pub(crate) met: Vec<usize>,
    /// The message for which that event waits, if its processor isn't awake.
    pub(crate) waits: Vec<u32>,
    /// By place: the event's number in the order, counted from 1; 0 if it isn't placed.
    pub(crate) ranks: Vec<u32>,
    /// The events that are placed, each behind its causes.
    pub(crate) order: Vec<u32>,
    /// The processors to look at.
    pub(crate) awake: Vec<u8>,
}

/// An order of the events that keeps their causes.
///
/// Asks for the order by their times, which it keeps within each processor, and for messages that are received by those
/// to whom they were sent. Refuses exactly if there is none: `Cycle`.
pub(crate) fn causal_order(
    alloc: Global,
    events: &[Event],
    time_order: Vec<u32>,
) -> Result<Vec<u32>, EventError>
    requires few { length events.now ≤ MAX_STEPS }
    requires processors { AreOfProcessors events.now }
    requires ordered { IsTimeOrder events.now time_order.items }
    requires received { AreRightlyReceived events.now }
    ensures order { IfOk result (λ v. IsCausalOrder events.now v.items) }
    ensures refused { IfErr result (λ why. IsCycleRefusal events.now why) }
{
    let walk = walked(alloc, events, time_order)?;
    match first_unplaced(&walk.ranks) {
        Some(event) => Err(EventError::Cycle { event }),
        None => Ok(walk.order),
    }
}

/// The walk when no processor is awake.
pub(crate) fn walked(
    alloc: Global,
    events: &[Event],
    time_order: Vec<u32>,
) -> Result<Walk, AllocError>
    requires few { length events.now ≤ MAX_STEPS }
    requires processors { AreOfProcessors events.now }
    requires ordered { IsTimeOrder events.now time_order.items }
    requires received { AreRightlyReceived events.now }
    ensures walked { IfOk result
        (λ w. IsWalked events.now w.heads.items w.met.items w.waits.items w.ranks.items
        w.order.items w.awake.items) }
    ensures stopped { IfOk result (λ w. length w.awake.items ≡ 0) }
{
    let briefs = walk_briefs_of(alloc, events)?;
    let sequences = own_sequences(alloc, events, &briefs, &time_order)?;
    drop(time_order);
    let mut walk = started(alloc, events, sequences.firsts)?;
    while let Some(processor) = walk.awake.pop() {
        look_at(
            events,
            &briefs,
            &sequences.nexts,
            processor as usize,
            &mut walk,
        )?;
    }
    Ok(walk)
}

/// The walk before the first event is placed.
fn started(alloc: Global, events: &[Event], firsts: Vec<u32>) -> Result<Walk, AllocError>
    requires firsts { AreFirsts events.now firsts.items }
    ensures { IfOk result (λ w. IsWalked events.now w.heads.items w.met.items w.waits.items
        w.ranks.items w.order.items w.awake.items) }
{
    let met = vec![in alloc; 0; MAX_PROCESSORS as usize]?;
    let waits = vec![in alloc; 0; MAX_PROCESSORS as usize]?;
    let ranks = vec![in alloc; 0; events.len()]?;
    let order = Vec::with_capacity(alloc, events.len())?;
    let awake = all_processors(alloc)?;
    Ok(Walk {
        heads: firsts,
        met,
        waits,
        ranks,
        order,
        awake,
    })
}

/// The processors, counted from 0.
fn all_processors(alloc: Global) -> Result<Vec<u8>, AllocError>
    ensures { IfOk result (λ v. v.items ≡ range_with_len 0 MAX_PROCESSORS) }
{
    let mut all = Vec::with_capacity(alloc, MAX_PROCESSORS as usize)?;
    for processor in 0..MAX_PROCESSORS as u8 {
        all.push(processor)?;
    }
    Ok(all)
}

/// Places the head of a processor that was awake, or finds the message for which it waits.
fn look_at(
    events: &[Event],
    briefs: &[WalkBrief],
    nexts: &[u32],
    processor: usize,
    walk: &mut Walk,
) -> Result<(), AllocError>
    requires few { length events.now ≤ MAX_STEPS }
    requires processors { AreOfProcessors events.now }
    requires briefs { briefs.now ≡ map walk_brief_of events.now }
    requires nexts { AreNexts events.now nexts.now }
    requires received { AreRightlyReceived events.now }
    requires inside { processor < MAX_PROCESSORS }
    requires walked { IsWalked events.now walk.old.heads.items walk.old.met.items
        walk.old.waits.items walk.old.ranks.items walk.old.order.items
        (walk.old.awake.items ++ processor ∷ []) }
    ensures walked { OnOk result
        (IsWalked events.now walk.new.heads.items walk.new.met.items walk.new.waits.items
        walk.new.ranks.items walk.new.order.items walk.new.awake.items) }
    ensures less { OnOk result
        (left_to_do walk.new.ranks.items walk.new.awake.items < left_to_do walk.old.ranks.items
        walk.old.awake.items + 1) }
{
    let head = walk.heads[processor] as usize;
    if head >= events.len() {
        return Ok(());
    }
    let unmet = unmet_from(events, briefs, head, walk.met[processor], &walk.ranks);
    if (unmet.message as usize) < events.len() {
        walk.met[processor] = unmet.met;
        walk.waits[processor] = unmet.message;
        return Ok(());
    }
    walk.order.push(head as u32)?;
    walk.ranks[head] = walk.order.len() as u32;
    walk.heads[processor] = nexts[head];
    walk.met[processor] = 0;
    walk.awake.push(processor as u8)?;
    let to = receiver_at(events, briefs, head);
    wake(head, to, &walk.waits, &mut walk.awake)?;
    Ok(())
}

/// The first message whose Send isn't placed.
#[derive(Clone, Copy, Debug)]
struct Unmet {
    /// How many are before it.
    met: usize,
    /// The number of all events if there is none.
    message: u32,
}

/// The first message of the event at `place` whose Send isn't placed; those before `from` are known.
fn unmet_from(
    events: &[Event],
    briefs: &[WalkBrief],
    place: usize,
    from: usize,
    ranks: &[u32],
) -> Unmet
    requires few { length events.now ≤ MAX_STEPS }
    requires inside { place < length events.now }
    requires briefs { briefs.now ≡ map walk_brief_of events.now }
    requires ranks { length ranks.now ≡ length events.now }
    requires met { AreMet events.now ranks.now place from }
    ensures met { AreMet events.now ranks.now place result.met }
    ensures waits { result.message < length events.now
        → IsWaiting events.now ranks.now place result.message }
    ensures none { length events.now ≤ result.message → (s : ℕ) → IsSentTo events.now place s
        → 0 < slice_index ranks.now s }
{
    let one = one_at(briefs, place);
    let messages = messages_of(events, briefs, place, &one);
    for k in from..messages.len() {
        if let Some(message) = messages[k] {
            if (message as usize) < ranks.len() && ranks[message as usize] == 0 {
                return Unmet { met: k, message };
            }
        }
    }
    Unmet {
        met: from,
        message: events.len() as u32,
    }
}

/// Wakes the processor `to` which the event at `place` is a Send, if it waits for that message.
fn wake(place: usize, to: u64, waits: &[u32], awake: &mut Vec<u8>) -> Result<(), AllocError>
    requires waits { length waits.now ≡ MAX_PROCESSORS }
    ensures kept { OnOk result ((q : ℕ) → IsIn q awake.old.items → IsIn q awake.new.items) }
    ensures woken { OnOk result ((q : ℕ) → q < MAX_PROCESSORS → to ≡ q + 1
        → slice_index waits.now q ≡ place → IsIn q awake.new.items) }
    ensures inside { OnOk result
        (((k : ℕ) → k < length awake.old.items → slice_index awake.old.items k < MAX_PROCESSORS)
        → (k : ℕ) → k < length awake.new.items
        → slice_index awake.new.items k < MAX_PROCESSORS) }
    ensures one { OnOk result (length awake.new.items ≤ length awake.old.items + 1) }
{
    if to < 1 || MAX_PROCESSORS < to {
        return Ok(());
    }
    let processor = to as usize - 1;
    if waits[processor] as usize == place {
        awake.push(processor as u8)?;
    }
    Ok(())
}

/// The first event that isn't placed.
pub(crate) fn first_unplaced(ranks: &[u32]) -> Option<usize>
    ensures some { IfSome result (λ i. (i < length ranks.now) × (slice_index ranks.now i ≡ 0)
        × ((j : ℕ) → j < i → 0 < slice_index ranks.now j)) }
    ensures none { IfNone result ((j : ℕ) → j < length ranks.now → 0 < slice_index ranks.now j) }
{
    for (place, rank) in ranks.iter().enumerate() {
        if *rank == 0 {
            return Some(place);
        }
    }
    None
}
