//! The least offsets of the clocks of events, and the events once their clocks are moved.

ghost use Rattle.std.specs.Prelude.{◌≡◌, ◌≤◌, ◌+ℤ◌, ◌≤ℤ◌, ◌<ℤ◌, ◌-◌, ℕ, OnOk, IfErr};
ghost use Rattle.std.specs.Prelude.{IfOk, length, map, pos, slice_index_or};
ghost use Rattle.timed_events.specs.Checks.{AreMeant};
ghost use Rattle.clock_offsets.specs.EventNeeds.{offset_in, AreClockOffsets, IsClockRefusal};
ghost use Rattle.clock_offsets.specs.MovedClocks.{moved_event, IsTooLate};

use crate::needs::needs_among;
use crate::offsets::{CLOCKS, least_offsets};
use crate::refusals::OffsetError;
use std::alloc::Global;
use std::marker::Model;
use step_trace::MAX_STEPS;
use timed_events::{Event, hops_of};

/// By how much each clock is moved, in the unit of the times.
#[derive(Debug, Drop)]
pub struct Offsets {
    of: Vec<i128>,
}

impl Model for Offsets {
    ghost use Rattle.std.specs.Prelude.{List};
    ghost use Rattle.std.proofs.Common.{ℤ};

    ghost Value = { List ℤ };

    ghost view = { λ offsets. offsets.of.items };
}

impl Offsets {
    /// The offset of a clock, counted from 0; 0 if there is none.
    pub fn at(&self, clock: usize) -> i128
        ensures { result ≡ slice_index_or self.now clock (pos 0) }
    {
        match self.of.get(clock) {
            Some(offset) => *offset,
            None => 0,
        }
    }

    /// How many clocks there are.
    pub fn len(&self) -> usize
        ensures { result ≡ length self.now }
    {
        self.of.len()
    }
}

/// The least offsets of the clocks of `n` processors. Once each clock is moved forward by its offset, each message that
/// the events received is received later than it is sent.
///
/// Asks for events of these processors. Refuses Cycle if no offsets do so, TooFar for sums of times that no 128 bits
/// hold, and Memory.
pub fn clock_offsets(alloc: Global, n: usize, events: &[Event]) -> Result<Offsets, OffsetError>
    requires most { n ≤ CLOCKS }
    requires few { length events.now ≤ MAX_STEPS }
    requires meant { AreMeant events.now n }
    ensures offsets { IfOk result (λ offsets. AreClockOffsets n events.now offsets) }
    ensures refused { IfErr result (λ why. IsClockRefusal events.now why) }
{
    let hops = hops_of(alloc, events)?;
    let needs = needs_among(alloc, events, &hops)?;
    let of = least_offsets(alloc, n, &needs)?;
    Ok(Offsets { of })
}

/// An event would come too late.
#[derive(Clone, Copy, Debug, PartialEq, Eq)]
pub struct TooLate;

/// The events, once each clock is moved by its offset.
///
/// Asks for offsets that move no clock back. Refuses an event that would come later than `latest`. Takes no memory.
pub fn moved_events(
    events: Vec<Event>,
    offsets: &Offsets,
    latest: i128,
) -> Result<Vec<Event>, TooLate>
    requires forward { (j : ℕ) → pos 0 ≤ℤ offset_in offsets.now j }
    ensures moved { IfOk result (λ v. v.items ≡ map (moved_event offsets.now) events.items) }
    ensures within { OnOk result (¬ IsTooLate events.items offsets.now latest) }
    ensures refused { IfErr result (λ why. IsTooLate events.items offsets.now latest) }
{
    let mut moved = events;
    for event in moved.iter_mut() {
        move_event(event, offsets, latest)?;
    }
    Ok(moved)
}

/// Moves an event by the offset of its clock.
fn move_event(event: &mut Event, offsets: &Offsets, latest: i128) -> Result<(), TooLate>
    requires forward { (j : ℕ) → pos 0 ≤ℤ offset_in offsets.now j }
    ensures moved { OnOk result (event.new ≡ moved_event offsets.now event.old) }
    ensures within { OnOk result
        ((event.old.time +ℤ offset_in offsets.now (event.old.processor - 1)) ≤ℤ latest) }
    ensures refused { IfErr result
        (λ why. latest <ℤ (event.old.time +ℤ offset_in offsets.now (event.old.processor - 1))) }
{
    let offset = offsets.at(event.processor.saturating_sub(1) as usize);
    event.time = moved_time(event.time, offset, latest)?;
    Ok(())
}

/// A time that is moved, if it isn't later than `latest`.
fn moved_time(time: i128, offset: i128, latest: i128) -> Result<i128, TooLate>
    requires forward { pos 0 ≤ℤ offset }
    ensures moved { IfOk result (λ moved. moved ≡ time +ℤ offset) }
    ensures within { OnOk result ((time +ℤ offset) ≤ℤ latest) }
    ensures refused { IfErr result (λ why. latest <ℤ (time +ℤ offset)) }
{
    let Some(moved) = time.checked_add(offset) else {
        return Err(TooLate);
    };
    if moved > latest {
        return Err(TooLate);
    }
    Ok(moved)
}
