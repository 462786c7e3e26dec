//! Audits: whether the trace, the seats and the views of a recorder fit together.

ghost use Rattle.std.specs.Prelude.{ℕ, ◌≡◌, List, Option, IfOk, IfErr, IfSome, OnOk};
ghost use Rattle.step_trace.specs.Traces.{Recorded};
ghost use Rattle.locked_recorder.specs.Prefixes.{IsRunOf};
ghost use Rattle.locked_recorder.specs.Audits.{AreInOrder, AreTagged, AgreeWith, AreExtended, IsOff, IsAuditRefusal};

use crate::comparisons::{are_in_order, are_tagged, first_differing, first_not_extended};
use crate::errors::AuditError;
use crate::recorders::{Recorder, is_world_of};
use crate::seat_comparisons::compare_seats;
use crate::seats::Seat;
use crate::views::View;
use std::alloc::{AllocError, Global};
use std::sync::Wait;
use step_buffers::World;
use step_trace::Config;

impl Recorder {
    /// A copy of the recorder's World, if all seats and views fit its trace. Each seat did exactly what its processor
    /// does in the trace, with the rounds and decisions that it was answered. The trace extends all that was shown to
    /// the views. So each step of the trace is in exactly one seat.
    ///
    /// Refuses in the order of `AuditError`. Waits for the lock, and copies the World under it; compares without it.
    /// Takes memory for the copy, and for two numbers for each seat.
    pub fn audit<R: Wait>(
        &self,
        rt: &R,
        alloc: Global,
        seats: &[Seat],
        views: &[View],
    ) -> Result<World, AuditError>
        ensures run { IfOk result (λ world. IsRunOf self.now.config world.trace) }
        ensures limit { IfOk result (λ world. world.limit ≡ self.now.limit) }
        ensures order { OnOk result (AreInOrder self.now.config seats.now) }
        ensures tags { OnOk result (AreTagged self.now.tag seats.now) }
        ensures seats { IfOk result
            (λ world. AgreeWith world.trace.config world.trace.steps seats.now) }
        ensures views { IfOk result (λ world. AreExtended world.trace views.now) }
        ensures refused { IfErr result (λ e. IsAuditRefusal self.now seats.now views.now e) }
    {
        are_its_own(&self.config, self.tag, seats)?;
        let world = match self.copied(rt, alloc) {
            Ok(Some(world)) => world,
            Ok(None) => return Err(AuditError::ForeignSeat),
            Err(_) => return Err(AuditError::Memory),
        };
        compared(alloc, &world, seats, views)?;
        Ok(world)
    }

    /// The World of a recorder to which no step is made any more, if all seats and views fit its trace, as `audit`
    /// has it. The World itself is given, and nothing of it is copied.
    ///
    /// Refuses in the order of `AuditError`; then the recorder is gone. Takes memory for two numbers for each seat.
    pub fn into_audited(
        self,
        alloc: Global,
        seats: &[Seat],
        views: &[View],
    ) -> Result<World, AuditError>
        ensures run { IfOk result (λ world. IsRunOf self.config world.trace) }
        ensures limit { IfOk result (λ world. world.limit ≡ self.limit) }
        ensures order { OnOk result (AreInOrder self.config seats.now) }
        ensures tags { OnOk result (AreTagged self.tag seats.now) }
        ensures seats { IfOk result
            (λ world. AgreeWith world.trace.config world.trace.steps seats.now) }
        ensures views { IfOk result (λ world. AreExtended world.trace views.now) }
        ensures refused { IfErr result (λ e. IsAuditRefusal self seats.now views.now e) }
    {
        let Recorder {
            world,
            tag,
            config,
            limit,
        } = self;
        are_its_own(&config, tag, seats)?;
        let world = world.into_inner();
        if !is_world_of(&world, &config, limit) {
            return Err(AuditError::ForeignSeat);
        }
        compared(alloc, &world, seats, views)?;
        Ok(world)
    }

    /// A copy of the World, made under the lock; none if it isn't the recorder's own.
    fn copied<R: Wait>(&self, rt: &R, alloc: Global) -> Result<Option<World>, AllocError>
        ensures run { IfOk result
            (λ copied. IfSome copied (λ world. IsRunOf self.now.config world.trace)) }
        ensures limit { IfOk result
            (λ copied. IfSome copied (λ world. world.limit ≡ self.now.limit)) }
    {
        let world = self.world.lock(rt);
        if !is_world_of(&world, &self.config, self.limit) {
            return Ok(None);
        }
        Ok(Some(world.copy(alloc)?))
    }
}

/// Whether these are the seats of a recorder: one for each processor, in order, and of its tag.
fn are_its_own(config: &Config, tag: u64, seats: &[Seat]) -> Result<(), AuditError>
    ensures order { OnOk result (AreInOrder config.now seats.now) }
    ensures tags { OnOk result (AreTagged tag seats.now) }
    ensures refused { (views : List (Option Recorded)) (limit : ℕ)
        → IfErr result
        (λ e. IsAuditRefusal (record { tag = tag; config = config.now; limit = limit })
        seats.now views e) }
{
    if !are_in_order(config, seats) {
        return Err(AuditError::SeatCount);
    }
    if !are_tagged(tag, seats) {
        return Err(AuditError::ForeignSeat);
    }
    Ok(())
}

/// Whether seats and views fit the trace of a World; else the first that doesn't.
fn compared(alloc: Global, world: &World, seats: &[Seat], views: &[View]) -> Result<(), AuditError>
    requires order { AreInOrder world.now.trace.config seats.now }
    ensures seats { OnOk result (AgreeWith world.now.trace.config world.now.trace.steps seats.now) }
    ensures views { OnOk result (AreExtended world.now.trace views.now) }
    ensures refused { IfErr result (λ e. IsOff world.now.trace seats.now views.now e) }
{
    let Ok(agreed) = compare_seats(alloc, world, seats) else {
        return Err(AuditError::Memory);
    };
    if let Some(index) = first_differing(seats, &agreed) {
        return Err(AuditError::SeatDiffers(index as u64 + 1));
    }
    match first_not_extended(world.trace(), views) {
        Some(index) => Err(AuditError::ViewDiffers(index)),
        None => Ok(()),
    }
}
