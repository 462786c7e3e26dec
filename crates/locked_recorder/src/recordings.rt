//! Recorded steps: a step from a seat, made under the lock.

ghost use Rattle.std.specs.Prelude.{◌≡◌, if◌then◌else◌, IfOk, IfErr, OnOk, OnErr};
ghost use Rattle.std.specs.Borrow.{sem};
ghost use Rattle.locked_recorder.specs.Lent.{Appends};
ghost use Rattle.locked_recorder.specs.Choices.{chosen, IsChosenAnswer, IsChosen, IsChoiceRefused, IsChoiceRefusal};
ghost use Rattle.locked_recorder.specs.Recordings.{IsAnswer, IsRecordRefusal};

use crate::errors::RecordError;
use crate::recorders::{Recorder, is_world_of};
use crate::seats::Seat;
use std::alloc::Global;
use std::sync::Wait;
use step_buffers::{Done, Move, StepError};

impl Recorder {
    /// Makes one step from a seat as `Seat::step` does, and lends what was done. No clause says here what the seat is
    /// afterwards: use `Seat::step` if that is asked.
    pub fn step<'a, R: Wait>(
        &self,
        rt: &R,
        alloc: Global,
        seat: &'a mut Seat,
        step: Move,
    ) -> Result<&'a Done, RecordError>
        ensures tag { OnOk result (seat.old.tag ≡ self.now.tag) }
        ensures answered { IfOk result
            (λ done. IsAnswer self.now seat.old.proc step.entry done.now) }
        ensures refused { IfErr result (λ e. IsRecordRefusal self.now seat.old step.entry e) }
    {
        seat.step(rt, alloc, self, step)
    }

    /// Makes one step of processor `p` under the lock: a Send, if sends come first and there is something to send; else
    /// this move.
    fn make<R: Wait>(
        &self,
        rt: &R,
        alloc: Global,
        p: u64,
        sends: bool,
        step: Move,
    ) -> Result<Done, RecordError>
        ensures answered { IfOk result (IsChosenAnswer self.now p (chosen sends step.entry)) }
        ensures refused { IfErr result (IsChoiceRefused self.now p (chosen sends step.entry)) }
    {
        let mut world = self.world.lock(rt);
        if !is_world_of(&world, &self.config, self.limit) {
            return Err(RecordError::ForeignSeat);
        }
        let first = first_move(sends, step);
        match world.step(alloc, p, first) {
            Ok(done) => return Ok(done),
            Err(why) => {
                if !sends {
                    return Err(RecordError::Step(why));
                }
                if why != StepError::NothingToSend {
                    return Err(RecordError::Step(why));
                }
            }
        }
        match world.step(alloc, p, step) {
            Ok(done) => Ok(done),
            Err(why) => Err(RecordError::Step(why)),
        }
    }
}

impl Seat {
    /// Makes one step from this seat, under the recorder's lock, and lends what was done from the seat's list, which
    /// grows by it. A refusal leaves the seat unchanged.
    ///
    /// Refuses in the order of `RecordError`. Waits for the lock. Takes memory for the list, before it waits,
    /// and for the step.
    pub fn step<'a, R: Wait>(
        &'a mut self,
        rt: &R,
        alloc: Global,
        recorder: &Recorder,
        step: Move,
    ) -> Result<&'a Done, RecordError>
        ensures* lends { sem 𝓛 (Appends self.entry result) }
        ensures tag { OnOk result (self.old.tag ≡ recorder.now.tag) }
        ensures answered { IfOk result
            (λ done. IsAnswer recorder.now self.old.proc step.entry done.now) }
        ensures refused { IfErr result (λ e. IsRecordRefusal recorder.now self.old step.entry e) }
    {
        self.record(rt, alloc, recorder, false, step)?;
        Ok(self.last())
    }

    /// Makes one step, taking the lock once: a Send, if sends come first and there is something to send; and else by
    /// this move. Keeps what was done. The list grows before the lock is taken.
    pub(crate) fn record<R: Wait>(
        &mut self,
        rt: &R,
        alloc: Global,
        recorder: &Recorder,
        sends: bool,
        step: Move,
    ) -> Result<(), RecordError>
        ensures tag { OnOk result (self.old.tag ≡ recorder.now.tag) }
        ensures recorded { OnOk result
            (IsChosen recorder.now (chosen sends step.entry) self.old self.new) }
        ensures refused { IfErr result
            (IsChoiceRefusal recorder.now self.old (chosen sends step.entry)) }
        ensures err { OnErr result (self.new ≡ self.old) }
    {
        if self.tag != recorder.tag {
            return Err(RecordError::ForeignSeat);
        }
        if self.done.reserve(1).is_err() {
            return Err(RecordError::Step(StepError::Memory));
        }
        let done = recorder.make(rt, alloc, self.proc, sends, step)?;
        self.done.push(done).unwrap();
        Ok(())
    }
}

/// The move that is tried first: a Send, if sends come first, and else this one.
fn first_move<'a>(sends: bool, step: Move<'a>) -> Move<'a>
    ensures { result ≡ (if sends then Move.Send else step.entry) }
{
    if sends { Move::Send } else { step }
}
