//! Drives by the pace "heard out".

ghost use Rattle.std.specs.Prelude.{◌≡◌, ◌≤◌, length, true, false, MatchResult, IfOk, IfErr, OnOk, OnErr};
ghost use Rattle.step_trace.specs.Configurations.{IsProc};
ghost use Rattle.deciding_runs.specs.Paces.{opening_pace, paced_move, after_move};
ghost use Rattle.locked_recorder.specs.Drives.{was_let_in};
ghost use Rattle.locked_recorder.specs.PacedDrives.{IsPacedAnswer, IsPacedStep, IsPaceRefused, IsPaceRefusal};
ghost use Rattle.locked_recorder.specs.PacedDrives.{IsPacedDrive, IsPacedStopped};

use crate::company::Company;
use crate::errors::{DriveError, DriveStop, RecordError};
use crate::recorders::{Recorder, is_world_of};
use crate::seats::Seat;
use crate::sleepers::Sleepers;
use deciding_runs::Pace;
use std::alloc::Global;
use std::sync::Wait;
use step_buffers::{Done, Move, StepError, World};
use step_trace::{Act, Gate};

impl Recorder {
    /// Makes so many steps from a seat as `drive` does, by the pace "heard out". It enters the gate once, and then
    /// sends while there is something to send, and otherwise receives all that waits. A Receive ends the round if all
    /// has been heard that the round can bring, if something of a round more than a phase later was taken, or if it is
    /// the `patience`-th in the round (`Pace` of `deciding_runs`). What was heard before this call doesn't count.
    ///
    /// Before an idle Receive, which would take nothing and not end the round, it sleeps until a message comes, as long
    /// as another thread of this company is awake. At its end it wakes them.
    ///
    /// Refuses in the order of `DriveStop`; the steps made stay. Waits for locks, and asleep. Takes memory for each
    /// processor, and as `Seat::step` does.
    pub fn drive_heard_out<R: Wait, G: Gate>(
        &self,
        rt: &R,
        alloc: Global,
        seat: &mut Seat,
        gate: &G,
        company: &Company,
        patience: u64,
        steps: u64,
    ) -> Result<u64, DriveError>
        ensures entered { MatchResult result (λ _. G.lets gate.now seat.old.proc true)
            (λ e. G.lets gate.now seat.old.proc (was_let_in e.why)) }
        ensures steps { IfOk result (λ made. made ≡ steps) }
        ensures driven { OnOk result (IsPacedDrive self.now patience steps seat.old seat.new) }
        ensures stopped { IfErr result
            (λ e. IsPacedStopped self.now patience steps seat.old seat.new e) }
    {
        let driven = self.drive_paced(rt, alloc, seat, gate, company, false, patience, steps);
        company.sleepers.leave(rt);
        driven
    }

    /// Makes steps from a seat as `drive_heard_out` does, until all processors of this company have decided, but no
    /// more than `steps`. Answers how many it made. A processor counts as decided from the first step on that its
    /// thread makes with a decision.
    ///
    /// Refuses, waits and takes memory as `drive_heard_out` does.
    pub fn drive_until_decided<R: Wait, G: Gate>(
        &self,
        rt: &R,
        alloc: Global,
        seat: &mut Seat,
        gate: &G,
        company: &Company,
        patience: u64,
        steps: u64,
    ) -> Result<u64, DriveError>
        ensures entered { MatchResult result (λ _. G.lets gate.now seat.old.proc true)
            (λ e. G.lets gate.now seat.old.proc (was_let_in e.why)) }
        ensures steps { IfOk result (λ made. made ≤ steps) }
        ensures driven { IfOk result
            (λ made. IsPacedDrive self.now patience made seat.old seat.new) }
        ensures stopped { IfErr result
            (λ e. IsPacedStopped self.now patience steps seat.old seat.new e) }
    {
        let driven = self.drive_paced(rt, alloc, seat, gate, company, true, patience, steps);
        company.sleepers.leave(rt);
        driven
    }

    /// The same, without waking anybody at its end; until all have decided, if it is asked for that.
    fn drive_paced<R: Wait, G: Gate>(
        &self,
        rt: &R,
        alloc: Global,
        seat: &mut Seat,
        gate: &G,
        company: &Company,
        until_decided: bool,
        patience: u64,
        steps: u64,
    ) -> Result<u64, DriveError>
        ensures entered { MatchResult result (λ _. G.lets gate.now seat.old.proc true)
            (λ e. G.lets gate.now seat.old.proc (was_let_in e.why)) }
        ensures steps { IfOk result (λ made. made ≤ steps) }
        ensures whole { until_decided ≡ false → IfOk result (λ made. made ≡ steps) }
        ensures driven { IfOk result
            (λ made. IsPacedDrive self.now patience made seat.old seat.new) }
        ensures stopped { IfErr result
            (λ e. IsPacedStopped self.now patience steps seat.old seat.new e) }
    {
        if !gate.enter(seat.proc) {
            return Err(DriveError {
                made: 0,
                why: DriveStop::Held,
            });
        }
        if steps == 0 {
            return Ok(0);
        }
        let mut pace = match self.opening_pace(alloc, seat, patience) {
            Ok(pace) => pace,
            Err(why) => {
                return Err(DriveError {
                    made: 0,
                    why: DriveStop::Record(why),
                });
            }
        };
        let mut has_decided = false;
        for made in 0..steps {
            if until_decided && company.undecided.is_none() {
                return Ok(made);
            }
            if let Err(why) = seat.record_paced(rt, alloc, self, &company.sleepers, &mut pace) {
                return Err(DriveError {
                    made,
                    why: DriveStop::Record(why),
                });
            }
            has_decided = count_decision(company, seat, has_decided);
        }
        Ok(steps)
    }

    /// The pace before the first step from a seat.
    fn opening_pace(&self, alloc: Global, seat: &Seat, patience: u64) -> Result<Pace, RecordError>
        ensures pace { IfOk result (λ pace. pace ≡ opening_pace self.now.config patience) }
        ensures refused { IfErr result
            (IsPaceRefusal self.now seat.now (opening_pace self.now.config patience)) }
    {
        if seat.tag != self.tag {
            return Err(RecordError::ForeignSeat);
        }
        match Pace::new(alloc, &self.config, patience) {
            Ok(pace) => Ok(pace),
            Err(_) => Err(RecordError::Step(StepError::Memory)),
        }
    }

    /// Sleeps until a message comes, if processor `p` has nothing to do before, and another thread is awake.
    fn rest<R: Wait>(&self, rt: &R, sleepers: &Sleepers, p: u64, pace: &Pace)
        requires { length pace.now.peers ≡ self.now.config.n }
    {
        if self.lies_down(rt, sleepers, p, pace) {
            sleepers.sleep(rt, p);
        }
    }

    /// Lays a thread down under the lock, so that it sees each message before or is woken by it.
    fn lies_down<R: Wait>(&self, rt: &R, sleepers: &Sleepers, p: u64, pace: &Pace) -> bool
        requires { length pace.now.peers ≡ self.now.config.n }
    {
        let world = self.world.lock(rt);
        if !is_world_of(&world, &self.config, self.limit) {
            return false;
        }
        is_idle(&world, p, pace) && sleepers.lie_down(rt, p)
    }

    /// Makes one step of processor `p` under the lock, by its pace.
    fn make_paced<R: Wait>(
        &self,
        rt: &R,
        alloc: Global,
        p: u64,
        pace: &mut Pace,
    ) -> Result<Done, RecordError>
        requires { length pace.old.peers ≡ self.now.config.n }
        ensures answered { IfOk result (IsPacedAnswer self.now p pace.old pace.new) }
        ensures refused { IfErr result (IsPaceRefused self.now p pace.old) }
        ensures peers { length pace.new.peers ≡ length pace.old.peers }
    {
        let mut world = self.world.lock(rt);
        if !is_world_of(&world, &self.config, self.limit) {
            return Err(RecordError::ForeignSeat);
        }
        let step = next_move(&world, p, pace);
        match world.step(alloc, p, step) {
            Ok(done) => Ok(done),
            Err(why) => Err(RecordError::Step(why)),
        }
    }
}

impl Seat {
    /// Makes one step by its pace, and keeps what was done; before an idle Receive it sleeps, and a Send wakes its
    /// receiver. The list grows before the lock is taken.
    fn record_paced<R: Wait>(
        &mut self,
        rt: &R,
        alloc: Global,
        recorder: &Recorder,
        sleepers: &Sleepers,
        pace: &mut Pace,
    ) -> Result<(), RecordError>
        requires { length pace.old.peers ≡ recorder.now.config.n }
        ensures tag { OnOk result (self.old.tag ≡ recorder.now.tag) }
        ensures recorded { OnOk result
            (IsPacedStep recorder.now pace.old pace.new self.old self.new) }
        ensures refused { IfErr result (IsPaceRefusal recorder.now self.old pace.old) }
        ensures peers { length pace.new.peers ≡ length pace.old.peers }
        ensures err { OnErr result (self.new ≡ self.old) }
    {
        if self.tag != recorder.tag {
            return Err(RecordError::ForeignSeat);
        }
        if self.done.reserve(1).is_err() {
            return Err(RecordError::Step(StepError::Memory));
        }
        recorder.rest(rt, sleepers, self.proc, pace);
        let done = recorder.make_paced(rt, alloc, self.proc, pace)?;
        wake_receiver(rt, sleepers, &done);
        self.done.push(done).unwrap();
        Ok(())
    }
}

/// The next move of processor `p` in a World, by its pace; a Send of one that isn't there, which is refused as any move
/// of it is.
fn next_move<'a>(world: &World, p: u64, pace: &mut Pace) -> Move<'a>
    requires { length pace.old.peers ≡ world.now.trace.config.n }
    ensures moved { IsProc world.now.trace.config p
        → result ≡ paced_move world.now.trace.config world.now.trace.steps p pace.old }
    ensures pace { IsProc world.now.trace.config p
        → pace.new ≡ after_move world.now.trace.config world.now.trace.steps p pace.old }
    ensures peers { length pace.new.peers ≡ length pace.old.peers }
{
    if !world.trace().config().is_processor(p) {
        return Move::Send;
    }
    pace.next_move(world, p)
}

/// Whether processor `p` has nothing to do until a message comes; not of one that isn't there.
fn is_idle(world: &World, p: u64, pace: &Pace) -> bool
    requires { length pace.now.peers ≡ world.now.trace.config.n }
{
    if !world.trace().config().is_processor(p) {
        return false;
    }
    pace.is_idle(world, p)
}

/// Counts the processor of a seat as decided, unless that was done before: if its last step left it with a decision.
/// Says whether it is counted now.
fn count_decision(company: &Company, seat: &Seat, has_decided: bool) -> bool {
    if has_decided {
        return true;
    }
    let Some(done) = seat.done().last() else {
        return false;
    };
    if done.decision.is_none() {
        return false;
    }
    company.undecided.decide();
    true
}

/// Wakes the thread of the processor to which a message was sent, if one was.
fn wake_receiver<R: Wait>(rt: &R, sleepers: &Sleepers, done: &Done) {
    if let Act::Send { to } = done.step.act {
        sleepers.wake(rt, to);
    }
}
