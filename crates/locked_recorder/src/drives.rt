//! Drives: the loop of a thread that makes the steps of one processor.

ghost use Rattle.std.specs.Prelude.{◌≡◌, ◌+◌, ◌<◌, ◌≤◌, ◌==◌, if◌then◌else◌, true};
ghost use Rattle.std.specs.Prelude.{MatchResult, IfOk, IfErr, OnOk, OnErr};
ghost use Rattle.locked_recorder.specs.Choices.{IsChoiceRefusal};
ghost use Rattle.locked_recorder.specs.Drives.{drive_move, was_let_in, IsMoved, IsDriven, IsStopped};

use crate::errors::{DriveError, DriveStop, RecordError};
use crate::recorders::Recorder;
use crate::seats::Seat;
use std::alloc::Global;
use std::sync::Wait;
use step_buffers::{Move, Take};
use step_trace::{Act, Gate};

/// Where a drive is in the round of its processor.
#[derive(Debug, Drop)]
struct Pace {
    // How many Receives end a round, and how many it made in this one.
    patience: u64,
    received: u64,
    ghost early: { received < patience },
}

impl Recorder {
    /// Makes so many steps from a seat, as a thread of its own does. It enters the gate once, and then sends while
    /// there is something to send, and otherwise receives all that waits. The `patience`-th Receive in a round ends
    /// the round; Receives before this call don't count.
    ///
    /// Asks for a patience of at least 1. Refuses in the order of `DriveStop`; the steps made stay. Waits for the
    /// lock. Takes memory as `Seat::step` does.
    pub fn drive<R: Wait, G: Gate>(
        &self,
        rt: &R,
        alloc: Global,
        seat: &mut Seat,
        gate: &G,
        patience: u64,
        steps: u64,
    ) -> Result<u64, DriveError>
        requires { 1 ≤ patience }
        ensures entered { MatchResult result (λ _. G.lets gate.now seat.old.proc true)
            (λ e. G.lets gate.now seat.old.proc (was_let_in e.why)) }
        ensures steps { IfOk result (λ made. made ≡ steps) }
        ensures driven { OnOk result (IsDriven self.now patience steps seat.old seat.new) }
        ensures stopped { IfErr result
            (λ e. IsStopped self.now patience steps seat.old seat.new e) }
    {
        if !gate.enter(seat.proc) {
            return Err(DriveError {
                made: 0,
                why: DriveStop::Held,
            });
        }
        let mut pace = Pace::new(patience);
        for made in 0..steps {
            if let Err(why) = self.go_on(rt, alloc, seat, &mut pace) {
                return Err(DriveError {
                    made,
                    why: DriveStop::Record(why),
                });
            }
        }
        Ok(steps)
    }

    /// Makes one step of a drive: a Send if there is something to send, and else a Receive. From the first Receive of
    /// a round to its end there is nothing to send.
    fn go_on<R: Wait>(
        &self,
        rt: &R,
        alloc: Global,
        seat: &mut Seat,
        pace: &mut Pace,
    ) -> Result<(), RecordError>
        ensures tag { OnOk result (seat.old.tag ≡ self.now.tag) }
        ensures moved { OnOk result
            (IsMoved self.now pace.old.patience pace.old.received pace.new.received
            seat.old seat.new) }
        ensures refused { IfErr result
            (IsChoiceRefusal self.now seat.old (drive_move pace.old.patience pace.old.received)) }
        ensures patience { pace.new.patience ≡ pace.old.patience }
        ensures err { OnErr result (seat.new ≡ seat.old) }
    {
        let receive = Move::Receive {
            take: Take::All,
            ends: pace.is_over(),
        };
        seat.record(rt, alloc, self, pace.received == 0, receive)?;
        match seat.last().step.act {
            Act::Send { .. } => {}
            Act::Receive { .. } => pace.receive(),
        }
        Ok(())
    }
}

impl Pace {
    /// The pace at the beginning of a round.
    fn new(patience: u64) -> Self
        requires { 1 ≤ patience }
        ensures patience { result.patience ≡ patience }
        ensures received { result.received ≡ 0 }
    {
        Pace {
            patience,
            received: 0,
        }
    }

    /// Whether the next Receive ends the round.
    fn is_over(&self) -> bool
        ensures { result ≡ (self.now.received + 1 == self.now.patience) }
    {
        self.received + 1 == self.patience
    }

    /// Counts a Receive, with which the next round begins if it ends this one.
    fn receive(&mut self)
        ensures patience { self.new.patience ≡ self.old.patience }
        ensures received { self.new.received
            ≡ (if self.old.received + 1 == self.old.patience then 0 else self.old.received + 1) }
    {
        self.received = if self.is_over() { 0 } else { self.received + 1 };
    }
}
