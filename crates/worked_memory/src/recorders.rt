//! Recorders: what is shown of one, its audits, and steps by its own call. Runs on threads are swept by `tests/sweeps`.

use locked_recorder::{AuditError, MineError, PrefixError, RecordError, Recorder, Seat};
use refused_growths::{Call, LentCall, Outcome, Refusal, first_wrong, first_wrong_lent, judged};
use std::alloc::{AllocError, Global};
use std::sync::Wait;
use step_buffers::{Move, StepError, Take};
use step_trace::{Config, OpenGate};

/// So many steps of each seat that its list has no room to spare.
const OWN: u64 = 16;

/// Those of all three.
const STEPS: usize = 48;

/// A recorder with its seats, and the handle by which its lock is waited for.
#[derive(Drop)]
struct Bench<'a, R> {
    rt: &'a R,
    recorder: Recorder,
    seats: Vec<Seat>,
}

/// Whether the steps of each seat are made.
fn are_driven<R: Wait>(rt: &R, alloc: Global, recorder: &Recorder, seats: &mut [Seat]) -> bool {
    for seat in seats {
        if recorder.drive(rt, alloc, seat, &OpenGate, 1, OWN).is_err() {
            return false;
        }
    }
    true
}

/// A recorder of three processors that have made their steps.
fn make_bench<'a, R: Wait>(rt: &'a R, alloc: Global) -> Option<Bench<'a, R>> {
    let init = Vec::from_slice(alloc, &[5, 7, 7]).ok()?;
    let config = Config::new(3, 1, init).ok()?;
    let (recorder, mut seats) = Recorder::new(alloc, config, 1, 1_000).ok()?;
    if !are_driven(rt, alloc, &recorder, seats.as_mut_slice()) {
        return None;
    }
    Some(Bench {
        rt,
        recorder,
        seats,
    })
}

/// What is asked of a recorder.
#[derive(Clone, Copy, Debug)]
enum Asked {
    Audit,
    Prefix,
    PrefixMine,
}

#[derive(Drop)]
struct Asks<'a, R> {
    bench: &'a Bench<'a, R>,
    asked: Asked,
}

fn is_audited<R: Wait>(
    rt: &R,
    alloc: Global,
    recorder: &Recorder,
    seats: &[Seat],
) -> Result<bool, AllocError> {
    match recorder.audit(rt, alloc, seats, &[]) {
        Ok(world) => Ok(world.trace().len() == STEPS),
        Err(AuditError::Memory) => Err(AllocError),
        Err(_) => Ok(false),
    }
}

/// A view that is shown nothing has seen nothing.
fn is_shown<R: Wait>(rt: &R, alloc: Global, recorder: &Recorder) -> Result<bool, AllocError> {
    let mut view = recorder.view();
    match recorder.prefix(rt, alloc, &mut view) {
        Ok(trace) => Ok(trace.len() == STEPS),
        Err(PrefixError::Memory) if view.seen().is_none() => Err(AllocError),
        Err(_) => Ok(false),
    }
}

fn is_shown_mine<R: Wait>(
    rt: &R,
    alloc: Global,
    recorder: &Recorder,
    seats: &[Seat],
) -> Result<bool, AllocError> {
    let Some(seat) = seats.first() else {
        return Ok(false);
    };
    match recorder.prefix_mine(rt, alloc, seat) {
        Ok(trace) => Ok(trace.len() == STEPS),
        Err(MineError::Memory) => Err(AllocError),
        Err(_) => Ok(false),
    }
}

impl<R: Wait> LentCall for Asks<'_, R> {
    fn is_right(&self, alloc: Global) -> Result<bool, AllocError> {
        let Bench {
            rt,
            recorder,
            seats,
        } = self.bench;
        match self.asked {
            Asked::Audit => is_audited(*rt, alloc, recorder, seats),
            Asked::Prefix => is_shown(*rt, alloc, recorder),
            Asked::PrefixMine => is_shown_mine(*rt, alloc, recorder, seats),
        }
    }

    fn is_as_before(&self) -> bool {
        self.bench.recorder.step_count(self.bench.rt) == Some(STEPS as u64)
    }
}

fn first_wrong_asked<R: Wait>(rt: &R, alloc: Global, asked: Asked) -> Option<usize> {
    let Some(made) = make_bench(rt, alloc) else {
        return Some(0);
    };
    let asks = Asks {
        bench: &made,
        asked,
    };
    first_wrong_lent(alloc, &asks)
}

#[test]
fn recorders_are_asked(rt: HostRuntime) {
    for asked in [Asked::Audit, Asked::Prefix, Asked::PrefixMine] {
        let wrong = first_wrong_asked(&rt, rt.alloc(), asked);
        assert!(rt; wrong.is_none(), "{asked:?}: {wrong:?}");
    }
}

/// Whether the seat makes one step more by the call of the recorder. Fails if the answer is out of memory.
fn is_made<R: Wait>(
    rt: &R,
    alloc: Global,
    recorder: &Recorder,
    seat: &mut Seat,
) -> Result<bool, AllocError> {
    let take = Take::All;
    match recorder.step(rt, alloc, seat, Move::Receive { take, ends: false }) {
        Ok(done) => Ok(done.no == STEPS as u64 + 1),
        Err(RecordError::Step(StepError::Memory)) => Err(AllocError),
        Err(_) => Ok(false),
    }
}

/// Whether a seat has so many steps.
fn has_done(seat: &Seat, count: u64) -> bool {
    seat.done().len() as u64 == count
}

/// What comes of one step more.
fn stepped<R: Wait>(
    rt: &R,
    alloc: Global,
    refusal: Refusal,
    recorder: &Recorder,
    seat: &mut Seat,
) -> Outcome {
    refusal.begin(alloc);
    let answer = is_made(rt, alloc, recorder, seat);
    let was_refused = refusal.end(alloc);
    if answer.is_ok() {
        return judged(
            was_refused,
            answer == Ok(true) && has_done(seat, OWN + 1),
            false,
        );
    }
    let is_kept = has_done(seat, OWN);
    let again = is_made(rt, alloc, recorder, seat) == Ok(true) && has_done(seat, OWN + 1);
    judged(was_refused, false, is_kept && again)
}

#[derive(Drop)]
struct StepsOn<'a, R> {
    rt: &'a R,
}

impl<R: Wait> Call for StepsOn<'_, R> {
    fn attempt(&mut self, alloc: Global, refusal: Refusal) -> Outcome {
        let Some(mut made) = make_bench(self.rt, alloc) else {
            return Outcome::Wrong;
        };
        let Bench {
            rt,
            recorder,
            seats,
        } = &mut made;
        match seats.get_mut(0) {
            Some(seat) => stepped(*rt, alloc, refusal, recorder, seat),
            None => Outcome::Wrong,
        }
    }
}

/// No clause says what the seat is after the call of the recorder.
#[test]
fn a_step_by_the_recorder(rt: HostRuntime) {
    let wrong = first_wrong(rt.alloc(), &mut StepsOn { rt: &rt });
    assert!(rt; wrong.is_none(), "{wrong:?}");
}
