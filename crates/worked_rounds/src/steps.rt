//! Steps made from a seat, by its own call and by that of the recorder.

use crate::seats::{is_audited, opened, shows_mine, waits};
use locked_recorder::{RecordError, Recorder, Seat};
use std::alloc::Global;
use std::sync::Wait;
use std::test::Fail;
use step_buffers::{Done, Move, StepError, Take};

/// What 1 does, one thing after the other: the number of its step, whether it sends, or else whether it ends its
/// round, and the round in which it is afterwards. It sends its list to itself, the owner of phase 1, and has nothing
/// more to send, since it hears no other list.
const ROUNDS: &[(u64, bool, bool, u64)] = &[
    (1, true, false, 1),
    (2, false, false, 1),
    (3, false, true, 2),
    (4, false, false, 2),
    (5, false, true, 3),
];

fn move_of(sends: bool, ends: bool) -> Move<'static> {
    if sends {
        return Move::Send;
    }
    let take = Take::All;
    Move::Receive { take, ends }
}

/// Whether this is what was done in the step of this number, and says that its processor is in this round.
fn tells(answer: Result<&Done, RecordError>, no: u64, round: u64) -> bool {
    match answer {
        Ok(done) => done.no == no && done.round == round,
        Err(_) => false,
    }
}

/// Whether the seat makes these steps, and has all that it did.
fn makes<R: Wait>(
    rt: &R,
    alloc: Global,
    recorder: &Recorder,
    seat: &mut Seat,
    by_recorder: bool,
) -> bool {
    for &(no, sends, ends, round) in ROUNDS {
        let step = move_of(sends, ends);
        let told = if by_recorder {
            tells(recorder.step(rt, alloc, seat, step), no, round)
        } else {
            tells(seat.step(rt, alloc, recorder, step), no, round)
        };
        if !told || seat.done().len() != no as usize {
            return false;
        }
    }
    true
}

/// Whether no step more is made.
fn is_full<R: Wait>(rt: &R, alloc: Global, recorder: &Recorder, seat: &mut Seat) -> bool {
    match seat.step(rt, alloc, recorder, Move::Send) {
        Ok(_) => false,
        Err(why) => why == RecordError::Step(StepError::Full),
    }
}

/// Whether five steps are made from the first seat, and no more, and both seats are shown them.
fn are_made<R: Wait>(
    rt: &R,
    alloc: Global,
    recorder: &Recorder,
    seats: &mut [Seat],
    by_recorder: bool,
) -> bool {
    if seats.len() != 2 {
        return false;
    }
    makes(rt, alloc, recorder, &mut seats[0], by_recorder)
        && is_full(rt, alloc, recorder, &mut seats[0])
        && !waits(rt, alloc, recorder, &mut seats[1])
        && shows_mine(rt, alloc, recorder, &seats[0], 5)
        && shows_mine(rt, alloc, recorder, &seats[1], 5)
        && is_audited(rt, alloc, recorder, seats, &[], 5)
}

/// No clause says what the seat of `Recorder::step` is afterwards: this refuses one that steps twice and lends the
/// second answer, and one that forgets what the seat did before. Nor does one say of which World a step and a prefix
/// are: this refuses a step past the limit that the recorder was opened with, and a seat that did nothing as foreign.
#[test]
fn each_step_is_made_once(rt: HostRuntime) -> Result<(), Fail> {
    for by_recorder in [false, true] {
        let (recorder, mut seats) = opened(rt.alloc(), 0, &[5, 7], 5)?;
        assert!(rt;
            are_made(
                &rt,
                rt.alloc(),
                &recorder,
                seats.as_mut_slice(),
                by_recorder
            )
        );
    }
    Ok(())
}
