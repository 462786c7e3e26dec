//! A recorder of the greatest size: no clause refuses a function that always fails out of memory past a size.

use crate::seats::{is_audited, opened, shows, shows_mine};
use locked_recorder::{Recorder, Seat};
use std::alloc::Global;
use std::slice::from_ref;
use std::sync::Wait;
use std::test::Fail;
use step_trace::OpenGate;

const STEPS: u64 = 1_000_000;

/// Whether all steps are made from one seat, in one round.
fn drives<R: Wait>(rt: &R, alloc: Global, recorder: &Recorder, seat: &mut Seat) -> bool {
    match recorder.drive(rt, alloc, seat, &OpenGate, 1_000_000, STEPS) {
        Ok(made) => made == STEPS,
        Err(_) => false,
    }
}

/// Whether a view and the seat are shown all, and an audit finds them.
fn is_recorded<R: Wait>(rt: &R, alloc: Global, recorder: &Recorder, seats: &mut [Seat]) -> bool {
    if seats.is_empty() {
        return false;
    }
    let mut view = recorder.view();
    drives(rt, alloc, recorder, &mut seats[0])
        && shows(rt, alloc, recorder, &mut view, STEPS as usize)
        && shows_mine(rt, alloc, recorder, &seats[0], STEPS as usize)
        && is_audited(rt, alloc, recorder, seats, from_ref(&view), STEPS as usize)
}

/// No clause says under which limit the World of a new recorder is: this refuses one of fewer steps than it was opened
/// with.
#[test]
fn a_million_steps_are_driven(rt: HostRuntime) -> Result<(), Fail> {
    let (recorder, mut seats) = opened(rt.alloc(), 0, &[5, 7], STEPS)?;
    assert!(rt; is_recorded(&rt, rt.alloc(), &recorder, seats.as_mut_slice()));
    Ok(())
}
