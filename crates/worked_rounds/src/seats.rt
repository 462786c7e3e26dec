//! Recorders with their seats, and what is done from a seat.

use locked_recorder::{Recorder, Seat, View};
use std::alloc::Global;
use std::sync::Wait;
use std::test::Fail;
use step_buffers::{Move, Take};
use step_trace::Config;

/// A recorder of tag 1 over a World of this configuration, which may make so many steps, up to a million; and its
/// seats.
pub fn opened(
    alloc: Global,
    t: u64,
    init: &[u64],
    max_steps: u64,
) -> Result<(Recorder, Vec<Seat>), Fail> {
    if max_steps > 1_000_000 {
        return Err(Fail::new("too many steps"));
    }
    let init = Vec::from_slice(alloc, init)?;
    let config = Config::new(init.len() as u64, t, init)?;
    Ok(Recorder::new(alloc, config, 1, max_steps)?)
}

/// Takes nothing, and says whether a step was made.
pub fn waits<R: Wait>(rt: &R, alloc: Global, recorder: &Recorder, seat: &mut Seat) -> bool {
    let take = Take::Nothing;
    seat.step(rt, alloc, recorder, Move::Receive { take, ends: false })
        .is_ok()
}

/// Whether a seat is shown so many steps.
pub fn shows_mine<R: Wait>(
    rt: &R,
    alloc: Global,
    recorder: &Recorder,
    seat: &Seat,
    steps: usize,
) -> bool {
    match recorder.prefix_mine(rt, alloc, seat) {
        Ok(trace) => trace.len() == steps,
        Err(_) => false,
    }
}

/// Whether a view is shown so many steps or more.
pub fn shows<R: Wait>(
    rt: &R,
    alloc: Global,
    recorder: &Recorder,
    view: &mut View,
    steps: usize,
) -> bool {
    match recorder.prefix(rt, alloc, view) {
        Ok(trace) => steps <= trace.len(),
        Err(_) => false,
    }
}

/// Whether an audit of the seats and of views finds so many steps.
pub fn is_audited<R: Wait>(
    rt: &R,
    alloc: Global,
    recorder: &Recorder,
    seats: &[Seat],
    views: &[View],
    steps: usize,
) -> bool {
    match recorder.audit(rt, alloc, seats, views) {
        Ok(world) => world.trace().len() == steps,
        Err(_) => false,
    }
}
