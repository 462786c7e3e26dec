//! Prefixes that are shown while three threads go on, and the audit at the end.

use crate::seats::{is_audited, opened, shows, shows_mine};
use locked_recorder::{Recorder, Seat, View};
use std::alloc::Global;
use std::slice::from_ref;
use std::sync::Wait;
use std::test::Fail;
use std::thread;
use std::thread::Threads;
use step_trace::OpenGate;

/// Makes twenty steps.
fn drives<R: Wait>(rt: &R, alloc: Global, recorder: &Recorder, seat: &mut Seat) -> bool {
    match recorder.drive(rt, alloc, seat, &OpenGate, 1, 20) {
        Ok(made) => made == 20,
        Err(_) => false,
    }
}

/// How many steps the view was shown.
fn seen_by(view: &View) -> usize {
    match view.seen() {
        Some(trace) => trace.len(),
        None => 0,
    }
}

/// Shows the trace again and again, with as many steps as before or more.
fn watches<R: Wait>(rt: &R, alloc: Global, recorder: &Recorder, view: &mut View) -> bool {
    for _ in 0..20 {
        let seen = seen_by(view);
        if !shows(rt, alloc, recorder, view, seen) {
            return false;
        }
    }
    true
}

/// Drives each seat in a thread of its own, while one more thread watches.
fn all_go<R: Threads + Wait + Sync>(
    rt: &R,
    alloc: Global,
    recorder: &Recorder,
    seats: &mut [Seat],
    view: &mut View,
) -> bool {
    thread::scope(thread::scope_env(), rt, |scope| {
        let mut threads = Vec::new(alloc);
        for seat in seats.iter_mut() {
            let Ok(started) = scope.spawn(move || drives(rt, alloc, recorder, seat)) else {
                return false;
            };
            if threads.push(started).is_err() {
                return false;
            }
        }
        let Ok(watching) = scope.spawn(move || watches(rt, alloc, recorder, view)) else {
            return false;
        };
        let mut all = watching.join(rt);
        for started in threads {
            all = started.join(rt) && all;
        }
        all
    })
}

/// Whether each seat is shown all steps.
fn all_shown<R: Wait>(rt: &R, alloc: Global, recorder: &Recorder, seats: &[Seat]) -> bool {
    for seat in seats {
        if !shows_mine(rt, alloc, recorder, seat, 60) {
            return false;
        }
    }
    true
}

/// Whether the view has seen nothing, is shown the growing trace and then the whole, and an audit finds that.
fn prefixes_grow_to_all<R: Threads + Wait + Sync>(
    rt: &R,
    alloc: Global,
    recorder: &Recorder,
    seats: &mut [Seat],
    view: &mut View,
) -> bool {
    view.seen().is_none()
        && all_go(rt, alloc, recorder, seats, view)
        && shows(rt, alloc, recorder, view, 60)
        && all_shown(rt, alloc, recorder, seats)
        && is_audited(rt, alloc, recorder, seats, from_ref(view), 60)
}

#[test]
fn prefixes_grow(rt: HostRuntime) -> Result<(), Fail> {
    let alloc = rt.alloc();
    let (recorder, mut seats) = opened(alloc, 1, &[5, 7, 7], 100)?;
    let mut view = recorder.view();
    assert!(rt; prefixes_grow_to_all(&rt, alloc, &recorder, seats.as_mut_slice(), &mut view));
    Ok(())
}
