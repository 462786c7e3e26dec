//! Seats and views of another recorder, with the same tag.

use crate::seats::{opened, shows, waits};
use locked_recorder::{AuditError, MineError, PrefixError, Recorder, Seat, View};
use std::alloc::Global;
use std::slice::from_ref;
use std::sync::Wait;
use std::test::Fail;

/// Whether two steps are made from the first seat, and are shown to the view.
fn shows_two<R: Wait>(
    rt: &R,
    alloc: Global,
    recorder: &Recorder,
    seats: &mut [Seat],
    view: &mut View,
) -> bool {
    if seats.is_empty() {
        return false;
    }
    waits(rt, alloc, recorder, &mut seats[0])
        && waits(rt, alloc, recorder, &mut seats[0])
        && shows(rt, alloc, recorder, view, 2)
}

/// Whether nothing is shown to the view, since the trace has no step of number 1.
fn lacks<R: Wait>(rt: &R, alloc: Global, recorder: &Recorder, view: &mut View) -> bool {
    match recorder.prefix(rt, alloc, view) {
        Err(PrefixError::NotAnExtension { at, found }) => at == 1 && found.is_none(),
        _ => false,
    }
}

/// Whether no prefix is shown to a seat: of the steps that the trace lacks, the least is 1.
fn refuses_seat<R: Wait>(rt: &R, alloc: Global, recorder: &Recorder, seat: &Seat) -> bool {
    match recorder.prefix_mine(rt, alloc, seat) {
        Ok(_) => false,
        Err(why) => why == MineError::NotMine(1),
    }
}

/// Whether an audit refuses for this reason.
fn finds<R: Wait>(
    rt: &R,
    alloc: Global,
    recorder: &Recorder,
    seats: &[Seat],
    views: &[View],
    why: AuditError,
) -> bool {
    match recorder.audit(rt, alloc, seats, views) {
        Ok(_) => false,
        Err(found) => found == why,
    }
}

/// Whether a recorder in which nothing was done, with its own seats, refuses the seats and the view of another.
fn refuses<R: Wait>(
    rt: &R,
    alloc: Global,
    (recorder, own): (&Recorder, &[Seat]),
    seats: &[Seat],
    view: &mut View,
) -> bool {
    if seats.is_empty() {
        return false;
    }
    refuses_seat(rt, alloc, recorder, &seats[0])
        && finds(rt, alloc, recorder, seats, &[], AuditError::SeatDiffers(1))
        && finds(
            rt,
            alloc,
            recorder,
            own,
            from_ref(view),
            AuditError::ViewDiffers(0),
        )
        && lacks(rt, alloc, recorder, view)
}

/// The same of another recorder, with its seats and a view, in which two steps were made.
fn refuses_another<R: Wait>(
    rt: &R,
    alloc: Global,
    recorder: &Recorder,
    own: &[Seat],
) -> Result<bool, Fail> {
    let (other, mut seats) = opened(alloc, 0, &[5, 7], 100)?;
    let mut view = other.view();
    Ok(
        shows_two(rt, alloc, &other, seats.as_mut_slice(), &mut view)
            && refuses(rt, alloc, (recorder, own), &seats, &mut view),
    )
}

#[test]
fn strangers_are_refused(rt: HostRuntime) -> Result<(), Fail> {
    let (recorder, own) = opened(rt.alloc(), 0, &[5, 7], 100)?;
    assert!(rt; refuses_another(&rt, rt.alloc(), &recorder, own.as_slice())?);
    Ok(())
}
