//! Drives by a pace, which says when the nodes of a run end their rounds.

ghost use Rattle.std.specs.Prelude.{◌≤◌};
ghost use Rattle.command_options.specs.Paces.{patience_of};

use crate::runs::Limits;
use command_options::{Pace, RunEnd};
use locked_recorder::{Company, DriveError, Recorder, Seat};
use std::alloc::Global;
use std::sync::Wait;
use step_trace::Gate;

/// Drives a seat by a pace, to the end that a run is to have. By patience alone it makes all its steps.
pub(crate) fn driven<R: Wait, G: Gate>(
    rt: &R,
    alloc: Global,
    recorder: &Recorder,
    seat: &mut Seat,
    gate: &G,
    company: &Company,
    limits: Limits,
) -> Result<u64, DriveError>
    requires { 1 ≤ patience_of limits.pace }
{
    let steps = limits.steps;
    match limits.pace {
        Pace::Patience(patience) => recorder.drive(rt, alloc, seat, gate, patience, steps),
        Pace::HeardOut(patience) => match limits.end {
            RunEnd::Steps => {
                recorder.drive_heard_out(rt, alloc, seat, gate, company, patience, steps)
            }
            RunEnd::Decided => {
                recorder.drive_until_decided(rt, alloc, seat, gate, company, patience, steps)
            }
        },
    }
}
