//! Messages in a picture.

ghost use Rattle.std.specs.Prelude.{◌≡◌, ℕ, length};
ghost use Rattle.picture_marks.specs.Messages.{proc_of, taker, taker_in, sends_between};
ghost use Rattle.picture_marks.specs.Pictures.{shown_step, shown_message};

use crate::takers::taker_in;
use crate::windows::Window;
use step_trace::{Act, ProcSet, Trace};

/// A message: the number of its Send, and that of the Receive that takes it, if one does.
#[derive(Clone, Copy, Debug, PartialEq, Eq)]
pub struct Message {
    pub sent: u64,
    pub taken: Option<u64>,
}

/// The processor of the step of this number; 0 if there is no such step.
pub fn processor_at(trace: &Trace, no: u64) -> u64
    ensures { result ≡ proc_of trace.now.steps no }
{
    match trace.step(no) {
        Some(step) => step.proc,
        None => 0,
    }
}

/// The step of this number, if its tick is in the window and its processor has a lane.
pub(crate) fn shown_step(trace: &Trace, window: Window, lanes: ProcSet, no: u64) -> Option<u64>
    ensures { result ≡ shown_step trace.now window lanes no }
{
    let tick = trace.tick_at(no);
    if window.touches(tick, tick) && lanes.contains(processor_at(trace, no)) {
        Some(no)
    } else {
        None
    }
}

/// The message of this number, if there is one that touches the window and goes from a lane to a lane.
pub(crate) fn shown_message(
    trace: &Trace,
    takers: &[Option<u64>],
    window: Window,
    lanes: ProcSet,
    no: u64,
) -> Option<Message>
    requires { (s : ℕ) → taker_in takers.now s ≡ taker trace.now.steps (length trace.now.steps) s }
    ensures { result ≡ shown_message trace.now window lanes no }
{
    if !sends_between(trace, lanes, no) {
        return None;
    }
    let taken = taker_in(takers, no);
    let sent_in = trace.tick_at(no);
    let end = match taken {
        Some(r) => trace.tick_at(r),
        None => sent_in,
    };
    if window.touches(sent_in, end) {
        Some(Message { sent: no, taken })
    } else {
        None
    }
}

/// Whether the step of this number is a Send, and both its processor and its receiver have a lane.
fn sends_between(trace: &Trace, lanes: ProcSet, no: u64) -> bool
    ensures { result ≡ sends_between lanes trace.now.steps no }
{
    match trace.step(no) {
        Some(step) => match &step.act {
            Act::Send { to } => lanes.contains(*to) && lanes.contains(step.proc),
            Act::Receive { .. } => false,
        },
        None => false,
    }
}
