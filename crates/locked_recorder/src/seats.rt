//! Seats: the places from which the processors of a recorder make their steps.

ghost use Rattle.std.specs.Prelude.{◌≡◌, ◌<◌, ◌-◌, [], length, slice_get, Some};

use std::alloc::Global;
use std::marker::Model;
use step_buffers::Done;

/// The place from which one processor makes its steps: the tag of its recorder, the processor, and all that it
/// did. Nothing makes a second one of it.
#[derive(Debug, Drop)]
pub struct Seat {
    pub(crate) tag: u64,
    pub(crate) proc: u64,
    pub(crate) done: Vec<Done>,
}

impl Model for Seat {
    ghost use Rattle.locked_recorder.specs.Seats.{Turns};

    ghost Value = { Turns };

    ghost view = { λ s. record { tag = s.tag; proc = s.proc; done = s.done.items } };
}

impl Seat {
    /// The seat of a processor that did nothing yet.
    pub(crate) fn new(alloc: Global, tag: u64, proc: u64) -> Self
        ensures { result ≡ record { tag = tag; proc = proc; done = [] } }
    {
        Seat {
            tag,
            proc,
            done: Vec::new(alloc),
        }
    }

    /// The processor that makes its steps from here.
    pub fn proc(&self) -> u64
        ensures { result ≡ self.now.proc }
    {
        self.proc
    }

    /// All that it did, in order.
    pub fn done(&self) -> &[Done]
        ensures { result.now ≡ self.now.done }
    {
        self.done.as_slice()
    }

    /// What it did last.
    pub(crate) fn last(&self) -> &Done
        requires { 0 < length self.now.done }
        ensures { slice_get self.now.done (length self.now.done - 1) ≡ Some result.now }
    {
        &self.done[self.done.len() - 1]
    }
}
