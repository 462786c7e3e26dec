//! What the threads of a run know of one another.

use crate::sleepers::Sleepers;
use crate::undecided::Undecided;
use std::alloc::{AllocError, Global};
use std::sync::Wait;

/// What the threads of a run know of one another, besides the World that they move: who sleeps until a message comes,
/// and how many processors have yet to decide.
#[derive(Drop)]
pub struct Company {
    pub(crate) sleepers: Sleepers,
    pub(crate) undecided: Undecided,
}

impl Company {
    /// For the threads of processors 1 to `n`, all of which are awake, and none of which has decided. Takes memory for
    /// each.
    pub fn new(alloc: Global, n: u64) -> Result<Self, AllocError> {
        Ok(Company {
            sleepers: Sleepers::new(alloc, n)?,
            undecided: Undecided::new(n),
        })
    }

    /// Wakes all threads for good: none sleeps any more. For a thread that can't be started, for which others would
    /// wait.
    pub fn rouse<R: Wait>(&self, rt: &R) {
        self.sleepers.rouse(rt);
    }
}
