//! How many steps were made so far.

ghost use Rattle.std.specs.Prelude.{IfSome};
ghost use Rattle.locked_recorder.specs.Recordings.{IsStepCount};

use crate::recorders::{Recorder, is_world_of};
use std::sync::Wait;

impl Recorder {
    /// How many steps the trace has now; none if the World isn't of the recorder's configuration and limit.
    ///
    /// Waits for the lock, and copies nothing under it: so it may be asked often, to learn whether a prefix is worth
    /// its copies.
    pub fn step_count<R: Wait>(&self, rt: &R) -> Option<u64>
        ensures count { IfSome result (λ count. IsStepCount self.now count) }
    {
        let world = self.world.lock(rt);
        if !is_world_of(&world, &self.config, self.limit) {
            return None;
        }
        Some(world.trace().len() as u64)
    }
}
