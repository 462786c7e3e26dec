//! The least bounds of every tick of a trace, found by one backward pass.
#![tactic(auto)]

mod backward_pass;
mod levels;
mod next_steps;
mod receives;
mod staircases;
mod stretches;

pub use backward_pass::{note_gap, note_miss};
pub use levels::Level;
pub use receives::Receives;
pub use staircases::{StairBuilder, Stairs};
