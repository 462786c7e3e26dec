//! What tests of several crates share: worked texts, and traces and levels from plain numbers.
#![tactic(auto)]

pub mod stair_levels;
pub mod texts;
pub mod traces;
