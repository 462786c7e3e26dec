//! Receives of a processor in one tick of their times that are one, since it sends nothing between them.
#![tactic(auto)]

mod actors;
mod counting;
mod merges;
mod parts;

pub use merges::{MergedParts, merged_parts};
pub use parts::Parts;
