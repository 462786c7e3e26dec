//! One node of Algorithm 1 (section 3 of Dwork, Lynch and Stockmeyer, "Consensus in the Presence of
//! Partial Synchrony", 1988): what it sends in a round, and its state after it. `specs/` has both as
//! functions over plain data, and `laws` says what holds of them.
#![tactic(auto)]

mod bodies;
pub mod laws;
mod locks;
mod nodes;
mod quorums;
mod rounds;
mod shared_lists;
mod values;

pub use bodies::{Body, Kind, LockPairs, Values};
pub use nodes::Node;
pub use rounds::{owner, part_of, phase_of};
