//! Runs that decide (section 3 of Dwork, Lynch and Stockmeyer, "Consensus in the Presence of Partial Synchrony",
//! 1988). If enough processors hear what they say to one another, each of them has decided by a round that is
//! known beforehand. The pace "heard out" ends a round when all has been heard that it can bring.
#![tactic(auto)]

mod audible;
mod decisions;
mod laws;
mod paces;
mod peers;

pub use decisions::{Decision, decisions_of};
pub use laws::{deciding_laws, heard_out_laws, pace_laws};
pub use paces::Pace;
