//! Runs of Algorithm 1 (section 3 of Dwork, Lynch and Stockmeyer, "Consensus in the Presence of Partial
//! Synchrony", 1988): nodes and buffers moved one Send or Receive step at a time. `specs/` says which
//! traces are runs, and what the nodes and buffers of a trace are.
#![tactic(auto)]

mod appends;
mod copies;
mod dues;
mod inboxes;
mod kept_messages;
mod laws;
mod letters;
mod moves;
mod processors;
mod receives;
mod removals;
mod replays;
mod sends;
mod steps;
mod takes;
mod waiting;
mod worlds;

pub use dues::{Due, DueStep};
pub use laws::{refusal_laws, run_laws};
pub use moves::{Done, Move, StepError, Take};
pub use replays::{ReplayError, replay};
pub use worlds::World;
