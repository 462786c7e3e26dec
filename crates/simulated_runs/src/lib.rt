//! Simulated runs of Algorithm 1 (section 3 of Dwork, Lynch and Stockmeyer, "Consensus in the Presence of Partial
//! Synchrony", 1988). They make one step in each tick, by a schedule that is drawn from a seed and keeps stated bounds
//! from a tick on. `specs/` has the definitions that the contracts cite.
#![tactic(auto)]

mod crashes;
mod generators;
mod moves;
mod nominations;
mod post;
mod runs;
mod simulations;
mod trays;
mod turns;

pub use command_options::{Crash, Schedule, SimulationOptions, StatedBounds};
pub use generators::Generator;
pub use runs::simulate;
