//! The least bounds of a trace from one tick on, and the evidence against smaller ones.
#![tactic(auto)]

mod communication_bounds;
mod longest_gaps;
mod processor_bounds;
mod step_facts;

pub use communication_bounds::{delta_at, last_miss};
pub use longest_gaps::gaps;
pub use processor_bounds::phi_at;
pub use step_trace::{Gap, Miss};
