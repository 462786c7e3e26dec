//! Runs of the agreement algorithm: on threads, one for each processor, with lines meanwhile on how synchronous such a
//! run is; and simulated ones. Of both: the trace of what was done, and the line of who decided. `specs/` has the
//! definitions that the contracts cite.
#![tactic(auto)]

mod decision_lines;
mod followers;
mod paces;
mod runs;
mod simulations;
mod standing_lines;
mod standings;

pub use command_options::{Pace, RunEnd};
pub use decision_lines::decisions_text;
pub use followers::{Follower, follower_for};
pub use runs::{Limits, run_nodes};
pub use simulations::run_simulation;
pub use standing_lines::{tell_standing, tell_stop};
pub use standings::{LeastBounds, RECENT_TICKS, Standing, standing_of};
