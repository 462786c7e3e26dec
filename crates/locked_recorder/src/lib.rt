//! A World that many threads move: the lock, the seats from which they make their steps, and the views of its
//! trace. `specs/` says what each call answers.
#![tactic(auto)]

mod audits;
mod company;
mod comparisons;
mod decided_prefixes;
mod drives;
mod errors;
mod missing_steps;
mod paced_drives;
mod prefixes;
mod recorders;
mod recordings;
mod seat_comparisons;
mod seats;
mod sleepers;
mod step_counts;
mod undecided;
mod views;

pub use company::Company;
pub use decided_prefixes::DecidedPrefix;
pub use errors::{AuditError, DriveError, DriveStop, MineError, PrefixError, RecordError};
pub use recorders::Recorder;
pub use seats::Seat;
pub use views::View;
