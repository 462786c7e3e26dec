//! Logs whose records may send a message to several nodes, and windows of logs: the events of a log of any length from
//! a time on, to another if there is one, read as a log of their own. `specs/` has the definitions that the contracts
//! cite.
#![tactic(auto)]

mod bounds;
mod devices;
mod imports;
mod kept_names;
mod laws;
mod lists;
mod logs;
mod numbers;
mod reading;
mod rows;
mod seams;
mod windows;

pub use devices::WindowError;
pub use imports::{window_import, window_table, window_ticks};
pub use laws::window_laws;
pub use logs::{log_import, log_table, log_ticks};
pub use reading::{LogWindow, read_window};
pub use windows::MAX_LOGGED;
