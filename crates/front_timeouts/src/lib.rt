//! The table of timeouts, and its text: for each follower of a leader, and each row of the report of the two, how long
//! the follower has to wait.
#![tactic(auto)]

mod followers;
mod tables;
mod texts;

pub use followers::receivers_of;
pub use tables::FollowerTimeouts;
pub use texts::timeouts_text_of;
