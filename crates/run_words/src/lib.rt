//! How pictures and pages call nodes, messages and steps, tell time, and number their axes.
#![tactic(auto)]

mod bound_scales;
mod clocks;
mod digits;
mod escapes;
mod labels;
mod lane_lists;
mod log_words;
mod long_names;
mod names;
mod round_numbers;
mod short_names;
mod words;

pub use bound_scales::{BoundScale, MOST_LINEAR, log_of};
pub use clocks::{Clock, LONGEST, Unit, power_within, push_nanoseconds};
pub use digits::{push_count, push_digits, push_number};
pub use escapes::push_escaped;
pub use labels::{push_label, push_node, short_width};
pub use lane_lists::{LanesError, lanes_of};
pub use log_words::{LogWords, clock_of, unit_for};
pub use names::{MAX_NAME_BYTES, NamesError, names_of};
pub use round_numbers::round_step;
pub use short_names::push_short;
pub use words::{push_message, push_step};
