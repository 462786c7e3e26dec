//! A trace text that is read by pieces, from memory or from a device part by part, by one thread or several. One thread
//! scans the text from front to back; pieces read out of order only shorten its way.
#![tactic(auto)]

mod cuts;
mod device_texts;
mod lines;
mod paged_steps;
mod pieces;
mod progress;
mod read_pieces;
mod reading;
mod shared_texts;
mod step_fields;
mod step_lines;
mod under_way;

pub use device_texts::{read_trace_by_parts, read_trace_from};
pub use pieces::may_be_marked;
pub use reading::read_trace;
