//! The picture of a run, as SVG: its text, and where its marks are drawn.
#![tactic(auto)]

mod descriptions;
mod frames;
mod lanes;
mod legend;
mod mark_words;
mod message_lines;
mod shown_lanes;
mod staircase;
mod step_marks;
mod strips;
mod svg;
mod time_axes;
mod titles;
mod witness_marks;

pub use svg::{MAX_LINES, MAX_WITNESSES, svg_text};
