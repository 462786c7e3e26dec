//! The page about a run, as HTML: its headline, what is to be seen at a glance, who is late, and the evidence for each
//! bound.
#![tactic(auto)]

mod axes;
mod cards;
mod delay_words;
mod evidence_ticks;
mod fates;
mod glances;
mod headlines;
mod leads;
mod message_marks;
mod node_bounds;
mod notes;
mod pages;
mod panes;
mod pens;
mod pieces;
mod rooms;
mod round_times;
mod row_table;
mod run_lanes;
mod runs;
mod scales;
mod scans;
mod scenes;
mod shades;
mod spreads;
mod stairs;
mod stall_words;
mod starts;
mod step_marks;
mod styles;
mod tick_steps;
mod timings;
mod titles;
mod who;

pub use evidence_ticks::evidence_window;
pub use pages::page_text;
