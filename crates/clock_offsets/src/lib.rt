//! Clocks of processors that are moved, so that no message is received before it was sent.
#![tactic(auto)]

mod alignments;
mod clock_cycles;
mod laws;
mod needs;
mod offsets;
mod refusals;

pub use alignments::{Offsets, TooLate, clock_offsets, moved_events};
pub use clock_cycles::{ClockCycle, ClockHop, clock_cycle};
pub use laws::clock_laws;
pub use offsets::{CLOCKS, least_offsets};
pub use refusals::OffsetError;
