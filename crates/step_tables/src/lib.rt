//! The table of the steps of a trace, as `import --table` writes it: read, and tested against the trace. `specs/` has
//! the definitions that the contracts cite.
#![tactic(auto)]

mod moves;
mod names;
mod reading;
mod records;
mod refusal_texts;
mod refusals;
mod tables;
mod tick_begins;

pub use moves::{Moves, count_moves};
pub use reading::table_of_text;
pub use refusals::TableError;
pub use tables::{StepRow, StepTable, message_at, source_at, time_at};
pub use tick_begins::{TickTimes, tick_times};
