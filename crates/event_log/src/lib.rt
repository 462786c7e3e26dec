//! Logs of real systems: the events that a log records, with numbers in place of the names of nodes and
//! messages. `specs/` has the definitions that the contracts cite.
#![tactic(auto)]

mod alignments;
mod clock_lines;
mod columns;
mod cycle_lines;
mod event_refusals;
mod fields;
mod hop_lines;
mod idle_limits;
mod imports;
mod joined_receives;
mod kept_events;
mod laws;
mod left_imports;
mod left_refusals;
mod log_places;
mod log_traces;
mod logs;
mod lost_sends;
mod message_fields;
mod message_names;
mod name_keys;
mod names;
mod naming;
mod nodes;
mod option_texts;
mod options;
mod packed_events;
mod passed_logs;
mod placed_events;
mod plain_lines;
mod read_lines;
mod read_logs;
mod reading;
mod records;
mod refusal_texts;
mod refusals;
mod results;
mod rows;
mod sent_messages;
mod step_tables;
mod taken_events;
mod tick_clocks;
mod tick_rows;
mod tick_tables;
mod times;
mod told_lines;
mod workers;

pub use columns::{Column, Columns, columns_of};
pub use cycle_lines::{CycleLine, CycleLines};
pub use fields::Fields;
pub use imports::{IdleReceives, Import, read_log};
pub use laws::log_laws;
pub use log_places::{moved_in, place_in};
pub use logs::{NamedEvents, events_of_log};
pub use names::{AddedName, Name, NameSet, are_message_names};
pub use option_texts::{OptionTexts, read_options};
pub use options::{OptionError, Options};
pub use reading::MAX_EVENTS;
pub use records::moment_as;
pub use refusal_texts::printed;
pub use refusals::LogError;
pub use rows::{TakeRows, take_rows};
pub use step_tables::{LogTable, read_table};
pub use tick_clocks::{end_in, until_for};
pub use tick_rows::{Placing, TickRow};
pub use tick_tables::{TickTable, read_ticks};
pub use times::{
    LogEnd, Moment, TimeKind, TimeUnit, Width, moment_in, read_end, read_moment, read_unit,
    read_width, settled,
};
pub use workers::{OneThread, TwoThreads, Workers};
