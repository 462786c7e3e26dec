//! Trace text: the records of a trace as comma-separated text, written, and read or refused by name.
//! And the byte loops by which texts are read and written. `specs/` has the definitions that the
//! contracts cite.
#![tactic(auto)]

mod byte_loops;
mod counting;
pub mod csv_places;
pub mod failing_devices;
pub mod names;
pub mod reading;
mod record_limits;
pub mod record_writing;
pub mod records;
mod refusal_texts;
mod refusals;
mod step_records;
pub mod versions;
mod writing;

pub use byte_loops::{MAX_TEXT_BYTES, read_all, write_text};
pub use counting::Counting;
pub use reading::read_trace;
pub use record_limits::MAX_FIELDS;
pub use refusals::{TextError, WriteError};
pub use writing::{trace_text_2_by_four, trace_text_2_of, write_trace};
