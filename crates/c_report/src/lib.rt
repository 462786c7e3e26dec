//! The commands for C and for callers of C: the report of a trace text, the verdict on a certificate's text, and every
//! command from text to text by the words of a command line. Each export is a function of its arguments. It uses no
//! thread and no device, and keeps nothing between calls but the caller's heap.
#![tactic(auto)]

mod answers;
mod checks;
mod commands;
mod jobs;
mod reports;
mod rooms;
mod words;

pub use answers::{ALL, BAD_CERTIFICATE, BAD_SET, BAD_TRACE, DONE, NO, NO_MEMORY, NO_ROOM, YES};
pub use checks::synchrony_check;
pub use commands::synchrony_answer;
pub use reports::synchrony_report;
