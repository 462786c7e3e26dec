//! What a trace text and a certificate's text encode: the report of the one, the verdict on both, what is kept of a
//! certificate, and the line of a verdict. `specs/` has the definitions for the program and the library.
#![tactic(auto)]

mod certificate_texts;
mod verdict_lines;

pub use certificate_texts::certificate_of_text;
pub use verdict_lines::{verdict_status, verdict_text};
