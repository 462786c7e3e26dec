//! The forward check of a report: whether its rows are a certificate of themselves. It shares nothing with the
//! analyser but the definitions and the row types.
#![tactic(auto)]

mod bounds;
mod certificates;
mod claims;
mod closings;
mod first_reasons;
mod gaps;
mod laws;
mod receives;
mod row_order;
mod silences;
mod verdicts;
mod witnesses;

pub use certificates::check;
pub use claims::{ClaimedRows, RowList, check_claimed};
pub use laws::certificate_laws;
pub use step_trace::{Gap, Miss, Row};
pub use verdicts::{Reason, Verdict};
