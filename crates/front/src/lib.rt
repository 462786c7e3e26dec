//! Reports: the front of the triples of a stabilization time, a communication bound and a processor
//! bound that a trace leaves possible. And the text of reports.
#![tactic(auto)]

mod columns;
mod refusal_texts;
mod refusals;
mod report_reading;
mod report_texts;
mod reports;
pub mod row_records;

pub use refusals::ReportError;
pub use report_reading::read_report;
pub use report_texts::{push_entry, report_text_of, write_report};
pub use reports::{Report, front};
pub use step_trace::Row;
