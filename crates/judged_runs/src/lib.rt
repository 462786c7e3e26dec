//! Judges the decisions of a run: agreement, validity, and the claim that each correct processor decides in time. Has
//! the search by prefixes of the run, the readers of decisions' texts and of lists of runs, the line of a verdict, and
//! the summary of many; `specs/` has the definitions.
#![tactic(auto)]

mod deadline_rows;
mod decision_texts;
mod details;
mod factors;
mod judgements;
mod outcomes;
mod prefix_reports;
mod prefixes;
mod refusal_texts;
mod refusals;
mod run_lists;
mod verdict_lines;

pub use decision_texts::decisions_of_text;
pub use details::{Details, Judgement, judgement_of};
pub use factors::{factor_for, least_factor_in_time};
pub use judgements::{Demands, Verdict, judge};
pub use outcomes::{LeastMargin, Outcome, outcomes_status, summary_text};
pub use prefixes::first_late_in_time;
pub use refusals::{DecisionsError, RunListError};
pub use run_lists::{ListedRun, runs_of_text};
pub use verdict_lines::{verdict_status, verdict_text};
