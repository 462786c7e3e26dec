//! The commands that make text of text. Each that makes a text of a trace is an `Answer`: the report of the trace, its
//! replay, its upgrade, its picture, the page about it. There are two ways to an answer: `serve`, from a reader to a
//! writer, and `answer_to`, of a text in memory. Reports by several workers, checks of reports, judgements of decisions
//! and imports of logs have functions of their own that cite the same definitions (`specs/`).
#![tactic(auto)]

mod answers;
mod briefs;
mod checks;
mod drawings;
mod each_bounds;
mod idle_lines;
mod import_lines;
mod imports;
mod judgings;
mod lanes;
mod listed_runs;
mod log_tables;
mod lost_lines;
mod merged_lines;
mod names;
mod pages;
mod replay_texts;
mod replayed_decisions;
mod replays;
mod report_parts;
mod reports;
mod serving;
mod texts;
mod tick_lines;
mod tick_words;
mod time_words;
mod timeout_tables;
mod traces;
mod upgrades;
mod verdict_lines;
mod window_lines;
mod windows;

pub use answers::{Answer, answer_to};
pub use checks::{run_check, verdict_on};
pub use drawings::ToldDrawing;
pub use imports::{import_options, run_import};
pub use judged_runs::verdict_status as judgement_status;
pub use judgings::{judgement_on, read_decisions, run_judge, test_formula};
pub use listed_runs::{judged_line, listed_judging, listed_path, read_runs, unjudged_line};
pub use log_tables::read_table;
pub use pages::ToldPage;
pub use replays::Replay;
pub use reports::run_report;
pub use serving::serve;
pub use text_verdicts::verdict_status;
pub use tick_lines::ticks_text;
pub use upgrades::Upgrade;
pub use verdict_lines::tell_verdict;
pub use windows::{run_window, window_start};
