//! The refusals of a text of decisions and of a list of runs, in words.

use crate::refusals::{DecisionsError, RunListError};
use std::fmt;

/// The words without the program's name and without a line feed, as `record 2: bad number`.
impl fmt::Display for DecisionsError {
    ghost use Rattle.std.specs.Prelude.{Some};
    ghost use Rattle.judged_runs.specs.RefusalTexts.{decisions_error_text};

    ghost output = { λ why. Some (decisions_error_text why) };

    fn fmt<W: fmt::Write>(&self, f: &mut fmt::Formatter<W>) -> fmt::Result {
        match self {
            DecisionsError::TooLarge => f.write_str("text too large"),
            DecisionsError::BadHeader => f.write_str("bad header"),
            DecisionsError::TooMany => f.write_str("too many records"),
            DecisionsError::BadFields(record) => write!(f, "record {record}: bad fields"),
            DecisionsError::BadNumber(record) => write!(f, "record {record}: bad number"),
            DecisionsError::BadProcessor(record) => {
                write!(f, "record {record}: no such processor")
            }
            DecisionsError::BadTick(record) => write!(f, "record {record}: no such tick"),
            DecisionsError::Memory => f.write_str("out of memory"),
        }
    }
}

/// The words without the program's name and without a line feed, as `record 2: bad fields`.
impl fmt::Display for RunListError {
    ghost use Rattle.std.specs.Prelude.{Some};
    ghost use Rattle.judged_runs.specs.RefusalTexts.{run_list_error_text};

    ghost output = { λ why. Some (run_list_error_text why) };

    fn fmt<W: fmt::Write>(&self, f: &mut fmt::Formatter<W>) -> fmt::Result {
        match self {
            RunListError::TooLarge => f.write_str("text too large"),
            RunListError::BadHeader => f.write_str("bad header"),
            RunListError::TooMany => f.write_str("too many records"),
            RunListError::BadFields(record) => write!(f, "record {record}: bad fields"),
            RunListError::NoRuns => f.write_str("no runs"),
            RunListError::Memory => f.write_str("out of memory"),
        }
    }
}
