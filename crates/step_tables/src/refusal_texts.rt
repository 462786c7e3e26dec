//! The refusals of a table in words.

use crate::refusals::TableError;
use std::fmt;

/// The words without the program's name and without a line feed, as `record 2: does not fit the trace`.
impl fmt::Display for TableError {
    ghost use Rattle.std.specs.Prelude.{Some};
    ghost use Rattle.step_tables.specs.RefusalTexts.{table_error_text};

    ghost output = { λ why. Some (table_error_text why) };

    fn fmt<W: fmt::Write>(&self, f: &mut fmt::Formatter<W>) -> fmt::Result {
        match self {
            TableError::TooLarge => f.write_str("text too large"),
            TableError::BadHeader => f.write_str("bad header"),
            TableError::Unfit(record) => write!(f, "record {record}: does not fit the trace"),
            TableError::Missing(record) => write!(f, "record {record}: missing"),
            TableError::Memory => f.write_str("out of memory"),
        }
    }
}
