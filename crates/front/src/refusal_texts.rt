//! The refusals of a report text, in words.

use crate::refusals::ReportError;
use std::fmt;

/// The words without the program's name and without a line feed, as `row 2: bad number`.
impl fmt::Display for ReportError {
    ghost use Rattle.std.specs.Prelude.{Some};
    ghost use Rattle.front.specs.RefusalTexts.{report_error_text};

    ghost output = { λ why. Some (report_error_text why) };

    fn fmt<W: fmt::Write>(&self, f: &mut fmt::Formatter<W>) -> fmt::Result {
        match self {
            ReportError::TooLarge => f.write_str("text too large"),
            ReportError::Read => f.write_str("cannot read"),
            ReportError::BadHeader => f.write_str("bad header"),
            ReportError::BadFields(row) => write!(f, "row {row}: bad fields"),
            ReportError::BadNumber(row) => write!(f, "row {row}: bad number"),
            ReportError::HalfWitness(row) => write!(f, "row {row}: half a witness"),
            ReportError::Memory => f.write_str("out of memory"),
        }
    }
}
