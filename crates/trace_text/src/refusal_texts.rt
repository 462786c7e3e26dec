//! The refusals of a trace text, and of its writing, in words.

use crate::refusals::{TextError, WriteError};
use std::fmt;

/// The words without the program's name and without a line feed, as `step 3: message 1 was received before`.
impl fmt::Display for TextError {
    ghost use Rattle.std.specs.Prelude.{Some};
    ghost use Rattle.trace_text.specs.RefusalTexts.{text_error_text};

    ghost output = { λ why. Some (text_error_text why) };

    fn fmt<W: fmt::Write>(&self, f: &mut fmt::Formatter<W>) -> fmt::Result {
        match self {
            TextError::TooLarge => f.write_str("text too large"),
            TextError::Read => f.write_str("cannot read"),
            TextError::BadHeader => f.write_str("bad header"),
            TextError::BadVersion => f.write_str("bad version"),
            TextError::BadSize => f.write_str("bad size"),
            TextError::BadInit => f.write_str("bad init"),
            TextError::BadFields(no) => write!(f, "step {no}: bad fields"),
            TextError::WrongNumber(no) => write!(f, "step {no}: wrong number"),
            TextError::BadOp(no) => write!(f, "step {no}: bad operation"),
            TextError::BadNumber(no) => write!(f, "step {no}: bad number"),
            TextError::BadStep(no, why) => write!(f, "step {no}: {why}"),
            TextError::NoEnd => f.write_str("no end"),
            TextError::WrongEnd => f.write_str("wrong end"),
            TextError::AfterEnd => f.write_str("text after end"),
            TextError::Memory => f.write_str("out of memory"),
        }
    }
}

/// The words without the program's name and without a line feed; how much went out isn't told.
impl fmt::Display for WriteError {
    ghost use Rattle.std.specs.Prelude.{Some};
    ghost use Rattle.trace_text.specs.RefusalTexts.{write_error_text};

    ghost output = { λ why. Some (write_error_text why) };

    fn fmt<W: fmt::Write>(&self, f: &mut fmt::Formatter<W>) -> fmt::Result {
        match self {
            WriteError::Write(_) => f.write_str("cannot write"),
            WriteError::Memory => f.write_str("out of memory"),
        }
    }
}
