//! The reasons against a step, in words.

use crate::traces::PushError;
use std::fmt;

impl fmt::Display for PushError {
    ghost use Rattle.std.specs.Prelude.{Some};
    ghost use Rattle.step_trace.specs.PushErrorTexts.{push_error_text};

    ghost output = { λ e. Some (push_error_text e) };

    fn fmt<W: fmt::Write>(&self, f: &mut fmt::Formatter<W>) -> fmt::Result {
        let (id, rest) = match self {
            PushError::Full => return f.write_str("trace is full"),
            PushError::BadTick => return f.write_str("bad tick"),
            PushError::BadProc => return f.write_str("no such processor"),
            PushError::ProcOrder => return f.write_str("processors do not rise"),
            PushError::BadDest => return f.write_str("no such destination"),
            PushError::IdsNotRising => return f.write_str("ids do not rise"),
            PushError::UnknownMessage(id) => (id, " unknown"),
            PushError::NotAddressed(id) => (id, " is for another processor"),
            PushError::SameTick(id) => (id, " was sent in this tick"),
            PushError::Redelivered(id) => (id, " was received before"),
            PushError::Memory => return f.write_str("out of memory"),
        };
        write!(f, "message {id}{rest}")
    }
}
