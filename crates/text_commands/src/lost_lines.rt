//! The line that says how many lost sends are left out of a trace.

ghost use Rattle.std.specs.Prelude.{◌≡◌, IfOk, string_bytes};
ghost use Rattle.text_commands.specs.ImportLines.{lost_notes};

use std::alloc::{AllocError, Global};
use std::fmt;

/// How many sends of messages that no record receives are left out; nothing if they aren't.
pub(crate) fn lost_notes(alloc: Global, lost: Option<u64>) -> Result<String, AllocError>
    ensures { IfOk result (λ text. string_bytes text ≡ lost_notes lost) }
{
    match lost {
        None => Ok(String::new(alloc)),
        Some(lost) => LostLine(lost).to_string(alloc),
    }
}

/// How many lost sends are left out, on a line of its own.
#[derive(Clone, Copy)]
struct LostLine(u64);

impl fmt::Display for LostLine {
    ghost use Rattle.std.specs.Prelude.{Some};
    ghost use Rattle.text_commands.specs.ImportLines.{lost_line};

    ghost output = { λ line. Some (lost_line line.0) };

    fn fmt<W: fmt::Write>(&self, f: &mut fmt::Formatter<W>) -> fmt::Result {
        match self.0 {
            1 => f.write_str("synchrony: 1 message was never received; its send is left out\n"),
            lost => writeln!(
                f,
                "synchrony: {lost} messages were never received; their sends are left out"
            ),
        }
    }
}
