//! The line that says how many receives are merged into others.

ghost use Rattle.std.specs.Prelude.{◌≡◌, IfOk, string_bytes};
ghost use Rattle.text_commands.specs.ImportLines.{merged_notes};

use std::alloc::{AllocError, Global};
use std::fmt;

/// How many receives are merged into others; nothing if they aren't.
pub(crate) fn merged_notes(alloc: Global, merged: Option<u64>) -> Result<String, AllocError>
    ensures { IfOk result (λ text. string_bytes text ≡ merged_notes merged) }
{
    match merged {
        None => Ok(String::new(alloc)),
        Some(merged) => MergedLine(merged).to_string(alloc),
    }
}

/// How many receives are merged into others, on a line of its own.
#[derive(Clone, Copy)]
struct MergedLine(u64);

impl fmt::Display for MergedLine {
    ghost use Rattle.std.specs.Prelude.{Some};
    ghost use Rattle.text_commands.specs.ImportLines.{merged_line};

    ghost output = { λ line. Some (merged_line line.0) };

    fn fmt<W: fmt::Write>(&self, f: &mut fmt::Formatter<W>) -> fmt::Result {
        match self.0 {
            1 => f.write_str("synchrony: 1 receive is merged into another\n"),
            merged => writeln!(f, "synchrony: {merged} receives are merged into others"),
        }
    }
}
