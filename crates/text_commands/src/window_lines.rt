//! The lines that say what a window of a log leaves out.

ghost use Rattle.std.specs.Prelude.{◌≡◌, IfOk, string_bytes};
ghost use Rattle.text_commands.specs.WindowLines.{window_notes};

use log_windows::LogWindow;
use std::alloc::{AllocError, Global};
use std::fmt;

/// How many events are outside a window, and how many received messages were sent outside it, if there are any.
///
/// That none is outside is said too: then the window is hardly the one that was meant.
pub(crate) fn window_notes(alloc: Global, window: &LogWindow) -> Result<String, AllocError>
    ensures { IfOk result
        (λ text. string_bytes text ≡ window_notes window.now.outside window.now.unsent) }
{
    let mut notes = OutsideLine(window.outside).to_string(alloc)?;
    let unsent = UnsentLine(window.unsent).to_string(alloc)?;
    notes.push_str(unsent.as_str())?;
    Ok(notes)
}

/// How many events are outside a window, on a line of its own.
#[derive(Clone, Copy)]
struct OutsideLine(u64);

impl fmt::Display for OutsideLine {
    ghost use Rattle.std.specs.Prelude.{Some};
    ghost use Rattle.text_commands.specs.WindowLines.{outside_notes};

    ghost output = { λ line. Some (outside_notes line.0) };

    fn fmt<W: fmt::Write>(&self, f: &mut fmt::Formatter<W>) -> fmt::Result {
        match self.0 {
            0 => f.write_str("synchrony: no event is outside the window\n"),
            1 => f.write_str("synchrony: 1 event is outside the window, and left out\n"),
            outside => writeln!(
                f,
                "synchrony: {outside} events are outside the window, and left out"
            ),
        }
    }
}

/// How many received messages were sent outside a window, on a line of its own; nothing if there are none.
#[derive(Clone, Copy)]
struct UnsentLine(u64);

impl fmt::Display for UnsentLine {
    ghost use Rattle.std.specs.Prelude.{Some};
    ghost use Rattle.text_commands.specs.WindowLines.{unsent_notes};

    ghost output = { λ line. Some (unsent_notes line.0) };

    fn fmt<W: fmt::Write>(&self, f: &mut fmt::Formatter<W>) -> fmt::Result {
        match self.0 {
            0 => f.write_str(""),
            1 => f.write_str(
                "synchrony: 1 received message was sent outside the window, and is left out\n",
            ),
            unsent => writeln!(
                f,
                "synchrony: {unsent} received messages were sent outside the window, and are left out"
            ),
        }
    }
}
