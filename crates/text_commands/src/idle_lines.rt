//! The line that says how many receives of nothing were added to a trace.

ghost use Rattle.std.specs.Prelude.{◌≡◌, IfOk, string_bytes};
ghost use Rattle.text_commands.specs.ImportLines.{event_count, idle_notes};

use crate::tick_words::Ticks;
use event_log::IdleReceives;
use std::alloc::{AllocError, Global};
use std::fmt;

/// How many receives of nothing were added, and in which silences; nothing if none were asked for.
pub(crate) fn idle_notes(alloc: Global, idle: Option<IdleReceives>) -> Result<String, AllocError>
    ensures { IfOk result (λ text. string_bytes text ≡ idle_notes idle) }
{
    match idle {
        None => Ok(String::new(alloc)),
        Some(idle) => IdleLine(idle).to_string(alloc),
    }
}

/// How many of so many steps are events of a log.
pub(crate) fn event_count(steps: usize, idle: Option<IdleReceives>) -> usize
    ensures { result ≡ event_count steps idle }
{
    match idle {
        None => steps,
        Some(idle) => steps.saturating_sub(idle.count as usize),
    }
}

/// How many receives of nothing were added, on a line of its own.
#[derive(Clone, Copy)]
struct IdleLine(IdleReceives);

impl fmt::Display for IdleLine {
    ghost use Rattle.std.specs.Prelude.{Some};
    ghost use Rattle.text_commands.specs.ImportLines.{idle_line};

    ghost output = { λ line. Some (idle_line line.0.count line.0.limit) };

    fn fmt<W: fmt::Write>(&self, f: &mut fmt::Formatter<W>) -> fmt::Result {
        writeln!(
            f,
            "synchrony: {} added, in silences of at most {}",
            Receives(self.0.count),
            Ticks(self.0.limit)
        )
    }
}

/// So many receives of nothing.
#[derive(Clone, Copy)]
struct Receives(u64);

impl fmt::Display for Receives {
    ghost use Rattle.std.specs.Prelude.{Some};
    ghost use Rattle.text_commands.specs.ImportLines.{receives_words};

    ghost output = { λ receives. Some (receives_words receives.0) };

    fn fmt<W: fmt::Write>(&self, f: &mut fmt::Formatter<W>) -> fmt::Result {
        match self.0 {
            1 => f.write_str("1 receive of nothing"),
            count => write!(f, "{count} receives of nothing"),
        }
    }
}
