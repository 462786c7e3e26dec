//! The lines that report a cycle of messages or of clocks, for which a log makes no trace.

ghost use Rattle.std.specs.Prelude.{◌≡◌};

use crate::names::Name;
use std::fmt;
use std::marker::Model;

/// A line that reports a cycle, with the numbers of the records that it names.
#[derive(Debug, Drop)]
pub enum CycleLine {
    /// Record `number`: the node receives the message, which the sender sends in record `sent`, after record `after`.
    Hop {
        number: u64,
        node: Name,
        message: Name,
        sender: Name,
        sent: u64,
        after: u64,
    },
    /// Record `number`: the message from the sender to the receiver takes so long; record `sent` sends it.
    Clock {
        number: u64,
        message: Name,
        sender: Name,
        receiver: Name,
        took: i128,
        sent: u64,
    },
    /// So many hops more aren't listed; nothing if there are none.
    More(usize),
    /// The messages of a cycle of clocks take so long together.
    Together(i128),
}

/// The line, after a line feed.
impl fmt::Display for CycleLine {
    ghost use Rattle.std.specs.Prelude.{Some};
    ghost use Rattle.event_log.specs.CycleLines.{line_text};

    ghost output = { λ line. Some (line_text line) };

    fn fmt<W: fmt::Write>(&self, f: &mut fmt::Formatter<W>) -> fmt::Result {
        match self {
            CycleLine::Hop {
                number,
                node,
                message,
                sender,
                sent,
                after,
            } => write!(
                f,
                "\nsynchrony: record {number}: {node} receives {message}, which {sender} sends in record {sent}, after record {after}"
            ),
            CycleLine::Clock {
                number,
                message,
                sender,
                receiver,
                took,
                sent,
            } => write!(
                f,
                "\nsynchrony: record {number}: {message} from {sender} to {receiver} takes {took} (record {sent})"
            ),
            CycleLine::More(0) => f.write_str(""),
            CycleLine::More(more) => write!(f, "\nsynchrony: and {more} more"),
            CycleLine::Together(total) => write!(
                f,
                "\nsynchrony: together {total}: clocks drift or step, or events are logged late; --spread alone places them by cause"
            ),
        }
    }
}

/// The lines that report a cycle of messages or of clocks.
#[derive(Debug, Drop)]
pub struct CycleLines {
    lines: Vec<CycleLine>,
}

impl Model for CycleLines {
    ghost use Rattle.std.specs.Prelude.{List};
    ghost use Rattle.event_log.specs.declared.cycle_lines.CycleLine.{CycleLine};

    ghost Value = { List CycleLine };

    ghost view = { λ lines. lines.lines.items };
}

impl CycleLines {
    /// These lines.
    pub fn new(lines: Vec<CycleLine>) -> Self
        ensures { result ≡ lines.items }
    {
        CycleLines { lines }
    }

    /// The lines one by one.
    pub fn into_lines(self) -> Vec<CycleLine>
        ensures { result.items ≡ self }
    {
        self.lines
    }
}

/// The lines, each after a line feed.
impl fmt::Display for CycleLines {
    ghost use Rattle.std.specs.Prelude.{Some};
    ghost use Rattle.event_log.specs.CycleLines.{lines_text};

    ghost output = { λ lines. Some (lines_text lines) };

    fn fmt<W: fmt::Write>(&self, f: &mut fmt::Formatter<W>) -> fmt::Result {
        for line in self.lines.iter() {
            write!(f, "{line}")?;
        }
        Ok(())
    }
}
