//! What the line of a refused log has besides the words of the refusal: what comes before them, and what helps. Also
//! the line of an option by which no log is read.

ghost use Rattle.std.specs.Prelude.{◌≡◌};
ghost use Rattle.command_faults.specs.LogFaultLines.{hint_line, log_lead};

use crate::faults::ImportOption;
use event_log::LogError;
use std::fmt;
use timed_events::Hint;

/// What comes before the reason of a refused log: nothing if it begins with an option that doesn't fit.
pub(crate) fn log_lead(why: &LogError) -> &'static str
    ensures { result.now ≡ log_lead why.now }
{
    match why {
        LogError::TickUnfit | LogError::UntilUnfit | LogError::IdleUnfit | LogError::FromUnfit =>
            "",
        _ => "log: ",
    }
}

/// What helps if a log is refused, after a line feed; nothing if nothing helps.
#[derive(Clone, Copy)]
pub(crate) struct HelpLine<'a>(pub(crate) &'a LogError);

impl fmt::Display for HelpLine<'_> {
    ghost use Rattle.std.specs.Prelude.{Some};
    ghost use Rattle.command_faults.specs.LogFaultLines.{help_line};

    ghost output = { λ line. Some (help_line line.0.now) };

    fn fmt<W: fmt::Write>(&self, f: &mut fmt::Formatter<W>) -> fmt::Result {
        match self.0 {
            LogError::TooLarge | LogError::TooManyEvents => f.write_str(
                "\nsynchrony: --from and --until read a window of a log of any length; a window has at most 67108864 bytes and 1000000 events",
            ),
            LogError::NoEvents => f.write_str(
                "\nsynchrony: the log has a header alone, or no record in the window of --from and --until, or --drop-lost leaves all out",
            ),
            LogError::TooManyNodes(_) => {
                f.write_str("\nsynchrony: a trace has at most 64 processors, one for each node")
            }
            LogError::TooFewNodes => f.write_str(
                "\nsynchrony: a trace has at least 2 processors; --nodes also names nodes without events",
            ),
            LogError::SentBefore(..) => f.write_str(
                "\nsynchrony: messages to one node have different names: number them",
            ),
            LogError::NeverSent(..) => f.write_str(
                "\nsynchrony: no record sends it to any node; if the log begins in the middle of a run, --from with its first time leaves such messages out",
            ),
            LogError::TickUnfit | LogError::IdleUnfit => f.write_str(
                "\nsynchrony: a duration fits only times of a known unit; --unit s, ms, us or ns says what whole numbers are",
            ),
            LogError::UntilUnfit => f.write_str(
                "\nsynchrony: --until is a time like those of the log, and not before any of its events; a duration fits decimal seconds, and whole numbers with --unit",
            ),
            LogError::TooManyTicks => f.write_str(
                "\nsynchrony: a greater --tick makes fewer; --ticks lists those that fit",
            ),
            LogError::FromUnfit => f.write_str(
                "\nsynchrony: --from is a time like those of the log, and not after --until",
            ),
            LogError::TooManySteps => f.write_str(
                "\nsynchrony: a greater --tick or a shorter --idle makes fewer",
            ),
            LogError::NotLater(_, _, hint) => f.write_str(hint_line(*hint)),
            LogError::SecondEvent(_, _, _, hint) => f.write_str(hint_line(*hint)),
            LogError::Cycle(_, lines) => write!(
                f,
                "{lines}\nsynchrony: no clocks make this right: the records of a node are out of order, or a message is named wrongly"
            ),
            LogError::NoOffsets(lines) => write!(f, "{lines}"),
            LogError::NoColumn(_) => f.write_str(
                "\nsynchrony: the first record names the columns, in any order, with commas and no spaces between them: time,node,event,to,message",
            ),
            LogError::BadFields(_) => {
                f.write_str("\nsynchrony: each record has as many fields as the first")
            }
            LogError::BadEvent(_) => f.write_str("\nsynchrony: an event is send or receive"),
            LogError::BadMessage(_) => f.write_str(
                "\nsynchrony: the name of a message is text with no space or control character, and not empty; a receive has one space between names",
            ),
            LogError::BadTime(_) => f.write_str(
                "\nsynchrony: a time is a whole number, decimal seconds like 1700000000.123456, or a time stamp like 2026-11-22T10:00:00.250Z; all are of the kind of record 2's, and with --unit whole numbers",
            ),
            LogError::BadNode(_, None) => f.write_str(
                "\nsynchrony: a send names a node in node and in to, a receive in node; a name is text with no control character or semicolon, and not empty",
            ),
            LogError::BadNode(_, Some(name)) => {
                write!(
                    f,
                    "\nsynchrony: \"{name}\" is not among --nodes, where spaces count"
                )
            }
            _ => f.write_str(""),
        }
    }
}

/// A line of what helps, after a line feed.
fn hint_line(hint: Option<Hint>) -> &'static str
    ensures { result.now ≡ hint_line hint }
{
    match hint {
        None => "",
        Some(Hint::ShorterTick) =>
            "\nsynchrony: a shorter --tick sets them apart, and --spread moves one of them",
        Some(Hint::Spread) => "\nsynchrony: --spread sets them apart",
    }
}

/// The option, as the command line has it.
impl fmt::Display for ImportOption {
    ghost use Rattle.std.specs.Prelude.{Some};
    ghost use Rattle.command_faults.specs.LogFaultLines.{import_option_words};

    ghost output = { λ option. Some (import_option_words option) };

    fn fmt<W: fmt::Write>(&self, f: &mut fmt::Formatter<W>) -> fmt::Result {
        match self {
            ImportOption::Nodes => f.write_str("--nodes"),
            ImportOption::Unit => f.write_str("--unit"),
            ImportOption::Tick => f.write_str("--tick"),
            ImportOption::Until => f.write_str("--until"),
            ImportOption::From => f.write_str("--from"),
            ImportOption::Idle => f.write_str("--idle"),
        }
    }
}

/// What an option takes by which a log is read, after a line feed.
#[derive(Clone, Copy)]
pub(crate) struct ImportHint(pub(crate) ImportOption);

impl fmt::Display for ImportHint {
    ghost use Rattle.std.specs.Prelude.{Some};
    ghost use Rattle.command_faults.specs.LogFaultLines.{import_hint};

    ghost output = { λ hint. Some (import_hint hint.0) };

    fn fmt<W: fmt::Write>(&self, f: &mut fmt::Formatter<W>) -> fmt::Result {
        match self.0 {
            ImportOption::Nodes => f.write_str(
                "\nsynchrony: --nodes takes 2 to 64 different names with one comma between them; a name is text with no control character or semicolon, and not empty",
            ),
            ImportOption::Unit => f.write_str("\nsynchrony: --unit takes s, ms, us or ns"),
            ImportOption::Tick | ImportOption::Idle => write!(
                f,
                "\nsynchrony: {} takes a number or a duration above 0",
                self.0
            ),
            ImportOption::Until | ImportOption::From => write!(
                f,
                "\nsynchrony: {} takes a time as the log has it, such as 1250, 1700000000.25 or 2026-11-22T10:00:00.250Z, or a duration such as 1m 30s",
                self.0
            ),
        }
    }
}

/// What an option has that gives no length of time, and what it takes, after a line feed.
#[derive(Clone, Copy)]
pub(crate) struct LengthHint<'a>(pub(crate) ImportOption, pub(crate) &'a str);

impl fmt::Display for LengthHint<'_> {
    ghost use Rattle.std.specs.Prelude.{Some};
    ghost use Rattle.command_faults.specs.LogFaultLines.{length_hint};

    ghost output = { λ hint. Some (length_hint hint.0 hint.1.now) };

    fn fmt<W: fmt::Write>(&self, f: &mut fmt::Formatter<W>) -> fmt::Result {
        write!(
            f,
            "\nsynchrony: {} is \"{}\", and takes a number above 0 in the unit of the times (ns for decimal seconds and time stamps), or a duration above 0 such as 250us, 5ms, 1m 30s or 2h, unless the times are whole numbers without --unit",
            self.0, self.1
        )
    }
}
