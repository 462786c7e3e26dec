//! The second line of a fault about a processor or a tick that a trace or a run hasn't.

ghost use Rattle.std.specs.Prelude.{◌≡◌};
ghost use Rattle.command_faults.specs.OutsideLines.{ticked_words, whose_words};

use crate::faults::{MemberOutside, ReportOption, SetOption, TickOutside};
use crate::hints::Ticks;
use std::fmt;

/// Which processor is named, and which there are, after a line feed.
#[derive(Clone, Copy)]
pub(crate) struct MemberLine<'a>(pub(crate) SetOption, pub(crate) &'a MemberOutside);

impl fmt::Display for MemberLine<'_> {
    ghost use Rattle.std.specs.Prelude.{Some};
    ghost use Rattle.command_faults.specs.OutsideLines.{member_line};

    ghost output = { λ line. Some (member_line line.0 line.1.now) };

    fn fmt<W: fmt::Write>(&self, f: &mut fmt::Formatter<W>) -> fmt::Result {
        write!(
            f,
            "\nsynchrony: {} names processor {}, and {} has processors 1 to {}",
            self.0,
            self.1.member,
            whose(self.0),
            self.1.count
        )
    }
}

/// Whose processors this option names.
fn whose(option: SetOption) -> &'static str
    ensures { result.now ≡ whose_words option }
{
    match option {
        SetOption::Correct | SetOption::From | SetOption::To | SetOption::Lanes => "the trace",
        SetOption::Follow => "the run",
    }
}

/// The option, as the command line has it.
impl fmt::Display for SetOption {
    ghost use Rattle.std.specs.Prelude.{Some};
    ghost use Rattle.command_faults.specs.OutsideLines.{set_option_words};

    ghost output = { λ option. Some (set_option_words option) };

    fn fmt<W: fmt::Write>(&self, f: &mut fmt::Formatter<W>) -> fmt::Result {
        match self {
            SetOption::Correct => f.write_str("--correct"),
            SetOption::Follow => f.write_str("--follow"),
            SetOption::From => f.write_str("--from"),
            SetOption::To => f.write_str("--to"),
            SetOption::Lanes => f.write_str("--lanes"),
        }
    }
}

/// Which tick is asked for, and which there are, after a line feed.
#[derive(Clone, Copy)]
pub(crate) struct TickLine<'a>(pub(crate) ReportOption, pub(crate) &'a TickOutside);

impl fmt::Display for TickLine<'_> {
    ghost use Rattle.std.specs.Prelude.{Some};
    ghost use Rattle.command_faults.specs.OutsideLines.{tick_line};

    ghost output = { λ line. Some (tick_line line.0 line.1.now) };

    fn fmt<W: fmt::Write>(&self, f: &mut fmt::Formatter<W>) -> fmt::Result {
        write!(
            f,
            "\nsynchrony: {} is {}, and {} has {}",
            self.0,
            self.1.tick,
            ticked_words(self.0),
            Ticks(self.1.last)
        )
    }
}

/// Whose ticks they are. A report may be of the first ticks of a trace alone.
fn ticked_words(option: ReportOption) -> &'static str
    ensures { result.now ≡ ticked_words option }
{
    match option {
        ReportOption::At => "the report",
        ReportOption::Until | ReportOption::Start => "the trace",
    }
}

/// The option, as the command line has it.
impl fmt::Display for ReportOption {
    ghost use Rattle.std.specs.Prelude.{Some};
    ghost use Rattle.command_faults.specs.OutsideLines.{report_option_words};

    ghost output = { λ option. Some (report_option_words option) };

    fn fmt<W: fmt::Write>(&self, f: &mut fmt::Formatter<W>) -> fmt::Result {
        match self {
            ReportOption::Until => f.write_str("--until"),
            ReportOption::At => f.write_str("--at"),
            ReportOption::Start => f.write_str("--start"),
        }
    }
}
