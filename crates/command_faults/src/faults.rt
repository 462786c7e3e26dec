//! Why a command stops, and the exit status that each reason has.

ghost use Rattle.std.specs.Prelude.{◌≡◌};
ghost use Rattle.command_faults.specs.Faults.{status_of};

use crate::files::{FileTrouble, OutputTrouble};
use decision_claims::{BadFormula, FormulaError};
use event_log::{LogError, OptionError};
use front::ReportError;
use judged_runs::{DecisionsError, RunListError};
use std::alloc::AllocError;
use step_buffers::{Due, ReplayError};
use step_tables::TableError;
use thiserror::Error;
use trace_text::{TextError, WriteError};

/// Why the program stops before it is done.
#[derive(Debug, Drop, Error)]
pub enum Fault {
    /// The command line is refused, in these words.
    Command(String),
    /// The set that this option names has this member, and so many processors are all that there are.
    Set(SetOption, MemberOutside),
    /// The trace text is refused. `Read` and `Memory` are faults of their own.
    Trace(TextError),
    /// The trace text has no header of one, and the text of decisions has: the two may be swapped.
    Swapped,
    /// The certificate is refused. `Read` and `Memory` are faults of their own.
    Certificate(ReportError),
    /// The text of decisions is refused. `Memory` is a fault of its own.
    Decisions(DecisionsError),
    /// The list of runs is refused. `Memory` is a fault of its own.
    Runs(RunListError),
    /// The table of the trace's steps is refused. `Memory` is a fault of its own.
    Table(TableError),
    /// This field of a run in a list is bad.
    Listed(ListedField),
    /// The text of a deadline is no formula, for this reason.
    Within(BadFormula),
    /// Out of memory.
    Memory,
    /// The input can't be read.
    Read,
    /// This file, as the command line has it, can't be opened or read.
    Unread(String, FileTrouble),
    /// The output can't be written; so many bytes of it went out before.
    Write(u64),
    /// Standard output can't be written, for this reason.
    Unwritten(OutputTrouble),
    /// The trace is no run of the algorithm: the first step that is none of a run has this number. With what its
    /// processor had to do, if that is known.
    NotARun(u64, Option<Due>),
    /// A thread wasn't started, or was held back.
    Threads,
    /// There is no picture of the trace for the value of this option.
    Picture(PictureOption),
    /// This option asks for this tick, and the trace has none after this last one.
    Report(ReportOption, TickOutside),
    /// The log is refused, or an option doesn't fit its times. `Memory` is a fault of its own.
    Log(LogError),
    /// What this option has gives no way to read a log.
    Import(ImportOption),
    /// This text of this option is no length of time by which a log is read: it is neither a number nor a duration, or
    /// isn't above 0.
    Length(ImportOption, String),
}

/// An option that names processors.
#[derive(Clone, Copy, Debug, PartialEq, Eq)]
pub enum SetOption {
    /// Those of a trace.
    Correct,
    /// Those for which a run is followed.
    Follow,
    /// The leader of a table of timeouts.
    From,
    /// The followers of a table of timeouts.
    To,
    /// Those whose lanes are drawn.
    Lanes,
}

/// The least processor that is named and that there isn't, and how many there are.
#[derive(Clone, Copy, Debug, PartialEq, Eq)]
pub struct MemberOutside {
    /// The processor that is named.
    pub member: u64,
    /// How many processors there are: their numbers are 1 to this one.
    pub count: u64,
}

/// A tick that is asked for and that a trace hasn't, and the trace's last tick: 0 if it has none.
#[derive(Clone, Copy, Debug, PartialEq, Eq)]
pub struct TickOutside {
    /// The tick that is asked for.
    pub tick: u64,
    /// The last tick of the trace.
    pub last: u64,
}

/// An option that a picture is asked for with, and why it doesn't fit the trace.
#[derive(Clone, Copy, Debug, PartialEq, Eq)]
pub enum PictureOption {
    /// The names are so many, and the processors are so many.
    NameCount(u64, u64),
    /// The name at this place, from 1, can't be drawn.
    BadName(u64),
    /// The name at this place, from 1, is the same as an earlier one.
    SameName(u64),
    /// The lane at this place, from 1, is neither a name nor a number of processors.
    NoLane(u64),
    /// The first tick to draw is this one, and the last tick of the trace is the second.
    From(u64, u64),
    /// The last tick to draw is this one, and the first tick to draw is the second.
    To(u64, u64),
}

/// An option that a part of a report is asked for with, or the check of one, or the judgement of decisions.
#[derive(Clone, Copy, Debug, PartialEq, Eq)]
pub enum ReportOption {
    /// The tick up to which the trace is reported, or checked.
    Until,
    /// The tick whose row is printed.
    At,
    /// The tick in which an instance of agreement started.
    Start,
}

/// An option by which a log is read.
#[derive(Clone, Copy, Debug, PartialEq, Eq)]
pub enum ImportOption {
    /// The nodes.
    Nodes,
    /// The unit of the times.
    Unit,
    /// The length of a tick.
    Tick,
    /// When the log ends.
    Until,
    /// When the window of the log begins.
    From,
    /// The longest time without an event that gets a receive of nothing.
    Idle,
}

/// A field of a run in a list.
#[derive(Clone, Copy, Debug, PartialEq, Eq)]
pub enum ListedField {
    /// The path of the trace's file.
    Trace,
    /// The path of the decisions' file.
    Decisions,
    /// The correct processors.
    Correct,
    /// The tick in which an instance of agreement started.
    Start,
}

impl From<AllocError> for Fault {
    ghost use Rattle.command_faults.specs.declared.faults.Fault.TheVariants as fault;

    ghost from_gives = { λ _ made. made ≡ fault.Memory };

    fn from(_error: AllocError) -> Fault {
        Fault::Memory
    }
}

impl From<TextError> for Fault {
    ghost use Rattle.command_faults.specs.Faults.{fault_of_text};

    ghost from_gives = { λ why made. made ≡ fault_of_text why };

    fn from(why: TextError) -> Fault {
        match why {
            TextError::Read => Fault::Read,
            TextError::Memory => Fault::Memory,
            why => Fault::Trace(why),
        }
    }
}

impl From<ReportError> for Fault {
    ghost use Rattle.command_faults.specs.Faults.{fault_of_certificate};

    ghost from_gives = { λ why made. made ≡ fault_of_certificate why };

    fn from(why: ReportError) -> Fault {
        match why {
            ReportError::Read => Fault::Read,
            ReportError::Memory => Fault::Memory,
            why => Fault::Certificate(why),
        }
    }
}

impl From<DecisionsError> for Fault {
    ghost use Rattle.command_faults.specs.Faults.{fault_of_decisions};

    ghost from_gives = { λ why made. made ≡ fault_of_decisions why };

    fn from(why: DecisionsError) -> Fault {
        match why {
            DecisionsError::Memory => Fault::Memory,
            why => Fault::Decisions(why),
        }
    }
}

impl From<RunListError> for Fault {
    ghost use Rattle.command_faults.specs.Faults.{fault_of_run_list};

    ghost from_gives = { λ why made. made ≡ fault_of_run_list why };

    fn from(why: RunListError) -> Fault {
        match why {
            RunListError::Memory => Fault::Memory,
            why => Fault::Runs(why),
        }
    }
}

impl From<TableError> for Fault {
    ghost use Rattle.command_faults.specs.Faults.{fault_of_table};

    ghost from_gives = { λ why made. made ≡ fault_of_table why };

    fn from(why: TableError) -> Fault {
        match why {
            TableError::Memory => Fault::Memory,
            why => Fault::Table(why),
        }
    }
}

impl From<FormulaError> for Fault {
    ghost use Rattle.command_faults.specs.Faults.{fault_of_formula};

    ghost from_gives = { λ why made. made ≡ fault_of_formula why };

    fn from(why: FormulaError) -> Fault {
        match why {
            FormulaError::Refused(why) => Fault::Within(why),
            FormulaError::Memory => Fault::Memory,
        }
    }
}

impl From<ReplayError> for Fault {
    ghost use Rattle.command_faults.specs.Faults.{fault_of_replay};

    ghost from_gives = { λ why made. made ≡ fault_of_replay why };

    fn from(why: ReplayError) -> Fault {
        match why {
            ReplayError::NotARun(no, due) => Fault::NotARun(no, Some(due)),
            ReplayError::Memory => Fault::Memory,
        }
    }
}

impl From<LogError> for Fault {
    ghost use Rattle.command_faults.specs.Faults.{fault_of_log};

    ghost from_gives = { λ why made. made ≡ fault_of_log why };

    fn from(why: LogError) -> Fault {
        match why {
            LogError::Memory => Fault::Memory,
            why => Fault::Log(why),
        }
    }
}

impl From<OptionError> for Fault {
    ghost use Rattle.command_faults.specs.Faults.{fault_of_options};

    ghost from_gives = { λ why made. made ≡ fault_of_options why };

    fn from(why: OptionError) -> Fault {
        match why {
            OptionError::Nodes => Fault::Import(ImportOption::Nodes),
            OptionError::Unit => Fault::Import(ImportOption::Unit),
            OptionError::Tick => Fault::Import(ImportOption::Tick),
            OptionError::Until => Fault::Import(ImportOption::Until),
            OptionError::Idle => Fault::Import(ImportOption::Idle),
            OptionError::Memory => Fault::Memory,
        }
    }
}

impl From<WriteError> for Fault {
    ghost use Rattle.command_faults.specs.Faults.{fault_of_write};

    ghost from_gives = { λ why made. made ≡ fault_of_write why };

    fn from(why: WriteError) -> Fault {
        match why {
            WriteError::Write(written) => Fault::Write(written),
            WriteError::Memory => Fault::Memory,
        }
    }
}

/// The exit status that the program ends with. Takes no memory.
pub fn status(fault: &Fault) -> u8
    ensures { result ≡ status_of fault.now }
{
    match fault {
        Fault::Command(_) | Fault::Set(_, _) | Fault::Within(_) => 2,
        Fault::Report(ReportOption::Start, _) => 3,
        Fault::Picture(_) | Fault::Report(_, _) | Fault::Import(_) => 2,
        Fault::Length(_, _) => 2,
        Fault::Log(LogError::TickUnfit | LogError::UntilUnfit | LogError::IdleUnfit) => 2,
        Fault::Log(LogError::FromUnfit) => 2,
        Fault::Trace(_) | Fault::Log(_) | Fault::Table(_) => 3,
        Fault::Swapped => 3,
        Fault::Certificate(_) | Fault::Decisions(_) => 4,
        Fault::Runs(_) | Fault::Listed(_) => 4,
        Fault::Memory => 5,
        Fault::Read | Fault::Unread(..) | Fault::Write(_) => 6,
        Fault::Unwritten(_) => 6,
        Fault::NotARun(..) => 7,
        Fault::Threads => 8,
    }
}
