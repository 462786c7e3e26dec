//! The command `brief`: its words and its help text, and the job that they give.

ghost use Rattle.std.specs.Prelude.{IfOk, IfErr};
ghost use Rattle.clap.specs.Words.{found_of, rows_of};
ghost use Rattle.command_line.specs.Arguments.{IsCommand, IsListFault};
ghost use Rattle.command_line.specs.Commands.Brief.{IsBrief, brief_app, brief_given};

use crate::jobs::Job;
use crate::jobs::arguments::{
    correct_argument, correct_in, file_argument, new_command, text, tick, tick_argument,
};
use crate::line_errors::LineError;
use clap::{ArgMatches, Command};
use command_options::Brief;
use std::alloc::{AllocError, Global};

const ABOUT: &str = "Prints the rows of a report that name other evidence than the row before";

const UNTIL_HELP: &str = "Reports the trace as if it had ended at this tick";

/// The brief report of the trace in a file.
#[derive(Debug, Drop)]
pub struct BriefJob {
    /// The path of the file; `-` is standard input.
    pub file: String,
    /// Of which trace the brief report is asked for.
    pub brief: Brief,
}

/// The command `brief`, as the command line's reader takes it.
pub fn command<'a>(alloc: Global) -> Result<Command<'a>, AllocError>
    ensures { IfOk result (IsCommand brief_app) }
{
    let arguments = vec![in alloc;
        file_argument(alloc),
        correct_argument(alloc),
        tick_argument(alloc, "until", UNTIL_HELP),
    ]?;
    new_command(alloc, "brief", ABOUT, help(), arguments)
}

/// The job that the words after `brief` ask for; None if one is missing.
///
/// Refuses a list that isn't one. Memory may come instead.
pub fn job(alloc: Global, found: &ArgMatches<'_>) -> Option<Result<Job, LineError>>
    ensures { brief_given (rows_of (found_of found.now)) result }
{
    let file = text(found, "file")?;
    let list = text(found, "correct")?;
    let until = tick(found, "until")?;
    Some(brief(alloc, file, list, until))
}

/// The job of a brief report with these words.
fn brief(alloc: Global, file: &str, list: &str, until: Option<u64>) -> Result<Job, LineError>
    ensures job { IfOk result (IsBrief file.now list.now until) }
    ensures refused { IfErr result (IsListFault list.now) }
{
    let correct = correct_in(alloc, "correct", list)?;
    let file = String::from_str(alloc, file)?;
    let brief = Brief { correct, until };
    Ok(Job::Brief(BriefJob { file, brief }))
}

/// Which rows a brief report has.
fn help() -> &'static str {
    "\
A silence gives a row of the report for each of its ticks, since it gets shorter
from tick to tick: a report of a minute may have thousands of rows, and name few
causes. This prints the header and those rows alone that name other evidence
than the row before: another message or another Receive that missed it, or the
silence of another processor or up to another tick. The first row is among them.

What is printed is no certificate: `check` refuses it if rows are left out.
`report` prints all rows, and its --help explains them.

Example, at the top of the repository:
  ./synchrony brief examples/heartbeats.trace --correct all
prints
  gst,delta,phi,sent,missed,proc,from,to
  1,3,4,22,27,4,9,11
  11,2,2,59,62,2,30,30
  27,1,2,,,2,30,30
The report has one row more, 10,3,3,22,27,4,10,11: the silence of processor 4
that the first row names, from tick 10 on.

Exit status:
  0  the rows are printed, or this text
  2  the command line is refused, LIST is no list, or it has a processor above
     the trace's number of processors; the tick of --until is none of the trace
  3  the trace is refused
  5  out of memory
  6  FILE can't be opened or read, or the output can't be written
Faults go to standard error. Output begins once all of it is known."
}
