//! The command `each`: its words and its help text, and the job that they give.

ghost use Rattle.std.specs.Prelude.{IfOk, IfErr};
ghost use Rattle.clap.specs.Words.{found_of, rows_of};
ghost use Rattle.command_line.specs.Arguments.{IsCommand, IsListFault};
ghost use Rattle.command_line.specs.Commands.Each.{IsEach, each_app, each_given};

use crate::jobs::Job;
use crate::jobs::arguments::{
    correct_argument, correct_in, file_argument, new_command, text, tick, tick_argument,
};
use crate::line_errors::LineError;
use clap::{ArgMatches, Command};
use command_options::Each;
use std::alloc::{AllocError, Global};

const ABOUT: &str = "Prints the bounds of each processor and of each link: who is to blame";

const UNTIL_HELP: &str = "Takes the trace as if it had ended at this tick";

const AT_HELP: &str = "Prints what holds from this tick on; from tick 1 if it is left out";

/// The bounds of each processor and of each link of the trace in a file.
#[derive(Debug, Drop)]
pub struct EachJob {
    /// The path of the file; `-` is standard input.
    pub file: String,
    /// Of which trace the bounds are asked for, and from which tick on.
    pub each: Each,
}

/// The command `each`, as the command line's reader takes it.
pub fn command<'a>(alloc: Global) -> Result<Command<'a>, AllocError>
    ensures { IfOk result (IsCommand each_app) }
{
    let arguments = vec![in alloc;
        file_argument(alloc),
        correct_argument(alloc),
        tick_argument(alloc, "at", AT_HELP),
        tick_argument(alloc, "until", UNTIL_HELP),
    ]?;
    new_command(alloc, "each", ABOUT, help(), arguments)
}

/// The job that the words after `each` ask for; None if one is missing.
///
/// Refuses a list that isn't one. Memory may come instead.
pub fn job(alloc: Global, found: &ArgMatches<'_>) -> Option<Result<Job, LineError>>
    ensures { each_given (rows_of (found_of found.now)) result }
{
    let file = text(found, "file")?;
    let list = text(found, "correct")?;
    let at = tick(found, "at")?;
    let until = tick(found, "until")?;
    Some(each(alloc, file, list, at, until))
}

/// The job of the bounds of each with these words.
fn each(
    alloc: Global,
    file: &str,
    list: &str,
    at: Option<u64>,
    until: Option<u64>,
) -> Result<Job, LineError>
    ensures job { IfOk result (IsEach file.now list.now at until) }
    ensures refused { IfErr result (IsListFault list.now) }
{
    let correct = correct_in(alloc, "correct", list)?;
    let file = String::from_str(alloc, file)?;
    let each = Each { correct, until, at };
    Ok(Job::Each(EachJob { file, each }))
}

/// Which rows there are, and how they are read.
fn help() -> &'static str {
    "\
`report` gives the bounds of all correct processors together. This gives those
of each alone: which processor is slow, and which link is late.

  phi,P,,F,first,last
      In any F ticks in a row, processor P takes a step, and F is the least such
      number. It takes none from tick first to tick last.
  delta,P,Q,D,sent,missed
      What P sends to Q in a tick x is delivered by each Receive of Q in tick
      x + D or later, and D is the least such number. The message of step sent
      was not yet delivered at the Receive of step missed.

Each row holds from the tick of --at to the end of the trace. A bound of 1 names
no evidence. Each processor of LIST has a row `phi`. Two of them, P and Q, have
a row `delta` if P sends Q a message in the tick of --at or later; P and Q may
be the same. The greatest phi and the greatest delta are those of the report
from that tick on.

Example, at the top of the repository:
  ./synchrony each examples/heartbeats.trace --correct all
prints
  bound,proc,to,value,first,last
  phi,1,,2,27,27
  phi,2,,2,30,30
  phi,3,,2,29,29
  phi,4,,4,9,11
  delta,1,2,1,,
  delta,1,3,2,56,60
  delta,1,4,3,22,27
  delta,2,1,2,48,51
  delta,3,1,1,,
  delta,4,1,2,50,51
Processor 4 is to blame: it pauses for the ticks 9 to 11, and what 1 sends to it
comes last of all.

Exit status:
  0  the rows are printed, or this text
  2  the command line is refused, LIST is no list, or it has a processor above
     the trace's number of processors; the tick of --until is none of the trace,
     or that of --at is none up to there
  3  the trace is refused
  5  out of memory
  6  FILE can't be opened or read, or the output can't be written
Faults go to standard error. Output begins once all of it is known."
}
