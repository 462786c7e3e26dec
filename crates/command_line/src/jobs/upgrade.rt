//! The command `upgrade`: its words and its help text, and the job that they give.

ghost use Rattle.std.specs.Prelude.{IfOk, IfErr};
ghost use Rattle.clap.specs.Words.{found_of, rows_of};
ghost use Rattle.command_line.specs.Arguments.{IsCommand, IsMemory};
ghost use Rattle.command_line.specs.Commands.Upgrade.{IsUpgrade, upgrade_app, upgrade_given};

use crate::jobs::Job;
use crate::jobs::arguments::{file_argument, new_command, text};
use crate::line_errors::LineError;
use clap::{ArgMatches, Command};
use std::alloc::{AllocError, Global};

const ABOUT: &str = "Prints a trace of either version as a trace text of version 2";

/// The version 2 text of the trace in a file.
#[derive(Debug, Drop)]
pub struct UpgradeJob {
    /// The path of the file; `-` is standard input.
    pub file: String,
}

/// The command `upgrade`, as the command line's reader takes it.
pub fn command<'a>(alloc: Global) -> Result<Command<'a>, AllocError>
    ensures { IfOk result (IsCommand upgrade_app) }
{
    let arguments = vec![in alloc; file_argument(alloc)]?;
    new_command(alloc, "upgrade", ABOUT, help(), arguments)
}

/// The job that the words after `upgrade` ask for; None if one is missing. Memory is the only refusal.
pub fn job(alloc: Global, found: &ArgMatches<'_>) -> Option<Result<Job, LineError>>
    ensures { upgrade_given (rows_of (found_of found.now)) result }
{
    let file = text(found, "file")?;
    Some(upgrade(alloc, file))
}

/// The job of an upgrade with this file.
fn upgrade(alloc: Global, file: &str) -> Result<Job, LineError>
    ensures job { IfOk result (IsUpgrade file.now) }
    ensures refused { IfErr result IsMemory }
{
    let file = String::from_str(alloc, file)?;
    Ok(Job::Upgrade(UpgradeJob { file }))
}

/// What an upgrade prints.
fn help() -> &'static str {
    "\
In version 1 of the trace text each tick holds one step, so a record of a step
is no,proc,op,arg, and its tick is its number. In version 2 a tick holds any
number of steps, at most one of each processor, possibly none: a record of a
step is no,tick,proc,op,arg, and the last record is end and the last tick. What
is printed is the trace of FILE in version 2, whichever version FILE has. The
two have the same report and the same replay.

Example, at the top of the repository:
  ./synchrony upgrade examples/one-miss.trace
prints
  dls-trace,2,2,0
  init,5,7
  1,1,1,S,2
  2,2,2,R,
  3,3,2,R,1
  end,3

Exit status:
  0  the trace is printed, or this text
  2  the command line is refused
  3  the trace is refused
  5  out of memory
  6  FILE can't be opened or read, or the output can't be written
Faults go to standard error. Output begins once all of it is known."
}
