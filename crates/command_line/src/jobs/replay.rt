//! The command `replay`: its words and its help text, and the job that they give.

ghost use Rattle.std.specs.Prelude.{IfOk, IfErr};
ghost use Rattle.clap.specs.Words.{found_of, rows_of};
ghost use Rattle.command_line.specs.Arguments.{IsCommand, IsMemory};
ghost use Rattle.command_line.specs.Commands.Replay.{IsReplay, replay_app, replay_given};

use crate::jobs::Job;
use crate::jobs::arguments::{file_argument, new_command, text};
use crate::line_errors::LineError;
use clap::{ArgMatches, Command};
use std::alloc::{AllocError, Global};

const ABOUT: &str = "Prints each processor's round and decision at the end of a run";

/// The replay of the trace in a file: the round and the decision of each processor at its end.
#[derive(Debug, Drop)]
pub struct ReplayJob {
    /// The path of the file; `-` is standard input.
    pub file: String,
}

/// The command `replay`, as the command line's reader takes it.
pub fn command<'a>(alloc: Global) -> Result<Command<'a>, AllocError>
    ensures { IfOk result (IsCommand replay_app) }
{
    let arguments = vec![in alloc; file_argument(alloc)]?;
    new_command(alloc, "replay", ABOUT, help(), arguments)
}

/// The job that the words after `replay` ask for; None if one is missing. Memory is the only refusal.
pub fn job(alloc: Global, found: &ArgMatches<'_>) -> Option<Result<Job, LineError>>
    ensures { replay_given (rows_of (found_of found.now)) result }
{
    let file = text(found, "file")?;
    Some(replay(alloc, file))
}

/// The job of a replay with this file.
fn replay(alloc: Global, file: &str) -> Result<Job, LineError>
    ensures job { IfOk result (IsReplay file.now) }
    ensures refused { IfErr result IsMemory }
{
    let file = String::from_str(alloc, file)?;
    Ok(Job::Replay(ReplayJob { file }))
}

/// How a trace is replayed, and what is printed of it.
fn help() -> &'static str {
    "\
The trace is taken as a run of the agreement algorithm: each Send must go to the
processor to which its sender has something to send next, and a round may end
only once there is none left. What is printed has a header and a record for each
processor, for the end of the trace.

  proc      the processor
  round     its round: one more than the number of rounds that it has ended
  decision  the value that it decided; empty if it has decided none

Example, at the top of the repository:
  ./synchrony replay examples/decides-seven.trace
prints
  proc,round,decision
  1,4,7
  2,4,
  3,4,
Each of the three processors has ended three rounds, and processor 1 decided 7.

Exit status:
  0  the replay is printed, or this text
  2  the command line is refused
  3  the trace is refused
  5  out of memory
  6  FILE can't be opened or read, or the output can't be written
  7  the trace is no run; the fault names the first step that can't be one's
Faults go to standard error. Output begins once all of it is known."
}
