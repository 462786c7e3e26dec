//! The command `check`: its words and its help text, and the job that they give.

ghost use Rattle.std.specs.Prelude.{IfOk, IfErr};
ghost use Rattle.clap.specs.Words.{found_of, rows_of};
ghost use Rattle.command_line.specs.Arguments.{IsCommand};
ghost use Rattle.command_line.specs.Commands.Check.{IsCheck, IsFilesFault, check_app, check_given};

use crate::jobs::Job;
use crate::jobs::arguments::{
    correct_argument, correct_in, file_argument, names_standard_input, new_command,
    positional_argument, text, tick, tick_argument,
};
use crate::line_errors::LineError;
use clap::{ArgMatches, Command};
use command_options::Claim;
use std::alloc::{AllocError, Global};

const ABOUT: &str = "Checks a report of a trace by the trace, and prints the verdict";

const CERTIFICATE_HELP: &str = "The report to check; - is standard input";

const UNTIL_HELP: &str = "Checks it by the trace as if that had ended at this tick";

/// The check of a certificate against a trace. One of the two files at most is standard input.
#[derive(Debug, Drop)]
pub struct CheckJob {
    /// The path of the trace's file; `-` is standard input.
    pub file: String,
    /// The path of the certificate's file; `-` is standard input.
    pub certificate: String,
    /// What the certificate is checked for.
    pub claim: Claim,
}

/// The command `check`, as the command line's reader takes it.
pub fn command<'a>(alloc: Global) -> Result<Command<'a>, AllocError>
    ensures { IfOk result (IsCommand check_app) }
{
    let arguments = vec![in alloc;
        file_argument(alloc),
        positional_argument(alloc, "certificate", "CERT", CERTIFICATE_HELP),
        correct_argument(alloc),
        tick_argument(alloc, "until", UNTIL_HELP),
    ]?;
    new_command(alloc, "check", ABOUT, help(), arguments)
}

/// The job that the words after `check` ask for; None if one is missing.
///
/// Refuses a list that isn't one, and then two files that are both standard input. Memory may come instead.
pub fn job(alloc: Global, found: &ArgMatches<'_>) -> Option<Result<Job, LineError>>
    ensures { check_given (rows_of (found_of found.now)) result }
{
    let file = text(found, "file")?;
    let certificate = text(found, "certificate")?;
    let list = text(found, "correct")?;
    let until = tick(found, "until")?;
    Some(check(alloc, file, certificate, list, until))
}

/// The job of a check with these words.
fn check(
    alloc: Global,
    file: &str,
    certificate: &str,
    list: &str,
    until: Option<u64>,
) -> Result<Job, LineError>
    ensures job { IfOk result (IsCheck file.now certificate.now list.now until) }
    ensures refused { IfErr result (IsFilesFault file.now certificate.now list.now) }
{
    let correct = correct_in(alloc, "correct", list)?;
    if names_standard_input(file) && names_standard_input(certificate) {
        let text = String::from_str(alloc, "synchrony: only one file can be -")?;
        return Err(LineError::Refused(text));
    }
    let file = String::from_str(alloc, file)?;
    let certificate = String::from_str(alloc, certificate)?;
    let claim = Claim { correct, until };
    Ok(Job::Check(CheckJob {
        file,
        certificate,
        claim,
    }))
}

/// What a check finds out about a report.
fn help() -> &'static str {
    "\
CERT is a report of the trace in FILE for the processors of LIST, in the form
that `report` prints. Its rows certify themselves: the bounds of each row are
tested by the trace, and what stands beside them must refute each smaller one.
What is printed is one line: yes, or no with the first reason against the rows.

  NoRows              there are no rows, though there are ticks
  FirstNotOne         the first row's gst isn't 1
  NotRising K         the gst of row K isn't above the one before
  BeyondEnd K         the gst of row K is above the last tick
  NotNonIncreasing K  delta or phi of row K is above the one before
  SameAsBefore K      delta and phi of row K are those before
  BadMiss K           sent,missed of row K don't show that delta is least
  BadGap K            proc,from,to of row K don't show that phi is least
  DeltaFails K S R    delta of row K fails: what was sent at step S was not yet
                      delivered when its receiver received at step R
  PhiFails K P A B    phi of row K fails: processor P takes no step from tick
                      A to tick B

Example, at the top of the repository:
  ./synchrony report examples/one-miss.trace --correct 1,2 |
    ./synchrony check examples/one-miss.trace - --correct 1,2
prints
  yes

--until TICK checks a report that `report --until TICK` made: against the trace
as if it had ended at that tick.

Exit status:
  0  the verdict is yes, or this text was asked for
  1  the verdict is no
  2  the command line is refused, LIST is no list, or it has a processor above
     the trace's number of processors; the tick of --until is none of the trace
  3  the trace is refused
  4  CERT is refused, which is no text of rows
  5  out of memory
  6  a file can't be opened or read, or the output can't be written
Faults go to standard error. Output begins once the verdict is known."
}
