//! The command `report`: its words and its help text, and the job that they give.

ghost use Rattle.std.specs.Prelude.{◌≤◌, IfOk, IfErr};
ghost use Rattle.clap.specs.Words.{found_of, rows_of};
ghost use Rattle.command_line.specs.Arguments.{IsArgument, IsCommand, IsListFault};
ghost use Rattle.command_line.specs.Commands.Report.{IsReport, report_app, report_given, workers_rule};

use crate::jobs::Job;
use crate::jobs::arguments::{
    correct_argument, correct_in, file_argument, new_command, number, optional_argument, text,
    tick, tick_argument,
};
use crate::line_errors::LineError;
use clap::builder::ValueParser;
use clap::{Arg, ArgMatches, Command};
pub use command_options::MAX_WORKERS;
use command_options::{ReportPart, Workers};
use std::alloc::{AllocError, Global};

const ABOUT: &str = "Prints the report of a trace, for a set of correct processors";

const WORKERS_HELP: &str = "How many workers read and analyse it, from 1 to 64";

const UNTIL_HELP: &str = "Reports the trace as if it had ended at this tick";

const AT_HELP: &str = "Prints only the row that applies to this tick";

/// The report of the trace in a file, or a part of it.
#[derive(Debug, Drop)]
pub struct ReportJob {
    /// The path of the file; `-` is standard input.
    pub file: String,
    /// Which part of the report is asked for.
    pub part: ReportPart,
    /// How many workers a whole report has.
    pub workers: Workers,
}

/// The command `report`, as the command line's reader takes it.
pub fn command<'a>(alloc: Global) -> Result<Command<'a>, AllocError>
    ensures { IfOk result (IsCommand report_app) }
{
    let arguments = vec![in alloc;
        file_argument(alloc),
        correct_argument(alloc),
        workers_argument(alloc),
        tick_argument(alloc, "until", UNTIL_HELP),
        tick_argument(alloc, "at", AT_HELP),
    ]?;
    new_command(alloc, "report", ABOUT, help(), arguments)
}

/// The option --workers W.
fn workers_argument<'a>(alloc: Global) -> Arg<'a>
    ensures { IsArgument workers_rule result }
{
    optional_argument(alloc, "workers", "W", WORKERS_HELP)
        .default_value("1")
        .value_parser(ValueParser::unsigned(1, MAX_WORKERS))
}

/// The job that the words after `report` ask for; None if one is missing.
///
/// Refuses a list that isn't one. Memory may come instead.
pub fn job(alloc: Global, found: &ArgMatches<'_>) -> Option<Result<Job, LineError>>
    ensures { report_given (rows_of (found_of found.now)) result }
{
    let file = text(found, "file")?;
    let list = text(found, "correct")?;
    let workers = number(found, "workers", 1, MAX_WORKERS)?;
    let until = tick(found, "until")?;
    let at = tick(found, "at")?;
    Some(report(alloc, file, list, workers, until, at))
}

/// The job of a report with these words.
fn report(
    alloc: Global,
    file: &str,
    list: &str,
    workers: u64,
    until: Option<u64>,
    at: Option<u64>,
) -> Result<Job, LineError>
    requires some { 1 ≤ workers }
    requires few { workers ≤ MAX_WORKERS }
    ensures job { IfOk result (IsReport file.now list.now workers until at) }
    ensures refused { IfErr result (IsListFault list.now) }
{
    let correct = correct_in(alloc, "correct", list)?;
    let file = String::from_str(alloc, file)?;
    let part = ReportPart { correct, until, at };
    let workers = Workers { count: workers };
    Ok(Job::Report(ReportJob {
        file,
        part,
        workers,
    }))
}

/// How a report is asked for, and how it is read.
fn help() -> &'static str {
    "\
The report has a header and a row for each triple (gst, delta, phi) of the
front: no other triple that holds is as small in all three. gst rises from row
to row. A row applies up to the tick before the next row's gst, the last one to
the end of the trace. Ticks are real-time steps; if each holds one step, as in
version 1 of the trace text, they are the numbers of the steps.

  gst           the stabilization time: what the row says holds from tick gst
                to the end of the trace
  delta         the least communication bound: what a correct processor sends
                to a correct one in a tick x is delivered by each Receive of
                its receiver in tick x + delta or later
  phi           the least processor bound: in any phi ticks in a row, each
                correct processor takes a step
  sent,missed   why no smaller delta holds: the numbers of a Send, and of a
                Receive of its receiver by which it was not yet delivered;
                empty if delta is 1
  proc,from,to  why no smaller phi holds: processor proc takes no step from
                tick from to tick to; empty if phi is 1

Example, at the top of the repository:
  ./synchrony report examples/one-miss.trace --correct 1,2
prints
  gst,delta,phi,sent,missed,proc,from,to
  1,2,3,1,2,1,2,3
  2,1,3,,,1,2,3
  3,1,2,,,1,3,3
From tick 1 on, delta 2 and phi 3 are the least bounds: the message sent at
step 1 was not yet delivered when its receiver received at step 2, and
processor 1 takes no step from 2 to 3. From tick 2 on delta 1 holds, and from
tick 3 on phi 2.

The ticks are shared out evenly among the W threads: each summarises its share,
and the summaries are joined. The report is the same for each W, byte for byte.

--until TICK reports the trace as if it had ended at that tick, without the steps
after it. A run that stops is silent from then on, so the last ticks of a trace
show a phi that nobody should rely on. --at TICK prints the header and the one
row that applies to that tick, which begins at it or before. With both, it is a
row of the report up to the first tick. Then one thread reads the trace and
analyses it, whatever W is.
  ./synchrony report examples/one-miss.trace --correct 1,2 --at 2
prints the header and the row 2,1,3,,,1,2,3.

Exit status:
  0  the report is printed, or this text
  2  the command line is refused, LIST is no list, or it has a processor above
     the trace's number of processors; the tick of --until is none of the trace,
     or that of --at none of the ticks that are reported
  3  the trace is refused
  5  out of memory
  6  FILE can't be opened or read, or the output can't be written
  8  a thread wasn't started or was held back
Faults go to standard error. Output begins once all of it is known."
}
