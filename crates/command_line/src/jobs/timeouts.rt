//! The command `timeouts`: its words and its help text, and the job that they give.

ghost use Rattle.std.specs.Prelude.{◌≤◌, IfOk, IfErr, IfSome, option_map, codes};
ghost use Rattle.clap.specs.Words.{found_of, rows_of};
ghost use Rattle.command_options.specs.declared.TheConstants.{MAX_TURNS};
ghost use Rattle.step_trace.specs.declared.processors.TheConstants.{MAX_MEMBER};
ghost use Rattle.command_line.specs.Arguments.{IsArgument, IsCommand, number_rule, optional_number_rule};
ghost use Rattle.command_line.specs.Commands.Timeouts.{AreNamed, IsTimeouts, IsToFault, timeouts_app, timeouts_given};

use crate::jobs::Job;
use crate::jobs::arguments::{
    correct_in, file_argument, new_command, number, option_argument, optional_argument,
    optional_number, text, tick, tick_argument,
};
use crate::line_errors::LineError;
use clap::builder::ValueParser;
use clap::{Arg, ArgMatches, Command};
use command_options::{MAX_TURNS, TimeoutTable};
use std::alloc::{AllocError, Global};
use step_trace::{Correct, MAX_MEMBER};

const ABOUT: &str = "Prints how long the followers of a leader have to wait for its next message";

const FROM_HELP: &str = "The leader, a processor of the trace";

const TO_HELP: &str = "The followers: 2,3,5, or all; those to which P sends if it is left out";

const EVERY_HELP: &str = "Of each K steps of P one is a Send to the follower, from 1 to 1000000";

const POLLS_HELP: &str = "Of each M steps of the follower one is a Receive, from 1 to 1000000";

const UNTIL_HELP: &str = "Takes the trace as if it had ended at this tick";

const AT_HELP: &str = "Prints only the row that applies to this tick, for each follower";

/// The timeouts of followers, by the trace in a file.
#[derive(Debug, Drop)]
pub struct TimeoutsJob {
    /// The path of the file; `-` is standard input.
    pub file: String,
    /// Which followers are asked for, and what is known of their steps.
    pub table: TimeoutTable,
}

/// The command `timeouts`, as the command line's reader takes it.
pub fn command<'a>(alloc: Global) -> Result<Command<'a>, AllocError>
    ensures { IfOk result (IsCommand timeouts_app) }
{
    let arguments = vec![in alloc;
        file_argument(alloc),
        from_argument(alloc),
        optional_argument(alloc, "to", "LIST", TO_HELP),
        turns_argument(alloc, "every", "K", EVERY_HELP),
        turns_argument(alloc, "polls", "M", POLLS_HELP),
        tick_argument(alloc, "until", UNTIL_HELP),
        tick_argument(alloc, "at", AT_HELP),
    ]?;
    new_command(alloc, "timeouts", ABOUT, help(), arguments)
}

/// The option --from P.
fn from_argument<'a>(alloc: Global) -> Arg<'a>
    ensures { IsArgument (number_rule (codes "from") 1 MAX_MEMBER) result }
{
    option_argument(alloc, "from", "P", FROM_HELP).value_parser(ValueParser::unsigned(
        1, MAX_MEMBER,
    ))
}

/// An option `--NAME K` for a number of steps, which may be left out.
fn turns_argument<'a>(alloc: Global, name: &'a str, value_name: &'a str, help: &'a str) -> Arg<'a>
    ensures { IsArgument (optional_number_rule name.entry.now 1 MAX_TURNS) result }
{
    optional_argument(alloc, name, value_name, help).value_parser(ValueParser::unsigned(
        1, MAX_TURNS,
    ))
}

/// The job that the words after `timeouts` ask for; None if one is missing.
///
/// Refuses a list that isn't one. Memory may come instead.
pub fn job(alloc: Global, found: &ArgMatches<'_>) -> Option<Result<Job, LineError>>
    ensures { timeouts_given (rows_of (found_of found.now)) result }
{
    let file = text(found, "file")?;
    let list = text(found, "to");
    let numbers = TimeoutNumbers {
        from: number(found, "from", 1, MAX_MEMBER)?,
        every: optional_number(found, "every", 1, MAX_TURNS)?,
        polls: optional_number(found, "polls", 1, MAX_TURNS)?,
        until: tick(found, "until")?,
        at: tick(found, "at")?,
    };
    Some(timeouts(alloc, file, list, numbers))
}

/// The numbers among the words after `timeouts`.
#[derive(Clone, Copy)]
struct TimeoutNumbers {
    from: u64,
    every: Option<u64>,
    polls: Option<u64>,
    until: Option<u64>,
    at: Option<u64>,
}

/// The job of a table with these words.
fn timeouts(
    alloc: Global,
    file: &str,
    list: Option<&str>,
    numbers: TimeoutNumbers,
) -> Result<Job, LineError>
    requires low { 1 ≤ numbers.from }
    requires high { numbers.from ≤ MAX_MEMBER }
    requires few_every { IfSome numbers.every (λ k. k ≤ MAX_TURNS) }
    requires few_polls { IfSome numbers.polls (λ m. m ≤ MAX_TURNS) }
    ensures job { IfOk result
        (IsTimeouts file.now numbers.from (option_map (λ list. list.now) list.entry)
        numbers.every numbers.polls numbers.until numbers.at) }
    ensures refused { IfErr result (IsToFault (option_map (λ list. list.now) list.entry)) }
{
    let to = named(alloc, list)?;
    let file = String::from_str(alloc, file)?;
    let TimeoutNumbers {
        from,
        every,
        polls,
        until,
        at,
    } = numbers;
    let table = TimeoutTable {
        from,
        to,
        every,
        polls,
        until,
        at,
    };
    Ok(Job::Timeouts(TimeoutsJob { file, table }))
}

/// The followers that a list names, if there is one.
fn named(alloc: Global, list: Option<&str>) -> Result<Option<Correct>, LineError>
    ensures named { IfOk result (AreNamed (option_map (λ list. list.now) list.entry)) }
    ensures refused { IfErr result (IsToFault (option_map (λ list. list.now) list.entry)) }
{
    match list {
        Some(list) => Ok(Some(correct_in(alloc, "to", list)?)),
        None => Ok(None),
    }
}

/// What the rows of the table mean, and which number to take.
fn help() -> &'static str {
    "\
A follower waits for its leader's next message. For how long, before it may say
that the leader has stopped? For each follower and each row of the report of the
two alone, from tick gst on:

  heartbeat  each so many ticks in a row hold a Send of P to the follower
  poll       each so many ticks in a row hold a Receive of the follower
  timeout    heartbeat + poll + delta - 2: in every run that keeps heartbeat,
             poll and delta, nobody waits so long in vain
  delay      each message of P is taken within so many ticks of its Send
  quick      heartbeat + delay - 1: the same in every run that keeps heartbeat
             and delay; it is at most timeout
  least      the least number of ticks that would have served in this trace
  tried      after how many ticks the trace shows that timeout is enough

heartbeat, poll and delay are the least numbers that this trace has from tick gst
on, and phi is that of the report. Take a row with a large tried: of a row with 0
the trace says nothing. Take quick if the follower receives whenever a message
comes; take timeout if it only polls, or if you know its poll and delta but not
its delay. least is no timeout: it holds for this trace alone.

Where the program is known, its steps give a floor. --every K: of each K steps of
P one is a Send to the follower, so heartbeat is at least K * phi. --polls M: of
each M steps of the follower one is a Receive, so poll is at least M * phi. A
heartbeat above K * phi says that the trace refutes these ticks.

The set of correct processors is P and the follower, for each follower of LIST,
or of all to which P sends. A tick of --until or --at is as `report` has it.

Example, at the top of the repository:
  ./synchrony timeouts examples/heartbeats.trace --from 1 --to 2 --at 1
prints
  follower,gst,delta,phi,heartbeat,poll,timeout,delay,quick,least,tried
  2,1,2,2,7,4,11,4,10,9,19

Exit status:
  0  the table is printed, or this text
  2  the command line is refused, LIST is no list; P is above the trace's number
     of processors, or else a follower is; the tick of --until is none of the
     trace, or that of --at none of the ticks that count
  3  the trace is refused
  5  out of memory
  6  FILE can't be opened or read, or the output can't be written
Faults go to standard error. Output begins once all of it is known."
}
