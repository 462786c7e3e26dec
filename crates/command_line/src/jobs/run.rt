//! The command `run`: its words and its help text, and the job that they give.

ghost use Rattle.std.specs.Prelude.{◌≡◌, ◌↔◌, ◌*◌, ◌<◌, ◌≤◌, Ok, Some, IfOk, IfErr, IfSome, IsTrue, codes, option_map};
ghost use Rattle.clap.specs.Words.{found_of, rows_of};
ghost use Rattle.command_options.specs.Paces.{patience_of};
ghost use Rattle.step_trace.specs.declared.configurations.TheConstants.{MAX_PROCESSORS};
ghost use Rattle.step_trace.specs.declared.traces.TheConstants.{MAX_STEPS};
ghost use Rattle.command_line.specs.declared.jobs.run.TheConstants.{MAX_PATIENCE};
ghost use Rattle.command_line.specs.Arguments.{IsArgument, IsCommand, number_rule, optional_number_rule};
ghost use Rattle.command_line.specs.Commands.Run.{run_app, run_given};
ghost use Rattle.command_line.specs.RunJobs.{AreListed, IsConfigFault, IsConfigOf, IsEndFault, IsFollowFault};
ghost use Rattle.command_line.specs.RunJobs.{IsFollowed, IsLimitFault, IsPaceFault, IsRefusedIn, IsRunFault, IsRunJob};
ghost use Rattle.command_line.specs.RunJobs.{TellsConfig, end_of, pace_of, usual_patience};

use crate::jobs::Job;
use crate::jobs::arguments::{
    correct_in, new_command, number, option_argument, optional_argument, optional_number, text,
};
use crate::jobs::value_lists::read_values;
use crate::line_errors::LineError;
use clap::builder::ValueParser;
use clap::{Arg, ArgMatches, Command};
use command_options::{Pace, RunEnd, RunOptions};
use std::alloc::{AllocError, Global};
use step_trace::{Config, ConfigError, Correct, MAX_PROCESSORS, MAX_STEPS};

const ABOUT: &str = "Runs the agreement algorithm and prints the trace of its steps";

const NODES_HELP: &str = "The number of processors, from 2 to 64";

const FAULTS_HELP: &str = "How many may be faulty; 2 * T + 1 is at most N";

const VALUES_HELP: &str = "Their initial values, with one comma between each two";

const PACE_HELP: &str = "When rounds end: heard-out or patience";

const PATIENCE_HELP: &str = "How many Receives a round takes at most, from 1 to 1000000";

const STEPS_HELP: &str = "The steps that each makes; N * S is at most 1000000";

const UNTIL_HELP: &str = "decided: the run ends once all have decided";

const FOLLOW_HELP: &str =
    "Tells of the bounds of these processors meanwhile: 1,2,5, or all, or none";

const BAD_NODES: &str = "synchrony: bad --nodes\nsynchrony: --nodes takes a number from 2 to 64";

const BAD_FAULTS: &str =
    "synchrony: bad --faults\nsynchrony: --faults takes a number T such that 2 * T + 1 is at most N";

const BAD_VALUES: &str =
    "synchrony: bad --values\nsynchrony: --values takes N numbers from 0 to 18446744073709551615 with one comma between each two";

const TOO_MANY_STEPS: &str = "synchrony: too many steps\nsynchrony: N * S is at most 1000000";

const BAD_PACE: &str = "synchrony: bad --pace\nsynchrony: --pace takes heard-out or patience";

const NO_PATIENCE: &str =
    "synchrony: bad --patience\nsynchrony: --pace patience takes --patience P too";

const BAD_END: &str = "synchrony: bad --until\nsynchrony: --until takes decided";

const NEEDS_HEARD_OUT: &str =
    "synchrony: bad --until\nsynchrony: --until decided takes --pace heard-out too";

/// The greatest patience.
const MAX_PATIENCE: u64 = 1_000_000;

/// The command `run`, as the command line's reader takes it.
pub fn command<'a>(alloc: Global) -> Result<Command<'a>, AllocError>
    ensures { IfOk result (IsCommand run_app) }
{
    let arguments = vec![in alloc;
        number_option(alloc, "nodes", "N", NODES_HELP, 0, u64::MAX),
        number_option(alloc, "faults", "T", FAULTS_HELP, 0, u64::MAX),
        option_argument(alloc, "values", "V1,..,VN", VALUES_HELP),
        optional_argument(alloc, "pace", "NAME", PACE_HELP),
        patience_option(alloc),
        number_option(alloc, "steps", "S", STEPS_HELP, 0, MAX_STEPS as u64),
        optional_argument(alloc, "until", "END", UNTIL_HELP),
        optional_argument(alloc, "follow", "LIST", FOLLOW_HELP),
    ]?;
    new_command(alloc, "run", ABOUT, help(), arguments)
}

/// A required option `--NAME VALUE`, whose value is a number within these bounds.
pub(super) fn number_option<'a>(
    alloc: Global,
    name: &'a str,
    value_name: &'a str,
    help: &'a str,
    least: u64,
    most: u64,
) -> Arg<'a>
    ensures { IsArgument (number_rule name.entry.now least most) result }
{
    option_argument(alloc, name, value_name, help).value_parser(ValueParser::unsigned(least, most))
}

/// The option --patience P, which may be left out.
fn patience_option<'a>(alloc: Global) -> Arg<'a>
    ensures { IsArgument (optional_number_rule (codes "patience") 1 MAX_PATIENCE) result }
{
    optional_argument(alloc, "patience", "P", PATIENCE_HELP).value_parser(ValueParser::unsigned(
        1,
        MAX_PATIENCE,
    ))
}

/// The job that the words after `run` ask for; None if one is missing.
///
/// Refuses, in this order:
/// - a list of processors that isn't one;
/// - a pace that isn't one, or that needs a patience;
/// - an end that isn't one, or that its pace can't have;
/// - a number of processors outside its limits;
/// - too many that may be faulty;
/// - values that aren't one for each processor;
/// - more than `MAX_STEPS` steps of all processors together.
///
/// Memory may come instead.
pub fn job(alloc: Global, found: &ArgMatches<'_>) -> Option<Result<Job, LineError>>
    ensures { run_given (rows_of (found_of found.now)) result }
{
    let words = RunWords {
        n: number(found, "nodes", 0, u64::MAX)?,
        t: number(found, "faults", 0, u64::MAX)?,
        values: text(found, "values")?,
        pace: text(found, "pace"),
        patience: optional_number(found, "patience", 1, MAX_PATIENCE)?,
        steps: number(found, "steps", 0, MAX_STEPS as u64)?,
        until: text(found, "until"),
        follow: text(found, "follow"),
    };
    Some(run(alloc, words))
}

/// The words after `run`.
#[derive(Clone, Copy)]
struct RunWords<'a> {
    n: u64,
    t: u64,
    values: &'a str,
    pace: Option<&'a str>,
    patience: Option<u64>,
    /// How many steps each processor makes.
    steps: u64,
    until: Option<&'a str>,
    follow: Option<&'a str>,
}

/// The job of a run with these words.
fn run(alloc: Global, words: RunWords<'_>) -> Result<Job, LineError>
    requires patient { IfSome words.patience (λ p. 1 ≤ p) }
    ensures job { IfOk result
        (IsRunJob words.entry.n words.entry.t words.entry.values.now
        (option_map (λ text. text.now) words.entry.pace) words.entry.patience words.entry.steps
        (option_map (λ text. text.now) words.entry.until)
        (option_map (λ list. list.now) words.entry.follow)) }
    ensures refused { IfErr result
        (IsRunFault words.entry.n words.entry.t words.entry.values.now
        (option_map (λ text. text.now) words.entry.pace) words.entry.patience words.entry.steps
        (option_map (λ text. text.now) words.entry.until)
        (option_map (λ list. list.now) words.entry.follow)) }
{
    let follow = followed(alloc, words.follow)?;
    let pace = paced(alloc, most_patience(words.n), words.pace, words.patience)?;
    let end = ended(alloc, pace, words.until)?;
    let config = limited(alloc, words.n, words.t, words.values, words.steps)?;
    Ok(Job::Run(RunOptions {
        config,
        pace,
        end,
        steps: words.steps,
        follow,
    }))
}

/// The processors for which a run is followed, if there is a list of them.
fn followed(alloc: Global, list: Option<&str>) -> Result<Option<Correct>, LineError>
    ensures named { IfOk result (IsFollowed (option_map (λ text. text.now) list.entry)) }
    ensures refused { IfErr result (IsFollowFault (option_map (λ text. text.now) list.entry)) }
{
    match list {
        Some(list) => Ok(Some(correct_in(alloc, "follow", list)?)),
        None => Ok(None),
    }
}

/// The usual patience of so many processors. (Of more than there may be, which are refused, it is that of the most.)
fn most_patience(n: u64) -> u64
    ensures { n ≤ MAX_PROCESSORS → result ≡ usual_patience n }
{
    4 * n.min(MAX_PROCESSORS)
}

/// The pace that a name and a patience ask for; `usual` is the patience of "heard out" if none is given.
fn paced(
    alloc: Global,
    usual: u64,
    name: Option<&str>,
    patience: Option<u64>,
) -> Result<Pace, LineError>
    requires patient { IfSome patience (λ p. 1 ≤ p) }
    ensures patient { 1 ≤ usual → IfOk result (λ pace. 1 ≤ patience_of pace) }
    ensures pace { IfOk result
        (λ pace. pace_of usual (option_map (λ text. text.now) name.entry) patience ≡ Ok pace) }
    ensures refused { IfErr result
        (IsPaceFault usual (option_map (λ text. text.now) name.entry) patience) }
{
    match name {
        Some(name) => named_pace(alloc, usual, name, patience),
        None => match patience {
            Some(patience) => Ok(Pace::Patience(patience)),
            None => Ok(Pace::HeardOut(usual)),
        },
    }
}

/// The pace of this name, with this patience.
fn named_pace(
    alloc: Global,
    usual: u64,
    name: &str,
    patience: Option<u64>,
) -> Result<Pace, LineError>
    requires patient { IfSome patience (λ p. 1 ≤ p) }
    ensures patient { 1 ≤ usual → IfOk result (λ pace. 1 ≤ patience_of pace) }
    ensures pace { IfOk result (λ pace. pace_of usual (Some name.now) patience ≡ Ok pace) }
    ensures refused { IfErr result (IsPaceFault usual (Some name.now) patience) }
{
    match name {
        "heard-out" => Ok(Pace::HeardOut(patience.unwrap_or(usual))),
        "patience" => match patience {
            Some(patience) => Ok(Pace::Patience(patience)),
            None => Err(refused_in(alloc, NO_PATIENCE)?),
        },
        _ => Err(refused_in(alloc, BAD_PACE)?),
    }
}

/// The end that a run of this pace is to have: with its steps, or with the decisions if that is asked for.
fn ended(alloc: Global, pace: Pace, until: Option<&str>) -> Result<RunEnd, LineError>
    ensures end { IfOk result
        (λ end. end_of pace (option_map (λ text. text.now) until.entry) ≡ Ok end) }
    ensures refused { IfErr result (IsEndFault pace (option_map (λ text. text.now) until.entry)) }
{
    match until {
        None => Ok(RunEnd::Steps),
        Some(name) => named_end(alloc, pace, name),
    }
}

/// The end of this name.
fn named_end(alloc: Global, pace: Pace, name: &str) -> Result<RunEnd, LineError>
    ensures end { IfOk result (λ end. end_of pace (Some name.now) ≡ Ok end) }
    ensures refused { IfErr result (IsEndFault pace (Some name.now)) }
{
    match name {
        "decided" => match pace {
            Pace::HeardOut(_) => Ok(RunEnd::Decided),
            Pace::Patience(_) => Err(refused_in(alloc, NEEDS_HEARD_OUT)?),
        },
        _ => Err(refused_in(alloc, BAD_END)?),
    }
}

/// The refusal in these words.
pub(super) fn refused_in(alloc: Global, words: &str) -> Result<LineError, AllocError>
    ensures { IfOk result (IsRefusedIn words.now) }
{
    Ok(LineError::Refused(String::from_str(alloc, words)?))
}

/// The configuration of these numbers and of the values that a text lists, whose processors may make so many
/// steps each.
fn limited(alloc: Global, n: u64, t: u64, list: &str, steps: u64) -> Result<Config, LineError>
    ensures config { IfOk result (IsConfigOf n t list.now) }
    ensures room { IfOk result (λ c. c.n * steps ≤ MAX_STEPS) }
    ensures refused { IfErr result (IsLimitFault n t list.now steps) }
{
    let config = configuration(alloc, n, t, list)?;
    if is_too_long(n, steps) {
        let text = String::from_str(alloc, TOO_MANY_STEPS)?;
        return Err(LineError::Refused(text));
    }
    Ok(config)
}

/// The configuration of these numbers and of the values that a text lists.
pub(super) fn configuration(alloc: Global, n: u64, t: u64, list: &str) -> Result<Config, LineError>
    ensures config { IfOk result (IsConfigOf n t list.now) }
    ensures refused { IfErr result (IsConfigFault n t list.now) }
{
    let values = listed(alloc, list)?;
    match Config::new(n, t, values) {
        Ok(config) => Ok(config),
        Err(why) => Err(config_fault(alloc, why)?),
    }
}

/// The values that a text lists, or none if it is no list.
fn listed(alloc: Global, list: &str) -> Result<Vec<u64>, AllocError>
    ensures { IfOk result (λ values. AreListed list.now values.items) }
{
    match read_values(alloc, list)? {
        Some(values) => Ok(values),
        None => Ok(Vec::new(alloc)),
    }
}

/// The fault that a reason against a configuration is.
fn config_fault(alloc: Global, why: ConfigError) -> Result<LineError, AllocError>
    ensures { IfOk result (TellsConfig why) }
{
    let words = match why {
        ConfigError::BadSize => BAD_NODES,
        ConfigError::BadFaults => BAD_FAULTS,
        ConfigError::BadInit => BAD_VALUES,
    };
    Ok(LineError::Refused(String::from_str(alloc, words)?))
}

/// Whether `n` processors that make so many steps each make more than `MAX_STEPS`.
fn is_too_long(n: u64, steps: u64) -> bool
    ensures { IsTrue result ↔ (MAX_STEPS < n * steps) }
{
    match n.checked_mul(steps) {
        Some(all) => all > MAX_STEPS as u64,
        None => true,
    }
}

/// How the algorithm is run, and what is printed of it.
fn help() -> &'static str {
    "\
Each processor is a thread. While it has something to send in its round it
sends; otherwise it receives all that waits for it. The pace says which Receive
ends the round:
  heard-out  the first by which all has been heard that the round can bring, or
             something of a round more than 4 later; or else the P-th. P is
             4 * N without --patience. A processor of which nothing comes in a
             phase, 4 rounds, isn't waited for again until something does. A
             thread that has nothing to do sleeps until a message comes.
  patience   the P-th of the round, whatever was heard. Threads step in bursts,
             so a round often ends before a message of it comes.
Without --pace it is heard-out, or patience if --patience is given. Each makes
S steps, in whatever order the threads run. With --until decided, which takes the
pace heard-out, the run ends once all have decided, and S is how many each makes
at most. The trace of all steps is printed as `report` and `replay` read it. The
values are numbers of 64 bits. Then standard error has a line that says who
decided, as
  synchrony: 2 of 3 processors decided; 3 decided 7 in tick 31; 1 decided 7 in tick 36

With --follow LIST, standard error shows meanwhile how synchronous the threads
are so far, with the processors of LIST as the correct ones: in a line when at
least a twentieth of all steps are new, and in one at the end. The line
  synchrony: tick 9000: delta 5, phi 9 from tick 1; delta 2, phi 4 from tick 4000
has the least bounds that hold from tick 1 to tick 9000, and those that hold
from 5000 ticks before it, or from tick 1 if there are no more. If processors
decided after the line before it, one more line says so, as that of the end
does: it counts all that decided up to tick 9000, and names those that no line
named before. What is printed, and the exit status, are as without it.

Examples, at the top of the repository:
  ./synchrony run --nodes 3 --faults 1 --values 5,7,7 --patience 1 --steps 0
prints
  dls-trace,1,3,1
  init,5,7,7
  end,0
and standard error says that 0 of 3 processors decided. Whether the processors
decide depends on the order of their steps. By heard-out they mostly do:
  ./synchrony run --nodes 3 --faults 1 --values 5,7,7 --steps 2000 \\
    --until decided >decided.trace

Exit status:
  0  the trace is printed, or this text
  2  the command line is refused, or a number, a value or a pace in it; LIST is
     no list, or it has a processor above N
  5  out of memory
  6  the output can't be written
  7  the threads' steps make no run, which is a fault of this program
  8  a thread wasn't started or was held
Faults go to standard error. Output begins once all of it is known."
}
