//! The command `simulate`: its words and its help text, and the job that they give.

ghost use Rattle.std.specs.Prelude.{◌≡◌, ◌≤◌, ◌↔◌, All, None, Some, IfErr, IfOk};
ghost use Rattle.std.specs.Prelude.{IfSome, IsTrue, OnOk, length, option_map};
ghost use Rattle.clap.specs.Words.{found_of, rows_of};
ghost use Rattle.step_trace.specs.Configurations.{IsProc};
ghost use Rattle.step_trace.specs.declared.traces.TheConstants.{MAX_STEPS};
ghost use Rattle.command_options.specs.declared.simulations.TheConstants.{MAX_BOUND};
ghost use Rattle.command_line.specs.Arguments.{IsArgument, IsCommand, optional_number_rule};
ghost use Rattle.command_options.specs.Simulations.{live};
ghost use Rattle.command_line.specs.Commands.Simulate.{AreFew, AreNamed, AreOfEach, AreStated, IsBoundsFault};
ghost use Rattle.command_line.specs.Commands.Simulate.{IsCrashFault, IsCrashListFault, IsScheduleFault, IsSimulation};
ghost use Rattle.command_line.specs.Commands.Simulate.{IsSimulationFault, bounds_refusal, schedule_of, simulate_app};
ghost use Rattle.command_line.specs.Commands.Simulate.{simulate_given};

use crate::jobs::Job;
use crate::jobs::arguments::{
    new_command, number, option_argument, optional_argument, optional_number, text,
};
use crate::jobs::crash_lists::{live_count, read_crashes};
use crate::jobs::run::{configuration, number_option, refused_in};
use crate::line_errors::LineError;
use clap::builder::ValueParser;
use clap::{Arg, ArgMatches, Command};
use command_options::{Crash, MAX_BOUND, Schedule, SimulationOptions, StatedBounds};
use std::alloc::{AllocError, Global};
use step_trace::{Config, MAX_STEPS};

const ABOUT: &str = "Simulates a run of the agreement algorithm, and prints its trace";

const NODES_HELP: &str = "The number of processors, from 2 to 64";

const FAULTS_HELP: &str = "How many may be faulty; 2 * T + 1 is at most N";

const VALUES_HELP: &str = "Their initial values, with one comma between each two";

const PATIENCE_HELP: &str = "How many Receives a round takes at most, from 1 to 1000000";

const STEPS_HELP: &str = "The steps of the run, at most 1000000";

const SEED_HELP: &str = "The seed: the same words print the same trace";

const SCHEDULE_HELP: &str = "Who is named for each step: turns, random or bursts";

const GST_HELP: &str = "The last tick before the bounds hold, which they do from G + 1 on";

const DELTA_HELP: &str = "The communication bound, in ticks";

const PHI_HELP: &str = "The processor bound, in ticks";

const CRASH_HELP: &str = "Who crashes, each with its last tick";

const LOSS_HELP: &str = "How many of a hundred messages are lost";

const BAD_SCHEDULE: &str =
    "synchrony: bad --schedule\nsynchrony: --schedule takes turns, random or bursts";

const BAD_BOUNDS: &str =
    "synchrony: bad --gst\nsynchrony: --gst, --delta and --phi are given together or not at all";

const BAD_PHI: &str =
    "synchrony: bad --phi\nsynchrony: one processor steps in each tick, so --phi is at least the number of those that don't crash";

const TOO_MANY_CRASHES: &str =
    "synchrony: bad --crash\nsynchrony: more processors crash than may be faulty";

const BAD_CRASH: &str =
    "synchrony: bad --crash\nsynchrony: --crash takes P@TICK with one comma between each two, each P once and from 1 to N";

/// The greatest patience.
const MAX_PATIENCE: u64 = 1_000_000;

/// The command `simulate`, as the command line's reader takes it.
pub fn command<'a>(alloc: Global) -> Result<Command<'a>, AllocError>
    ensures { IfOk result (IsCommand simulate_app) }
{
    let arguments = vec![in alloc;
        number_option(alloc, "nodes", "N", NODES_HELP, 0, u64::MAX),
        number_option(alloc, "faults", "T", FAULTS_HELP, 0, u64::MAX),
        option_argument(alloc, "values", "V1,..,VN", VALUES_HELP),
        number_option(alloc, "patience", "P", PATIENCE_HELP, 1, MAX_PATIENCE),
        number_option(alloc, "steps", "S", STEPS_HELP, 0, MAX_STEPS as u64),
        number_option(alloc, "seed", "K", SEED_HELP, 0, u64::MAX),
        optional_argument(alloc, "schedule", "NAME", SCHEDULE_HELP),
        limited_option(alloc, "gst", "G", GST_HELP, 0, MAX_BOUND),
        limited_option(alloc, "delta", "D", DELTA_HELP, 1, MAX_BOUND),
        limited_option(alloc, "phi", "F", PHI_HELP, 1, MAX_BOUND),
        optional_argument(alloc, "crash", "P@TICK,..", CRASH_HELP),
        limited_option(alloc, "loss", "PERCENT", LOSS_HELP, 0, 100),
    ]?;
    new_command(alloc, "simulate", ABOUT, help(), arguments)
}

/// An option `--NAME VALUE`, which may be left out, whose value is a number within these bounds.
fn limited_option<'a>(
    alloc: Global,
    name: &'a str,
    value_name: &'a str,
    help: &'a str,
    least: u64,
    most: u64,
) -> Arg<'a>
    ensures { IsArgument (optional_number_rule name.entry.now least most) result }
{
    optional_argument(alloc, name, value_name, help).value_parser(ValueParser::unsigned(
        least, most,
    ))
}

/// The numbers that are asked for.
#[derive(Clone, Copy)]
pub(crate) struct SimulateNumbers {
    n: u64,
    t: u64,
    patience: u64,
    steps: u64,
    seed: u64,
    gst: Option<u64>,
    delta: Option<u64>,
    phi: Option<u64>,
    loss: Option<u64>,
}

/// The job that the words after `simulate` ask for; None if one is missing.
///
/// Refuses, in this order:
/// - a schedule that isn't one;
/// - a list of crashes that isn't one;
/// - a number of processors outside its limits;
/// - too many that may be faulty;
/// - values that aren't one for each processor;
/// - one or two of the three bounds;
/// - a processor bound below the number of live processors;
/// - more crashes than may be faulty;
/// - a crash of no processor, or two of one.
///
/// Memory may come instead.
pub fn job(alloc: Global, found: &ArgMatches<'_>) -> Option<Result<Job, LineError>>
    ensures { simulate_given (rows_of (found_of found.now)) result }
{
    let values = text(found, "values")?;
    let numbers = SimulateNumbers {
        n: number(found, "nodes", 0, u64::MAX)?,
        t: number(found, "faults", 0, u64::MAX)?,
        patience: number(found, "patience", 1, MAX_PATIENCE)?,
        steps: number(found, "steps", 0, MAX_STEPS as u64)?,
        seed: number(found, "seed", 0, u64::MAX)?,
        gst: optional_number(found, "gst", 0, MAX_BOUND)?,
        delta: optional_number(found, "delta", 1, MAX_BOUND)?,
        phi: optional_number(found, "phi", 1, MAX_BOUND)?,
        loss: optional_number(found, "loss", 0, 100)?,
    };
    let schedule = text(found, "schedule");
    let crash = text(found, "crash");
    Some(simulation(alloc, numbers, values, schedule, crash))
}

/// The job of a simulation with these words.
fn simulation(
    alloc: Global,
    numbers: SimulateNumbers,
    values: &str,
    schedule: Option<&str>,
    crash: Option<&str>,
) -> Result<Job, LineError>
    requires room { numbers.steps ≤ MAX_STEPS }
    requires early { IfSome numbers.gst (λ g. g ≤ MAX_BOUND) }
    requires some { IfSome numbers.delta (λ d. 1 ≤ d) }
    requires soon { IfSome numbers.delta (λ d. d ≤ MAX_BOUND) }
    requires often { IfSome numbers.phi (λ f. f ≤ MAX_BOUND) }
    ensures job { IfOk result
        (IsSimulation numbers values.now (option_map (λ text. text.now) schedule.entry)
        (option_map (λ text. text.now) crash.entry)) }
    ensures refused { IfErr result
        (IsSimulationFault numbers values.now (option_map (λ text. text.now) schedule.entry)
        (option_map (λ text. text.now) crash.entry)) }
{
    let schedule = scheduled(alloc, schedule)?;
    let crashes = crashed(alloc, crash)?;
    let config = configuration(alloc, numbers.n, numbers.t, values)?;
    let live = live_count(&config, &crashes);
    let bounds = stated(alloc, numbers.gst, numbers.delta, numbers.phi, live)?;
    are_possible(alloc, &config, &crashes, live)?;
    Ok(Job::Simulate(SimulationOptions {
        config,
        patience: numbers.patience,
        steps: numbers.steps,
        seed: numbers.seed,
        schedule,
        bounds,
        crashes,
        loss: numbers.loss.unwrap_or(0),
    }))
}

/// The schedule of this name; without a name it is random.
fn scheduled(alloc: Global, name: Option<&str>) -> Result<Schedule, LineError>
    ensures schedule { IfOk result
        (λ s. schedule_of (option_map (λ text. text.now) name.entry) ≡ Some s) }
    ensures refused { IfErr result (IsScheduleFault (option_map (λ text. text.now) name.entry)) }
{
    match name {
        Some(name) => named_schedule(alloc, name),
        None => Ok(Schedule::Random),
    }
}

/// The schedule of this name.
fn named_schedule(alloc: Global, name: &str) -> Result<Schedule, LineError>
    ensures schedule { IfOk result (λ s. schedule_of (Some name.now) ≡ Some s) }
    ensures refused { IfErr result (IsScheduleFault (Some name.now)) }
{
    match name {
        "turns" => Ok(Schedule::Turns),
        "random" => Ok(Schedule::Random),
        "bursts" => Ok(Schedule::Bursts),
        _ => Err(refused_in(alloc, BAD_SCHEDULE)?),
    }
}

/// The crashes that a text lists; none without a text.
fn crashed(alloc: Global, list: Option<&str>) -> Result<Vec<Crash>, LineError>
    ensures crashes { IfOk result
        (λ crashes. AreNamed (option_map (λ text. text.now) list.entry) crashes.items) }
    ensures refused { IfErr result (IsCrashListFault (option_map (λ text. text.now) list.entry)) }
{
    match list {
        Some(list) => match read_crashes(alloc, list)? {
            Some(crashes) => Ok(crashes),
            None => Err(refused_in(alloc, BAD_CRASH)?),
        },
        None => Ok(Vec::new(alloc)),
    }
}

/// The bounds that these numbers state, if so many processors are live.
fn stated(
    alloc: Global,
    gst: Option<u64>,
    delta: Option<u64>,
    phi: Option<u64>,
    live: u64,
) -> Result<Option<StatedBounds>, LineError>
    requires early { IfSome gst (λ g. g ≤ MAX_BOUND) }
    requires some { IfSome delta (λ d. 1 ≤ d) }
    requires soon { IfSome delta (λ d. d ≤ MAX_BOUND) }
    requires often { IfSome phi (λ f. f ≤ MAX_BOUND) }
    ensures bounds { IfOk result (AreStated gst delta phi) }
    ensures kept { IfOk result (λ bounds. IfSome bounds (λ b. live ≤ b.phi)) }
    ensures none_refused { OnOk result (bounds_refusal live gst delta phi ≡ None) }
    ensures refused { IfErr result (IsBoundsFault live gst delta phi) }
{
    match (gst, delta, phi) {
        (Some(gst), Some(delta), Some(phi)) => {
            if phi < live {
                return Err(refused_in(alloc, BAD_PHI)?);
            }
            Ok(Some(StatedBounds { gst, delta, phi }))
        }
        (None, None, None) => Ok(None),
        _ => Err(refused_in(alloc, BAD_BOUNDS)?),
    }
}

/// Tests that at most as many processors crash as may be faulty, and that each crash is one of a processor, no two of
/// one. `lives` is the number of live processors.
fn are_possible(
    alloc: Global,
    config: &Config,
    crashes: &[Crash],
    lives: u64,
) -> Result<(), LineError>
    requires counted { lives ≡ length (live config.now.n crashes.now) }
    requires few { lives ≤ config.now.n }
    ensures most { OnOk result (AreFew config.now crashes.now) }
    ensures each { OnOk result (AreOfEach config.now crashes.now) }
    ensures refused { IfErr result (IsCrashFault config.now crashes.now) }
{
    if lives < config.n() - config.t() {
        return Err(refused_in(alloc, TOO_MANY_CRASHES)?);
    }
    if !are_processors(config, crashes) || crashes.len() as u64 != config.n() - lives {
        return Err(refused_in(alloc, BAD_CRASH)?);
    }
    Ok(())
}

/// Whether each crash is one of a processor.
fn are_processors(config: &Config, crashes: &[Crash]) -> bool
    ensures { IsTrue result ↔ All (λ crash. IsProc config.now crash.proc) crashes.now }
{
    crashes.iter().all(|crash| config.is_processor(crash.proc))
}

/// How a run is simulated, and what is printed of it.
fn help() -> &'static str {
    "\
One step is made in each tick, by one processor. While it has something to send
in its round it sends; otherwise it receives all that is due for it. A Receive
ends the round as by `run --pace heard-out`, of which P is the patience. All
that is drawn follows from the seed, so the same words print the same trace.

The schedule names who steps:
  turns    each processor, one after the other
  random   any processor, drawn for each step; this one without --schedule
  bursts   one processor for 1 to 10 * N steps, then another one
With --gst G --delta D --phi F, the processors that don't crash keep these bounds
from tick G + 1 on: `report --correct LIVE --at` tells no greater ones. Where the
one that is named would keep another one from stepping in time, that one steps in
its place. A message is due in a tick that is drawn, at most D ticks after it was
sent, or after G. Without these options it is due in the next tick.

  --crash P@TICK,..  processor P makes no step after that tick; at most T crash
  --loss PERCENT     so many of a hundred messages to others are lost: of those
                     sent up to tick G, or of all without --gst
A patience of 8 * D + (4 * N + 18) * F let all live processors decide in every
run that was tried.

Standard error tells after the trace what each processor decided, and when, and
whether the run ends before the bounds hold.

Example, at the top of the repository:
  ./synchrony simulate --nodes 3 --faults 1 --values 5,7,7 --patience 244 \\
    --steps 2000 --seed 1 --gst 100 --delta 8 --phi 6 --crash 2@60

Exit status:
  0  the trace is printed, or this text
  2  the command line is refused, or a number, a list or a name in it; or F is
     below the number of processors that don't crash
  5  out of memory
  6  the output can't be written
  7  a step was refused, which is a fault of this program
Faults go to standard error. Output begins once the run is whole."
}
