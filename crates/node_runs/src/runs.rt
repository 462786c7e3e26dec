//! Runs of the agreement algorithm: a thread for each processor, and the trace of what they did together.

ghost use Rattle.std.specs.Prelude.{◌≡◌, ◌≢◌, ◌↔◌, ◌*◌, ◌≤◌, ℕ, List, Some, None, IfOk, IfErr};
ghost use Rattle.std.specs.Prelude.{OnOk, OnErr, MatchResult, IsTrue, length, ◌⊎◌};
ghost use Rattle.std.specs.Io.KnownBytes.{Appends};
ghost use Rattle.command_options.specs.Paces.{patience_of};
ghost use Rattle.step_trace.specs.declared.traces.TheConstants.{MAX_STEPS};
ghost use Rattle.step_trace.specs.Configurations.{Setup};
ghost use Rattle.locked_recorder.specs.Prefixes.{IsRunOf};
ghost use Rattle.trace_text.specs.ByteLoops.{WasFaultless};
ghost use Rattle.trace_text.specs.Faults.{inner_of, is_flushed};
ghost use Rattle.command_faults.specs.Printing.{IsWriteFault, WentOut};
ghost use Rattle.node_runs.specs.Followers.{HasFollowed, HasTold, HasToldEnd, IsLine};
ghost use Rattle.node_runs.specs.Runs.{AllDecided, HaveDone, HaveDoneAtMost, HaveEnded, IsEndedRun, IsEndedRunText};
ghost use Rattle.node_runs.specs.Runs.{IsFaultOfNodes, IsFaultOfThreads, IsUnwrittenRun, ending_of, gravity};
ghost use Rattle.node_runs.specs.Runs.{fault_of_ending};

use crate::decision_lines::decisions_text;
use crate::followers::Follower;
use crate::paces::driven;
use command_faults::{Fault, print_notes};
use command_options::{Pace, RunEnd};
use locked_recorder::{AuditError, Company, DriveError, DriveStop, RecordError, Recorder, Seat};
use std::alloc::Global;
use std::io::Write;
use std::sync::Wait;
use std::sync::atomic::{AtomicBool, Ordering};
use std::thread;
use std::thread::{JoinHandle, Threads, join_mut};
use std::time::Clock;
use step_buffers::{StepError, World};
use step_trace::{Config, Gate};
use trace_text::{Counting, write_trace};

/// How a thread ended, or all of them together.
#[derive(Clone, Copy, Debug)]
enum Ending {
    /// All its steps are made.
    Made,
    /// It wasn't started, or was held back.
    Held,
    /// Out of memory for a step.
    NoMemory,
    /// A step was refused.
    Refused,
}

/// How far a run goes.
#[derive(Clone, Copy)]
pub struct Limits {
    /// When a Receive ends a round.
    pub pace: Pace,
    /// When the run ends.
    pub end: RunEnd,
    /// How many steps each thread makes at most.
    pub steps: u64,
}

/// Runs the nodes of a configuration, a thread for each; and writes the trace of all their steps. Each thread goes by
/// the limits, and enters the gate before its first step. Nothing is written before all threads have ended.
///
/// A follower, if there is one, reports the run and each decision meanwhile, and the whole run at its end. When the
/// trace is written, the notes get a line on who decided what, and in which tick. The run is the same if these reports
/// fail.
///
/// Asks for a pace of a patience of at least 1, and for at most `MAX_STEPS` steps of all processors together. Waits for
/// the threads. Refuses, in this order: Threads if a thread wasn't started or the gate held it back; Memory; NotARun(0)
/// if a step is refused, or if what was done doesn't make up one run that has ended; Write with the number of bytes
/// that went out before.
pub fn run_nodes<R: Threads + Wait + Clock + Sync, W: Write, G: Gate, E: Write + Send, N: Write>(
    rt: &R,
    alloc: Global,
    config: &Config,
    limits: Limits,
    gate: &G,
    follower: &mut Option<Follower<E>>,
    writer: &mut Counting<W>,
    notes: &mut Counting<N>,
) -> Result<(), Fault>
    requires patient { 1 ≤ patience_of limits.pace }
    requires room { config.now.n * limits.steps ≤ MAX_STEPS }
    ensures run { OnOk result ((text : List ℕ)
        × IsEndedRunText limits.end config.now limits.steps
        (WentOut N.contents notes.old notes.new) text
        × Appends (W.contents (inner_of writer.old)) (W.contents (inner_of writer.new)) text) }
    ensures flushed { OnOk result (IsTrue (is_flushed writer.new)) }
    ensures faultless { OnOk result (WasFaultless writer.old writer.new) }
    ensures own { IfErr result IsFaultOfNodes }
    ensures part { IfErr result
        (IsUnwrittenRun (IsEndedRun limits.end config.now limits.steps)
        (W.contents (inner_of writer.old)) (W.contents (inner_of writer.new))) }
    ensures unwritten { IfErr result (IsWriteFault writer.old writer.new) }
    ensures quiet { OnErr result (notes.new ≡ notes.old) }
    ensures followed { HasFollowed E.contents config.now follower.old follower.new }
{
    let world = world_made(rt, alloc, config, limits, gate, follower)?;
    let decided = decisions_text(alloc, &world)?;
    tell_whole(alloc, &world, follower);
    write_trace(alloc, world.trace(), writer)?;
    print_notes(decided.as_str(), notes);
    Ok(())
}

/// Reports the whole run, if there is a follower. The run's own line has the decisions.
fn tell_whole<E: Write>(alloc: Global, world: &World, follower: &mut Option<Follower<E>>)
    ensures { (c : Setup) → IsRunOf c world.now.trace
        → HasToldEnd E.contents c follower.old follower.new }
{
    if let Some(follower) = follower {
        follower.tell(alloc, world.trace(), "");
    }
}

/// The World that the threads have moved.
fn world_made<R: Threads + Wait + Clock + Sync, G: Gate, E: Write + Send>(
    rt: &R,
    alloc: Global,
    config: &Config,
    limits: Limits,
    gate: &G,
    follower: &mut Option<Follower<E>>,
) -> Result<World, Fault>
    requires patient { 1 ≤ patience_of limits.pace }
    requires room { config.now.n * limits.steps ≤ MAX_STEPS }
    ensures run { IfOk result (λ world. IsEndedRun limits.end config.now limits.steps world.trace) }
    ensures own { IfErr result IsFaultOfThreads }
    ensures followed { HasFollowed E.contents config.now follower.old follower.new }
{
    let room = config.n() * limits.steps;
    let (recorder, mut seats) = Recorder::new(alloc, config.copy(alloc)?, 0, room)?;
    let company = Company::new(alloc, config.n())?;
    let ending = match follower {
        Some(follower) => drive_followed(
            rt, alloc, &recorder, &company, &mut seats, limits, gate, follower,
        ),
        None => drive_all(rt, alloc, &recorder, &company, &mut seats, limits, gate),
    };
    judged(ending)?;
    audited(alloc, recorder, &seats, limits)
}

/// Drives each seat in a thread of its own, while another thread follows; and answers the gravest ending of all. If
/// there is no thread for the follower, it follows when all have ended.
fn drive_followed<R: Threads + Wait + Clock + Sync, G: Gate, E: Write + Send>(
    rt: &R,
    alloc: Global,
    recorder: &Recorder,
    company: &Company,
    seats: &mut [Seat],
    limits: Limits,
    gate: &G,
    follower: &mut Follower<E>,
) -> Ending
    requires { 1 ≤ patience_of limits.pace }
    ensures set { follower.new.analyst.set ≡ follower.old.analyst.set }
    ensures told { HasTold (IsLine recorder.now.config follower.old.analyst.set) follower.old.told
        follower.new.told (E.contents (inner_of follower.old.writer))
        (E.contents (inner_of follower.new.writer)) }
{
    let ended = &AtomicBool::new(false);
    let (_, ending) = join_mut(
        rt,
        &mut ||
            ensures set { follower.exit.now.analyst.set ≡ follower.entry.now.analyst.set }
            ensures told { HasTold (IsLine recorder.entry.now.config follower.entry.now.analyst.set)
                follower.entry.now.told follower.exit.now.told
                (E.contents (inner_of follower.entry.now.writer))
                (E.contents (inner_of follower.exit.now.writer)) }
        { follower.follow(rt, alloc, recorder, ended) },
        &mut || -> Ending
            requires { 1 ≤ patience_of limits.pace }
        { drive_to_end(rt, alloc, recorder, company, gate, limits, ended, seats) },
    );
    ending
}

/// Drives each seat in a thread of its own, says when all have ended, and answers the gravest ending of all.
fn drive_to_end<R: Threads + Wait + Sync, G: Gate>(
    rt: &R,
    alloc: Global,
    recorder: &Recorder,
    company: &Company,
    gate: &G,
    limits: Limits,
    ended: &AtomicBool,
    seats: &mut [Seat],
) -> Ending
    requires { 1 ≤ patience_of limits.pace }
{
    let ending = drive_all(rt, alloc, recorder, company, seats, limits, gate);
    ended.store(true, Ordering::SeqCst);
    ending
}

/// Drives each seat in a thread of its own, and answers the gravest ending of all.
fn drive_all<R: Threads + Wait + Sync, G: Gate>(
    rt: &R,
    alloc: Global,
    recorder: &Recorder,
    company: &Company,
    seats: &mut [Seat],
    limits: Limits,
    gate: &G,
) -> Ending
    requires { 1 ≤ patience_of limits.pace }
{
    thread::scope(
        thread::scope_env(),
        rt,
        |scope| -> Ending
            requires { 1 ≤ patience_of limits.pace }
        {
            let Ok(mut threads) = Vec::with_capacity(alloc, seats.len()) else {
                return Ending::NoMemory;
            };
            for seat in seats.iter_mut() {
                let drive = move || -> Ending
                    requires { 1 ≤ patience_of limits.pace }
                { how_ended(driven(rt, alloc, recorder, seat, gate, company, limits)) };
                // The threads that run are joined where the scope ends.
                let Ok(started) = scope.spawn(drive) else {
                    company.rouse(rt);
                    return Ending::Held;
                };
                if threads.push(started).is_err() {
                    return Ending::NoMemory;
                }
            }
            gravest(rt, threads)
        },
    )
}

/// The gravest ending of these threads, once all have ended.
fn gravest<R: Threads>(rt: &R, threads: Vec<JoinHandle<Ending>>) -> Ending {
    let mut all = Ending::Made;
    for started in threads {
        all = graver(all, started.join(rt));
    }
    all
}

/// How a drive ended.
fn how_ended(driven: Result<u64, DriveError>) -> Ending
    ensures { MatchResult driven (λ _. result ≡ Ending.Made)
        (λ stopped. result ≡ ending_of stopped.why) }
{
    match driven {
        Ok(_) => Ending::Made,
        Err(stopped) => match stopped.why {
            DriveStop::Held => Ending::Held,
            DriveStop::Record(RecordError::Step(StepError::Memory)) => Ending::NoMemory,
            DriveStop::Record(_) => Ending::Refused,
        },
    }
}

/// The graver one of two endings.
fn graver(one: Ending, other: Ending) -> Ending
    ensures one { gravity one ≤ gravity result }
    ensures other { gravity other ≤ gravity result }
    ensures either { (result ≡ one) ⊎ (result ≡ other) }
{
    if gravity(one) < gravity(other) {
        other
    } else {
        one
    }
}

/// How grave an ending is.
fn gravity(ending: Ending) -> u64
    ensures { result ≡ gravity ending }
{
    match ending {
        Ending::Made => 0,
        Ending::Refused => 1,
        Ending::NoMemory => 2,
        Ending::Held => 3,
    }
}

/// The fault that the ending of all threads is, if any.
fn judged(ending: Ending) -> Result<(), Fault>
    ensures own { IfErr result IsFaultOfThreads }
    ensures told { MatchResult result (λ _. fault_of_ending ending ≡ None)
        (λ why. fault_of_ending ending ≡ Some why) }
{
    match ending {
        Ending::Made => Ok(()),
        Ending::Held => Err(Fault::Threads),
        Ending::NoMemory => Err(Fault::Memory),
        Ending::Refused => Err(Fault::NotARun(0, None)),
    }
}

/// The World of a recorder, if what was done from its seats makes up one run that has ended.
fn audited(
    alloc: Global,
    recorder: Recorder,
    seats: &[Seat],
    limits: Limits,
) -> Result<World, Fault>
    ensures run { IfOk result
        (λ world. IsEndedRun limits.end recorder.config limits.steps world.trace) }
    ensures own { IfErr result IsFaultOfThreads }
    ensures no_threads { IfErr result (λ why. why ≢ Fault.Threads) }
{
    let world = match recorder.into_audited(alloc, seats, &[]) {
        Ok(world) => world,
        Err(AuditError::Memory) => return Err(Fault::Memory),
        Err(_) => return Err(Fault::NotARun(0, None)),
    };
    if !have_ended(&world, seats, limits) {
        return Err(Fault::NotARun(0, None));
    }
    Ok(world)
}

/// Whether what was done from the seats is all of a run that has ended, by these limits.
fn have_ended(world: &World, seats: &[Seat], limits: Limits) -> bool
    ensures { IsTrue result → HaveEnded limits.end world.now.trace.config limits.steps
        world.now.trace.steps seats.now }
{
    let steps = limits.steps;
    match limits.end {
        RunEnd::Steps => have_done(seats, steps),
        RunEnd::Decided => {
            have_done_at_most(seats, steps) && (have_decided(world) || have_done(seats, steps))
        }
    }
}

/// Whether all processors have decided.
fn have_decided(world: &World) -> bool
    ensures { IsTrue result → AllDecided world.now.trace.config world.now.trace.steps }
{
    for p in 1..world.trace().config().n() + 1 {
        if world.decision(p).is_none() {
            return false;
        }
    }
    true
}

/// Whether so many steps were made from each seat.
fn have_done(seats: &[Seat], steps: u64) -> bool
    ensures { IsTrue result ↔ HaveDone steps seats.now }
{
    seats.iter().all(|seat| has_done(seat, steps))
}

/// Whether at most so many steps were made from each seat.
fn have_done_at_most(seats: &[Seat], steps: u64) -> bool
    ensures { IsTrue result ↔ HaveDoneAtMost steps seats.now }
{
    seats.iter().all(|seat| has_done_at_most(seat, steps))
}

/// Whether so many steps were made from a seat.
fn has_done(seat: &Seat, steps: u64) -> bool
    ensures { IsTrue result ↔ (length seat.now.done ≡ steps) }
{
    seat.done().len() as u64 == steps
}

/// Whether at most so many steps were made from a seat.
fn has_done_at_most(seat: &Seat, steps: u64) -> bool
    ensures { IsTrue result ↔ (length seat.now.done ≤ steps) }
{
    seat.done().len() as u64 <= steps
}
