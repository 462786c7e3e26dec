//! The bounds of a trace, found by several threads.

ghost use Rattle.std.specs.Prelude.{◌≡◌, ◌↔◌, ◌+◌, ◌-◌, ◌<◌, ◌≤◌, ◌⊎◌, ℕ, length};
ghost use Rattle.std.specs.Prelude.{Err, IfOk, OnOk, IfErr, IsOk};
ghost use Rattle.step_trace.specs.declared.traces.TheConstants.{MAX_TICKS};
ghost use Rattle.step_trace.specs.Ticks.{IsTrace};
ghost use Rattle.step_trace.specs.Processors.{IsWithin};
ghost use Rattle.step_trace.specs.Traces.{Recorded};
ghost use Rattle.suffix_staircase.specs.Analysis.{AreLevels};
ghost use Rattle.chunk_join.specs.declared.analyses.Share.{Share};
ghost use Rattle.chunk_join.specs.declared.analyses.AnalyseError.{AnalyseError};
ghost use Rattle.chunk_join.specs.declared.analyses.Stop.{Stop};
ghost use Rattle.chunk_join.specs.Analyses.{AreAnswered, AreBadWorkers, AreLetIn, ArePromised, IsDigestBetween};
ghost use Rattle.chunk_join.specs.Analyses.{IsHeldBack, IsOneHeld, IsShare, cut, error_of, gravity, was_let_in};

use crate::digests::Digest;
use crate::joins::Joined;
use crate::lone_worker::stairs_by_one;
use std::alloc::{AllocError, Global};
use std::snapshot::Snapshot;
use std::sync::Wait;
use std::thread;
use std::thread::{Promise, PromisedHandle, Threads};
use step_trace::{Gate, ProcSet, Trace};
use suffix_staircase::Stairs;

/// The greatest number of workers.
pub const MAX_WORKERS: u64 = 64;

/// Why a trace was not analysed. Of several causes the first in this order is reported.
#[derive(Clone, Copy, Debug, PartialEq, Eq)]
pub enum AnalyseError {
    /// The number of workers isn't from 1 to `MAX_WORKERS`.
    BadWorkers,
    /// The gate held a worker back.
    Held,
    /// A thread couldn't be started.
    Start,
    /// Out of memory.
    Memory,
}

/// Why a worker gave nothing, or all of them together.
#[derive(Clone, Copy, Debug)]
pub(crate) enum Stop {
    Held,
    Start,
    Memory,
}

/// A worker's share: the ticks `from` to `to`.
#[derive(Clone, Copy, Debug)]
struct Share {
    from: u64,
    to: u64,
}

/// What a worker promises: the digest of its share of a trace, if any, and none if the gate holds it back.
#[derive(Drop)]
struct DigestOf<G> {
    set: ProcSet,
    trace: Snapshot<Trace>,
    share: Share,
    gate: Snapshot<G>,
    worker: u64,
}

impl<G: Gate> Promise<Result<Digest, Stop>> for DigestOf<G> {
    ghost use Rattle.std.specs.Prelude.{◌-◌, IfOk};
    ghost use Rattle.chunk_join.specs.Analyses.{IsDigestBetween, was_let_in};

    ghost kept_by = { λ promise result. IfOk result
        (λ digest. IsDigestBetween promise.set promise.trace.value
        (promise.share.from - 1) promise.share.to digest)
        × G.lets promise.gate.value promise.worker (was_let_in result) };
}

/// The level of each tick of a trace if the members of a set count as correct, found by so many workers. Each has a
/// thread of its own, enters the gate before its work, and summarises its share of the ticks; all shares are as
/// long, or one tick longer than others. One worker alone makes no summary: it scans the trace backward.
///
/// Waits for all workers that were started. Refuses in the order of `AnalyseError`.
pub fn analyse<R: Threads + Wait + Sync, G: Gate>(
    rt: &R,
    alloc: Global,
    trace: &Trace,
    set: ProcSet,
    workers: u64,
    gate: &G,
) -> Result<Stairs, AnalyseError>
    requires { IsWithin set trace.now.config.n }
    ensures stairs { IfOk result (λ stairs. AreLevels set trace.now stairs) }
    ensures ok { OnOk result (¬ AreBadWorkers workers) }
    ensures workers { IfErr result
        (λ why. (why ≡ AnalyseError.BadWorkers) ↔ AreBadWorkers workers) }
    ensures entered { OnOk result (AreLetIn (G.lets gate.now) workers) }
    ensures held { IfErr result (λ why. why ≡ AnalyseError.Held
        → IsHeldBack (G.lets gate.now) workers) }
{
    if workers == 0 || workers > MAX_WORKERS {
        return Err(AnalyseError::BadWorkers);
    }
    if workers == 1 {
        return match stairs_by_one(rt, alloc, trace, &set, gate) {
            Ok(stairs) => Ok(stairs),
            Err(stop) => Err(refused(stop)),
        };
    }
    let ticks = trace.last_tick();
    match digest_of_all(rt, alloc, trace, ticks, &set, workers, gate) {
        Ok(whole) => stairs_of_whole(alloc, trace, set, &whole),
        Err(stop) => Err(refused(stop)),
    }
}

/// The stairs of the digest of all ticks.
fn stairs_of_whole(
    alloc: Global,
    trace: &Trace,
    set: ProcSet,
    whole: &Digest,
) -> Result<Stairs, AnalyseError>
    requires digest { IsDigestBetween set trace.now 0 trace.now.last whole.now }
    requires sound { IsTrace trace.now }
    ensures stairs { IfOk result (λ stairs. AreLevels set trace.now stairs) }
    ensures memory { IfErr result (λ why. why ≡ AnalyseError.Memory) }
{
    // It begins with tick 1, so it fails only if out of memory.
    match whole.finish(alloc) {
        Ok(stairs) => Ok(stairs),
        Err(_) => Err(AnalyseError::Memory),
    }
}

/// The digest of all ticks, from the workers.
fn digest_of_all<R: Threads + Wait + Sync, G: Gate>(
    rt: &R,
    alloc: Global,
    trace: &Trace,
    ticks: u64,
    set: &ProcSet,
    workers: u64,
    gate: &G,
) -> Result<Digest, Stop>
    requires some { 1 ≤ workers }
    requires few { workers ≤ MAX_WORKERS }
    requires ticks { ticks ≡ trace.now.last }
    requires limit { ticks ≤ MAX_TICKS }
    ensures digest { IfOk result
        (λ digest. IsDigestBetween set.now trace.now 0 trace.now.last digest) }
    ensures entered { OnOk result (AreLetIn (G.lets gate.now) workers) }
    ensures held { IfErr result (λ stop. stop ≡ Stop.Held → IsHeldBack (G.lets gate.now) workers) }
{
    thread::scope(
        thread::scope_env(),
        rt,
        |scope| -> Result<Digest, Stop>
            requires some { 1 ≤ workers }
            requires few { workers ≤ MAX_WORKERS }
            requires ticks { ticks ≡ trace.now.last }
            requires limit { ticks ≤ MAX_TICKS }
            ensures digest { IfOk result
                (λ digest. IsDigestBetween set.entry.now trace.entry.now 0
                trace.entry.now.last digest) }
            ensures entered { OnOk result (AreLetIn (G.lets gate.entry.now) workers) }
            ensures held { IfErr result (λ stop. stop ≡ Stop.Held
                → IsHeldBack (G.lets gate.entry.now) workers) }
        {
            let Ok(mut threads) = Vec::with_capacity(alloc, workers as usize) else {
                return Err(Stop::Memory);
            };
            for worker in 1..workers + 1 {
                let share = Share::of(ticks, worker, workers);
                let seen = Snapshot::of(trace);
                let entered = Snapshot::of(gate);
                let promise = DigestOf {
                    set: *set,
                    trace: seen,
                    share,
                    gate: entered,
                    worker,
                };
                let work = move || -> Result<Digest, Stop>
                    requires low { 1 ≤ share.from }
                    requires order { share.from ≤ share.to + 1 }
                    requires high { share.to ≤ trace.now.last }
                    ensures digest { IfOk result
                        (λ digest. IsDigestBetween set.entry.now trace.entry.now
                        (share.from - 1) share.to digest) }
                    ensures entered { G.lets gate.entry.now worker (was_let_in result) }
                { digest_of(alloc, trace, *set, share, gate, worker) };
                let Ok(thread) = scope.spawn_with(promise, work) else {
                    return Err(unstarted(joined(rt, threads)));
                };
                threads.push_reserved(thread);
            }
            joined(rt, threads)
        },
    )
}

impl Share {
    /// The share of a worker, of so many workers and ticks.
    fn of(ticks: u64, worker: u64, workers: u64) -> Share
        requires low { 1 ≤ worker }
        requires high { worker ≤ workers }
        requires few { workers ≤ MAX_WORKERS }
        requires ticks { ticks ≤ MAX_TICKS }
        ensures share { IsShare ticks workers worker result }
        ensures order { result.from ≤ result.to + 1 }
        ensures within { result.to ≤ ticks }
    {
        Share {
            from: (worker - 1) * ticks / workers + 1,
            to: worker * ticks / workers,
        }
    }
}

/// The digest of a worker's share, once the gate lets it in.
fn digest_of<G: Gate>(
    alloc: Global,
    trace: &Trace,
    set: ProcSet,
    share: Share,
    gate: &G,
    worker: u64,
) -> Result<Digest, Stop>
    requires low { 1 ≤ share.from }
    requires order { share.from ≤ share.to + 1 }
    requires high { share.to ≤ trace.now.last }
    ensures digest { IfOk result
        (λ digest. IsDigestBetween set trace.now (share.from - 1) share.to digest) }
    ensures entered { G.lets gate.now worker (was_let_in result) }
{
    if !gate.enter(worker) {
        return Err(Stop::Held);
    }
    match Digest::of(alloc, trace, set, share.from, share.to) {
        Ok(digest) => Ok(digest),
        Err(AllocError) => Err(Stop::Memory),
    }
}

/// The digests of these threads joined in their order, once all have ended.
fn joined<R: Threads, G: Gate>(
    rt: &R,
    threads: Vec<PromisedHandle<Result<Digest, Stop>, DigestOf<G>>>,
) -> Result<Digest, Stop>
    ensures digest { IfOk result (λ digest. (set : ℕ) (trace : Recorded) (gate : G) (workers : ℕ)
        → 0 < workers → ArePromised set trace gate workers threads.items
        → IsDigestBetween set trace 0 (cut trace.last workers (length threads.items)) digest) }
    ensures entered { OnOk result (AreAnswered G.lets threads.items) }
    ensures held { IfErr result (λ stop. stop ≡ Stop.Held → IsOneHeld G.lets threads.items) }
{
    let mut all = Ok(Digest::unit());
    for thread in threads {
        all = both(all, thread.join(rt));
    }
    all
}

/// Two digests joined, or the gravest reason against it.
fn both(left: Result<Digest, Stop>, right: Result<Digest, Stop>) -> Result<Digest, Stop>
    ensures digest { IfOk result (λ digest. (set : ℕ) (trace : Recorded) (i j k : ℕ)
        → IfOk left (IsDigestBetween set trace i j) → IfOk right (IsDigestBetween set trace j k)
        → IsDigestBetween set trace i k digest) }
    ensures ok { OnOk result (IsOk left × IsOk right) }
    ensures left { IfErr result (λ stop. IfErr left (λ one. gravity one ≤ gravity stop)) }
    ensures right { IfErr result (λ stop. IfErr right (λ other. gravity other ≤ gravity stop)) }

    // If both are digests, their join fails only if out of memory.
    ensures cause { IfErr result
        (λ stop. (left ≡ Err stop) ⊎ (right ≡ Err stop) ⊎ (stop ≡ Stop.Memory)) }
{
    match (left, right) {
        (Ok(left), Ok(right)) => match left.join(right) {
            Ok(digest) => Ok(digest),
            Err(_) => Err(Stop::Memory),
        },
        (Err(one), Err(other)) => Err(graver(one, other)),
        (Err(stop), Ok(_)) | (Ok(_), Err(stop)) => Err(stop),
    }
}

/// The cause that is reported if a thread couldn't be started, given what the others ended with.
fn unstarted(others: Result<Digest, Stop>) -> Stop
    ensures start { gravity Stop.Start ≤ gravity result }
    ensures others { IfErr others (λ stop. gravity stop ≤ gravity result) }
    ensures cause { (result ≡ Stop.Start) ⊎ (others ≡ Err result) }
{
    match others {
        Ok(_) => Stop::Start,
        Err(stop) => graver(stop, Stop::Start),
    }
}

/// The one of two causes that is reported.
fn graver(one: Stop, other: Stop) -> Stop
    ensures one { gravity one ≤ gravity result }
    ensures other { gravity other ≤ gravity result }
    ensures cause { (result ≡ one) ⊎ (result ≡ other) }
{
    match (one, other) {
        (Stop::Held, _) | (_, Stop::Held) => Stop::Held,
        (Stop::Start, _) | (_, Stop::Start) => Stop::Start,
        (Stop::Memory, Stop::Memory) => Stop::Memory,
    }
}

fn refused(stop: Stop) -> AnalyseError
    ensures { result ≡ error_of stop }
{
    match stop {
        Stop::Held => AnalyseError::Held,
        Stop::Start => AnalyseError::Start,
        Stop::Memory => AnalyseError::Memory,
    }
}
