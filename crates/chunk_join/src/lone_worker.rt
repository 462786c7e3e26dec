//! The bounds of a trace, found by one thread: it scans the whole trace, and makes no pieces.

ghost use Rattle.std.specs.Prelude.{◌≡◌, IfOk, IfErr, OnOk, true, false};
ghost use Rattle.chunk_join.specs.declared.analyses.Stop.{Stop};
ghost use Rattle.step_trace.specs.Processors.{IsWithin};
ghost use Rattle.suffix_staircase.specs.Analysis.{AreLevels};
ghost use Rattle.chunk_join.specs.Analyses.{was_let_in};

use crate::analyses::Stop;
use std::alloc::{AllocError, Global};
use std::snapshot::Snapshot;
use std::sync::Wait;
use std::thread;
use std::thread::{Promise, Threads};
use step_trace::{Gate, ProcSet, Trace};
use suffix_staircase::Stairs;

/// What the worker promises: the stairs of a trace, if any, and none if the gate holds it back.
#[derive(Drop)]
struct StairsOf<G> {
    set: ProcSet,
    trace: Snapshot<Trace>,
    gate: Snapshot<G>,
}

impl<G: Gate> Promise<Result<Stairs, Stop>> for StairsOf<G> {
    ghost use Rattle.std.specs.Prelude.{IfOk};
    ghost use Rattle.suffix_staircase.specs.Analysis.{AreLevels};
    ghost use Rattle.chunk_join.specs.Analyses.{was_let_in};

    ghost kept_by = { λ promise result. IfOk result
        (λ stairs. AreLevels promise.set promise.trace.value stairs)
        × G.lets promise.gate.value 1 (was_let_in result) };
}

/// The stairs of a trace, from one worker in a thread of its own.
pub(crate) fn stairs_by_one<R: Threads + Wait + Sync, G: Gate>(
    rt: &R,
    alloc: Global,
    trace: &Trace,
    set: &ProcSet,
    gate: &G,
) -> Result<Stairs, Stop>
    requires { IsWithin set.now trace.now.config.n }
    ensures stairs { IfOk result (λ stairs. AreLevels set.now trace.now stairs) }
    ensures entered { OnOk result (G.lets gate.now 1 true) }
    ensures held { IfErr result (λ stop. stop ≡ Stop.Held → G.lets gate.now 1 false) }
{
    thread::scope(
        thread::scope_env(),
        rt,
        |scope| -> Result<Stairs, Stop>
            requires { IsWithin set.now trace.now.config.n }
            ensures stairs { IfOk result
                (λ stairs. AreLevels set.entry.now trace.entry.now stairs) }
            ensures entered { OnOk result (G.lets gate.entry.now 1 true) }
            ensures held { IfErr result (λ stop. stop ≡ Stop.Held → G.lets gate.entry.now 1 false) }
        {
            let promise = StairsOf {
                set: *set,
                trace: Snapshot::of(trace),
                gate: Snapshot::of(gate),
            };
            let work = move || -> Result<Stairs, Stop>
                requires { IsWithin set.now trace.now.config.n }
                ensures stairs { IfOk result
                    (λ stairs. AreLevels set.entry.now trace.entry.now stairs) }
                ensures entered { G.lets gate.entry.now 1 (was_let_in result) }
            { stairs_of(alloc, trace, *set, gate) };
            let Ok(thread) = scope.spawn_with(promise, work) else {
                return Err(Stop::Start);
            };
            thread.join(rt)
        },
    )
}

/// The stairs of a trace, once the gate lets worker 1 in.
fn stairs_of<G: Gate>(alloc: Global, trace: &Trace, set: ProcSet, gate: &G) -> Result<Stairs, Stop>
    requires { IsWithin set trace.now.config.n }
    ensures stairs { IfOk result (λ stairs. AreLevels set trace.now stairs) }
    ensures entered { G.lets gate.now 1 (was_let_in result) }
{
    if !gate.enter(1) {
        return Err(Stop::Held);
    }
    match Stairs::of_trace(alloc, trace, set) {
        Ok(stairs) => Ok(stairs),
        Err(AllocError) => Err(Stop::Memory),
    }
}
