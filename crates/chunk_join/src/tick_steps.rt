//! The steps of a tick of a trace, which follow one another by number.

ghost use Rattle.std.specs.Prelude.{◌+◌};
ghost use Rattle.step_trace.specs.Ticks.{IsTrace};
ghost use Rattle.step_trace.specs.TickSteps.{AreStepsBefore};
ghost use Rattle.chunk_join.specs.TickSteps.{IsReceiverAt};

use step_trace::{Act, ProcSet, Trace};

/// A tick, and which steps are its own: those after number `before` up to number `end`.
#[derive(Clone, Copy)]
pub(crate) struct TickSpan {
    pub(crate) tick: u64,
    pub(crate) before: u64,
    pub(crate) end: u64,
}

/// How many steps come up to a tick, of which this many come before it.
pub(crate) fn steps_through(trace: &Trace, tick: u64, before: u64) -> u64
    requires { AreStepsBefore trace.now tick before }
    ensures next { AreStepsBefore trace.now (tick + 1) result }
    ensures sound { IsTrace trace.now }
{
    if trace.last_tick() <= tick {
        return trace.len() as u64;
    }
    for no in before..trace.len() as u64 {
        if tick < trace.tick(no + 1) {
            return no;
        }
    }
    trace.len() as u64
}

/// If the step of this number is a Receive of a member, the member.
pub(crate) fn receiving_member(trace: &Trace, set: ProcSet, no: u64) -> Option<u64>
    ensures { IsReceiverAt set trace.now.steps no result }
{
    let Some(step) = trace.step(no) else {
        return None;
    };
    if !set.contains(step.proc) {
        return None;
    }
    match &step.act {
        Act::Send { .. } => None,
        Act::Receive { .. } => Some(step.proc),
    }
}
