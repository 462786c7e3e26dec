//! A World that makes the steps of a given trace.

ghost use Rattle.std.specs.Prelude.{◌≡◌, ◌+◌, ◌<◌, ◌≤◌, ◌++◌, ◌∷◌, [], List, None, true, false};
ghost use Rattle.std.specs.Prelude.{length, option_copied, IfOk, OnOk, IfErr, IfSome};
ghost use Rattle.step_trace.specs.declared.traces.TheConstants.{MAX_STEPS};
ghost use Rattle.step_trace.specs.declared.steps.Step.{Step as TraceStep};
ghost use Rattle.step_trace.specs.Steps.{act_sends_to};
ghost use Rattle.step_trace.specs.Traces.{step_at};
ghost use Rattle.step_trace.specs.Configurations.{IsProc};
ghost use Rattle.step_trace.specs.Ticks.{IsOnePerTick};
ghost use Rattle.step_buffers.specs.Runs.{IsRun};
ghost use Rattle.step_buffers.specs.Moves.{IsStepRefusal};
ghost use Rattle.step_buffers.specs.NextSteps.{sending, receiving};
ghost use Rattle.step_buffers.specs.Dues.{due_for};
ghost use Rattle.step_buffers.specs.Replays.{IsReplayRefusal, IsMade, IsOff};

use crate::dues::{Due, due_for};
use crate::moves::{Move, StepError, Take};
use crate::worlds::World;
use std::alloc::{AllocError, Global};
use step_trace::{Act, Config, MAX_STEPS, MessageIds, Step, Trace};

/// Why no World is made of a trace.
#[derive(Clone, Copy, Debug, PartialEq, Eq)]
pub enum ReplayError {
    /// The step of this number is the first that isn't one of a run: the steps before it are a run, and with
    /// it they are none. The second says what its processor had to do.
    NotARun(u64, Due),
    /// Out of memory for the World or for one of its steps.
    Memory,
}

/// The World that made exactly the steps of this trace, one in each tick, and may make up to 1,000,000 in all. There is
/// one if the steps are those of a run (section 3 of the 1988 paper); their ticks are not looked at.
///
/// Refuses: `NotARun`, with the number of the first step that isn't a run's, and what was due. `Memory`, if out of
/// memory for the World, or for a step before that one or in place of it. Makes each step once, in the time and memory
/// of `World::advance`.
pub fn replay(alloc: Global, trace: &Trace) -> Result<World, ReplayError>
    ensures config { IfOk result (λ world. world.trace.config ≡ trace.now.config) }
    ensures steps { IfOk result (λ world. world.trace.steps ≡ trace.now.steps) }
    ensures one_per_tick { IfOk result (λ world. IsOnePerTick world.trace) }
    ensures limit { IfOk result (λ world. world.limit ≡ MAX_STEPS) }
    ensures run { OnOk result (IsRun trace.now.config trace.now.steps) }
    ensures refused { IfErr result (λ e. IsReplayRefusal trace.now.config trace.now.steps e) }
    ensures complete { IsRun trace.now.config trace.now.steps
        → IfErr result (λ e. e ≡ ReplayError.Memory) }
{
    let Ok(mut world) = opening_world(alloc, trace.config()) else {
        return Err(ReplayError::Memory);
    };
    while let Some(step) = next_step(&world, trace) {
        follow(alloc, &mut world, step)?;
    }
    Ok(world)
}

/// The World of a configuration before the first step, with room for the steps of each trace.
fn opening_world(alloc: Global, config: &Config) -> Result<World, AllocError>
    ensures config { IfOk result (λ world. world.trace.config ≡ config.now) }
    ensures steps { IfOk result (λ world. world.trace.steps ≡ []) }
    ensures limit { IfOk result (λ world. world.limit ≡ MAX_STEPS) }
{
    World::new(alloc, config.copy(alloc)?, MAX_STEPS as u64)
}

/// The step of a trace that comes after as many as a World made.
fn next_step<'a>(world: &World, trace: &'a Trace) -> Option<&'a Step>
    ensures value { option_copied result
        ≡ step_at trace.now.steps (length world.now.trace.steps + 1) }
    ensures limit { length trace.now.steps ≤ MAX_STEPS }
    ensures run { IsRun world.now.trace.config world.now.trace.steps }
    ensures one_per_tick { IsOnePerTick world.now.trace }
    ensures proc { IfSome result (λ step. IsProc trace.now.config step.now.proc) }
{
    trace.step(world.trace().len() as u64 + 1)
}

/// Makes this step, if it is one that its processor makes next.
fn follow(alloc: Global, world: &mut World, step: &Step) -> Result<(), ReplayError>
    requires room { length world.old.trace.steps < world.old.limit }
    requires proc { IsProc world.old.trace.config step.now.proc }
    ensures made { OnOk result (world.new.trace.steps ≡ world.old.trace.steps ++ step.now ∷ []) }
    ensures config { world.new.trace.config ≡ world.old.trace.config }
    ensures limit { world.new.limit ≡ world.old.limit }
    ensures refused { IfErr result (λ e.
        IsReplayRefusal world.old.trace.config (world.old.trace.steps ++ step.now ∷ []) e) }
{
    let no = world.trace().len() as u64 + 1;
    let next = world.next_destination(step.proc);
    let made = match &step.act {
        Act::Send { to } => follow_send(alloc, world, step.proc, *to),
        Act::Receive { ends, ids } => follow_receive(alloc, world, step.proc, *ends, ids),
    };
    match made {
        Ok(true) => Ok(()),
        Ok(false) => Err(ReplayError::NotARun(no, due_instead(next, step))),
        Err(_) => Err(ReplayError::Memory),
    }
}

/// What the processor of a step had to do in place of it, where `next` is the processor to which it sends next.
fn due_instead(next: Option<u64>, step: &Step) -> Due
    ensures proc { result.proc ≡ step.now.proc }
    ensures what { result.what ≡ due_for next step.now.act }
{
    Due {
        proc: step.proc,
        what: due_for(next, &step.act),
    }
}

/// Makes the Send that `p` makes next, and says whether it was one to this processor. It says no if `p` has
/// nothing to send, too.
fn follow_send(alloc: Global, world: &mut World, p: u64, to: u64) -> Result<bool, AllocError>
    requires { length world.old.trace.steps < world.old.limit }
    ensures made { IfOk result (IsMade world.old.trace world.new.trace (sending p to)) }
    ensures off { IfOk result (IsOff world.old.trace (sending p to)) }
    ensures config { world.new.trace.config ≡ world.old.trace.config }
    ensures limit { world.new.limit ≡ world.old.limit }
{
    match world.advance(alloc, p, Move::Send) {
        Ok(()) => Ok(last_sends_to(world.trace(), to)),
        Err(why) => not_made(why),
    }
}

/// Makes this Receive, if nothing is against it, and says whether it was made.
fn follow_receive(
    alloc: Global,
    world: &mut World,
    p: u64,
    ends: bool,
    ids: &MessageIds,
) -> Result<bool, AllocError>
    requires { length world.old.trace.steps < world.old.limit }
    ensures made { IfOk result (IsMade world.old.trace world.new.trace (receiving p ends ids.now)) }
    ensures off { IfOk result (IsOff world.old.trace (receiving p ends ids.now)) }
    ensures config { world.new.trace.config ≡ world.old.trace.config }
    ensures limit { world.new.limit ≡ world.old.limit }
{
    let take = Take::These(ids.as_slice());
    let Err(why) = world.advance(alloc, p, Move::Receive { take, ends }) else {
        return Ok(true);
    };
    not_made(why)
}

/// Says that a step wasn't made, for a reason that holds against it; out of memory is none.
fn not_made(why: StepError) -> Result<bool, AllocError>
    ensures no { IfOk result (λ made. made ≡ false) }
    ensures reason { OnOk result (¬ IsStepRefusal why None) }
{
    match why {
        StepError::Memory => Err(AllocError),
        _ => Ok(false),
    }
}

/// Whether the last step of a trace is a Send to a processor.
fn last_sends_to(trace: &Trace, p: u64) -> bool
    ensures { (steps : List TraceStep) (last : TraceStep) → trace.now.steps ≡ steps ++ last ∷ []
        → result ≡ act_sends_to last.act p }
{
    match trace.step(trace.len() as u64) {
        Some(step) => sends_to(&step.act, p),
        None => false,
    }
}

fn sends_to(act: &Act, p: u64) -> bool
    ensures { result ≡ act_sends_to act.now p }
{
    match act {
        Act::Send { to } => *to == p,
        Act::Receive { .. } => false,
    }
}
