//! One step of a simulated run: a Send, or a Receive of what is due.

ghost use Rattle.std.specs.Prelude.{◌≡◌, ◌+◌, ◌≤◌, ◌++◌, ◌∷◌, [], Some, None, OnOk, length};
ghost use Rattle.step_trace.specs.Configurations.{IsProc};
ghost use Rattle.step_trace.specs.Traces.{IsWellFormed};
ghost use Rattle.step_trace.specs.declared.traces.TheConstants.{MAX_STEPS};
ghost use Rattle.step_buffers.specs.Moves.{next_send};
ghost use Rattle.step_buffers.specs.NextSteps.{receiving, sending};
ghost use Rattle.simulated_runs.specs.KeptBounds.{DeltaGoesOn};
ghost use Rattle.simulated_runs.specs.Moves.{IsMade};
ghost use Rattle.simulated_runs.specs.UnderWay.{AreUnderWay};

use crate::generators::Generator;
use crate::post::Post;
use deciding_runs::Pace;
use std::alloc::Global;
use step_buffers::{Move, StepError, Take, World};

/// Processor `p` makes its step in this tick: it sends, if it has something to send. Else it receives what is due,
/// which ends its round by its pace.
pub(crate) fn move_on(
    alloc: Global,
    world: &mut World,
    post: &mut Post,
    pace: &mut Pace,
    generator: &mut Generator,
    p: u64,
    tick: u64,
) -> Result<(), StepError>
    requires processor { IsProc world.old.trace.config p }
    requires next { tick ≡ length world.old.trace.steps + 1 }
    requires early { tick ≤ MAX_STEPS }
    requires trays { length post.old.trays.items ≡ world.old.trace.config.n }
    requires peers { length pace.old.peers ≡ world.old.trace.config.n }
    requires well_formed { IsWellFormed world.old.trace.config world.old.trace.steps }
    requires under_way { AreUnderWay world.old.trace.steps post.old.trays.items }
    ensures made { OnOk result (IsMade world.old.trace world.new.trace p) }
    ensures under_way { OnOk result (AreUnderWay world.new.trace.steps post.new.trays.items) }
    ensures delta { OnOk result
        (DeltaGoesOn post.old.bounds world.old.trace.steps post.old.trays.items
        world.new.trace.steps post.new.trays.items) }
    ensures limit { world.new.limit ≡ world.old.limit }
    ensures trays { length post.new.trays.items ≡ length post.old.trays.items }
    ensures bounds { post.new.bounds ≡ post.old.bounds }
    ensures peers { length pace.new.peers ≡ length pace.old.peers }
{
    match world.next_destination(p) {
        Some(to) => send(alloc, world, post, generator, p, to, tick),
        None => receive(alloc, world, post, pace, p, tick),
    }
}

/// Processor `p` sends to `to` in this tick.
fn send(
    alloc: Global,
    world: &mut World,
    post: &mut Post,
    generator: &mut Generator,
    p: u64,
    to: u64,
    tick: u64,
) -> Result<(), StepError>
    requires processor { IsProc world.old.trace.config p }
    requires receiver { IsProc world.old.trace.config to }
    requires due { next_send world.old.trace.config world.old.trace.steps p ≡ Some to }
    requires next { tick ≡ length world.old.trace.steps + 1 }
    requires early { tick ≤ MAX_STEPS }
    requires trays { length post.old.trays.items ≡ world.old.trace.config.n }
    requires well_formed { IsWellFormed world.old.trace.config world.old.trace.steps }
    requires under_way { AreUnderWay world.old.trace.steps post.old.trays.items }
    ensures made { OnOk result (IsMade world.old.trace world.new.trace p) }
    ensures under_way { OnOk result (AreUnderWay world.new.trace.steps post.new.trays.items) }
    ensures delta { OnOk result
        (DeltaGoesOn post.old.bounds world.old.trace.steps post.old.trays.items
        world.new.trace.steps post.new.trays.items) }
    ensures limit { world.new.limit ≡ world.old.limit }
    ensures trays { length post.new.trays.items ≡ length post.old.trays.items }
    ensures bounds { post.new.bounds ≡ post.old.bounds }
{
    make_send(alloc, world, p, to)?;
    match post.send(generator, p, to, tick) {
        Ok(()) => Ok(()),
        Err(_) => Err(StepError::Memory),
    }
}

/// Processor `p` receives what is due in this tick.
fn receive(
    alloc: Global,
    world: &mut World,
    post: &mut Post,
    pace: &mut Pace,
    p: u64,
    tick: u64,
) -> Result<(), StepError>
    requires processor { IsProc world.old.trace.config p }
    requires next { tick ≡ length world.old.trace.steps + 1 }
    requires trays { length post.old.trays.items ≡ world.old.trace.config.n }
    requires peers { length pace.old.peers ≡ world.old.trace.config.n }
    requires well_formed { IsWellFormed world.old.trace.config world.old.trace.steps }
    requires under_way { AreUnderWay world.old.trace.steps post.old.trays.items }
    ensures made { OnOk result (IsMade world.old.trace world.new.trace p) }
    ensures under_way { OnOk result (AreUnderWay world.new.trace.steps post.new.trays.items) }
    ensures delta { OnOk result
        (DeltaGoesOn post.old.bounds world.old.trace.steps post.old.trays.items
        world.new.trace.steps post.new.trays.items) }
    ensures limit { world.new.limit ≡ world.old.limit }
    ensures trays { length post.new.trays.items ≡ length post.old.trays.items }
    ensures bounds { post.new.bounds ≡ post.old.bounds }
    ensures peers { length pace.new.peers ≡ length pace.old.peers }
{
    let Ok(ids) = post.take_due(alloc, p, tick) else {
        return Err(StepError::Memory);
    };
    let ends = pace.take(world, p, &ids);
    make_receive(alloc, world, p, &ids, ends)?;
    Ok(())
}

/// Makes the Send of processor `p` that is due.
fn make_send(alloc: Global, world: &mut World, p: u64, to: u64) -> Result<(), StepError>
    requires due { next_send world.old.trace.config world.old.trace.steps p ≡ Some to }
    ensures made { OnOk result
        (world.new.trace.steps ≡ world.old.trace.steps ++ sending p to ∷ []) }
    ensures config { world.new.trace.config ≡ world.old.trace.config }
    ensures limit { world.new.limit ≡ world.old.limit }
{
    world.advance(alloc, p, Move::Send)
}

/// Makes the Receive of processor `p` that takes these messages.
fn make_receive(
    alloc: Global,
    world: &mut World,
    p: u64,
    ids: &[u64],
    ends: bool,
) -> Result<(), StepError>
    ensures made { OnOk result
        (world.new.trace.steps ≡ world.old.trace.steps ++ receiving p ends ids.now ∷ []) }
    ensures config { world.new.trace.config ≡ world.old.trace.config }
    ensures limit { world.new.limit ≡ world.old.limit }
{
    let step = Move::Receive {
        take: Take::These(ids),
        ends,
    };
    world.advance(alloc, p, step)
}
