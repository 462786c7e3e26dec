//! Simulated runs: one step in each tick.

ghost use Rattle.std.specs.Prelude.{◌≡◌, ◌+◌, ◌<◌, ◌≤◌, OnOk, length};
ghost use Rattle.step_trace.specs.declared.traces.TheConstants.{MAX_STEPS};
ghost use Rattle.step_trace.specs.declared.configurations.TheConstants.{MAX_PROCESSORS};
ghost use Rattle.command_options.specs.declared.simulations.TheConstants.{MAX_BOUND};
ghost use Rattle.simulated_runs.specs.declared.turns.Turn.{Turn as LiveTurn};
ghost use Rattle.simulated_runs.specs.Turns.{IsTurnIn, MayStep};
ghost use Rattle.simulated_runs.specs.Crashes.{IsSomeUp, IsUpIn};
ghost use Rattle.simulated_runs.specs.KeptBounds.{DeltaGoesOn};
ghost use Rattle.simulated_runs.specs.Nominations.{IsNominating};
ghost use Rattle.simulated_runs.specs.Simulations.{IsReady, IsStepped};

use crate::generators::Generator;
use crate::moves::move_on;
use crate::nominations::Nominator;
use crate::post::Post;
use crate::turns::Turns;
use deciding_runs::Pace;
use std::alloc::Global;
use step_buffers::{StepError, World};

/// A simulated run so far.
#[derive(Debug, Drop)]
pub(crate) struct Simulation {
    pub(crate) world: World,
    pub(crate) paces: Vec<Pace>,
    /// For each processor the last tick in which it may step.
    pub(crate) lasts: Vec<u64>,
    pub(crate) nominator: Nominator,
    pub(crate) turns: Turns,
    pub(crate) post: Post,
    pub(crate) generator: Generator,
}

impl Simulation {
    /// Makes the next step. The processor that the schedule names makes it; if that would keep another one from
    /// stepping in time, the one that is to step first does.
    pub(crate) fn step(&mut self, alloc: Global) -> Result<(), StepError>
        requires ready { IsReady self.old }
        requires some { IsSomeUp self.old.lasts.items (length self.old.world.trace.steps + 1) }
        requires room { length self.old.world.trace.steps < MAX_STEPS }
        requires turns { (t : LiveTurn) → IsTurnIn self.old.turns.queue.items t
            → IsUpIn self.old.lasts.items t.proc (length self.old.world.trace.steps + 1) }
        ensures stepped { OnOk result (IsStepped self.old self.new) }
        ensures ready { OnOk result (IsReady self.new) }
        ensures delta { OnOk result
            (DeltaGoesOn self.old.post.bounds self.old.world.trace.steps self.old.post.trays.items
            self.new.world.trace.steps self.new.post.trays.items) }
        ensures lasts { self.new.lasts ≡ self.old.lasts }
        ensures gst { self.new.turns.gst ≡ self.old.turns.gst }
        ensures phi { self.new.turns.phi ≡ self.old.turns.phi }
        ensures bounds { self.new.post.bounds ≡ self.old.post.bounds }
        ensures limit { self.new.world.limit ≡ self.old.world.limit }
    {
        let tick = self.world.trace().len() as u64 + 1;
        let p = chosen(
            &mut self.nominator,
            &mut self.generator,
            &self.lasts,
            &self.turns,
            tick,
        );
        let Ok(()) = self.turns.pass(p, tick) else {
            return Err(StepError::Memory);
        };
        move_on(
            alloc,
            &mut self.world,
            &mut self.post,
            &mut self.paces[(p - 1) as usize],
            &mut self.generator,
            p,
            tick,
        )
    }
}

/// Who steps in this tick.
fn chosen(
    nominator: &mut Nominator,
    generator: &mut Generator,
    lasts: &[u64],
    turns: &Turns,
    tick: u64,
) -> u64
    requires some { IsSomeUp lasts.now tick }
    requires few { length lasts.now ≤ MAX_PROCESSORS }
    requires early { tick ≤ MAX_STEPS }
    requires nominating { IsNominating (length lasts.now) nominator.old }
    requires turns { (t : LiveTurn) → IsTurnIn turns.now.queue.items t
        → IsUpIn lasts.now t.proc tick }
    requires queue { length turns.now.queue.items ≤ MAX_BOUND }
    ensures nominating { IsNominating (length lasts.now) nominator.new }
    ensures up { IsUpIn lasts.now result tick }
    ensures may { MayStep turns.now.queue.items tick result }
{
    let p = nominator.name(generator, lasts, tick);
    if turns.may_step(p, tick) {
        return p;
    }
    match turns.first() {
        Some(first) => first,
        None => p,
    }
}
