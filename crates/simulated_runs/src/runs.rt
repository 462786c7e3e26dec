//! Simulated runs, from what is asked for to the run.

ghost use Rattle.std.specs.Prelude.{ℕ, ◌≡◌, ◌+◌, [], IfOk, IfSome, Some, length, replicate};
ghost use Rattle.step_trace.specs.Bounds.{DeltaHolds, PhiHolds};
ghost use Rattle.step_buffers.specs.Runs.{IsRun};
ghost use Rattle.step_trace.specs.Ticks.{IsOnePerTick};
ghost use Rattle.deciding_runs.specs.Paces.{opening_pace};
ghost use Rattle.command_options.specs.Simulations.{live};
ghost use Rattle.simulated_runs.specs.Crashes.{StepBeforeCrashes};
ghost use Rattle.simulated_runs.specs.KeptBounds.{AreLive};
ghost use Rattle.simulated_runs.specs.Simulations.{AreOpeningTurns, HasRun};

use crate::crashes::{last_ticks, live};
use crate::generators::Generator;
use crate::nominations::Nominator;
use crate::post::Post;
use crate::simulations::Simulation;
use crate::turns::Turns;
use command_options::{Crash, SimulationOptions, StatedBounds};
use deciding_runs::Pace;
use std::alloc::{AllocError, Global};
use step_buffers::{StepError, World};
use step_trace::Config;

/// A World that made the run that is asked for: one step in each tick. All that is drawn follows from the seed, so the
/// same options give the same run.
///
/// No processor steps after it crashed. If bounds are stated, they hold from the first tick after the stabilization
/// time on: the processor bound for each set of live processors, the communication bound for any set.
pub fn simulate(alloc: Global, options: SimulationOptions) -> Result<World, StepError>
    ensures config { IfOk result (λ world. world.trace.config ≡ options.config) }
    ensures steps { IfOk result (λ world. length world.trace.steps ≡ options.steps) }
    ensures limit { IfOk result (λ world. world.limit ≡ options.steps) }
    ensures run { IfOk result (λ world. IsRun world.trace.config world.trace.steps) }
    ensures crashed { IfOk result
        (λ world. StepBeforeCrashes options.crashes.items world.trace.steps) }
    ensures phi { IfOk result
        (λ world. IfSome options.bounds (λ b. (set : ℕ)
        → AreLive set options.config options.crashes.items
        → PhiHolds set world.trace (b.gst + 1) b.phi)) }
    ensures delta { IfOk result
        (λ world. IfSome options.bounds (λ b. (set : ℕ)
        → DeltaHolds set world.trace (b.gst + 1) b.delta)) }
{
    let steps = options.steps;
    let Ok(mut simulation) = opening(alloc, options) else {
        return Err(StepError::Memory);
    };
    for _ in 0..steps {
        simulation.step(alloc)?;
    }
    Ok(ended(simulation))
}

/// The World of a run that was made.
fn ended(simulation: Simulation) -> World
    ensures world { result ≡ simulation.world }
    ensures run { IsRun result.trace.config result.trace.steps }
    ensures one_per_tick { IsOnePerTick result.trace }
{
    let Simulation { world, .. } = simulation;
    let _run = world.trace();
    world
}

/// Before the first step.
fn opening(alloc: Global, options: SimulationOptions) -> Result<Simulation, AllocError>
    ensures run { IfOk result
        (λ s. HasRun options.config options.crashes.items options.bounds s 0) }
    ensures limit { IfOk result (λ s. s.world.limit ≡ options.steps) }
{
    let SimulationOptions {
        config,
        patience,
        steps,
        seed,
        schedule,
        bounds,
        crashes,
        loss,
        ..
    } = options;
    let n = config.n();
    let paces = opening_paces(alloc, &config, patience)?;
    let turns = opening_turns(alloc, n, &crashes, bounds)?;
    let lasts = last_ticks(alloc, n, &crashes)?;
    let post = Post::new(alloc, n, bounds, loss)?;
    Ok(Simulation {
        world: World::new(alloc, config, steps)?,
        paces,
        lasts,
        nominator: Nominator::new(schedule),
        turns,
        post,
        generator: Generator::new(seed),
    })
}

/// The paces of all processors before the first step.
fn opening_paces(alloc: Global, config: &Config, patience: u64) -> Result<Vec<Pace>, AllocError>
    ensures { IfOk result
        (λ paces. paces.items ≡ replicate config.now.n (opening_pace config.now patience)) }
{
    let mut paces = Vec::new(alloc);
    for _ in 0..config.n() {
        paces.push(Pace::new(alloc, config, patience)?)?;
    }
    Ok(paces)
}

/// The turns of the live ones of `n` processors before the first step, if bounds are stated.
fn opening_turns(
    alloc: Global,
    n: u64,
    crashes: &[Crash],
    bounds: Option<StatedBounds>,
) -> Result<Turns, AllocError>
    ensures { IfOk result (λ turns. AreOpeningTurns n crashes.now bounds turns) }
{
    match bounds {
        Some(bounds) => stated_turns(alloc, n, crashes, bounds),
        None => Turns::new(alloc, &[], 0, 0),
    }
}

/// The turns of the live ones of `n` processors before the first step, by these bounds.
fn stated_turns(
    alloc: Global,
    n: u64,
    crashes: &[Crash],
    bounds: StatedBounds,
) -> Result<Turns, AllocError>
    ensures { IfOk result (λ turns. AreOpeningTurns n crashes.now (Some bounds) turns) }
{
    let live = live(alloc, n, crashes)?;
    Turns::new(alloc, &live, bounds.gst, bounds.phi)
}
