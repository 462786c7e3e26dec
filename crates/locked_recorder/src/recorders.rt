//! The recorder: a World under a lock.

ghost use Rattle.std.specs.Prelude.{◌≡◌, ◌≤◌, ◌↔◌, length, IsTrue, IfOk, None};
ghost use Rattle.step_trace.specs.declared.traces.TheConstants.{MAX_STEPS};
ghost use Rattle.step_trace.specs.Ticks.{IsOnePerTick};
ghost use Rattle.step_buffers.specs.Runs.{IsRun};
ghost use Rattle.locked_recorder.specs.Seats.{opening_seats};

use crate::seats::Seat;
use crate::views::View;
use std::alloc::{AllocError, Global};
use std::marker::Model;
use std::sync::Mutex;
use step_buffers::World;
use step_trace::Config;

/// A World under a lock, with the tag by which its seats are known, the configuration of the World, and how many
/// steps may be made in it.
#[derive(Drop)]
pub struct Recorder {
    pub(crate) world: Mutex<World>,
    pub(crate) tag: u64,
    pub(crate) config: Config,
    pub(crate) limit: u64,
}

impl Model for Recorder {
    ghost use Rattle.locked_recorder.specs.Recorders.{Identity};

    ghost Value = { Identity };

    ghost view = { λ a. record { tag = a.tag; config = a.config; limit = a.limit } };
}

impl Recorder {
    /// A recorder over the World of a configuration, in which no step was made and at most so many may be. And a
    /// seat for each processor, in order. Seats don't distinguish recorders of one tag.
    ///
    /// Asks for at most 1,000,000 steps. Takes memory for each processor.
    pub fn new(
        alloc: Global,
        config: Config,
        tag: u64,
        max_steps: u64,
    ) -> Result<(Recorder, Vec<Seat>), AllocError>
        requires { max_steps ≤ MAX_STEPS }
        ensures recorder { IfOk result
            (λ made. made.0 ≡ record { tag = tag; config = config; limit = max_steps }) }
        ensures seats { IfOk result (λ made. made.1.items ≡ opening_seats tag config.n) }
    {
        let seats = opening_seats(alloc, tag, &config)?;
        let world = World::new(alloc, config.copy(alloc)?, max_steps)?;
        let recorder = Recorder {
            world: Mutex::new(world),
            tag,
            config,
            limit: max_steps,
        };
        Ok((recorder, seats))
    }

    /// The view of one who was shown nothing of its trace.
    pub fn view(&self) -> View
        ensures { result ≡ None }
    {
        View::new()
    }
}

/// Whether a World is one of this configuration, in which so many steps may be made. The lock's type keeps that it
/// is a World, and not which.
pub(crate) fn is_world_of(world: &World, config: &Config, limit: u64) -> bool
    ensures same { IsTrue result
        ↔ ((world.now.trace.config ≡ config.now) × (world.now.limit ≡ limit)) }
    ensures run { IsRun world.now.trace.config world.now.trace.steps }
    ensures one_per_tick { IsOnePerTick world.now.trace }
    ensures within { length world.now.trace.steps ≤ world.now.limit }
    ensures bounded { world.now.limit ≤ MAX_STEPS }
{
    let room = world.limit();
    world.trace().config().is_same(config) && room == limit
}

/// A seat for each processor, in order.
fn opening_seats(alloc: Global, tag: u64, config: &Config) -> Result<Vec<Seat>, AllocError>
    ensures { IfOk result (λ seats. seats.items ≡ opening_seats tag config.now.n) }
{
    // (`collect` would ask again for less if its allocation fails)
    let mut seats = Vec::with_capacity(alloc, config.n() as usize)?;
    for p in 1..config.n() + 1 {
        seats.push(Seat::new(alloc, tag, p))?;
    }
    Ok(seats)
}
