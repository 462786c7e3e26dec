//! What is taken of a buffer in a World.

use std::alloc::Global;
use std::test::Fail;
use step_buffers::{Move, Take, World};
use step_trace::Config;

/// The World of two processors before their first step.
fn opening(alloc: Global) -> Result<World, Fail> {
    let init = Vec::from_slice(alloc, &[5, 7])?;
    Ok(World::new(alloc, Config::new(2, 0, init)?, 100)?)
}

/// Whether 1 takes messages in the step of this number, and then waits for these.
fn leaves(alloc: Global, world: &mut World, take: Take, no: u64, left: &[u64]) -> bool {
    match world.step(alloc, 1, Move::Receive { take, ends: false }) {
        Ok(done) => {
            done.no == no && world.trace().config().is_processor(1) && world.waiting(1) == left
        }
        Err(_) => false,
    }
}

/// What 1 takes one after the other of messages 1 and 2, in the step of which number, and what it leaves.
const TAKES: &[(Take, u64, &[u64])] = &[
    (Take::Oldest(1), 3, &[2]),
    (Take::Nothing, 4, &[2]),
    (Take::Oldest(5), 5, &[]),
];

/// Whether both send to 1, which takes them so.
fn are_taken(alloc: Global, world: &mut World) -> bool {
    for p in [1, 2] {
        if world.advance(alloc, p, Move::Send).is_err() {
            return false;
        }
    }
    for &(take, no, left) in TAKES {
        if !leaves(alloc, world, take, no, left) {
            return false;
        }
    }
    true
}

#[test]
fn the_oldest_are_taken(rt: HostRuntime) -> Result<(), Fail> {
    let mut world = opening(rt.alloc())?;
    assert!(rt; are_taken(rt.alloc(), &mut world));
    Ok(())
}
