//! Processors that take turns, some of them crashed from the start, until all others have decided. The numbers of
//! steps are those of a model that was written from the definitions in words, in another language.

use deciding_runs::Pace;
use std::alloc::Global;
use std::process::Abort;
use std::test::Fail;
use step_buffers::World;
use step_trace::Config;

/// The most steps that a run is given.
const MOST: u64 = 500;

/// A World with the pace of each of its processors.
#[derive(Drop)]
struct Turns {
    world: World,
    paces: Vec<Pace>,
}

fn config(alloc: Global, t: u64, init: &[u64]) -> Result<Config, Fail> {
    let init = Vec::from_slice(alloc, init)?;
    Ok(Config::new(init.len() as u64, t, init)?)
}

fn pace(alloc: Global, t: u64, init: &[u64], patience: u64) -> Result<Pace, Fail> {
    Ok(Pace::new(alloc, &config(alloc, t, init)?, patience)?)
}

/// A pace for each processor.
fn paces_of(alloc: Global, t: u64, init: &[u64], patience: u64) -> Result<Vec<Pace>, Fail> {
    let mut paces = Vec::new(alloc);
    for _ in init {
        paces.push(pace(alloc, t, init, patience)?)?;
    }
    Ok(paces)
}

/// Before the first step.
fn opening(alloc: Global, t: u64, init: &[u64], patience: u64) -> Result<Turns, Fail> {
    let paces = paces_of(alloc, t, init, patience)?;
    let world = World::new(alloc, config(alloc, t, init)?, MOST)?;
    Ok(Turns { world, paces })
}

/// Makes the next step of p.
fn go_on(rt: &impl Abort, alloc: Global, turns: &mut Turns, p: u64) {
    let config = turns.world.trace().config();
    assert!(rt; config.is_processor(p));
    let i = (p - 1) as usize;
    assert!(rt; i < turns.paces.len());
    assert!(rt; turns.paces[i].processors() == config.n());
    let step = turns.paces[i].next_move(&turns.world, p);
    assert!(rt; turns.world.advance(alloc, p, step).is_ok());
}

/// What all of these have decided, if they have.
fn common_decision(rt: &impl Abort, world: &World, live: &[u64]) -> Option<u64> {
    let mut common = None;
    for p in live {
        assert!(rt; world.trace().config().is_processor(*p));
        common = Some(world.decision(*p)?);
    }
    common
}

/// After how many alternating steps all of these have decided, and what.
fn decided(rt: &impl Abort, alloc: Global, turns: &mut Turns, live: &[u64]) -> (u64, u64) {
    for made in 0..MOST {
        if let Some(value) = common_decision(rt, &turns.world, live) {
            return (made, value);
        }
        assert!(rt; 0 < live.len());
        go_on(rt, alloc, turns, live[(made % live.len() as u64) as usize]);
    }
    (MOST, 0)
}

/// Values, faults, who takes turns, patience; after how many steps these have decided, and what.
type Row = (&'static [u64], u64, &'static [u64], u64, u64, u64);

const ROWS: &[Row] = &[
    (&[5, 7], 0, &[1, 2], 8, 53, 5),
    (&[5, 7, 7], 1, &[1, 2, 3], 12, 90, 7),
    // No patience is needed if nobody has crashed.
    (&[5, 7, 7], 1, &[1, 2, 3], 100, 90, 7),
    // Who has crashed is waited for in the first phase alone, as long as patience lasts.
    (&[5, 7, 7], 1, &[1, 3], 12, 115, 5),
    (&[5, 7, 7], 1, &[1, 3], 100, 467, 5),
    (&[5, 7, 7], 1, &[2, 3], 12, 98, 7),
    (&[9, 8, 9, 8, 9], 2, &[2, 3, 5], 20, 294, 8),
];

/// Whether they have decided so.
fn is_decided(rt: &impl Abort, alloc: Global, row: Row) -> Result<bool, Fail> {
    let (init, t, live, patience, steps, value) = row;
    let mut turns = opening(alloc, t, init, patience)?;
    Ok(decided(rt, alloc, &mut turns, live) == (steps, value))
}

#[test]
fn who_takes_turns_decides(rt: HostRuntime) -> Result<(), Fail> {
    for &row in ROWS {
        assert!(rt; is_decided(&rt, rt.alloc(), row)?);
    }
    Ok(())
}
