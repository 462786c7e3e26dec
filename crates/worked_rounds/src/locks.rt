//! What a node locks and releases: that of processor 3 of three, with the initial value 5. One may be faulty.

use crate::locks::Says::{Lock, Locks};
use lock_phases::{Body, Kind, LockPairs, Node, Values};
use std::alloc::{AllocError, Global};
use std::test::Fail;
use step_trace::Config;

/// What a message says.
#[derive(Clone, Copy)]
enum Says<'a> {
    Lock(u64),
    Locks(&'a [(u64, u64)]),
}

/// A round: its number; the one message that is heard in it, by sender, what it says, and its PROPER; and the PROPER
/// and the locks of the node then. It owes an acknowledgement after each of them.
type Round<'a> = (u64, u64, Says<'a>, &'a [u64], &'a [u64], &'a [(u64, u64)]);

const LOCKS_FIVE: Round = (2, 1, Lock(5), &[5, 7], &[5, 7], &[(5, 1)]);

const LOCKS_BOTH: Round = (6, 2, Lock(7), &[7], &[5, 7], &[(5, 1), (7, 2)]);

const WORKED: &[&[Round]] = &[
    // Released by a later lock.
    &[
        LOCKS_FIVE,
        LOCKS_BOTH,
        (8, 2, Locks(&[(7, 2)]), &[], &[5, 7], &[(7, 2)]),
    ],
    // Not released by an earlier lock.
    &[
        LOCKS_FIVE,
        LOCKS_BOTH,
        (8, 2, Locks(&[(5, 1)]), &[], &[5, 7], &[(5, 1), (7, 2)]),
    ],
    // Released by a lock on another value.
    &[
        LOCKS_FIVE,
        LOCKS_BOTH,
        (8, 2, Locks(&[(9, 2)]), &[], &[5, 7], &[]),
    ],
    // Released by its own locks.
    &[
        LOCKS_FIVE,
        LOCKS_BOTH,
        (8, 3, Locks(&[(5, 1), (7, 2)]), &[5, 7], &[5, 7], &[(7, 2)]),
    ],
    // Locked again.
    &[
        (2, 1, Lock(5), &[5], &[5], &[(5, 1)]),
        (6, 2, Lock(5), &[5], &[5], &[(5, 2)]),
    ],
];

fn three(alloc: Global) -> Result<Config, Fail> {
    let init = Vec::from_slice(alloc, &[0, 0, 0])?;
    Ok(Config::new(3, 1, init)?)
}

fn kind(alloc: Global, says: Says) -> Result<Kind, AllocError> {
    match says {
        Says::Lock(value) => Ok(Kind::Lock(value)),
        Says::Locks(pairs) => {
            let pairs = Vec::from_slice(alloc, pairs)?;
            Ok(Kind::Locks(LockPairs::new(alloc, pairs)?))
        }
    }
}

fn body(alloc: Global, says: Says, proper: &[u64]) -> Result<Body, AllocError> {
    let kind = kind(alloc, says)?;
    let proper = Values::new(alloc, Vec::from_slice(alloc, proper)?)?;
    Ok(Body { kind, proper })
}

/// Hears this message in a round.
fn hear(
    node: &mut Node,
    alloc: Global,
    config: &Config,
    round: u64,
    sender: u64,
    body: Body,
) -> Result<(), Fail> {
    if round == 0 || !config.is_processor(3) || !config.is_processor(sender) {
        return Err(Fail::new("no round, or no processor"));
    }
    Ok(node.compute(alloc, config, 3, round, &[(sender, body)])?)
}

/// Whether the node has this.
fn has(node: &Node, proper: &[u64], locks: &[(u64, u64)]) -> bool {
    node.proper() == proper && node.locks() == locks && node.ack()
}

/// Whether the node goes through a round so.
fn passes(node: &mut Node, alloc: Global, config: &Config, it: &Round) -> Result<bool, Fail> {
    let (round, sender, says, told, proper, locks) = *it;
    hear(node, alloc, config, round, sender, body(alloc, says, told)?)?;
    Ok(has(node, proper, locks))
}

/// Whether the node goes through these rounds so.
fn goes(alloc: Global, rounds: &[Round]) -> Result<bool, Fail> {
    let config = three(alloc)?;
    let mut node = Node::new(alloc, 5)?;
    for round in rounds {
        if !passes(&mut node, alloc, &config, round)? {
            return Ok(false);
        }
    }
    Ok(true)
}

#[test]
fn nodes_lock_and_release(rt: HostRuntime) -> Result<(), Fail> {
    for (no, rounds) in WORKED.iter().enumerate() {
        assert!(rt; goes(rt.alloc(), *rounds)?, "{no}");
    }
    Ok(())
}
