//! What tests of rounds need: tables of who heard whom, and what became of the nodes over one.

ghost use Rattle.std.specs.Prelude.{◌≤◌};
ghost use Rattle.step_trace.specs.declared.configurations.TheConstants.{MAX_PROCESSORS};

use lock_phases::Node;
use round_model::{Heard, MAX_ROUNDS, decided, run_rounds};
use std::alloc::Global;
use std::process::Abort;
use std::test::Fail;
use step_trace::{Config, ProcSet};

fn all_of(n: u64) -> ProcSet
    requires { n ≤ MAX_PROCESSORS }
{
    let mut set = ProcSet::empty();
    for p in 1..n + 1 {
        set = set.with(p);
    }
    set
}

/// Makes these the senders that a processor hears in a round.
fn hear(rt: &impl Abort, heard: &mut Heard, round: u64, proc: u64, senders: &[u64]) {
    let mut set = ProcSet::empty();
    for p in senders {
        assert!(rt; 1 <= *p && *p <= heard.n());
        set = set.with(*p);
    }
    hear_set(rt, heard, round, proc, set);
}

fn hear_set(rt: &impl Abort, heard: &mut Heard, round: u64, proc: u64, senders: ProcSet) {
    assert!(rt; 1 <= round && round <= heard.rounds());
    assert!(rt; 1 <= proc && proc <= heard.n());
    assert!(rt; senders.within(heard.n()));
    heard.set(round, proc, senders);
}

fn all_hear_all(rt: &impl Abort, heard: &mut Heard, round: u64) {
    let n = heard.n();
    for p in 1..n + 1 {
        hear_set(rt, heard, round, p, all_of(n));
    }
}

/// The table in which everybody hears everybody in every round.
pub fn all_heard(rt: &impl Abort, alloc: Global, n: u64, rounds: u64) -> Result<Heard, Fail>
    requires least { 2 ≤ n }
    requires most { n ≤ MAX_PROCESSORS }
    requires limit { rounds ≤ MAX_ROUNDS }
{
    let mut heard = Heard::new(alloc, n, rounds)?;
    for round in 1..rounds + 1 {
        all_hear_all(rt, &mut heard, round);
    }
    Ok(heard)
}

/// Three processors, and in these rounds each of them hears these senders. Nothing else is heard.
pub fn heard_by_three(
    rt: &impl Abort,
    alloc: Global,
    rounds: u64,
    hearing: &[(u64, [&[u64]; 3])],
) -> Result<Heard, Fail>
    requires { rounds ≤ MAX_ROUNDS }
{
    let mut heard = Heard::new(alloc, 3, rounds)?;
    for &(round, [by_one, by_two, by_three]) in hearing {
        hear(rt, &mut heard, round, 1, by_one);
        hear(rt, &mut heard, round, 2, by_two);
        hear(rt, &mut heard, round, 3, by_three);
    }
    Ok(heard)
}

fn config(alloc: Global, t: u64, init: &[u64]) -> Result<Config, Fail> {
    let init = Vec::from_slice(alloc, init)?;
    Ok(Config::new(init.len() as u64, t, init)?)
}

/// The nodes after all rounds of the table, of processors with these initial values of which `t` may be faulty.
pub fn run(
    rt: &impl Abort,
    alloc: Global,
    (t, init): (u64, &[u64]),
    heard: &Heard,
) -> Result<Vec<Node>, Fail> {
    let config = config(alloc, t, init)?;
    assert!(rt; heard.n() == config.n());
    Ok(run_rounds(alloc, &config, heard)?)
}

/// Whether the nodes have these decisions, and `decided` gives the first.
pub fn have_decisions(nodes: &[Node], decisions: &[Option<u64>]) -> bool {
    nodes.len() == decisions.len()
        && nodes
            .iter()
            .zip(decisions)
            .all(|(node, decision)| node.decision() == *decision)
        && decided(nodes) == first_of(decisions)
}

fn first_of(decisions: &[Option<u64>]) -> Option<u64> {
    for decision in decisions {
        if decision.is_some() {
            return *decision;
        }
    }
    None
}

/// Whether these PROPER values and locks are those of the nodes, and no node has a proposal or owes an
/// acknowledgement.
pub fn hold(nodes: &[Node], held: &[(&[u64], &[(u64, u64)])]) -> bool {
    nodes.len() == held.len()
        && nodes
            .iter()
            .zip(held)
            .all(|(node, (proper, locks))| holds(node, proper, locks))
}

fn holds(node: &Node, proper: &[u64], locks: &[(u64, u64)]) -> bool {
    node.proper() == proper && node.locks() == locks && node.proposal().is_none() && !node.ack()
}
