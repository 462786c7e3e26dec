//! Rounds over a table of who heard whom.

ghost use Rattle.std.specs.Prelude.{◌≡◌, ◌≤◌, ◌*◌, ℕ, IfOk, OnOk, length};
ghost use Rattle.step_trace.specs.Configurations.{IsProc, IsSetup};
ghost use Rattle.step_trace.specs.Processors.{IsWithin};
ghost use Rattle.round_model.specs.RoundStates.{messages_heard, states_after};
ghost use Rattle.round_model.specs.Agreement.{AgreeAll, AreInitialValues};
ghost use Rattle.round_model.specs.BoundedDecision.{IsInTouch, HearsAllOf, deciding_round, HaveDecided};
ghost use Rattle.round_model.specs.BoundedDecision.{HoldOneValue, LocksAreProper};
ghost use Rattle.round_model.specs.HeardSets.{table_of, rows_of};
ghost use Rattle.round_model.specs.NodeLists.{node_of, opening_nodes, messages_of_round};
ghost use Rattle.round_model.specs.NodeLists.{nodes_after_round, first_decision};

use crate::agreements::agreement;
use crate::bounded_decisions::decided_by;
use crate::heard_sets::Heard;
use lock_phases::{Body, Node};
use std::alloc::{AllocError, Global};
use step_trace::Config;

/// The nodes of all processors, in their order, after all rounds of the table (section 3 of the 1988
/// paper).
///
/// In a round each processor sends what its node has to send, and hears what the senders in its set of the
/// round sent to it. Then it computes. For every table, no two of the nodes decide differently, and what they
/// decide is somebody's initial value. If the processors of a set of at least N - t hear one another from
/// some round on, and the table has rounds enough, each of them has decided (`decided_by`). Asks that the
/// table has the configuration's number of processors.
pub fn run_rounds(alloc: Global, config: &Config, heard: &Heard) -> Result<Vec<Node>, AllocError>
    requires { heard.now.n ≡ config.now.n }
    ensures states { IfOk result
        (λ nodes. nodes.items ≡ states_after config.now (table_of heard.now) heard.now.rounds) }
    ensures agreement { IfOk result (λ nodes. AgreeAll nodes.items) }
    ensures validity { IfOk result (λ nodes. AreInitialValues config.now nodes.items) }
    ensures decided { IfOk result
        (λ nodes. (set first : ℕ)
        → IsInTouch config.now set (table_of heard.now) first (deciding_round config.now first) →
        deciding_round config.now first ≤ heard.now.rounds
        → HaveDecided set (node_of nodes.items)) }
    ensures one_lock { IfOk result
        (λ nodes. (set phase : ℕ) → IsWithin set config.now.n → 1 ≤ phase
        → heard.now.rounds ≡ 4 * phase →
        HearsAllOf set (table_of heard.now) (4 * phase) → HoldOneValue set (node_of nodes.items)) }
    ensures proper { IfOk result
        (λ nodes. (set phase : ℕ) → IsWithin set config.now.n → 1 ≤ phase
        → heard.now.rounds ≡ 4 * phase →
        HearsAllOf set (table_of heard.now) (4 * phase)
        → LocksAreProper set (node_of nodes.items)) }
{
    agreement();
    decided_by();
    let mut nodes = opening_nodes(alloc, config)?;
    for passed in 0..heard.rounds() {
        run_round(alloc, config, heard, passed + 1, &mut nodes)?;
    }
    Ok(nodes)
}

/// The decision of the first node that has one. (Of the nodes of one round all others that have one have
/// the same.)
pub fn decided(nodes: &[Node]) -> Option<u64>
    ensures { result ≡ first_decision nodes.now }
{
    for node in nodes {
        if let Some(value) = node.decision() {
            return Some(value);
        }
    }
    None
}

/// The opening nodes of all processors.
fn opening_nodes(alloc: Global, config: &Config) -> Result<Vec<Node>, AllocError>
    ensures nodes { IfOk result (λ nodes. nodes.items ≡ opening_nodes config.now) }
    ensures setup { IsSetup config.now }
{
    let mut nodes = Vec::with_capacity(alloc, config.n() as usize)?;
    for value in config.init() {
        nodes.push(Node::new(alloc, *value)?)?;
    }
    Ok(nodes)
}

/// Takes the nodes through a round. All messages are sent before any node changes.
fn run_round(
    alloc: Global,
    config: &Config,
    heard: &Heard,
    round: u64,
    nodes: &mut [Node],
) -> Result<(), AllocError>
    requires table { heard.now.n ≡ config.now.n }
    requires nodes { length nodes.old ≡ config.now.n }
    requires first { 1 ≤ round }
    requires last { round ≤ heard.now.rounds }
    ensures { OnOk result
        (nodes.new ≡ nodes_after_round config.now (table_of heard.now) round nodes.old) }
{
    let messages = messages_of_round(alloc, config, heard, round, nodes)?;
    for (i, node) in nodes.iter_mut().enumerate() {
        node.compute(alloc, config, i as u64 + 1, round, &messages[i])?;
    }
    Ok(())
}

/// The messages that each processor hears in a round.
fn messages_of_round(
    alloc: Global,
    config: &Config,
    heard: &Heard,
    round: u64,
    nodes: &[Node],
) -> Result<Vec<Vec<(u64, Body)>>, AllocError>
    requires table { heard.now.n ≡ config.now.n }
    requires nodes { length nodes.now ≡ config.now.n }
    requires first { 1 ≤ round }
    requires last { round ≤ heard.now.rounds }
    ensures { IfOk result
        (λ messages. rows_of messages.items
        ≡ messages_of_round config.now (table_of heard.now) round nodes.now) }
{
    let mut messages = Vec::new(alloc);
    for p in 1..config.n() + 1 {
        messages.push(messages_to(alloc, config, heard, round, nodes, p)?)?;
    }
    Ok(messages)
}

/// The messages that a processor hears in a round, in the order of their senders.
fn messages_to(
    alloc: Global,
    config: &Config,
    heard: &Heard,
    round: u64,
    nodes: &[Node],
    to: u64,
) -> Result<Vec<(u64, Body)>, AllocError>
    requires table { heard.now.n ≡ config.now.n }
    requires nodes { length nodes.now ≡ config.now.n }
    requires first { 1 ≤ round }
    requires last { round ≤ heard.now.rounds }
    requires receiver { IsProc config.now to }
    ensures { IfOk result
        (λ messages. messages.items
        ≡ messages_heard config.now (table_of heard.now) (node_of nodes.now) to round) }
{
    let senders = heard.get(round, to);
    let mut messages = Vec::new(alloc);
    for (i, node) in nodes.iter().enumerate() {
        let sender = i as u64 + 1;
        if !senders.contains(sender) {
            continue;
        }
        if let Some(body) = node.out(alloc, config, sender, round, to)? {
            messages.push((sender, body))?;
        }
    }
    Ok(messages)
}
