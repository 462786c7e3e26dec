//! What is kept of a processor: its node, what it sent in its round, and the messages that it may yet hear.

ghost use Rattle.std.specs.Prelude.{ℕ, ◌≡◌, ◌≢◌, ◌≤◌, ◌<◌, ◌⊎◌, IfOk, IfSome, IsSome, true, false, is_some, []};
ghost use Rattle.step_trace.specs.Configurations.{IsSetup};
ghost use Rattle.lock_phases.specs.Rounds.{part_of};
ghost use Rattle.lock_phases.specs.Nodes.{State};
ghost use Rattle.lock_phases.specs.NodeFunctions.{out};
ghost use Rattle.step_buffers.specs.Runs.{destination_after};
ghost use Rattle.step_buffers.specs.Moves.{next_send};
ghost use Rattle.step_buffers.specs.Worlds.{IsProcessor, AreProcessors};

use crate::inboxes::Inbox;
use crate::letters::Place;
use crate::waiting::Waiting;
use lock_phases::{Node, owner, part_of, phase_of};
use std::alloc::{AllocError, Global};
use step_trace::{Config, Trace};

/// What is kept of a processor.
#[derive(Debug, Drop)]
pub(crate) struct Processor {
    /// Its round.
    pub round: u64,
    /// The last destination of its round, or 0 if it sent nothing in it.
    pub last: u64,
    /// Its node at the round's start.
    pub node: Node,
    /// Since which round it has the decision that its node has; while it has none, since the first.
    pub since: u64,
    /// The ids of the messages that wait for it, rising.
    pub buffer: Waiting,
    /// The messages of its round and of later ones that it took.
    pub inbox: Inbox,
    /// What it said in its round, which it says to everybody to whom it sends in it. The place of no message if it
    /// sent nothing in it.
    pub said: Place,
}

/// The next destination of a processor. None if all messages of its round are out. Takes no memory.
fn next_destination(config: &Config, p: u64, round: u64, last: u64, node: &Node) -> Option<u64>
    requires positive { 1 ≤ round }
    requires within { last ≤ config.now.n }
    ensures destination { result ≡ destination_after config.now node.now p round last }
    ensures sends { IfSome result (λ to. IsSome (out config.now node.now p round to)) }
{
    let to = candidate(config, round, last);
    if to <= config.n() && node.sends_to(config, p, round, to) {
        return Some(to);
    }
    None
}

/// The processor after the last one to which anything goes next in a round, if anything does: lists and
/// acknowledgements go to the owner alone.
fn candidate(config: &Config, round: u64, last: u64) -> u64
    requires positive { 1 ≤ round }
    requires within { last ≤ config.now.n }
    ensures later { last < result }
    ensures first { (s : State) (me to : ℕ) → last < to → to < result
        → is_some (out config.now s me round to) ≡ false }
    ensures only { (s : State) (me to : ℕ) → last < to
        → is_some (out config.now s me round result) ≡ false
        → is_some (out config.now s me round to) ≡ false }
{
    let n = config.n();
    let next = last + 1;
    if !is_to_owner(round) {
        return next;
    }
    let owner = owner(n, phase_of(round));
    if next < owner { owner } else { next }
}

/// Whether it is a round in which nobody but the owner is sent anything.
fn is_to_owner(round: u64) -> bool
    requires { 1 ≤ round }
    ensures owner { result ≡ true → (part_of round ≡ 1) ⊎ (part_of round ≡ 3) }
    ensures all { result ≡ false → (part_of round ≢ 1) × (part_of round ≢ 3) }
{
    let part = part_of(round);
    part == 1 || part == 3
}

/// Where a processor sends next. None if all messages of its round are out.
pub(crate) fn next_send(trace: &Trace, sender: &Processor, p: u64) -> Option<u64>
    requires { IsProcessor trace.now.config trace.now.steps p sender.now }
    ensures { result ≡ next_send trace.now.config trace.now.steps p }
{
    next_destination(trace.config(), p, sender.round, sender.last, &sender.node)
}

/// Since which round a processor has its decision, once it ended a round with this node and is in the next.
pub(crate) fn decided_since(processor: &Processor, node: &Node, round: u64) -> u64
    ensures kept { node.now.decision ≡ processor.now.node.decision → result ≡ processor.now.since }
    ensures changed { node.now.decision ≢ processor.now.node.decision → result ≡ round }
{
    if node.decision() == processor.node.decision() {
        return processor.since;
    }
    round
}

/// What is kept of each processor before the first step.
pub(crate) fn opening_processors(
    alloc: Global,
    config: &Config,
) -> Result<Vec<Processor>, AllocError>
    ensures kept { IfOk result (λ kept. AreProcessors config.now [] kept.items) }
    ensures setup { IsSetup config.now }
{
    let mut processors = Vec::with_capacity(alloc, config.n() as usize)?;
    for value in config.init() {
        processors.push(Processor {
            round: 1,
            last: 0,
            node: Node::new(alloc, *value)?,
            since: 1,
            buffer: Waiting::new(alloc),
            inbox: Inbox::new(alloc),
            said: Place::empty(),
        })?;
    }
    Ok(processors)
}
