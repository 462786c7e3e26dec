//! A Receive, which may end its processor's round.

ghost use Rattle.std.specs.Prelude.{◌≡◌, ◌+◌, ◌≤◌, None, true, false, length, vec_len, vec_capacity};
ghost use Rattle.std.specs.Prelude.{◌<◌, ◌&&◌, is_some, All, IfOk, OnOk, IfErr, OnErr};
ghost use Rattle.step_buffers.specs.Buffers.{buffer};
ghost use Rattle.step_buffers.specs.Moves.{next_send, taken_ids, receive_refusal, IsStepRefusal};
ghost use Rattle.step_buffers.specs.NextSteps.{receiving, node_after, IsNext, IsGrown};
ghost use Rattle.step_buffers.specs.Worlds.{AreLetters, IsProcessor, IsTurnOf, IsPacedRun, IsWorld};

use crate::appends::{append, last_ids};
use crate::inboxes::Inbox;
use crate::kept_messages::release;
use crate::letters::{Place, heard_in};
use crate::moves::{StepError, Take};
use crate::processors::{Processor, decided_since, next_send};
use crate::takes::{take_refusal, taken_ids};
use lock_phases::Node;
use std::alloc::{AllocError, Global};
use step_trace::{Act, MessageIds, Step, Trace};

/// The ids of the messages that processor `p` takes in a Receive, which ends its round if `ends`.
pub(crate) fn chosen(
    alloc: Global,
    trace: &Trace,
    receiver: &Processor,
    p: u64,
    take: Take,
    ends: bool,
) -> Result<MessageIds, StepError>
    requires receiver { IsProcessor trace.now.config trace.now.steps p receiver.now }
    ensures taken { IfOk result (λ ids. ids ≡ taken_ids take.entry (buffer trace.now.steps p)) }
    ensures ok { OnOk result
        (receive_refusal trace.now.config trace.now.steps p take.entry ends ≡ None) }
    ensures refused { IfErr result (λ e.
        IsStepRefusal e (receive_refusal trace.now.config trace.now.steps p take.entry ends)) }
{
    if is_early(trace, receiver, p, ends) {
        return Err(StepError::StillSending);
    }
    if let Some(why) = take_refusal(receiver.buffer.as_slice(), take) {
        return Err(why);
    }
    match taken_ids(alloc, receiver.buffer.as_slice(), take) {
        Ok(ids) => Ok(ids),
        Err(_) => Err(StepError::Memory),
    }
}

/// Whether this would end the round of `p` before all its messages are out.
fn is_early(trace: &Trace, receiver: &Processor, p: u64, ends: bool) -> bool
    requires { IsProcessor trace.now.config trace.now.steps p receiver.now }
    ensures { result ≡ (ends && is_some (next_send trace.now.config trace.now.steps p)) }
{
    if !ends {
        return false;
    }
    next_send(trace, receiver, p).is_some()
}

/// Takes these messages for processor `p` and, if `ends`, ends its round.
pub(crate) fn receive(
    alloc: Global,
    trace: &mut Trace,
    letters: &mut Vec<Place>,
    processors: &mut Vec<Processor>,
    p: u64,
    ends: bool,
    taken: MessageIds,
) -> Result<(), AllocError>
    requires world { IsWorld trace.old letters.old.items processors.old.items }
    requires next { IsNext trace.old (receiving p ends taken) }
    ensures world { IsWorld trace.new letters.new.items processors.new.items }
    ensures grown { OnOk result (IsGrown trace.old trace.new (receiving p ends taken)) }
    ensures err { OnErr result (trace.new ≡ trace.old) }
{
    let receiver = &mut processors[(p - 1) as usize];
    let turned = turned_node(alloc, trace, letters, receiver, p, ends, &taken)?;
    settle(trace, letters, receiver, p, ends, taken, turned)?;
    Ok(())
}

/// The node with which the round of `p` ends once it took these messages, if it ends; what is of its round is then at
/// hand.
fn turned_node(
    alloc: Global,
    trace: &Trace,
    letters: &[Place],
    receiver: &mut Processor,
    p: u64,
    ends: bool,
    taken: &MessageIds,
) -> Result<Option<Node>, AllocError>
    requires run { IsPacedRun trace.now }
    requires letters { AreLetters trace.now.config trace.now.steps letters.now }
    requires receiver { IsProcessor trace.now.config trace.now.steps p receiver.old }
    requires next { IsNext trace.now (receiving p ends taken.now) }
    ensures receiver { IsProcessor trace.now.config trace.now.steps p receiver.new }
    ensures turned { IfOk result (λ node. IsTurnOf trace.now p receiver.new ends taken.now node) }
{
    if !ends {
        return Ok(None);
    }
    receiver.inbox.gather(receiver.round)?;
    let node = computed(alloc, trace, letters, receiver, p, taken)?;
    Ok(Some(node))
}

/// The node of `p` after it took these messages and ended its round, if those of its round are at hand.
fn computed(
    alloc: Global,
    trace: &Trace,
    letters: &[Place],
    receiver: &Processor,
    p: u64,
    taken: &MessageIds,
) -> Result<Node, AllocError>
    requires run { IsPacedRun trace.now }
    requires letters { AreLetters trace.now.config trace.now.steps letters.now }
    requires receiver { IsProcessor trace.now.config trace.now.steps p receiver.now }
    requires next { IsNext trace.now (receiving p true taken.now) }
    requires gathered { All (λ e. receiver.now.round < e.0.0) receiver.now.inbox.later }
    ensures { IfOk result (λ node. node ≡ node_after trace.now p taken.now) }
{
    let config = trace.config();
    let round = receiver.round;
    let heard = heard_in(
        alloc,
        letters,
        receiver.inbox.near(),
        taken.as_slice(),
        round,
        config.n(),
    )?;
    let mut node = receiver.node.copy(alloc)?;
    node.compute(alloc, config, p, round, &heard)?;
    Ok(node)
}

/// Takes these messages for `p`, whose round ends with this node if there is one.
fn settle(
    trace: &mut Trace,
    letters: &mut Vec<Place>,
    receiver: &mut Processor,
    p: u64,
    ends: bool,
    taken: MessageIds,
    turned: Option<Node>,
) -> Result<(), AllocError>
    requires run { IsPacedRun trace.old }
    requires letters { AreLetters trace.old.config trace.old.steps letters.old.items }
    requires receiver { IsProcessor trace.old.config trace.old.steps p receiver.old }
    requires next { IsNext trace.old (receiving p ends taken) }
    requires turned { IsTurnOf trace.old p receiver.old ends taken turned }
    ensures run { IsPacedRun trace.new }
    ensures letters { AreLetters trace.new.config trace.new.steps letters.new.items }
    ensures receiver { IsProcessor trace.new.config trace.new.steps p receiver.new }
    ensures grown { OnOk result (IsGrown trace.old trace.new (receiving p ends taken)) }
    ensures err { OnErr result (trace.new ≡ trace.old) }
{
    push_receive(trace, letters, &mut receiver.inbox, p, ends, taken)?;
    let ids = last_ids(trace);
    receiver.buffer.take_out(ids);
    receiver.inbox.keep_ahead(letters, ids, receiver.round);
    letters.push_reserved(Place::empty());
    release(letters, ids, receiver.round);
    let Some(node) = turned else {
        return Ok(());
    };
    let round = receiver.round + 1;
    release(letters, receiver.inbox.near(), round);
    receiver.inbox.drop_past(letters, round);
    receiver.since = decided_since(receiver, &node, round);
    receiver.round = round;
    receiver.last = 0;
    receiver.said = Place::empty();
    receiver.node = node;
    Ok(())
}

/// Appends a Receive to the trace, and makes room for what it changes.
fn push_receive(
    trace: &mut Trace,
    letters: &mut Vec<Place>,
    inbox: &mut Inbox,
    p: u64,
    ends: bool,
    taken: MessageIds,
) -> Result<(), AllocError>
    requires run { IsPacedRun trace.old }
    requires next { IsNext trace.old (receiving p ends taken) }
    ensures letters { letters.new.items ≡ letters.old.items }
    ensures near { inbox.new.near ≡ inbox.old.near }
    ensures later { inbox.new.later ≡ inbox.old.later }
    ensures place { OnOk result (vec_len letters.new < vec_capacity letters.new) }
    ensures room { OnOk result (length taken ≤ inbox.new.room) }
    ensures run { IsPacedRun trace.new }
    ensures grown { OnOk result (IsGrown trace.old trace.new (receiving p ends taken)) }
    ensures err { OnErr result (trace.new ≡ trace.old) }
{
    letters.reserve(1)?;
    inbox.reserve(taken.as_slice().len())?;
    append(
        trace,
        Step {
            proc: p,
            act: Act::Receive { ends, ids: taken },
        },
    )
}
