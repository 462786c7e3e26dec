//! Inboxes: what is taken goes in by rounds, and each round's messages are brought to hand at its end.

ghost use Rattle.std.specs.Prelude.{◌≡◌, ◌≢◌, ◌+◌, ◌≤◌, ◌<◌, ◌⊎◌, ◌∷◌, ◌++◌, [], true, false};
ghost use Rattle.std.specs.Prelude.{length, All, Contains, IfOk, IfSome, IfNone, OnOk};
ghost use Rattle.std.specs.BinaryHeap.{IsHeap, heap_items, heap_len};
ghost use Rattle.std.specs.List.Sorted.{IsPermutation};
ghost use Rattle.step_buffers.specs.Inboxes.{Entry, earlier_first, kept_ids, ahead, IsEntered, IsMoved};

use crate::kept_messages::drop_past;
use crate::letters::{Place, round_of};
use std::alloc::{AllocError, Global};
use std::cmp::Reverse;
use std::collections::BinaryHeap;
use std::marker::Model;

/// The ids of messages that a processor took: those at hand, and those for later, each with its round. What
/// is for later isn't looked at before its round.
#[derive(Debug, Drop)]
pub(crate) struct Inbox {
    // The ids of the messages of the processor's round.
    near: Vec<u64>,
    // The rounds and ids of the others, of which the earliest round comes first.
    later: BinaryHeap<Reverse<(u64, u64)>>,
}

impl Model for Inbox {
    ghost use Rattle.std.specs.Prelude.{◌-◌, min, vec_len, vec_capacity};
    ghost use Rattle.std.specs.BinaryHeap.{IsHeap, heap_items, heap_len, heap_capacity};
    ghost use Rattle.step_buffers.specs.Inboxes.{Held, earlier_first};

    ghost Value = { Held };

    ghost view = { λ b. record {
      near = b.near.items;
      later = heap_items b.later;
      room = min (vec_capacity b.near - vec_len b.near) (heap_capacity b.later - heap_len b.later);
    } };

    ghost invariant = { λ b. IsHeap earlier_first (heap_items b.later) };
}

impl Inbox {
    /// An inbox without messages. Takes no memory.
    pub(crate) fn new(alloc: Global) -> Self
        ensures near { result.near ≡ [] }
        ensures later { result.later ≡ [] }
    {
        Inbox {
            near: Vec::new(alloc),
            later: BinaryHeap::new(alloc),
        }
    }

    /// The same messages.
    pub(crate) fn copy(&self, alloc: Global) -> Result<Self, AllocError>
        ensures moved { IfOk result (λ copy. IsMoved self.now copy.near copy.later) }
    {
        Ok(Inbox {
            near: Vec::from_slice(alloc, &self.near)?,
            later: BinaryHeap::from(Vec::from_slice(alloc, self.later.as_slice())?),
        })
    }

    /// The ids of the messages at hand.
    pub(crate) fn near(&self) -> &[u64]
        ensures value { result.now ≡ self.now.near }
    {
        &self.near
    }

    /// Makes room for this many more messages, of any rounds.
    pub(crate) fn reserve(&mut self, additional: usize) -> Result<(), AllocError>
        ensures near { self.new.near ≡ self.old.near }
        ensures later { self.new.later ≡ self.old.later }
        ensures room { OnOk result (additional ≤ self.new.room) }
    {
        self.near.reserve(additional)?;
        self.later.reserve(additional)
    }

    /// Brings to hand the messages of rounds up to this one. If memory is refused, some may have been brought.
    pub(crate) fn gather(&mut self, round: u64) -> Result<(), AllocError>
        ensures moved { IsMoved self.old self.new.near self.new.later }
        ensures ahead { OnOk result (All (λ e. round < e.0.0) self.new.later) }
    {
        loop {
            self.near.reserve(1)?;
            let Some(id) = next_due(&mut self.later, round) else {
                return Ok(());
            };
            self.near.push_reserved(id);
        }
    }

    /// Keeps those of these messages that are of this round or a later one, if there is room: those of this round
    /// at hand, the others for later.
    pub(crate) fn keep_ahead(&mut self, letters: &[Place], ids: &[u64], round: u64)
        requires room { length ids.now ≤ self.old.room }
        ensures kept { IsPermutation (kept_ids self.old ++ ahead letters.now round ids.now)
            (kept_ids self.new) }
        ensures entries { (e : Entry) → Contains self.new.later e
            → IsEntered self.old.later letters.now round e }
    {
        for id in ids {
            let sent = round_of(letters, *id);
            if round <= sent {
                self.keep(round, sent, *id);
            }
        }
    }

    /// Keeps a message, if there is room: at hand if it is of this round, else for later.
    fn keep(&mut self, round: u64, sent: u64, id: u64)
        requires room { 0 < self.old.room }
        ensures kept { IsPermutation (id ∷ kept_ids self.old) (kept_ids self.new) }
        ensures entries { (e : Entry) → Contains self.new.later e
            → Contains self.old.later e ⊎ ((sent ≢ round) × (e.0 ≡ (sent, id))) }
        ensures room { self.old.room ≤ self.new.room + 1 }
    {
        if sent == round {
            self.near.push_reserved(id);
        } else {
            self.keep_for_later(sent, id);
        }
    }

    /// Keeps a message of a round for later, if there is room.
    fn keep_for_later(&mut self, round: u64, id: u64)
        requires room { 0 < self.old.room }
        ensures near { self.new.near ≡ self.old.near }
        ensures later { (added : Entry) × (added.0 ≡ (round, id))
            × IsPermutation (added ∷ self.old.later) self.new.later }
        ensures room { self.old.room ≤ self.new.room + 1 }
    {
        self.later.push(Reverse((round, id))).unwrap();
    }

    /// Drops the messages at hand that are of earlier rounds than this one.
    pub(crate) fn drop_past(&mut self, letters: &[Place], round: u64)
        ensures near { self.new.near ≡ ahead letters.now round self.old.near }
        ensures later { self.new.later ≡ self.old.later }
    {
        drop_past(&mut self.near, letters, round);
    }
}

/// Takes the first of these out, if it is of a round up to this one.
fn next_due(later: &mut BinaryHeap<Reverse<(u64, u64)>>, round: u64) -> Option<u64>
    requires { IsHeap earlier_first (heap_items later.old) }
    ensures order { IsHeap earlier_first (heap_items later.new) }
    ensures length { IfSome result (λ s. heap_len later.new + 1 ≡ heap_len later.old) }
    ensures due { IfSome result (λ s. (e : Entry) × (e.0.1 ≡ s)
        × IsPermutation (heap_items later.old) (e ∷ heap_items later.new)) }
    ensures kept { IfNone result (heap_items later.new ≡ heap_items later.old) }
    ensures ahead { IfNone result (All (λ e. round < e.0.0) (heap_items later.new)) }
{
    if !is_due(later, round) {
        return None;
    }
    let Some(Reverse((_, id))) = later.pop() else {
        return None;
    };
    Some(id)
}

/// Whether one of these is of a round up to this one.
fn is_due(later: &BinaryHeap<Reverse<(u64, u64)>>, round: u64) -> bool
    requires { IsHeap earlier_first (heap_items later.now) }
    ensures some { result ≡ true → 0 < heap_len later.now }
    ensures none { result ≡ false → All (λ e. round < e.0.0) (heap_items later.now) }
{
    match later.peek() {
        Some(Reverse((first, _))) => *first <= round,
        None => false,
    }
}
