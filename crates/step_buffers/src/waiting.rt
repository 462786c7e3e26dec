//! What waits for a processor: rising ids that are added behind and taken out anywhere.

use crate::removals::{cut, take_out};
use std::alloc::{AllocError, Global};
use std::marker::Model;

/// The ids of the messages that wait for a processor, in one piece. Those that were taken from the front stay before
/// them for a while, so that the first one is taken out without moving the others.
#[derive(Debug, Drop)]
pub(crate) struct Waiting {
    ids: Vec<u64>,
    // How many of the ids no longer wait: all those before this place.
    start: usize,
}

impl Model for Waiting {
    ghost use Rattle.std.specs.Prelude.{◌≤◌, ◌-◌, length, drop, vec_len, vec_capacity};
    ghost use Rattle.step_buffers.specs.Queues.{Queue};

    ghost Value = { Queue };

    ghost view = { λ w. record {
      items = drop w.start w.ids.items;
      gone = w.start;
      room = vec_capacity w.ids - vec_len w.ids;
    } };

    ghost invariant = { λ w. w.start ≤ length w.ids.items };
}

impl Waiting {
    ghost use Rattle.std.specs.Prelude.{◌≡◌, ◌<◌, ◌≤◌, ◌++◌, ◌∷◌, [], length, IfOk, OnOk};
    ghost use Rattle.std.specs.List.Sorted.{IsStrictlyIncreasing};
    ghost use Rattle.step_buffers.specs.Moves.{without};

    /// Nothing waits. Takes no memory.
    pub(crate) fn new(alloc: Global) -> Self
        ensures items { result.items ≡ [] }
    {
        Waiting {
            ids: Vec::new(alloc),
            start: 0,
        }
    }

    /// The same ids. Takes memory for those that wait.
    pub(crate) fn copy(&self, alloc: Global) -> Result<Self, AllocError>
        ensures items { IfOk result (λ copy. copy.items ≡ self.now.items) }
    {
        Ok(Waiting {
            ids: Vec::from_slice(alloc, self.as_slice())?,
            start: 0,
        })
    }

    /// The ids that wait.
    pub(crate) fn as_slice(&self) -> &[u64]
        ensures value { result.now ≡ self.now.items }
    {
        &self.ids[self.start..]
    }

    /// Makes room for one id more. If more ids are gone than wait, their places are used again.
    pub(crate) fn reserve(&mut self) -> Result<(), AllocError>
        ensures items { self.new.items ≡ self.old.items }
        ensures gone { self.new.gone ≤ length self.new.items }
        ensures room { OnOk result (0 < self.new.room) }
    {
        if self.start > self.ids.len() - self.start {
            cut(&mut self.ids, 0, self.start);
            self.start = 0;
        }
        self.ids.reserve(1)
    }

    /// Adds an id behind the others. Asks for room.
    pub(crate) fn push_reserved(&mut self, id: u64)
        requires { 0 < self.old.room }
        ensures items { self.new.items ≡ self.old.items ++ id ∷ [] }
    {
        self.ids.push_reserved(id);
    }

    /// Takes out those of these ids that wait. Takes time in the ids. If neither the first nor the last of what
    /// waits is among them, it also takes time in what is between them, and on their shorter side.
    pub(crate) fn take_out(&mut self, ids: &[u64])
        requires rising { IsStrictlyIncreasing ids.now }
        requires waiting { IsStrictlyIncreasing self.old.items }
        ensures items { self.new.items ≡ without ids.now self.old.items }
    {
        self.start = take_out(&mut self.ids, self.start, ids);
    }
}
