//! The nodes that the events of a log name. One that was named before is found at once, in most cases.

ghost use Rattle.std.specs.Prelude.{◌≡◌, ◌<◌, IfOk, OnOk, length};
ghost use Rattle.std.specs.List.{position_or_len};
ghost use Rattle.std.specs.Str.{bytes_eq};
ghost use Rattle.event_log.specs.Names.{with_name};

use crate::names::{AddedName, NameSet};
use std::alloc::{AllocError, Global};
use std::marker::Model;

/// How many places are remembered.
const SLOTS: usize = 256;

/// The names of nodes, in the order in which events name them.
#[derive(Drop)]
pub(crate) struct Nodes {
    names: NameSet,
    /// For each slot, the place of the last name that was found and has this slot. A name is looked up only if it is at
    /// another place.
    found: [u8; SLOTS],
}

impl Model for Nodes {
    ghost use Rattle.std.specs.Prelude.{List, ℕ};

    ghost Value = { List (List ℕ) };

    ghost view = { λ nodes. nodes.names };
}

impl Nodes {
    /// Nodes of these names.
    pub(crate) fn new(names: NameSet) -> Nodes
        ensures { result ≡ names }
    {
        Nodes {
            names,
            found: [0; SLOTS],
        }
    }

    /// How many nodes there are.
    pub(crate) fn len(&self) -> usize
        ensures { result ≡ length self.now }
    {
        self.names.len()
    }

    /// The names.
    pub(crate) fn into_names(self) -> NameSet
        ensures { result ≡ self }
    {
        self.names
    }

    /// Puts a name last, unless it is there, and gives its place.
    pub(crate) fn add(&mut self, alloc: Global, name: &[u8]) -> Result<usize, AllocError>
        ensures names { OnOk result (self.new ≡ with_name self.old name.now) }
        ensures place { IfOk result
            (λ place. place ≡ position_or_len (bytes_eq name.now) self.old) }
        ensures within { IfOk result (λ place. place < length self.new) }
    {
        let slot = slot_of(name) as usize;
        let guess = self.found[slot] as usize;
        let AddedName { place, .. } = self.names.add_near(alloc, name, guess)?;
        self.found[slot] = (place % SLOTS) as u8;
        Ok(place)
    }
}

/// The slot of a name. Names of a log mostly have different ones.
fn slot_of(name: &[u8]) -> u8 {
    let mut slot: u8 = 0;
    for byte in name {
        slot = slot.wrapping_mul(31).wrapping_add(*byte);
    }
    slot
}
