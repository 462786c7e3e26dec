//! The messages that were sent, by their names and the nodes that they are for.

ghost use Rattle.std.specs.Prelude.{◌≡◌, IfOk, OnOk, if◌then◌else◌, not};
ghost use Rattle.trace_text.specs.Names.{has_name};
ghost use Rattle.event_log.specs.SentMessages.{Sent, copy_of, none_sent, place_for, place_in, with_copy, with_first};

use crate::names::{AddedName, NameSet};
use std::alloc::{AllocError, Global};
use std::marker::Model;

/// The messages that were sent. Most names are sent to one node, and looked up by themselves alone. What has a name
/// that was sent before is a copy, and looked up by its node too.
#[derive(Drop)]
pub struct SentMessages {
    /// The names, in the order of their first sends.
    names: NameSet,
    /// The place of the event that sent each of these names first.
    firsts: Vec<u32>,
    /// The copies, in the order of their sends.
    copies: NameSet,
    /// The place of the event that sent each of these copies.
    copied: Vec<u32>,
}

impl Model for SentMessages {
    ghost Value = { Sent };

    ghost view = { λ m.
        record {
          names = m.names;
          firsts = m.firsts.items;
          copies = m.copies;
          copied = m.copied.items;
        } };
}

impl SentMessages {
    /// No messages.
    pub(crate) fn new(alloc: Global) -> SentMessages
        ensures { result ≡ none_sent }
    {
        SentMessages {
            names: NameSet::new(alloc),
            firsts: Vec::new(alloc),
            copies: NameSet::new(alloc),
            copied: Vec::new(alloc),
        }
    }

    /// Takes in the first send of a name, by the event at this place. Gives whether it is the first: if not, nothing is
    /// taken in.
    pub(crate) fn add_first(
        &mut self,
        alloc: Global,
        name: &[u8],
        place: u32,
    ) -> Result<bool, AllocError>
        ensures is_first { IfOk result
            (λ is_first. has_name self.old.names name.now ≡ not is_first) }
        ensures sent { IfOk result
            (λ is_first. self.new
            ≡ (if is_first then with_first place name.now self.old else self.old)) }
    {
        let AddedName { is_new, .. } = self.names.add_new(alloc, name)?;
        if !is_new {
            return Ok(false);
        }
        self.firsts.push(place)?;
        Ok(true)
    }

    /// Takes in the send of a copy to a node, by the event at this place.
    pub(crate) fn add_copy(
        &mut self,
        alloc: Global,
        to: u64,
        name: &[u8],
        place: u32,
    ) -> Result<(), AllocError>
        ensures { OnOk result (self.new ≡ with_copy place (copy_of to name.now) self.old) }
    {
        let copy = copy_of(alloc, to, name)?;
        self.copies.add_new(alloc, copy.as_slice())?;
        self.copied.push(place)?;
        Ok(())
    }

    /// The place of the event that sent this name to this node. If none did, that of the first event that sent the
    /// name.
    pub(crate) fn place_for(
        &self,
        alloc: Global,
        to: u64,
        name: &[u8],
    ) -> Result<Option<u32>, AllocError>
        ensures { IfOk result (λ place. place ≡ place_for self.now to name.now) }
    {
        let copy = copy_place(alloc, &self.copies, self.copied.as_slice(), to, name)?;
        match copy {
            Some(place) => Ok(Some(place)),
            None => Ok(place_in(&self.names, self.firsts.as_slice(), name)),
        }
    }
}

/// The place of the event that sent a copy to a node.
fn copy_place(
    alloc: Global,
    copies: &NameSet,
    copied: &[u32],
    to: u64,
    name: &[u8],
) -> Result<Option<u32>, AllocError>
    ensures { IfOk result (λ place. place ≡ place_in copies.now copied.now (copy_of to name.now)) }
{
    // Most logs have none: then there is nothing to be put together.
    if copies.len() == 0 {
        return Ok(None);
    }
    let copy = copy_of(alloc, to, name)?;
    Ok(place_in(copies, copied, copy.as_slice()))
}

/// By what a copy is looked up.
#[tactic(auto, unfolding(crate::specs::SentMessages::copy_of))]
fn copy_of(alloc: Global, to: u64, name: &[u8]) -> Result<Vec<u8>, AllocError>
    ensures { IfOk result (λ copy. copy.items ≡ copy_of to name.now) }
{
    let mut copy = Vec::with_capacity(alloc, name.len().saturating_add(8))?;
    copy.extend_from_slice(&to.to_be_bytes())?;
    copy.extend_from_slice(name)?;
    Ok(copy)
}

/// The place of the event that sent what has this name.
fn place_in(names: &NameSet, places: &[u32], name: &[u8]) -> Option<u32>
    ensures { result ≡ place_in names.now places.now name.now }
{
    let index = names.place_of(name)?;
    places.get(index).copied()
}
