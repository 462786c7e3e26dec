//! The names of nodes and messages.

ghost use Rattle.std.specs.Prelude.{◌≡◌, ◌<◌, ℕ, List, [], IfSome, IfOk, IsTrue, OnOk, OnErr, is_some};
ghost use Rattle.std.specs.Prelude.{◌==◌, Some, true, false};
ghost use Rattle.std.specs.Prelude.{length, not, option_map, position, slice_get};
ghost use Rattle.std.specs.List.{position_or_len};
ghost use Rattle.std.specs.Str.{bytes_eq};
ghost use Rattle.trace_text.specs.Names.{has_name};
ghost use Rattle.event_log.specs.NameKeys.{name_of};
ghost use Rattle.event_log.specs.Names.{are_message_names, names_in, with_name};

use crate::name_keys::{NameKey, are_same};
use indexmap::IndexSet;
use std::alloc::{AllocError, Global};
use std::marker::Model;
use trace_text::names::is_message_name;

/// The greatest number of nodes.
pub(crate) const MAX_NODES: usize = 64;

/// A name, or several with one space between them.
#[derive(Debug, Drop)]
pub struct Name {
    bytes: Vec<u8>,
}

impl Model for Name {
    ghost Value = { List ℕ };

    ghost view = { λ name. name.bytes.items };
}

impl Name {
    /// A copy of these bytes.
    pub fn new(alloc: Global, bytes: &[u8]) -> Result<Name, AllocError>
        ensures { IfOk result (λ name. name ≡ bytes.now) }
    {
        let bytes = Vec::from_slice(alloc, bytes)?;
        Ok(Name { bytes })
    }

    /// The name's bytes.
    pub fn as_bytes(&self) -> &[u8]
        ensures { result.now ≡ self.now }
    {
        self.bytes.as_slice()
    }
}

/// Whether these bytes are names of messages with one space between them, possibly none.
pub fn are_message_names(field: &[u8]) -> bool
    ensures { result ≡ are_message_names field.now }
{
    if field.len() == 0 {
        return true;
    }
    for name in field.split(|byte| *byte == b' ') {
        if !is_message_name(name) {
            return false;
        }
    }
    true
}

/// A name that is in a set.
#[derive(Clone, Copy, Debug)]
pub struct AddedName {
    /// Its place.
    pub place: usize,
    /// Whether it wasn't there before.
    pub is_new: bool,
}

/// Different names, in the order in which they came. A name's place is its position, from 0.
#[derive(Drop)]
pub struct NameSet {
    names: IndexSet<NameKey<'static>>,
}

impl Model for NameSet {
    ghost Value = { List (List ℕ) };

    ghost view = { λ set. names_in set.names };
}

impl NameSet {
    /// No names.
    #[tactic(auto, unfolding(crate::specs::Names::names_in))]
    pub fn new(alloc: Global) -> NameSet
        ensures { result ≡ [] }
    {
        NameSet {
            names: IndexSet::new(alloc),
        }
    }

    /// How many names there are.
    pub fn len(&self) -> usize
        ensures { result ≡ length self.now }
    {
        self.names.len()
    }

    /// The place of a name.
    pub fn place_of(&self, name: &[u8]) -> Option<usize>
        ensures place { result ≡ position (bytes_eq name.now) self.now }
        ensures found { is_some result ≡ has_name self.now name.now }
        ensures within { IfSome result (λ place. place < length self.now) }
    {
        self.names.get_index_of(&NameKey::Lent(name))
    }

    /// The name at a place.
    pub fn name_at(&self, place: usize) -> Option<&[u8]>
        ensures { option_map (λ name. name.now) result ≡ slice_get self.now place }
    {
        match self.names.get_index(place) {
            Some(name) => Some(name.as_slice()),
            None => None,
        }
    }

    /// The same names in the same order.
    pub(crate) fn copy(&self) -> Result<NameSet, AllocError>
        ensures { IfOk result (λ set. set ≡ self.now) }
    {
        let names = self.names.clone()?;
        Ok(NameSet { names })
    }

    /// Puts a name last, unless it is there. Fails only if out of memory, and never for a name that is there.
    pub fn add(&mut self, alloc: Global, name: &[u8]) -> Result<AddedName, AllocError>
        ensures names { OnOk result (self.new ≡ with_name self.old name.now) }
        ensures place { IfOk result (λ a. a.place ≡ position_or_len (bytes_eq name.now) self.old) }
        ensures added { IfOk result (λ a. a.is_new ≡ not (has_name self.old name.now)) }
        ensures within { IfOk result (λ a. a.place < length self.new) }
        ensures kept { OnErr result (self.new ≡ self.old) }
        ensures more { OnErr result (has_name self.old name.now ≡ false) }
    {
        if let Some(place) = self.place_of(name) {
            return Ok(AddedName {
                place,
                is_new: false,
            });
        }
        self.add_new(alloc, name)
    }

    /// The same for a name that is most likely at a place, which is looked at first.
    pub(crate) fn add_near(
        &mut self,
        alloc: Global,
        name: &[u8],
        guess: usize,
    ) -> Result<AddedName, AllocError>
        ensures names { OnOk result (self.new ≡ with_name self.old name.now) }
        ensures place { IfOk result (λ a. a.place ≡ position_or_len (bytes_eq name.now) self.old) }
        ensures added { IfOk result (λ a. a.is_new ≡ not (has_name self.old name.now)) }
        ensures within { IfOk result (λ a. a.place < length self.new) }
        ensures kept { OnErr result (self.new ≡ self.old) }
        ensures more { OnErr result (has_name self.old name.now ≡ false) }
    {
        if self.is_at(guess, name) {
            return Ok(AddedName {
                place: guess,
                is_new: false,
            });
        }
        self.add(alloc, name)
    }

    /// Whether a name is at this place.
    fn is_at(&self, place: usize, name: &[u8]) -> bool
        ensures { IsTrue result → position (bytes_eq name.now) self.now ≡ Some place }
    {
        match self.names.as_slice().get(place) {
            Some(key) => are_same(key.as_slice(), name),
            None => false,
        }
    }

    /// The same for a name that is most likely new: it is looked up once, after it was copied.
    pub(crate) fn add_new(&mut self, alloc: Global, name: &[u8]) -> Result<AddedName, AllocError>
        ensures names { OnOk result (self.new ≡ with_name self.old name.now) }
        ensures place { IfOk result (λ a. a.place ≡ position_or_len (bytes_eq name.now) self.old) }
        ensures added { IfOk result (λ a. a.is_new ≡ not (has_name self.old name.now)) }
        ensures within { IfOk result (λ a. a.place < length self.new) }
        ensures kept { OnErr result (self.new ≡ self.old) }
    {
        let key = NameKey::new(alloc, name)?;
        insert(&mut self.names, key)
    }
}

/// Puts a name last, unless it is there.
fn insert(
    names: &mut IndexSet<NameKey<'static>>,
    key: NameKey<'static>,
) -> Result<AddedName, AllocError>
    ensures names { OnOk result
        (names_in names.new ≡ with_name (names_in names.old) (name_of key.entry)) }
    ensures place { IfOk result
        (λ a. a.place ≡ position_or_len (bytes_eq (name_of key.entry)) (names_in names.old)) }
    ensures added { IfOk result
        (λ a. a.is_new ≡ not (has_name (names_in names.old) (name_of key.entry))) }
    ensures within { IfOk result (λ a. a.place < length (names_in names.new)) }
    ensures kept { OnErr result (names_in names.new ≡ names_in names.old) }
{
    let Ok(added) = names.insert_full(key) else {
        return Err(AllocError);
    };
    Ok(AddedName {
        place: added.0,
        is_new: added.1,
    })
}
