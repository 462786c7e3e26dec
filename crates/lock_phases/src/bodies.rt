//! What a message says: its kind, and the PROPER set that is attached to it.

use crate::shared_lists::SharedList;
use std::alloc::{AllocError, Global};
use std::marker::Model;

/// A list of values. Its clones share it, and an empty one takes no memory.
#[derive(Debug, Drop)]
pub struct Values {
    items: SharedList<u64>,
}

impl Model for Values {
    ghost use Rattle.std.specs.Prelude.{ℕ, List};

    ghost Value = { List ℕ };

    ghost view = { λ a. a.items };
}

impl Values {
    ghost use Rattle.std.specs.Prelude.{◌≡◌, ◌<◌, length, IfOk, OnErr};

    /// The list of these values, in this order. Takes no memory for an empty one.
    pub fn new(alloc: Global, items: Vec<u64>) -> Result<Self, AllocError>
        ensures ok { IfOk result (λ values. values ≡ items.items) }
        ensures more { OnErr result (0 < length items.items) }
    {
        Ok(Values {
            items: SharedList::new(alloc, items)?,
        })
    }

    /// Puts these values in place of its own.
    pub(crate) fn set(&mut self, values: Values)
        ensures { self.new ≡ values }
    {
        *self = values;
    }

    /// The values, in their order.
    pub fn as_slice(&self) -> &[u64]
        ensures { result.now ≡ self.now }
    {
        self.items.as_slice()
    }
}

impl Clone for Values {
    ghost use Rattle.std.specs.Prelude.{◌≡◌, []};

    ghost is_clone = { λ a b. b ≡ a };

    ghost is_infallible = { λ a. a ≡ [] };

    fn clone(&self) -> Result<Self, AllocError> {
        Ok(Values {
            items: self.items.clone()?,
        })
    }
}

/// A list of locks, each a value with the phase in which it was locked. Its clones share it, and an empty
/// one takes no memory.
#[derive(Debug, Drop)]
pub struct LockPairs {
    pairs: SharedList<(u64, u64)>,
}

impl Model for LockPairs {
    ghost use Rattle.std.specs.Prelude.{ℕ, List};

    ghost Value = { List (ℕ × ℕ) };

    ghost view = { λ a. a.pairs };
}

impl LockPairs {
    ghost use Rattle.std.specs.Prelude.{◌≡◌, ◌<◌, length, IfOk, OnErr};

    /// The list of these locks, in this order. Takes no memory for an empty one.
    pub fn new(alloc: Global, pairs: Vec<(u64, u64)>) -> Result<Self, AllocError>
        ensures ok { IfOk result (λ locks. locks ≡ pairs.items) }
        ensures more { OnErr result (0 < length pairs.items) }
    {
        Ok(LockPairs {
            pairs: SharedList::new(alloc, pairs)?,
        })
    }

    /// The locks, in their order.
    pub fn as_slice(&self) -> &[(u64, u64)]
        ensures { result.now ≡ self.now }
    {
        self.pairs.as_slice()
    }
}

impl Clone for LockPairs {
    ghost use Rattle.std.specs.Prelude.{◌≡◌, []};

    ghost is_clone = { λ a b. b ≡ a };

    ghost is_infallible = { λ a. a ≡ [] };

    fn clone(&self) -> Result<Self, AllocError> {
        Ok(LockPairs {
            pairs: self.pairs.clone()?,
        })
    }
}

/// What a message says, one kind for each part of a phase (section 3 of the 1988 paper).
#[derive(Clone, Debug, Drop)]
pub enum Kind {
    /// To the owner: the sender's values that are acceptable and proper.
    List(Values),
    /// From the owner: lock this value.
    Lock(u64),
    /// To the owner: the sender locked the owner's value.
    Ack,
    /// To everybody: the sender's locks.
    Locks(LockPairs),
}

/// The body of a message.
#[derive(Clone, Debug, Drop)]
pub struct Body {
    pub kind: Kind,
    /// The sender's PROPER values.
    pub proper: Values,
}

impl Body {
    ghost use Rattle.std.specs.Prelude.{◌≡◌};
    ghost use Rattle.lock_phases.specs.Messages.{listed_values, locked_value, is_ack, told_locks};

    /// The values of a List, and none of another kind.
    pub(crate) fn listed_values(&self) -> &[u64]
        ensures { result.now ≡ listed_values self.now.kind }
    {
        match &self.kind {
            Kind::List(values) => values.as_slice(),
            _ => &[],
        }
    }

    /// The value of a Lock, and none of another kind.
    pub(crate) fn locked_value(&self) -> Option<u64>
        ensures { result ≡ locked_value self.now.kind }
    {
        match &self.kind {
            Kind::Lock(value) => Some(*value),
            _ => None,
        }
    }

    /// Whether it is an acknowledgement.
    pub(crate) fn is_ack(&self) -> bool
        ensures { result ≡ is_ack self.now.kind }
    {
        match &self.kind {
            Kind::Ack => true,
            _ => false,
        }
    }

    /// The locks in a message of a lock-release round, and none for another kind.
    pub(crate) fn told_locks(&self) -> &[(u64, u64)]
        ensures { result.now ≡ told_locks self.now.kind }
    {
        match &self.kind {
            Kind::Locks(pairs) => pairs.as_slice(),
            _ => &[],
        }
    }
}
