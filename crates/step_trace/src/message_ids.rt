//! The ids that a Receive takes.

ghost use Rattle.std.specs.Prelude.{◌≡◌, ◌<◌, IfOk, OnErr, length};
ghost use Rattle.step_trace.specs.KeptIds.{BoxesOnlyMore, ids_in};

use std::alloc::{AllocError, Global};
use std::marker::Model;

/// The ids of the messages that a Receive takes. The id of a message is the number of its Send.
#[derive(Debug, Drop)]
pub struct MessageIds {
    ids: Ids,
}

/// Most Receives of a long trace take one message or none, and so no memory of their own. What others take is boxed, so
/// that a step is small; two ids need no head of a list.
#[derive(Debug, Drop)]
enum Ids {
    Nothing,
    One([u64; 1]),
    Two(Box<[u64; 2], Global>),
    Several(Box<Vec<u64>, Global>),
}

impl Model for MessageIds {
    ghost use Rattle.std.specs.Prelude.{ℕ, List};
    ghost use Rattle.step_trace.specs.KeptIds.{ids_in};

    ghost Value = { List ℕ };

    ghost use Rattle.step_trace.specs.KeptIds.{BoxesOnlyMore};

    ghost view = { λ a. ids_in a.ids };

    ghost invariant = { λ a. BoxesOnlyMore a.ids };
}

impl MessageIds {
    ghost use Rattle.std.specs.Prelude.{◌≡◌, ◌<◌, [], ◌∷◌, IfOk, OnErr, length};

    /// The list of this id alone.
    pub fn one(id: u64) -> Self
        ensures { result ≡ id ∷ [] }
    {
        MessageIds {
            ids: Ids::One([id]),
        }
    }

    /// The list of these ids, in this order. It takes memory only if there is more than one.
    pub fn new(alloc: Global, items: Vec<u64>) -> Result<Self, AllocError>
        ensures ids { IfOk result (λ ids. ids ≡ items.items) }
        ensures more { OnErr result (1 < length items.items) }
    {
        let ids = match items.len() {
            0 => Ids::Nothing,
            1 => Ids::One([items[0]]),
            2 => Ids::Two(Box::new(alloc, [items[0], items[1]])?),
            _ => Ids::Several(Box::new(alloc, items)?),
        };
        Ok(MessageIds { ids })
    }

    /// The ids, in their order.
    pub fn as_slice(&self) -> &[u64]
        ensures { result.now ≡ self.now }
    {
        match &self.ids {
            Ids::Nothing => &[],
            Ids::One(one) => one,
            Ids::Two(two) => &**two,
            Ids::Several(items) => items.as_slice(),
        }
    }
}

impl Clone for MessageIds {
    ghost use Rattle.std.specs.Prelude.{◌≡◌, ◌≤◌, length};

    ghost is_clone = { λ a b. b ≡ a };

    // (one id or none takes no memory)
    ghost is_infallible = { λ ids. length ids ≤ 1 };

    fn clone(&self) -> Result<Self, AllocError> {
        Ok(MessageIds {
            ids: copied(&self.ids)?,
        })
    }
}

/// A copy of these ids. It takes memory only if there is more than one.
fn copied(ids: &Ids) -> Result<Ids, AllocError>
    requires { BoxesOnlyMore ids.now }
    ensures ids { IfOk result (λ copy. ids_in copy ≡ ids_in ids.now) }
    ensures boxes { IfOk result (λ copy. BoxesOnlyMore copy) }
    ensures more { OnErr result (1 < length (ids_in ids.now)) }
{
    match ids {
        Ids::Nothing => Ok(Ids::Nothing),
        Ids::One(one) => Ok(Ids::One([one[0]])),
        Ids::Two(two) => Ok(Ids::Two(two.clone()?)),
        Ids::Several(items) => Ok(Ids::Several(items.clone()?)),
    }
}
