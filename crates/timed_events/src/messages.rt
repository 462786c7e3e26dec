//! The messages that an event receives.

use std::alloc::{AllocError, Global};
use std::marker::Model;

/// The messages that an event receives: each is the place of the event that sent it, or nothing if no event did.
#[derive(Debug, Drop)]
pub struct Messages {
    held: Held,
}

/// Most receives of a long log have one message or none, and so no memory of their own. What others have is boxed, so
/// that an event is small.
#[derive(Debug, Drop)]
enum Held {
    Nothing,
    One([Option<u32>; 1]),
    Several(Box<Vec<Option<u32>>, Global>),
}

impl Model for Messages {
    ghost use Rattle.std.specs.Prelude.{ℕ, List, Option};
    ghost use Rattle.timed_events.specs.HeldMessages.{messages_in};

    ghost Value = { List (Option ℕ) };

    ghost view = { λ m. messages_in m.held };
}

impl Messages {
    ghost use Rattle.std.specs.Prelude.{◌≡◌, ◌<◌, [], IfOk, OnErr, length};

    /// No messages.
    pub fn none() -> Self
        ensures { result ≡ [] }
    {
        Messages {
            held: Held::Nothing,
        }
    }

    /// These messages, in this order. They take memory only if there is more than one.
    pub fn new(alloc: Global, items: Vec<Option<u32>>) -> Result<Self, AllocError>
        ensures messages { IfOk result (λ messages. messages ≡ items.items) }
        ensures more { OnErr result (1 < length items.items) }
    {
        let held = match items.len() {
            0 => Held::Nothing,
            1 => Held::One([items[0]]),
            _ => Held::Several(Box::new(alloc, items)?),
        };
        Ok(Messages { held })
    }

    /// Copies of these messages, in this order. They take memory only if there is more than one.
    pub fn copied(alloc: Global, items: &[Option<u32>]) -> Result<Self, AllocError>
        ensures messages { IfOk result (λ messages. messages ≡ items.now) }
        ensures more { OnErr result (1 < length items.now) }
    {
        if items.is_empty() {
            return Ok(Messages::none());
        }
        if items.len() == 1 {
            return Ok(Messages {
                held: Held::One([items[0]]),
            });
        }
        let mut copies = Vec::with_capacity(alloc, items.len())?;
        copies.extend_from_slice(items)?;
        Messages::new(alloc, copies)
    }

    /// The messages, in their order.
    pub fn as_slice(&self) -> &[Option<u32>]
        ensures { result.now ≡ self.now }
    {
        match &self.held {
            Held::Nothing => &[],
            Held::One(one) => one,
            Held::Several(items) => items.as_slice(),
        }
    }
}
