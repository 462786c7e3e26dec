//! The messages that are under way to a processor.

ghost use Rattle.std.specs.Prelude.{◌≡◌, ◌<◌, ◌≤◌, ◌++◌, ◌∷◌, [], All, IfOk, OnOk};
ghost use Rattle.simulated_runs.specs.Trays.{due_ids, not_due};

use std::alloc::{AllocError, Global};
use std::marker::Model;

/// A message under way, and the tick from which on its receiver takes it.
#[derive(Clone, Copy, Debug)]
pub(crate) struct Posted {
    pub id: u64,
    pub due: u64,
}

/// The messages that are under way to a processor, in the order in which they were sent. Those that are lost aren't.
#[derive(Debug, Drop)]
pub(crate) struct Tray {
    posted: Vec<Posted>,
    /// No message is due before this tick.
    earliest: u64,
}

impl Model for Tray {
    ghost use Rattle.std.specs.Prelude.{◌≤◌, All, List};
    ghost use Rattle.simulated_runs.specs.declared.trays.Posted.{Posted};

    ghost Value = { List Posted };

    ghost view = { λ t. t.posted.items };

    ghost invariant = { λ t. All (λ m. t.earliest ≤ m.due) t.posted.items };
}

impl Tray {
    /// No message is under way. Takes no memory.
    pub(crate) fn new(alloc: Global) -> Self
        ensures { result ≡ [] }
    {
        Tray {
            posted: Vec::new(alloc),
            earliest: u64::MAX,
        }
    }

    /// Adds a message.
    pub(crate) fn add(&mut self, message: Posted) -> Result<(), AllocError>
        ensures added { OnOk result (self.new ≡ self.old ++ message ∷ []) }
    {
        let earliest = self.earliest.min(message.due);
        self.posted.push(message)?;
        self.earliest = earliest;
        Ok(())
    }

    /// Takes out the messages that are due by this tick, and gives their ids. If none is due, it looks at none.
    pub(crate) fn take_due(&mut self, alloc: Global, tick: u64) -> Result<Vec<u64>, AllocError>
        ensures due { IfOk result (λ ids. ids.items ≡ due_ids tick self.old) }
        ensures left { OnOk result (self.new ≡ not_due tick self.old) }
    {
        if tick < self.earliest {
            return Ok(Vec::new(alloc));
        }
        let ids = due_ids(alloc, &self.posted, tick)?;
        keep_later(&mut self.posted, tick);
        self.earliest = earliest(&self.posted);
        Ok(ids)
    }
}

/// The ids of those messages that are due by this tick.
fn due_ids(alloc: Global, posted: &[Posted], tick: u64) -> Result<Vec<u64>, AllocError>
    ensures { IfOk result (λ ids. ids.items ≡ due_ids tick posted.now) }
{
    let mut ids = Vec::new(alloc);
    for message in posted {
        if message.due <= tick {
            ids.push(message.id)?;
        }
    }
    Ok(ids)
}

/// Keeps those messages that aren't due by this tick.
fn keep_later(posted: &mut Vec<Posted>, tick: u64)
    ensures { posted.new.items ≡ not_due tick posted.old.items }
{
    posted.retain(|message| !(message.due <= tick));
}

/// The tick in which the first of these messages is due.
fn earliest(posted: &[Posted]) -> u64
    ensures { All (λ m. result ≤ m.due) posted.now }
{
    let mut earliest = u64::MAX;
    for message in posted {
        earliest = earliest.min(message.due);
    }
    earliest
}
