//! Atomic steps of processors.

use crate::message_ids::MessageIds;

/// What a processor does in an atomic step (section 2 of the 1988 paper).
#[derive(Clone, Debug, Drop)]
pub enum Act {
    /// It sends one message to a processor.
    Send { to: u64 },
    /// It takes messages out of its buffer, possibly none; `ends` says that its round ends here.
    Receive { ends: bool, ids: MessageIds },
}

impl Act {
    ghost use Rattle.std.specs.Prelude.{◌≡◌, ◌↔◌, IsTrue};
    ghost use Rattle.step_trace.specs.Steps.{act_ids};

    /// The ids that it takes: none in a Send.
    pub fn ids(&self) -> &[u64]
        ensures { result.now ≡ act_ids self.now }
    {
        match self {
            Act::Send { .. } => &[],
            Act::Receive { ids, .. } => ids.as_slice(),
        }
    }

    /// Whether it does the same as another.
    pub fn is_same(&self, other: &Act) -> bool
        ensures { IsTrue result ↔ (self.now ≡ other.now) }
    {
        match (self, other) {
            (Act::Send { to }, Act::Send { to: other_to }) => *to == *other_to,
            (
                Act::Receive { ends, ids },
                Act::Receive {
                    ends: other_ends,
                    ids: other_ids,
                },
            ) => *ends == *other_ends && ids.as_slice() == other_ids.as_slice(),
            _ => false,
        }
    }
}

/// An atomic step: one Send or one Receive of one processor.
#[derive(Clone, Debug, Drop)]
pub struct Step {
    pub proc: u64,
    pub act: Act,
}

impl Step {
    ghost use Rattle.std.specs.Prelude.{◌≡◌, ◌↔◌, IsTrue};

    /// Whether it is the same step as another.
    pub fn is_same(&self, other: &Step) -> bool
        ensures { IsTrue result ↔ (self.now ≡ other.now) }
    {
        self.proc == other.proc && self.act.is_same(&other.act)
    }
}
