//! Events, the clock that turns their times into ticks, and why they make no trace.

use crate::messages::Messages;
use std::alloc::AllocError;
use std::mem::size_of;

/// One event of a log: when it happened, to whom, and what. Events are named by their places, from 0 on.
#[derive(Debug, Drop)]
pub struct Event {
    /// When it happened, in the unit of the clock.
    pub time: i128,
    /// The processor that sent or received, from 1 on.
    pub processor: u64,
    pub act: EventAct,
}

/// What happened.
#[derive(Debug, Drop)]
pub enum EventAct {
    /// A message was sent to this processor.
    Send { to: u64 },
    /// These messages were received, possibly none.
    Receive { messages: Messages },
}

// (a log may have a million of them)
const _: () = prove!(size_of::<Event>() == 48);

impl EventAct {
    ghost use Rattle.std.specs.Prelude.{◌≡◌};
    ghost use Rattle.timed_events.specs.Checks.{received_in};

    /// The messages that it receives: none in a Send.
    pub fn messages(&self) -> &[Option<u32>]
        ensures { result.now ≡ received_in self.now }
    {
        match self {
            EventAct::Send { .. } => &[],
            EventAct::Receive { messages } => messages.as_slice(),
        }
    }
}

/// How times become ticks.
#[derive(Clone, Copy, Debug)]
pub struct Clock {
    /// The length of a tick in units of time, above 0.
    pub width: u128,
    /// When the log ends, if not with its last event.
    pub until: Option<i128>,
}

/// What would set two events in different ticks.
#[derive(Clone, Copy, Debug, PartialEq, Eq)]
pub enum Hint {
    /// Shorter ticks, since the times differ.
    ShorterTick,
    /// Spreading the events, unless their causes are in a cycle.
    Spread,
}

/// Why events make no trace, in the order in which the reasons are tested: first those of the times, then those of the
/// events in their order; of one event those of its messages in their order. If events may be spread, `Cycle` comes
/// after those of the messages of all events, and none is `NotLater` or `SecondEvent`. `event` is a place among the
/// events, `message` one among the messages of that event.
#[derive(Clone, Copy, Debug, PartialEq, Eq)]
pub enum EventError {
    /// The log ends before the time of some event.
    UntilTooEarly,
    /// The last tick would be above the greatest that a trace may have.
    TooManyTicks,
    /// No event sent the message.
    NeverSent {
        event: usize,
        message: usize,
    },
    /// The message was sent to another processor.
    WrongReceiver {
        event: usize,
        message: usize,
    },
    /// The message was received before, by an earlier event or earlier by this one.
    ReceivedBefore {
        event: usize,
        message: usize,
    },
    /// The message was received no later than it was sent.
    NotLater {
        event: usize,
        message: usize,
        hint: Option<Hint>,
    },
    /// An earlier event is of the same processor in the same tick.
    SecondEvent {
        event: usize,
        tick: u64,
        hint: Option<Hint>,
    },
    /// If events may be spread: this one, and none before it, is in a cycle of causes or behind one.
    Cycle {
        event: usize,
    },
    /// Out of memory.
    Memory,
}

impl From<AllocError> for EventError {
    ghost use Rattle.std.specs.Prelude.{◌≡◌};
    ghost use Rattle.timed_events.specs.declared.events.EventError.TheVariants as refused;

    ghost from_gives = { λ _ made. made ≡ refused.Memory };

    fn from(_: AllocError) -> Self {
        EventError::Memory
    }
}
