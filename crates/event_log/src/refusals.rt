//! Why a log is refused.

use crate::columns::Column;
use crate::cycle_lines::CycleLines;
use crate::names::Name;
use std::alloc::AllocError;
use thiserror::Error;
use timed_events::Hint;

/// Why a log is refused, in the order in which the stages and their reasons are tested. If clocks are to be aligned,
/// the reasons against messages whatever their times, then NoOffsets and TooLate, come right after IdleUnfit. So does
/// NoEvents, after these, if lost sends are left out. A record's number is its place among all records, from 1; the
/// header is record 1.
#[derive(Debug, Drop, Error)]
pub enum LogError {
    /// The text has more than 67,108,864 bytes.
    TooLarge,
    /// The header lacks this column, and none before it.
    NoColumn(Column),
    /// The header has this column twice, and none before it.
    TwoColumns(Column),
    /// The start of a window isn't of the kind of the times, or is after the window's end.
    FromUnfit,
    /// There are more than 1,000,000 events.
    TooManyEvents,
    /// The record hasn't as many fields as the header.
    BadFields(u64),
    /// The time isn't of the kind of the first event's, or that is of no kind; or it is no whole number, and a unit is
    /// given.
    BadTime(u64),
    /// The event is neither a send nor a receive.
    BadEvent(u64),
    /// The node, or else the node that a send is for, is no name; or it is this one, which the list hasn't.
    BadNode(u64, Option<Name>),
    /// A send's message isn't a name, or a receive's aren't names with one space between them.
    BadMessage(u64),
    /// The header is the only record; or all events are lost sends, and these are left out.
    NoEvents,
    /// The record names a 65th node.
    TooManyNodes(u64),
    /// An earlier record sent a message of this name to the same node.
    SentBefore(u64, Name),
    /// All events together name fewer than two nodes.
    TooFewNodes,
    /// The length of a tick is a duration, and the times are numbers; or it is 0.
    TickUnfit,
    /// The end of the log isn't of the kind of the times; or, which is tested after IdleUnfit and what comes right
    /// after it, it is before some event.
    UntilUnfit,
    /// The longest time without an event that is filled is a duration, and the times are numbers.
    IdleUnfit,
    /// The last tick would be above the greatest that a trace may have.
    TooManyTicks,
    /// No record sent the message.
    NeverSent(u64, Name),
    /// Messages of this name were sent to other nodes alone. The node of the first is named last.
    WrongReceiver(u64, Name, Name),
    /// The message was received by an earlier record, or earlier in this one.
    ReceivedBefore(u64, Name),
    /// The message was received no later than it was sent; with what would help.
    NotLater(u64, Name, Option<Hint>),
    /// An earlier record is of the same node in the same tick; with what would help.
    SecondEvent(u64, Name, u64, Option<Hint>),
    /// The event is in a cycle of messages or behind one, and none before it is; with the lines of the hops of such a
    /// cycle.
    Cycle(u64, CycleLines),
    /// If clocks are to be aligned: no offsets bring the messages into order; with the lines of a cycle of clocks.
    NoOffsets(CycleLines),
    /// If clocks are to be aligned: a time would be later than any of its kind, or a sum of times is too great.
    TooLate,
    /// The events and the receives of nothing are more than 1,000,000.
    TooManySteps,
    /// Out of memory.
    Memory,
}

impl From<AllocError> for LogError {
    ghost use Rattle.std.specs.Prelude.{◌≡◌};
    ghost use Rattle.event_log.specs.declared.refusals.LogError.TheVariants as why;

    ghost from_gives = { λ _ made. made ≡ why.Memory };

    fn from(_: AllocError) -> Self {
        LogError::Memory
    }
}
