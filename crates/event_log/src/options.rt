//! How a log is read.

ghost use Rattle.std.specs.Prelude.{◌<◌, ◌^◌};
ghost use Rattle.event_log.specs.Times.{nanoseconds_of};

use crate::names::NameSet;
use crate::times::{LogEnd, TimeUnit, Width};

/// How a log is read.
#[derive(Drop)]
pub struct Options {
    /// The nodes, in the order of their numbers; if they aren't listed, they are numbered as the log names them.
    pub nodes: Option<NameSet>,
    /// The unit of the log's times, which are then whole numbers of it. Else record 2 settles what they are.
    pub unit: Option<TimeUnit>,
    /// The length of a tick. One of 0 fits no times.
    pub width: Width,
    /// When the log ends, if not with its last event.
    pub until: Option<LogEnd>,
    /// The longest time without an event of a node that gets a receive of nothing, if any does.
    pub idle: Option<Width>,
    /// Whether events may go to later ticks than those of their times.
    pub spread: bool,
    /// Whether the clocks of the nodes are moved, so that each message is received later than it is sent.
    pub align: bool,
    /// Whether the sends of messages that no record receives are left out.
    pub drop_lost: bool,
    /// Whether the receives of a node in one tick become one, if it sends nothing between them.
    pub merge: bool,
    ghost short: { nanoseconds_of width < 2 ^ 94 },
}

/// Why texts give no options, in the order in which they are tested.
#[derive(Clone, Copy, Debug, PartialEq, Eq)]
pub enum OptionError {
    /// The nodes aren't 2 to 64 different names with one comma between each two.
    Nodes,
    /// The unit is none of `s`, `ms`, `us` and `ns`.
    Unit,
    /// The length of a tick is neither a number nor a duration, or isn't above 0.
    Tick,
    /// The end is neither a time nor a duration.
    Until,
    /// The longest time without an event is neither a number nor a duration, or isn't above 0.
    Idle,
    /// Out of memory.
    Memory,
}
