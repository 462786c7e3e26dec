//! The events of a log.

ghost use Rattle.std.specs.Prelude.{◌≡◌, ◌≤◌, Err, IfOk, length};
ghost use Rattle.trace_text.specs.Records.{GivesUnless};
ghost use Rattle.event_log.specs.Logs.{events_in, seen_log};
ghost use Rattle.event_log.specs.Naming.{is_memory};
ghost use Rattle.event_log.specs.SoundLogs.{IsSound};
ghost use Rattle.event_log.specs.Stages.{staged_log};

use crate::names::NameSet;
use crate::reading::read_names;
use crate::refusals::LogError;
use crate::times::{TimeKind, TimeUnit};
use crate::workers::Workers;
use std::alloc::Global;
use timed_events::Event;
use trace_text::MAX_TEXT_BYTES;

/// The events of a log, with numbers in place of names.
#[derive(Drop)]
pub struct NamedEvents {
    /// What the times of the events are.
    pub kind: TimeKind,
    /// The nodes: a processor's number is its node's place and 1.
    pub nodes: NameSet,
    /// The events, in the order of the records.
    pub events: Vec<Event>,
}

/// The events that a log records. If a unit is given, the times are whole numbers of it. If nodes are `listed`, no
/// others may be named; `nodes` are numbered before those that the log names: the listed ones, or none.
///
/// There are 2 to 64 nodes, and at least one event, at most `MAX_EVENTS`.
///
/// Refuses in the order of `LogError`. The first record that is refused for itself decides; if none is, the first whose
/// names are refused. Memory comes only for a text that isn't too large.
pub fn events_of_log<W: Workers>(
    alloc: Global,
    workers: &W,
    text: &[u8],
    unit: Option<TimeUnit>,
    listed: Option<&NameSet>,
    nodes: NameSet,
) -> Result<NamedEvents, LogError>
    ensures exact { GivesUnless is_memory seen_log result
        (staged_log unit listed.entry nodes text.now) }
    ensures sound { IfOk result (λ log. IsSound (seen_log log)) }
    ensures more { result ≡ Err LogError.Memory → length text.now ≤ MAX_TEXT_BYTES }
{
    read_log(alloc, workers, text, unit, listed, nodes)
}

fn read_log<W: Workers>(
    alloc: Global,
    workers: &W,
    text: &[u8],
    unit: Option<TimeUnit>,
    listed: Option<&NameSet>,
    nodes: NameSet,
) -> Result<NamedEvents, LogError>
    ensures exact { GivesUnless is_memory seen_log result
        (events_in unit listed.entry nodes text.now) }
    ensures more { result ≡ Err LogError.Memory → length text.now ≤ MAX_TEXT_BYTES }
{
    let (kind, names) = read_names(alloc, workers, text, unit, listed, nodes)?;
    match names.into_events(workers, alloc) {
        Ok((nodes, events)) => Ok(NamedEvents {
            kind,
            nodes,
            events,
        }),
        Err(_) => Err(LogError::Memory),
    }
}
