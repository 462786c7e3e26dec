//! The log that a text and options give.

ghost use Rattle.std.specs.Prelude.{◌≡◌, [], Ok, IfErr, IfOk, unwrap_or};
ghost use Rattle.event_log.specs.ReadLogs.{IsRead, IsReadRefusal};
ghost use Rattle.event_log.specs.Logs.{seen_log};
ghost use Rattle.event_log.specs.SoundLogs.{IsSound};

use crate::logs::{NamedEvents, events_of_log};
use crate::names::NameSet;
use crate::options::Options;
use crate::refusals::LogError;
use crate::workers::Workers;
use std::alloc::{AllocError, Global};

/// The events that a log records; if nodes are listed, its nodes are listed ones.
pub(crate) fn events_by<W: Workers>(
    alloc: Global,
    workers: &W,
    text: &[u8],
    options: &Options,
) -> Result<NamedEvents, LogError>
    ensures read { IfOk result (λ log. IsRead options.now text.now (Ok (seen_log log))) }
    ensures sound { IfOk result (λ log. IsSound (seen_log log)) }
    ensures refused { IfErr result (IsReadRefusal options.now text.now) }
{
    let Ok(nodes) = numbered_first(alloc, options) else {
        return Err(LogError::Memory);
    };
    events_of_log(
        alloc,
        workers,
        text,
        options.unit,
        options.nodes.as_ref(),
        nodes,
    )
}

/// The nodes that are numbered before those that the log names.
fn numbered_first(alloc: Global, options: &Options) -> Result<NameSet, AllocError>
    ensures { IfOk result (λ nodes. nodes ≡ unwrap_or options.now.nodes []) }
{
    match &options.nodes {
        Some(nodes) => nodes.copy(),
        None => Ok(NameSet::new(alloc)),
    }
}
