//! The table of the lengths of a tick for a log: what an import says with each.

ghost use Rattle.std.specs.Prelude.{◌≡◌, ◌≢◌, ◌≤◌, Err, IfErr, IfOk, false, length, true};
ghost use Rattle.event_log.specs.Imports.{IsAlignedLogOf};
ghost use Rattle.event_log.specs.Logs.{seen_log};
ghost use Rattle.event_log.specs.SoundLogs.{IsSound};
ghost use Rattle.event_log.specs.TickTables.{AreLogRows, IsLogRowRefusal, IsTickRefusal, IsTickTable};

use crate::alignments::aligned_log;
use crate::event_refusals::log_error;
use crate::left_refusals::told_again;
use crate::logs::NamedEvents;
use crate::options::Options;
use crate::read_logs::events_by;
use crate::refusals::LogError;
use crate::taken_events::taken_events;
use crate::tick_clocks::until_for;
use crate::tick_rows::{TickRow, clock_of, tick_rows};
use crate::times::TimeKind;
use crate::workers::OneThread;
use std::alloc::Global;
use timed_events::IdleError;
use trace_text::MAX_TEXT_BYTES;

/// What lengths of a tick make of a log.
#[derive(Drop)]
pub struct TickTable {
    /// What the times of the log are.
    pub kind: TimeKind,
    /// A row for each length of a tick, from the least on.
    pub rows: Vec<TickRow>,
}

/// Tells what the trace of a log is like with ticks of 1, 2, 5, 10 and so on units of its times, up to the first length
/// that is longer than the log. Events may be spread. The length of a tick, merged receives and receives of nothing of
/// the options don't count. The text is read once; once more only if lost sends are left out and a refusal names an
/// event.
///
/// Refuses what `read_log` refuses with ticks of one of these lengths, but TooManyTicks for the times or the spread of
/// events. Memory comes only for a text that isn't too large.
pub fn read_ticks(alloc: Global, text: &[u8], options: &Options) -> Result<TickTable, LogError>
    ensures table { IfOk result (λ t. IsTickTable options.now text.now t.kind t.rows.items) }
    ensures refused { IfErr result (IsTickRefusal options.now text.now) }
    ensures more { result ≡ Err LogError.Memory → length text.now ≤ MAX_TEXT_BYTES }
{
    if text.len() > MAX_TEXT_BYTES {
        return Err(LogError::TooLarge);
    }
    let log = events_by(alloc, &OneThread, text, options)?;
    let kind = log.kind;
    let until = until_for(kind, options.until)?;
    let aligned = aligned_log(alloc, text, log, options.align)?;
    let rows = log_rows(alloc, text, options, aligned.log, until)?;
    Ok(TickTable { kind, rows })
}

/// The rows of the events of the log of a text, without lost sends if these are left out.
fn log_rows(
    alloc: Global,
    text: &[u8],
    options: &Options,
    log: NamedEvents,
    until: Option<i128>,
) -> Result<Vec<TickRow>, LogError>
    requires sound { IsSound (seen_log log) }
    requires given { IsAlignedLogOf options.now text.now log.nodes log.events.items }
    ensures rows { IfOk result (λ rows. AreLogRows options.now.drop_lost log.kind
        (length log.nodes) log.events.items until rows.items) }
    ensures refused { IfErr result (IsLogRowRefusal options.now.drop_lost text.now
        log.nodes log.events.items log.kind until) }
    ensures other { IfErr result (λ why. why ≢ LogError.TooManyTicks) }
{
    if options.drop_lost {
        return left_rows(alloc, text, options, log, until);
    }
    whole_rows(alloc, text, &log, until)
}

/// The rows of all events of a log.
fn whole_rows(
    alloc: Global,
    text: &[u8],
    log: &NamedEvents,
    until: Option<i128>,
) -> Result<Vec<TickRow>, LogError>
    requires sound { IsSound (seen_log log.now) }
    ensures rows { IfOk result (λ rows. AreLogRows false log.now.kind
        (length log.now.nodes) log.now.events.items until rows.items) }
    ensures refused { IfErr result
        (IsLogRowRefusal false text.now log.now.nodes log.now.events.items log.now.kind until) }
    ensures other { IfErr result (λ why. why ≢ LogError.TooManyTicks) }
{
    let n = log.nodes.len() as u64;
    match tick_rows(alloc, n, log.events.as_slice(), log.kind, until) {
        Ok(rows) => Ok(rows),
        Err(why) => Err(log_error(alloc, text, log, IdleError::Events(why))),
    }
}

/// The rows of the events of the log of a text but lost sends.
fn left_rows(
    alloc: Global,
    text: &[u8],
    options: &Options,
    log: NamedEvents,
    until: Option<i128>,
) -> Result<Vec<TickRow>, LogError>
    requires sound { IsSound (seen_log log) }
    requires given { IsAlignedLogOf options.now text.now log.nodes log.events.items }
    ensures rows { IfOk result (λ rows. AreLogRows true log.kind
        (length log.nodes) log.events.items until rows.items) }
    ensures refused { IfErr result
        (IsLogRowRefusal true text.now log.nodes log.events.items log.kind until) }
    ensures other { IfErr result (λ why. why ≢ LogError.TooManyTicks) }
{
    let kind = log.kind;
    let clock = clock_of(kind, until, 1);
    let left = taken_events(alloc, log, &clock, true, false)?;
    let n = left.nodes.len() as u64;
    match tick_rows(alloc, n, left.events.as_slice(), kind, until) {
        Ok(rows) => Ok(rows),
        Err(why) => {
            let why = IdleError::Events(why);
            Err(told_again(alloc, &OneThread, text, options, &left, why))
        }
    }
}
