//! Whether the events of a log make a trace, and how many of its messages are late.

ghost use Rattle.std.specs.Prelude.{◌≡◌, ◌<◌, false, IfErr, IfOk, length};
ghost use Rattle.timed_events.specs.Lateness.{lateness_of};
ghost use Rattle.event_log.specs.Imports.{IsUnmadeUnlessMemory};
ghost use Rattle.event_log.specs.LogTraces.{HavePassed};
ghost use Rattle.event_log.specs.Logs.{seen_log};
ghost use Rattle.event_log.specs.SoundLogs.{IsSound};

use crate::event_refusals::log_error;
use crate::log_traces::{PassedEvents, TraceOptions, passed_events};
use crate::logs::NamedEvents;
use crate::refusals::LogError;
use std::alloc::Global;
use std::thread;
use std::thread::Threads;
use timed_events::{Lateness, lateness_of};

/// How many messages of a log are late, which another thread finds out, if it can be started; and whether its events
/// make a trace.
pub(crate) fn both_by_two<T: Threads>(
    rt: &T,
    alloc: Global,
    text: &[u8],
    log: &NamedEvents,
    how: TraceOptions,
) -> (Result<Lateness, LogError>, Result<PassedEvents, LogError>)
    requires sound { IsSound (seen_log log.now) }
    requires width { 0 < how.clock.width }
    ensures lateness { IfOk result.0 (λ l. l ≡ lateness_of log.now.events.items) }
    ensures memory { IfErr result.0 (λ why. why ≡ LogError.Memory) }
    ensures passed { IfOk result.1
        (HavePassed how.limit how.spread (length log.now.nodes) log.now.events.items how.clock) }
    ensures refused { IfErr result.1
        (IsUnmadeUnlessMemory false false how.limit how.spread text.now log.now.nodes
        log.now.events.items how.clock) }
{
    thread::join(
        rt,
        move || -> Result<Lateness, LogError>
            requires { IsSound (seen_log log.now) }
            ensures lateness { IfOk result (λ l. l ≡ lateness_of log.entry.now.events.items) }
            ensures memory { IfErr result (λ why. why ≡ LogError.Memory) }
        { lateness_in(alloc, log) },
        move || -> Result<PassedEvents, LogError>
            requires sound { IsSound (seen_log log.now) }
            requires width { 0 < how.clock.width }
            ensures passed { IfOk result
                (HavePassed how.limit how.spread (length log.entry.now.nodes)
                log.entry.now.events.items how.clock) }
            ensures refused { IfErr result
                (IsUnmadeUnlessMemory false false how.limit how.spread text.entry.now
                log.entry.now.nodes log.entry.now.events.items how.clock) }
        { passed_log(alloc, text, log, how) },
    )
}

/// Tests whether the events of a log make a trace.
///
/// Refuses the first reason against them, or Memory.
pub(crate) fn passed_log(
    alloc: Global,
    text: &[u8],
    log: &NamedEvents,
    how: TraceOptions,
) -> Result<PassedEvents, LogError>
    requires sound { IsSound (seen_log log.now) }
    requires width { 0 < how.clock.width }
    ensures passed { IfOk result
        (HavePassed how.limit how.spread (length log.now.nodes) log.now.events.items how.clock) }
    ensures refused { IfErr result
        (IsUnmadeUnlessMemory false false how.limit how.spread text.now log.now.nodes
        log.now.events.items how.clock) }
{
    let n = log.nodes.len() as u64;
    match passed_events(alloc, n, log.events.as_slice(), how) {
        Ok(passed) => Ok(passed),
        Err(why) => Err(log_error(alloc, text, log, why)),
    }
}

/// How many messages of a log are received no later than they are sent.
pub(crate) fn lateness_in(alloc: Global, log: &NamedEvents) -> Result<Lateness, LogError>
    requires sound { IsSound (seen_log log.now) }
    ensures lateness { IfOk result (λ l. l ≡ lateness_of log.now.events.items) }
    ensures refused { IfErr result (λ why. why ≡ LogError.Memory) }
{
    match lateness_of(alloc, log.events.as_slice()) {
        Ok(lateness) => Ok(lateness),
        Err(_) => Err(LogError::Memory),
    }
}
