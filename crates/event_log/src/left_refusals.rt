//! The refusal of a log for a reason against the events that are left of it.

ghost use Rattle.std.specs.Prelude.{◌≡◌, ◌<◌, ◌≤◌, ℕ, List, IfOk, IfSome, MatchBool, ⊤, length};
ghost use Rattle.std.specs.Prelude.{slice_index};
ghost use Rattle.timed_events.specs.Checks.{AreOfProcessors};
ghost use Rattle.timed_events.specs.declared.events.Event.{Event};
ghost use Rattle.event_log.specs.EventRefusals.{IsBehindCycle, IsErrorUnlessMemory};
ghost use Rattle.event_log.specs.Imports.{IsAlignedLogOf};
ghost use Rattle.event_log.specs.LeftRefusals.{IsLeftCycleError, IsToldAtOnce, IsPlacedErrorUnlessMemory};
ghost use Rattle.event_log.specs.LogPlaces.{reason_in};
ghost use Rattle.event_log.specs.Logs.{seen_log};
ghost use Rattle.event_log.specs.MergedLogs.{ArePartsWithin};
ghost use Rattle.event_log.specs.Naming.{is_memory};
ghost use Rattle.event_log.specs.SoundLogs.{IsSound};

use crate::alignments::aligned_log;
use crate::event_refusals::error_of;
use crate::hop_lines::hop_lines;
use crate::log_places::{hops_in, place_in, reason_in};
use crate::logs::NamedEvents;
use crate::options::Options;
use crate::read_logs::events_by;
use crate::reading::MAX_EVENTS;
use crate::refusals::LogError;
use crate::taken_events::TakenEvents;
use crate::workers::Workers;
use std::alloc::{AllocError, Global};
use timed_events::{EventError, IdleError, cycle_of_causes};

/// The refusal of the log of a text for a reason against the events that are left of it, or Memory. If the reason is
/// against one of these, the log is read once more for its names.
pub(crate) fn told_again<W: Workers>(
    alloc: Global,
    workers: &W,
    text: &[u8],
    options: &Options,
    left: &TakenEvents,
    why: IdleError,
) -> LogError
    requires within { (k : ℕ) → k < length left.now.places.items
        → slice_index left.now.places.items k < MAX_EVENTS }
    requires parts { (nodes : List (List ℕ)) (events : List Event)
        → IsAlignedLogOf options.now text.now nodes events
        → ArePartsWithin left.now.parts (length events) }
    requires few { length left.now.events.items ≤ MAX_EVENTS }
    requires processors { AreOfProcessors left.now.events.items }
    requires behind { (i : ℕ) → why ≡ IdleError.Events (EventError.Cycle i)
        → IsBehindCycle left.now.events.items i }
    ensures { (nodes : List (List ℕ)) (events : List Event)
        → IsAlignedLogOf options.now text.now nodes events
        → IsPlacedErrorUnlessMemory text.now nodes events left.now.events.items
        left.now.places.items left.now.parts why result }
{
    if let Some(error) = told_at_once(why) {
        return error;
    }
    match read_again(alloc, workers, text, options) {
        Ok(log) => left_error(alloc, text, &log, left, why),
        Err(_) => LogError::Memory,
    }
}

/// The refusal of a log for a reason that is against none of its events.
fn told_at_once(why: IdleError) -> Option<LogError>
    ensures { IfSome result (λ error. IsToldAtOnce why error) }
{
    match why {
        IdleError::TooManySteps => Some(LogError::TooManySteps),
        IdleError::Events(EventError::UntilTooEarly) => Some(LogError::UntilUnfit),
        IdleError::Events(EventError::TooManyTicks) => Some(LogError::TooManyTicks),
        IdleError::Events(_) => None,
    }
}

/// The log of a text, with aligned clocks if that is asked for.
///
/// Refuses the first reason against it, or Memory.
fn read_again<W: Workers>(
    alloc: Global,
    workers: &W,
    text: &[u8],
    options: &Options,
) -> Result<NamedEvents, LogError>
    ensures again { IfOk result
        (λ log. IsAlignedLogOf options.now text.now log.nodes log.events.items) }
    ensures sound { IfOk result (λ log. IsSound (seen_log log)) }
{
    let log = events_by(alloc, workers, text, options)?;
    let aligned = aligned_log(alloc, text, log, options.align)?;
    Ok(aligned.log)
}

/// The refusal of a log for a reason against the events that are left of it, or Memory.
fn left_error(
    alloc: Global,
    text: &[u8],
    log: &NamedEvents,
    left: &TakenEvents,
    why: IdleError,
) -> LogError
    requires sound { IsSound (seen_log log.now) }
    requires within { (k : ℕ) → k < length left.now.places.items
        → slice_index left.now.places.items k < MAX_EVENTS }
    requires parts { ArePartsWithin left.now.parts (length log.now.events.items) }
    requires few { length left.now.events.items ≤ MAX_EVENTS }
    requires processors { AreOfProcessors left.now.events.items }
    requires behind { (i : ℕ) → why ≡ IdleError.Events (EventError.Cycle i)
        → IsBehindCycle left.now.events.items i }
    ensures { IsPlacedErrorUnlessMemory text.now log.now.nodes log.now.events.items
        left.now.events.items left.now.places.items left.now.parts why result }
{
    match why {
        IdleError::Events(why) => event_error(alloc, text, log, left, why),
        IdleError::TooManySteps => LogError::TooManySteps,
    }
}

/// The same for a reason against one of these events.
fn event_error(
    alloc: Global,
    text: &[u8],
    log: &NamedEvents,
    left: &TakenEvents,
    why: EventError,
) -> LogError
    requires sound { IsSound (seen_log log.now) }
    requires within { (k : ℕ) → k < length left.now.places.items
        → slice_index left.now.places.items k < MAX_EVENTS }
    requires parts { ArePartsWithin left.now.parts (length log.now.events.items) }
    requires few { length left.now.events.items ≤ MAX_EVENTS }
    requires processors { AreOfProcessors left.now.events.items }
    requires behind { (i : ℕ) → why ≡ EventError.Cycle i → IsBehindCycle left.now.events.items i }
    ensures { IsPlacedErrorUnlessMemory text.now log.now.nodes log.now.events.items
        left.now.events.items left.now.places.items left.now.parts
        (IdleError.Events why) result }
{
    match why {
        EventError::Cycle { event } => cycle_error(alloc, text, log, left, event),
        _ => placed_error(alloc, text, log, left, why),
    }
}

/// The refusal of a log for a reason, other than a cycle, against the events that are left of it, or Memory.
fn placed_error(
    alloc: Global,
    text: &[u8],
    log: &NamedEvents,
    left: &TakenEvents,
    why: EventError,
) -> LogError
    requires sound { IsSound (seen_log log.now) }
    requires within { (k : ℕ) → k < length left.now.places.items
        → slice_index left.now.places.items k < MAX_EVENTS }
    requires parts { ArePartsWithin left.now.parts (length log.now.events.items) }
    requires other { (i : ℕ) → ¬ (why ≡ EventError.Cycle i) }
    ensures { IsErrorUnlessMemory text.now log.now.nodes log.now.events.items
        (reason_in log.now.events.items left.now.places.items left.now.parts why)
        result }
{
    let why = reason_in(log.events.as_slice(), &left.places, &left.parts, why);
    error_of(alloc, text, &log.nodes, log.events.as_slice(), why)
}

/// The refusal of a log with one of the events that are left of it behind a cycle, or Memory.
fn cycle_error(
    alloc: Global,
    text: &[u8],
    log: &NamedEvents,
    left: &TakenEvents,
    event: usize,
) -> LogError
    requires within { (k : ℕ) → k < length left.now.places.items
        → slice_index left.now.places.items k < MAX_EVENTS }
    requires few { length left.now.events.items ≤ MAX_EVENTS }
    requires processors { AreOfProcessors left.now.events.items }
    requires behind { IsBehindCycle left.now.events.items event }
    ensures { MatchBool (is_memory result) ⊤
        (IsLeftCycleError text.now log.now.nodes log.now.events.items left.now.events.items
        left.now.places.items event result) }
{
    match told_cycle(alloc, text, log, left, event) {
        Ok(error) => error,
        Err(_) => LogError::Memory,
    }
}

fn told_cycle(
    alloc: Global,
    text: &[u8],
    log: &NamedEvents,
    left: &TakenEvents,
    event: usize,
) -> Result<LogError, AllocError>
    requires within { (k : ℕ) → k < length left.now.places.items
        → slice_index left.now.places.items k < MAX_EVENTS }
    requires few { length left.now.events.items ≤ MAX_EVENTS }
    requires processors { AreOfProcessors left.now.events.items }
    requires behind { IsBehindCycle left.now.events.items event }
    ensures { IfOk result (λ error. IsLeftCycleError text.now log.now.nodes log.now.events.items
        left.now.events.items left.now.places.items event error) }
{
    let cycle = cycle_of_causes(alloc, left.events.as_slice())?;
    let hops = hops_in(alloc, &left.places, &cycle)?;
    let lines = hop_lines(alloc, text, &log.nodes, log.events.as_slice(), &hops)?;
    let number = u64::from(place_in(&left.places, event)) + 2;
    Ok(LogError::Cycle(number, lines))
}
