//! The trace of a log's events, in two steps: first they pass all tests, then the trace is made. What a refusal would
//! name needs no memory any more then.

ghost use Rattle.std.specs.Prelude.{◌≡◌, ◌<◌, ◌≤◌, IfErr, IfOk, None, Some, length};
ghost use Rattle.timed_events.specs.Checks.{AreMeant};
ghost use Rattle.event_log.specs.LogTraces.{ArePlacedBy, IsMadeBy, IsUnmadeFor};
ghost use Rattle.event_log.specs.LogTraces.{HavePassed};

use crate::imports::IdleReceives;
use std::alloc::{AllocError, Global};
use step_trace::{MAX_PROCESSORS, MAX_STEPS, MIN_PROCESSORS, Trace};
use timed_events::{
    Clock, Event, EventTicks, Filling, IdleError, Moved, PlacedIdleTrace, PlacedTrace, event_ticks,
    filling_of, idle_trace, placed_trace,
};

/// The trace of a log, how far its events moved, and the receives of nothing that were added. With the places of the
/// events and of these receives in the order of its steps.
#[derive(Drop)]
pub(crate) struct LogTrace {
    pub(crate) trace: Trace,
    pub(crate) moved: Moved,
    pub(crate) idle: Option<IdleReceives>,
    pub(crate) places: Vec<u32>,
}

/// The ticks of a log's events that make a trace, and those of receives of nothing, if silences get some.
#[derive(Drop)]
pub enum PassedEvents {
    Plain(EventTicks),
    Filled(Filling),
}

/// How a trace is made of the events of a log.
#[derive(Clone, Copy)]
pub struct TraceOptions {
    /// How times become ticks.
    pub clock: Clock,
    /// Silences of at most so many ticks get a receive of nothing; none gets one without a limit.
    pub limit: Option<u128>,
    /// The flags as `Options` has them.
    pub spread: bool,
    pub drop_lost: bool,
    pub merge: bool,
    /// Whether a table has to tell of which events of the log each step is made.
    pub told: bool,
}

/// Tests whether the events of a log make a trace. Which events are left is settled before.
pub(crate) fn passed_events(
    alloc: Global,
    n: u64,
    events: &[Event],
    how: TraceOptions,
) -> Result<PassedEvents, IdleError>
    requires most { n ≤ MAX_PROCESSORS }
    requires some { 0 < length events.now }
    requires few { length events.now ≤ MAX_STEPS }
    requires meant { AreMeant events.now n }
    requires width { 0 < how.clock.width }
    ensures passed { IfOk result (HavePassed how.limit how.spread n events.now how.clock) }
    ensures refused { IfErr result (IsUnmadeFor how.limit how.spread n events.now how.clock) }
{
    let Some(limit) = how.limit else {
        let ticked = event_ticks(alloc, n, events, &how.clock, how.spread)?;
        return Ok(PassedEvents::Plain(ticked));
    };
    let filling = filling_of(alloc, n, events, &how.clock, how.spread, limit)?;
    Ok(PassedEvents::Filled(filling))
}

/// The trace of events that have passed. The receives of nothing that are added are behind the events then.
pub(crate) fn trace_of_passed(
    alloc: Global,
    n: u64,
    events: &mut Vec<Event>,
    how: TraceOptions,
    passed: PassedEvents,
) -> Result<LogTrace, AllocError>
    requires least { MIN_PROCESSORS ≤ n }
    requires most { n ≤ MAX_PROCESSORS }
    requires some { 0 < length events.old.items }
    requires few { length events.old.items ≤ MAX_STEPS }
    requires meant { AreMeant events.old.items n }
    requires passed { HavePassed how.limit how.spread n events.old.items how.clock passed }
    ensures trace { IfOk result
        (λ made. IsMadeBy how.limit how.spread n events.old.items how.clock made.trace
        made.moved made.idle) }
    ensures places { IfOk result
        (λ made. ArePlacedBy how.limit how.spread n events.old.items how.clock events.new.items
        made.places.items) }
    ensures long { IfOk result (λ made. length made.places.items ≡ length made.trace.steps) }
{
    match (how.limit, passed) {
        (None, PassedEvents::Plain(ticked)) => {
            let placed = placed_trace(alloc, n, events.as_slice(), &how.clock, how.spread, ticked)?;
            Ok(plain_trace(placed))
        }
        (Some(limit), PassedEvents::Filled(filling)) => {
            let placed = idle_trace(alloc, n, events, &how.clock, how.spread, limit, filling)?;
            Ok(filled_trace(placed, limit))
        }
        _ => unreachable!(),
    }
}

/// A trace to which nothing was added.
fn plain_trace(placed: PlacedTrace) -> LogTrace
    ensures trace { result.trace ≡ placed.timed.trace }
    ensures moved { result.moved ≡ placed.timed.moved }
    ensures idle { result.idle ≡ None }
    ensures places { result.places.items ≡ placed.places.items }
{
    let PlacedTrace { timed, places } = placed;
    LogTrace {
        trace: timed.trace,
        moved: timed.moved,
        idle: None,
        places,
    }
}

/// A trace with receives of nothing in silences of at most so many ticks.
fn filled_trace(placed: PlacedIdleTrace, limit: u128) -> LogTrace
    ensures trace { result.trace ≡ placed.timed.trace }
    ensures moved { result.moved ≡ placed.timed.moved }
    ensures idle { result.idle ≡ Some (record { count = placed.timed.added; limit = limit }) }
    ensures places { result.places.items ≡ placed.places.items }
{
    let PlacedIdleTrace { timed, places } = placed;
    LogTrace {
        trace: timed.trace,
        moved: timed.moved,
        idle: Some(IdleReceives {
            count: timed.added,
            limit,
        }),
        places,
    }
}
