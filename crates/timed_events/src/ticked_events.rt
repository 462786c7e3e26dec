//! The ticks of events that make a trace.

ghost use Rattle.std.specs.Prelude.{◌≡◌, ◌<◌, ◌≤◌, Err, IfErr, IfOk, MatchResult, None, length, true};
ghost use Rattle.timed_events.specs.Checks.{AreMeant, IsEventRefusal};
ghost use Rattle.timed_events.specs.Orders.{IsOrder};
ghost use Rattle.timed_events.specs.Spreads.{IsTimedRefusal};
ghost use Rattle.timed_events.specs.TickedEvents.{AreTicked};
ghost use Rattle.timed_events.specs.TimedTraces.{timed_refusal};
ghost use Rattle.timed_events.specs.Times.{time_ticks, last_tick, times_refusal};

use crate::causal_orders::causal_order;
use crate::events::{Clock, Event, EventError};
use crate::message_checks::check_messages;
use crate::orders::{order_of, sorted_events};
use crate::passing::pass_events;
use crate::spread_ticks::spread_ticks;
use crate::spread_traces::{Moved, last_of, moved_of};
use crate::time_orders::time_order_of;
use crate::times::{span_of, ticks_of};
use std::alloc::Global;
use step_trace::{MAX_PROCESSORS, MAX_STEPS, MAX_TICKS};

/// The ticks of events that make a trace.
#[derive(Drop)]
pub struct EventTicks {
    /// Of each event its tick, from 1 on.
    pub ticks: Vec<u32>,
    /// The last tick of the trace.
    pub last: u64,
    /// How far events moved from the ticks of their times.
    pub moved: Moved,
    /// The places of the events in the order of the steps: by tick, and in a tick by processor.
    pub order: Vec<u32>,
}

/// Tests whether events make a trace, and gives their ticks: those of their times or, if they may be `spread`, as
/// little later as need be. An event is then in the first tick from that of its time on after those of its causes: its
/// processor's earlier events, and the Sends of the messages that it received.
///
/// Asks for at least one event and at most `MAX_STEPS`, each of one of `n` processors, at most 64, and to one of them.
/// Ticks have to have a length. Refuses in the order of `EventError`. If events may be spread, no event is refused for
/// its tick, and TooManyTicks comes last if an event came too far. Memory comes only if the times aren't refused.
pub fn event_ticks(
    alloc: Global,
    n: u64,
    events: &[Event],
    clock: &Clock,
    spread: bool,
) -> Result<EventTicks, EventError>
    requires most { n ≤ MAX_PROCESSORS }
    requires some { 0 < length events.now }
    requires few { length events.now ≤ MAX_STEPS }
    requires meant { AreMeant events.now n }
    requires width { 0 < clock.now.width }
    ensures ticked { IfOk result (λ t. AreTicked spread events.now clock.now t) }
    ensures refused { IfErr result (λ why. IsTimedRefusal spread events.now clock.now why) }
    ensures more { result ≡ Err EventError.Memory → times_refusal events.now clock.now ≡ None }
{
    if spread {
        return spread_events(alloc, n, events, clock);
    }
    let ticked = events_in_time(alloc, n, events, clock)?;
    Ok(ticked)
}

/// The ticks of the times of the events.
fn events_in_time(
    alloc: Global,
    n: u64,
    events: &[Event],
    clock: &Clock,
) -> Result<EventTicks, EventError>
    requires most { n ≤ MAX_PROCESSORS }
    requires some { 0 < length events.now }
    requires few { length events.now ≤ MAX_STEPS }
    requires meant { AreMeant events.now n }
    requires width { 0 < clock.now.width }
    ensures ticks { IfOk result (λ t. t.ticks.items ≡ time_ticks events.now clock.now) }
    ensures last { IfOk result (λ t. t.last ≡ last_tick events.now clock.now) }
    ensures moved { IfOk result (λ t. t.moved ≡ record { events = 0; ticks = 0; farthest = None }) }
    ensures order { IfOk result (λ t. IsOrder events.now t.ticks.items t.order.items) }
    ensures refused { MatchResult result (λ _. timed_refusal events.now clock.now ≡ None)
        (λ why. IsEventRefusal why (timed_refusal events.now clock.now)) }
    ensures more { result ≡ Err EventError.Memory → times_refusal events.now clock.now ≡ None }
{
    let span = span_of(events, clock)?;
    let ticks = ticks_of(alloc, events, clock, span.least)?;
    let sorted = sorted_events(alloc, events, &ticks)?;
    pass_events(alloc, events, &ticks, sorted.apart)?;
    let moved = Moved {
        events: 0,
        ticks: 0,
        farthest: None,
    };
    Ok(EventTicks {
        ticks,
        last: span.last,
        moved,
        order: sorted.order,
    })
}

/// The ticks of the events if they may be spread.
fn spread_events(
    alloc: Global,
    n: u64,
    events: &[Event],
    clock: &Clock,
) -> Result<EventTicks, EventError>
    requires most { n ≤ MAX_PROCESSORS }
    requires some { 0 < length events.now }
    requires few { length events.now ≤ MAX_STEPS }
    requires meant { AreMeant events.now n }
    requires width { 0 < clock.now.width }
    ensures ticked { IfOk result (λ t. AreTicked true events.now clock.now t) }
    ensures refused { IfErr result (λ why. IsTimedRefusal true events.now clock.now why) }
    ensures more { result ≡ Err EventError.Memory → times_refusal events.now clock.now ≡ None }
{
    let span = span_of(events, clock)?;
    check_messages(alloc, events)?;
    let times = time_order_of(alloc, events)?;
    let causal = causal_order(alloc, events, times)?;
    let own = ticks_of(alloc, events, clock, span.least)?;
    let ticks = spread_ticks(alloc, events, &own, &causal)?;
    drop(causal);
    let last = last_of(span.last, &ticks);
    if last > MAX_TICKS {
        return Err(EventError::TooManyTicks);
    }
    let moved = moved_of(&own, &ticks);
    drop(own);
    let order = order_of(alloc, events, &ticks)?;
    Ok(EventTicks {
        ticks,
        last,
        moved,
        order,
    })
}
