//! The trace of events with receives of nothing in short silences of processors.

ghost use Rattle.std.specs.Prelude.{◌≡◌, ◌<◌, ◌≤◌, ◌+◌, ◌++◌, Err, IfErr, IfOk, None, OnErr, OnOk, length};
ghost use Rattle.std.specs.List.{All};
ghost use Rattle.timed_events.specs.declared.events.EventError.TheVariants as refused;
ghost use Rattle.timed_events.specs.declared.idle_traces.IdleError.TheVariants as idle;
ghost use Rattle.timed_events.specs.Checks.{AreMeant};
ghost use Rattle.timed_events.specs.IdleTicks.{AreRising, IsFree, IsIdleReceive, ticks_of};
ghost use Rattle.timed_events.specs.IdleTraces.{AreFilledPlaces, IsFilling, IsFilled};
ghost use Rattle.timed_events.specs.IdleTraces.{IsGrown, IsIdleRefusal, IsIdleTimed};
ghost use Rattle.timed_events.specs.Orders.{IsOrder};
ghost use Rattle.timed_events.specs.TickedEvents.{AreFit};
ghost use Rattle.timed_events.specs.Times.{times_refusal};

use crate::events::{Clock, Event, EventAct, EventError};
use crate::idle_ticks::{IdleTick, idle_ticks};
use crate::messages::Messages;
use crate::spread_traces::Moved;
use crate::ticked_events::{EventTicks, event_ticks};
use crate::timed_traces::{OrderedTrace, ordered_by_ticks};
use std::alloc::{AllocError, Global};
use step_trace::{MAX_PROCESSORS, MAX_STEPS, MIN_PROCESSORS, Trace};

/// A trace of events with receives of nothing in short silences.
#[derive(Drop)]
pub struct IdleTrace {
    pub trace: Trace,
    pub moved: Moved,
    /// How many receives of nothing were added.
    pub added: u64,
}

/// A trace with receives of nothing, which come behind the events; and the places of both in the order of its steps.
#[derive(Drop)]
pub struct PlacedIdleTrace {
    pub timed: IdleTrace,
    pub places: Vec<u32>,
}

/// Why events make no trace with receives of nothing.
#[derive(Clone, Copy, Debug, PartialEq, Eq)]
pub enum IdleError {
    /// They make no trace.
    Events(EventError),
    /// The events and the receives of nothing are more than a trace may have steps.
    TooManySteps,
}

impl From<EventError> for IdleError {
    ghost use Rattle.std.specs.Prelude.{◌≡◌};
    ghost use Rattle.timed_events.specs.declared.idle_traces.IdleError.TheVariants as idle;

    ghost from_gives = { λ why made. made ≡ idle.Events why };

    fn from(why: EventError) -> Self {
        IdleError::Events(why)
    }
}

impl From<AllocError> for IdleError {
    ghost use Rattle.std.specs.Prelude.{◌≡◌};
    ghost use Rattle.timed_events.specs.declared.events.EventError.TheVariants as refused;
    ghost use Rattle.timed_events.specs.declared.idle_traces.IdleError.TheVariants as idle;

    ghost from_gives = { λ _ made. made ≡ idle.Events refused.Memory };

    fn from(_: AllocError) -> Self {
        IdleError::Events(EventError::Memory)
    }
}

/// The ticks of events that make a trace with receives of nothing, and those of these receives.
#[derive(Drop)]
pub struct Filling {
    pub ticked: EventTicks,
    pub idles: Vec<IdleTick>,
}

/// Tests whether events make a trace with a receive of nothing in the last tick of each short silence, and gives the
/// ticks of all. A short silence is at most `limit` ticks without an event of a processor: from tick 1 or its event
/// before to its next event or the last tick.
///
/// Asks for the same as `event_ticks`, and refuses in the same order, by `Events`; TooManySteps comes last but for
/// Memory.
pub fn filling_of(
    alloc: Global,
    n: u64,
    events: &[Event],
    clock: &Clock,
    spread: bool,
    limit: u128,
) -> Result<Filling, IdleError>
    requires most { n ≤ MAX_PROCESSORS }
    requires some { 0 < length events.now }
    requires few { length events.now ≤ MAX_STEPS }
    requires meant { AreMeant events.now n }
    requires width { 0 < clock.now.width }
    ensures filling { IfOk result (IsFilling spread n events.now clock.now limit) }
    ensures refused { IfErr result (λ why. IsIdleRefusal spread n events.now clock.now limit why) }
    ensures more { result ≡ Err (idle.Events refused.Memory)
        → times_refusal events.now clock.now ≡ None }
{
    let ticked = event_ticks(alloc, n, events, clock, spread)?;
    let idles = idle_ticks(
        alloc,
        n,
        events,
        &ticked.ticks,
        &ticked.order,
        ticked.last,
        limit,
    )?;
    if MAX_STEPS - events.len() < idles.len() {
        return Err(IdleError::TooManySteps);
    }
    Ok(Filling { ticked, idles })
}

/// The trace of events in their ticks as `placed_trace` makes it, with receives of nothing in the idle ticks. The
/// receives are then behind the events in the list, with the time 0: a place from the number of events on is that of a
/// receive that was added.
///
/// Asks for 2 to 64 processors, and for events with what `filling_of` gives for them; `spread`, `clock` and `limit` are
/// read by the clauses alone. Fails only if out of memory: then the list of events is unchanged.
pub fn idle_trace(
    alloc: Global,
    n: u64,
    events: &mut Vec<Event>,
    clock: &Clock,
    spread: bool,
    limit: u128,
    filling: Filling,
) -> Result<PlacedIdleTrace, AllocError>
    requires least { MIN_PROCESSORS ≤ n }
    requires most { n ≤ MAX_PROCESSORS }
    requires some { 0 < length events.old.items }
    requires meant { AreMeant events.old.items n }
    requires filling { IsFilling spread n events.old.items clock.now limit filling }
    ensures trace { IfOk result
        (λ placed. IsIdleTimed spread n events.old.items clock.now limit placed.timed
        events.new.items) }
    ensures places { IfOk result
        (λ placed. AreFilledPlaces spread n events.old.items clock.now limit events.new.items
        placed.places.items) }
    ensures unchanged { OnErr result (events.new.items ≡ events.old.items) }
{
    let Filling { ticked, idles } = filling;
    let EventTicks {
        ticks,
        last,
        moved,
        order,
    } = ticked;
    drop(order);
    let added = idles.len() as u64;
    let ordered = filled_trace(alloc, n, events, ticks, last, &idles)?;
    let OrderedTrace { trace, order } = ordered;
    let timed = IdleTrace {
        trace,
        moved,
        added,
    };
    Ok(PlacedIdleTrace {
        timed,
        places: order,
    })
}

/// The trace of the events in their ticks, and of a receive of nothing in each of the idle ticks. The receives are then
/// behind the events. With the places of all of them in the order of its steps.
///
/// After a refusal the events are unchanged.
fn filled_trace(
    alloc: Global,
    n: u64,
    events: &mut Vec<Event>,
    ticks: Vec<u32>,
    last: u64,
    idles: &[IdleTick],
) -> Result<OrderedTrace, AllocError>
    requires least { MIN_PROCESSORS ≤ n }
    requires most { n ≤ MAX_PROCESSORS }
    requires some { 0 < length events.old.items }
    requires few { length events.old.items + length idles.now ≤ MAX_STEPS }
    requires meant { AreMeant events.old.items n }
    requires fit { AreFit events.old.items ticks.items last }
    requires free { All (IsFree n events.old.items ticks.items last) idles.now }
    requires rising { AreRising idles.now }
    ensures trace { IfOk result
        (λ t. IsFilled n events.old.items events.new.items ticks.items last idles.now t.trace) }
    ensures order { IfOk result
        (λ t. IsOrder events.new.items (ticks.items ++ ticks_of idles.now) t.order.items) }
    ensures unchanged { OnErr result (events.new.items ≡ events.old.items) }
{
    let ticks = with_idle_ticks(ticks, idles)?;
    let count = events.len();
    add_receives(idles, events)?;
    if let Ok(ordered) = ordered_by_ticks(alloc, n, events.as_slice(), &ticks, last) {
        return Ok(ordered);
    }
    events.truncate(count);
    Err(AllocError)
}

/// The ticks, and behind them the idle ones.
fn with_idle_ticks(ticks: Vec<u32>, idles: &[IdleTick]) -> Result<Vec<u32>, AllocError>
    ensures { IfOk result (λ v. v.items ≡ ticks.items ++ ticks_of idles.now) }
{
    let mut all = ticks;
    all.reserve(idles.len())?;
    for idle in idles {
        all.push_reserved(idle.tick);
    }
    Ok(all)
}

/// Adds a receive of nothing for each of the idle ticks to the events.
fn add_receives(idles: &[IdleTick], events: &mut Vec<Event>) -> Result<(), AllocError>
    ensures grown { OnOk result (IsGrown events.old.items idles.now events.new.items) }
    ensures unchanged { OnErr result (events.new.items ≡ events.old.items) }
{
    events.reserve(idles.len())?;
    for idle in idles {
        events.push_reserved(receive_of_nothing(*idle));
    }
    Ok(())
}

/// A receive of nothing by the processor of an idle tick, at the time 0.
fn receive_of_nothing(idle: IdleTick) -> Event
    ensures { IsIdleReceive idle result }
{
    Event {
        time: 0,
        processor: idle.processor,
        act: EventAct::Receive {
            messages: Messages::none(),
        },
    }
}
