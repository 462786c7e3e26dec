//! The trace of events that may go to later ticks than those of their times.

ghost use Rattle.std.specs.Prelude.{◌≡◌, ◌<◌, ◌≤◌, ◌+◌, fold, if◌then◌else◌, length, max, nat_lt, IfOk, None, Some};
ghost use Rattle.timed_events.specs.Checks.{AreMeant};
ghost use Rattle.timed_events.specs.Spreads.{moved_of, AreStepPlaces, IsTimed};
ghost use Rattle.timed_events.specs.TickedEvents.{AreTicked};

use crate::events::{Clock, Event};
use crate::ticked_events::EventTicks;
use crate::timed_traces::trace_in_order;
use std::alloc::{AllocError, Global};
use step_trace::{MAX_PROCESSORS, MAX_STEPS, MIN_PROCESSORS, Trace};

/// How far events moved from the ticks of their times.
#[derive(Clone, Copy, Debug, PartialEq, Eq)]
pub struct Moved {
    /// How many events are in a later tick than that of their time.
    pub events: u64,
    /// By how many ticks at most.
    pub ticks: u64,
    /// The place of the event that moved by as many, the first of several; nothing if none moved.
    pub farthest: Option<usize>,
}

/// A trace of events, and how far they moved.
#[derive(Drop)]
pub struct TimedTrace {
    pub trace: Trace,
    pub moved: Moved,
}

/// A trace of events and how far they moved, with the places of the events in the order of its steps.
#[derive(Drop)]
pub struct PlacedTrace {
    pub timed: TimedTrace,
    pub places: Vec<u32>,
}

/// The trace of events in their ticks: of `n` processors of which none may be faulty, all with initial value 0. The
/// steps are in the order of their ticks, and in a tick of their processors; a message's id is the number of its Send.
///
/// Asks for 2 to 64 processors, and for events with what `event_ticks` gives for them; `spread` and `clock` are read
/// by the clauses alone. Fails only if out of memory.
pub fn placed_trace(
    alloc: Global,
    n: u64,
    events: &[Event],
    clock: &Clock,
    spread: bool,
    ticked: EventTicks,
) -> Result<PlacedTrace, AllocError>
    requires least { MIN_PROCESSORS ≤ n }
    requires most { n ≤ MAX_PROCESSORS }
    requires some { 0 < length events.now }
    requires few { length events.now ≤ MAX_STEPS }
    requires meant { AreMeant events.now n }
    requires ticked { AreTicked spread events.now clock.now ticked }
    ensures trace { IfOk result (λ placed. IsTimed spread n events.now clock.now placed.timed) }
    ensures places { IfOk result
        (λ placed. AreStepPlaces spread events.now clock.now placed.places.items) }
{
    let EventTicks {
        ticks,
        last,
        moved,
        order,
    } = ticked;
    let trace = trace_in_order(alloc, n, events, &ticks, &order, last)?;
    let timed = TimedTrace { trace, moved };
    Ok(PlacedTrace {
        timed,
        places: order,
    })
}

/// The greatest of the ticks, at least `last`.
pub(crate) fn last_of(last: u64, ticks: &[u32]) -> u64
    ensures { result ≡ fold max last ticks.now }
{
    let mut greatest = last;
    for tick in ticks {
        greatest = greatest.max(u64::from(*tick));
    }
    greatest
}

/// How far events moved from their own ticks, those of their times.
pub(crate) fn moved_of(own: &[u32], ticks: &[u32]) -> Moved
    requires long { length ticks.now ≡ length own.now }
    requires few { length own.now ≤ MAX_STEPS }
    ensures { result ≡ moved_of own.now ticks.now }
{
    let mut moved = Moved {
        events: 0,
        ticks: 0,
        farthest: None,
    };
    for k in 0..own.len() {
        if own[k] < ticks[k] {
            moved = with_event(moved, k, u64::from(ticks[k] - own[k]));
        }
    }
    moved
}

/// With one event more, that at `place`, which moved by so many ticks.
fn with_event(moved: Moved, place: usize, ticks: u64) -> Moved
    requires { moved.events < MAX_STEPS }
    ensures events { result.events ≡ moved.events + 1 }
    ensures ticks { result.ticks ≡ max moved.ticks ticks }
    ensures farthest { result.farthest
        ≡ (if nat_lt moved.ticks ticks then Some place else moved.farthest) }
{
    let mut more = moved;
    more.events += 1;
    if moved.ticks < ticks {
        more.ticks = ticks;
        more.farthest = Some(place);
    }
    more
}
