//! How many ticks the trace of events has, and how far they move, by the length of a tick.

ghost use Rattle.std.specs.Prelude.{◌≡◌, ◌≢◌, ◌<◌, ◌≤◌, IfErr, IfOk, None, length, map, slice_index_or, true};
ghost use Rattle.std.specs.List.{All};
ghost use Rattle.timed_events.specs.Checks.{AreMeant};
ghost use Rattle.timed_events.specs.Spreads.{IsTimedRefusal};
ghost use Rattle.timed_events.specs.Times.{greatest_time, times_refusal};
ghost use Rattle.event_log.specs.TickRows.{AreNumbersOf, IsPlacedBy, IsRowOf, IsRowRefusal, clock_of, far_count};
ghost use Rattle.event_log.specs.TickRows.{is_far, is_told, log_length, tick_nanoseconds, tick_width, told_widths};

use crate::step_tables::tick_of;
use crate::tick_clocks::units_in;
use crate::times::TimeKind;
use std::alloc::{AllocError, Global};
use step_trace::{MAX_PROCESSORS, MAX_STEPS, MIN_PROCESSORS, Trace};
use timed_events::{
    Clock, Event, EventError, PlacedTrace, event_ticks, least_time, placed_trace, ticks_of,
};

/// How many lengths of a tick there are rows of at most.
const WIDTHS: u64 = 57;

/// How many ticks the trace of a log has, and how far its events move.
#[derive(Clone, Copy, Debug, PartialEq, Eq)]
pub struct Placing {
    /// The last tick.
    pub last: u64,
    /// How many events there are.
    pub events: u64,
    /// How many of them are in a later tick than that of their time.
    pub moved: u64,
    /// By how many ticks at most.
    pub most: u64,
    /// How many of them are later by more than one tick.
    pub far: u64,
}

/// What a length of a tick makes of a log.
#[derive(Clone, Copy, Debug, PartialEq, Eq)]
pub struct TickRow {
    /// The length, in the unit of the log's times.
    pub width: u64,
    /// The trace's numbers; nothing if it would have more ticks than a trace may.
    pub placing: Option<Placing>,
}

impl TickRow {
    /// How many nanoseconds the length has in a log with times of this kind; nothing if these are whole numbers of no
    /// unit.
    pub fn nanoseconds(&self, kind: TimeKind) -> Option<u128>
        ensures { result ≡ tick_nanoseconds kind self.now.width }
    {
        match kind {
            TimeKind::Number => None,
            _ => Some(units_in(kind, self.width)),
        }
    }
}

/// A row for each length of a tick: for 1, 2 and 5 times the powers of ten, from 1 to the first that is longer than the
/// log, or to 5,000,000,000,000,000,000. Events may be spread.
///
/// Refuses what `event_ticks` refuses for one of these lengths, but for TooManyTicks.
pub(crate) fn tick_rows(
    alloc: Global,
    n: u64,
    events: &[Event],
    kind: TimeKind,
    until: Option<i128>,
) -> Result<Vec<TickRow>, EventError>
    requires least { MIN_PROCESSORS ≤ n }
    requires most { n ≤ MAX_PROCESSORS }
    requires some { 0 < length events.now }
    requires few { length events.now ≤ MAX_STEPS }
    requires meant { AreMeant events.now n }
    ensures widths { IfOk result
        (λ rows. map (λ row. row.width) rows.items ≡ told_widths kind
        (log_length events.now until)) }
    ensures each { IfOk result (λ rows. All (IsRowOf n events.now kind until) rows.items) }
    ensures refused { IfErr result (IsRowRefusal events.now kind until) }
    ensures other { IfErr result (λ why. why ≢ EventError.TooManyTicks) }
{
    let log = log_length(events, until);
    let mut rows = Vec::new(alloc);
    for k in 0..WIDTHS {
        if is_told(kind, log, k) {
            let row = tick_row(alloc, n, events, kind, until, tick_width(k))?;
            let Ok(()) = rows.push(row) else {
                return Err(EventError::Memory);
            };
        }
    }
    Ok(rows)
}

/// How long a log is, from the least time of its events to its end.
fn log_length(events: &[Event], until: Option<i128>) -> u128
    requires { 0 < length events.now }
    ensures { result ≡ log_length events.now until }
{
    let end = until.unwrap_or(greatest_time(events));
    end.abs_diff(least_time(events))
}

/// The greatest time of the events.
fn greatest_time(events: &[Event]) -> i128
    requires { 0 < length events.now }
    ensures { result ≡ greatest_time events.now }
{
    let mut greatest = events[0].time;
    for event in events {
        greatest = greatest.max(event.time);
    }
    greatest
}

/// Whether there is a row for the length at a place.
fn is_told(kind: TimeKind, log: u128, k: u64) -> bool
    requires { k < WIDTHS }
    ensures { result ≡ is_told kind log k }
{
    if k == 0 {
        return true;
    }
    units_in(kind, tick_width(k - 1)) <= log
}

/// The length of a tick at a place among 1, 2 and 5 times the powers of ten.
fn tick_width(k: u64) -> u64
    requires { k < WIDTHS }
    ensures is { result ≡ tick_width k }
    ensures above { 0 < result }
{
    let power = 10u64.pow((k / 3) as u32);
    if k % 3 == 0 {
        return power;
    }
    if k % 3 == 1 {
        return 2 * power;
    }
    5 * power
}

/// The row of one length of a tick.
fn tick_row(
    alloc: Global,
    n: u64,
    events: &[Event],
    kind: TimeKind,
    until: Option<i128>,
    width: u64,
) -> Result<TickRow, EventError>
    requires least { MIN_PROCESSORS ≤ n }
    requires most { n ≤ MAX_PROCESSORS }
    requires some { 0 < length events.now }
    requires few { length events.now ≤ MAX_STEPS }
    requires meant { AreMeant events.now n }
    requires above { 0 < width }
    ensures width { IfOk result (λ row. row.width ≡ width) }
    ensures row { IfOk result (IsRowOf n events.now kind until) }
    ensures refused { IfErr result (IsTimedRefusal true events.now (clock_of kind until width)) }
    ensures other { IfErr result (λ why. why ≢ EventError.TooManyTicks) }
{
    let clock = clock_of(kind, until, width);
    let placing = placing_by(alloc, n, events, &clock)?;
    Ok(TickRow { width, placing })
}

/// A clock whose ticks have so many units of times of this kind.
pub(crate) fn clock_of(kind: TimeKind, until: Option<i128>, width: u64) -> Clock
    requires { 0 < width }
    ensures is { result ≡ clock_of kind until width }
    ensures above { 0 < result.width }
{
    Clock {
        width: units_in(kind, width),
        until,
    }
}

/// The numbers of the trace of events that may be spread; nothing if it would have too many ticks.
fn placing_by(
    alloc: Global,
    n: u64,
    events: &[Event],
    clock: &Clock,
) -> Result<Option<Placing>, EventError>
    requires least { MIN_PROCESSORS ≤ n }
    requires most { n ≤ MAX_PROCESSORS }
    requires some { 0 < length events.now }
    requires few { length events.now ≤ MAX_STEPS }
    requires meant { AreMeant events.now n }
    requires width { 0 < clock.now.width }
    ensures placing { IfOk result (IsPlacedBy n events.now clock.now) }
    ensures refused { IfErr result (IsTimedRefusal true events.now clock.now) }
    ensures other { IfErr result (λ why. why ≢ EventError.TooManyTicks) }
{
    let ticked = match event_ticks(alloc, n, events, clock, true) {
        Ok(ticked) => ticked,
        Err(EventError::TooManyTicks) => return Ok(None),
        Err(why) => return Err(why),
    };
    let placed = placed_trace(alloc, n, events, clock, true, ticked)?;
    Ok(Some(placing_of(alloc, events, clock, &placed)?))
}

/// The numbers of a trace of events.
fn placing_of(
    alloc: Global,
    events: &[Event],
    clock: &Clock,
    placed: &PlacedTrace,
) -> Result<Placing, AllocError>
    requires some { 0 < length events.now }
    requires width { 0 < clock.now.width }
    requires passed { times_refusal events.now clock.now ≡ None }
    requires long { length placed.now.places.items ≡ length placed.now.timed.trace.steps }
    ensures { IfOk result (AreNumbersOf events.now clock.now placed.now.timed.trace
        placed.now.timed.moved placed.now.places.items) }
{
    let own = ticks_of(alloc, events, clock, least_time(events))?;
    let moved = placed.timed.moved;
    Ok(Placing {
        last: placed.timed.trace.last_tick(),
        events: events.len() as u64,
        moved: moved.events,
        most: moved.ticks,
        far: far_count(&own, &placed.timed.trace, &placed.places),
    })
}

/// How many steps are of events that are more than one tick later than those of their times.
fn far_count(own: &[u32], trace: &Trace, places: &[u32]) -> u64
    requires long { length places.now ≡ length trace.now.steps }
    ensures { result ≡ far_count own.now trace.now.ticks places.now }
{
    let mut far = 0;
    for k in 0..trace.len() {
        if is_far(own, trace, places, k) {
            far += 1;
        }
    }
    far
}

/// Whether the event of step `k`, counted from 0, is more than one tick later than that of its time.
fn is_far(own: &[u32], trace: &Trace, places: &[u32], k: usize) -> bool
    requires long { length places.now ≡ length trace.now.steps }
    requires inside { k < length trace.now.steps }
    requires few { k < MAX_STEPS }
    ensures { result ≡ is_far own.now trace.now.ticks places.now k }
{
    let own = u64::from(tick_at(own, places[k] as usize));
    own + 1 < tick_of(trace, k)
}

/// The tick of the event at a place; 0 if there is none.
fn tick_at(ticks: &[u32], place: usize) -> u32
    ensures { result ≡ slice_index_or ticks.now place 0 }
{
    match ticks.get(place) {
        Some(tick) => *tick,
        None => 0,
    }
}
