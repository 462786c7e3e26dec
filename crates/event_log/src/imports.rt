//! Logs read as traces.

ghost use Rattle.std.specs.Prelude.{◌≡◌, ◌^◌, ◌<◌, ◌≤◌, Err, false, IfErr, IfOk, None, length};
ghost use Rattle.std.specs.Cow.{cow_slice_items};
ghost use Rattle.timed_events.specs.Lateness.{lateness_of};
ghost use Rattle.event_log.specs.Imports.{IsImportOf, IsLogRefusal, IsPlacedImport, IsPlacedOfLog};
ghost use Rattle.event_log.specs.Imports.{IsUnmadeUnlessMemory};
ghost use Rattle.event_log.specs.Given.{AreGiven};
ghost use Rattle.event_log.specs.Logs.{seen_log};
ghost use Rattle.event_log.specs.SoundLogs.{IsSound};

use crate::alignments::{AlignedLog, aligned_log};
use crate::idle_limits::limit_for;
use crate::left_imports::left_import;
use crate::log_places::LogPlaces;
use crate::log_traces::{LogTrace, TraceOptions, trace_of_passed};
use crate::names::NameSet;
use crate::options::Options;
use crate::passed_logs::lateness_in;
use crate::read_logs::events_by;
use crate::refusals::LogError;
use crate::tick_clocks::clock_for;
use crate::workers::Workers;
use clock_offsets::Offsets;
use merged_receives::Parts;
use std::alloc::Global;
use std::borrow::CowSlice;
use step_trace::Trace;
use timed_events::{Clock, Event, Lateness, Moved, lateness_of, least_time};
use trace_text::MAX_TEXT_BYTES;

/// A log read as a trace.
#[derive(Drop)]
pub struct Import {
    /// The trace in ticks.
    pub trace: Trace,
    /// The nodes: a processor's number is its node's place and 1.
    pub nodes: NameSet,
    /// How far events moved from the ticks of their times.
    pub moved: Moved,
    /// How many messages are received no later than they are sent, by the times of the events.
    pub lateness: Lateness,
    /// By how much the clocks of the nodes were moved, if they were to be aligned.
    pub offsets: Option<Offsets>,
    /// The receives of nothing that were added, if they were asked for.
    pub idle: Option<IdleReceives>,
    /// How many sends of messages that no record receives were left out, if that was asked for.
    pub lost: Option<u64>,
    /// How many receives were merged into others, if that was asked for.
    pub merged: Option<u64>,
}

/// Receives of nothing that were added to a trace.
#[derive(Clone, Copy, Debug, PartialEq, Eq)]
pub struct IdleReceives {
    /// How many.
    pub count: u64,
    /// How many ticks a silence has at most that got one.
    pub limit: u128,
}

/// Reads a log as a trace: each event is one step, in the tick of its time or, if events may be spread, as little later
/// as need be.
///
/// If clocks are to be aligned, each is moved first, and the end of the log is one by the moved times. If lost sends
/// are left out, they are no steps, and take no time; all else is named by its place in the whole log. If receives are
/// merged, those of a node in one tick become one step, which is named by the first of them.
///
/// Refuses in the order of `LogError`. If events may be spread, none is NotLater or SecondEvent. Cycle then comes after
/// the other refusals of events, and TooManyTicks last if an event came too far. Memory comes only for a text that
/// isn't too large.
///
/// A text that is given, not lent, is freed once no refusal can name something in it: before the trace is made. What is
/// left of a log takes the place of all: if a refusal names an event then, the text is read once more.
pub fn read_log<W: Workers>(
    alloc: Global,
    workers: &W,
    text: CowSlice<'_, u8, Global>,
    options: &Options,
) -> Result<Import, LogError>
    ensures import { IfOk result
        (λ import. IsImportOf options.now (cow_slice_items text.entry) import) }
    ensures refused { IfErr result
        (λ why. IsLogRefusal options.now (cow_slice_items text.entry) why) }
    ensures more { result ≡ Err LogError.Memory
        → length (cow_slice_items text.entry) ≤ MAX_TEXT_BYTES }
{
    Ok(placed_import(alloc, workers, text, options, false)?.import)
}

/// A log read as a trace, with what its steps are made of.
#[derive(Drop)]
pub(crate) struct PlacedImport {
    pub(crate) import: Import,
    /// The events of the log in the order of their records, with aligned clocks, without lost sends and with merged
    /// receives if that was asked for. Behind them are the receives of nothing that were added.
    pub(crate) events: Vec<Event>,
    /// How many of the events are the log's.
    pub(crate) logged: usize,
    /// Where these are in the log: the first ones if they are made of several.
    pub(crate) left_at: LogPlaces,
    /// Where the events are in the log of which each is made, if receives were merged and a table tells it.
    pub(crate) parts: Option<Parts>,
    /// When tick 1 begins.
    pub(crate) first: i128,
    /// How long ticks are.
    pub(crate) clock: Clock,
    /// The places of the events in the order of the steps.
    pub(crate) places: Vec<u32>,
}

/// The same import as that of `read_log`, with what its steps are made of; with the parts of merged receives only if a
/// table has to tell them.
///
/// Refuses the same.
pub(crate) fn placed_import<W: Workers>(
    alloc: Global,
    workers: &W,
    text: CowSlice<'_, u8, Global>,
    options: &Options,
    told: bool,
) -> Result<PlacedImport, LogError>
    ensures import { IfOk result
        (λ p. IsPlacedImport told options.now (cow_slice_items text.entry) p.import p.events.items
        p.logged p.left_at p.parts p.first p.clock p.places.items) }
    ensures long { IfOk result (λ p. length p.places.items ≡ length p.import.trace.steps) }
    ensures short { IfOk result (λ p. p.clock.width < 2 ^ 94) }
    ensures refused { IfErr result
        (λ why. IsLogRefusal options.now (cow_slice_items text.entry) why) }
    ensures more { result ≡ Err LogError.Memory
        → length (cow_slice_items text.entry) ≤ MAX_TEXT_BYTES }
{
    if text.len() > MAX_TEXT_BYTES {
        return Err(LogError::TooLarge);
    }
    let log = events_by(alloc, workers, &text, options)?;
    let clock = clock_for(options, log.kind)?;
    let limit = limit_for(options, log.kind, &clock)?;
    let aligned = aligned_log(alloc, &text, log, options.align)?;
    let how = TraceOptions {
        clock,
        limit,
        spread: options.spread,
        drop_lost: options.drop_lost,
        merge: options.merge,
        told,
    };
    if how.drop_lost || how.merge {
        let lateness = lateness_in(alloc, &aligned.log)?;
        return left_import(workers, alloc, text, options, aligned, lateness, how);
    }
    whole_import(workers, alloc, text, aligned, how)
}

/// The import of all events of an aligned log.
///
/// Refuses the first reason against them. Memory may come at any step.
fn whole_import<W: Workers>(
    workers: &W,
    alloc: Global,
    text: CowSlice<'_, u8, Global>,
    aligned: AlignedLog,
    how: TraceOptions,
) -> Result<PlacedImport, LogError>
    requires sound { IsSound (seen_log aligned.log) }
    requires width { 0 < how.clock.width }
    ensures made { IfOk result
        (λ p. IsPlacedOfLog how.told false false how.limit how.spread (length aligned.log.nodes)
        aligned.log.events.items how.clock p.import p.events.items p.logged p.left_at
        p.parts p.first p.places.items) }
    ensures given { IfOk result
        (λ p. AreGiven aligned (lateness_of aligned.log.events.items) how.clock p) }
    ensures long { IfOk result (λ p. length p.places.items ≡ length p.import.trace.steps) }
    ensures refused { IfErr result
        (IsUnmadeUnlessMemory false false how.limit how.spread (cow_slice_items text.entry)
        aligned.log.nodes aligned.log.events.items how.clock) }
{
    let mut aligned = aligned;
    let (lateness, passed) = workers.late_and_passed(alloc, &text, &aligned.log, how);
    let lateness = lateness?;
    let passed = passed?;
    drop(text);
    let n = aligned.log.nodes.len() as u64;
    let logged = aligned.log.events.len();
    let first = least_time(aligned.log.events.as_slice());
    let events = &mut aligned.log.events;
    let made = trace_of_passed(alloc, n, events, how, passed)?;
    Ok(import_of(aligned, made, lateness, logged, first, how.clock))
}

/// The import of an aligned log, of its trace and its late messages, by a clock. So many events are in the log, the
/// first of them at a time.
fn import_of(
    aligned: AlignedLog,
    made: LogTrace,
    lateness: Lateness,
    logged: usize,
    first: i128,
    clock: Clock,
) -> PlacedImport
    ensures import { result.import
        ≡ record {
          trace = made.trace;
          nodes = aligned.log.nodes;
          moved = made.moved;
          lateness =
              lateness;
          offsets = aligned.offsets;
          idle = made.idle;
          lost = None;
          merged = None;
        } }
    ensures events { result.events.items ≡ aligned.log.events.items }
    ensures logged { result.logged ≡ logged }
    ensures at { result.left_at ≡ None }
    ensures parts { result.parts ≡ None }
    ensures first { result.first ≡ first }
    ensures clock { result.clock ≡ clock }
    ensures places { result.places.items ≡ made.places.items }
{
    let AlignedLog { log, offsets } = aligned;
    let LogTrace {
        trace,
        moved,
        idle,
        places,
    } = made;
    PlacedImport {
        import: Import {
            trace,
            nodes: log.nodes,
            moved,
            lateness,
            offsets,
            idle,
            lost: None,
            merged: None,
        },
        events: log.events,
        logged,
        left_at: LogPlaces::all(),
        parts: None,
        first,
        clock,
        places,
    }
}
