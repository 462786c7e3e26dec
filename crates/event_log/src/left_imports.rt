//! Logs read as traces without lost sends, or with merged receives.

ghost use Rattle.std.specs.Prelude.{◌≡◌, ◌<◌, IfErr, IfOk, Some, false, length, true};
ghost use Rattle.std.specs.Cow.{cow_slice_items};
ghost use Rattle.event_log.specs.Given.{AreGiven};
ghost use Rattle.event_log.specs.Imports.{IsAlignedLogOf, IsPlacedOfLog, IsUnmadeUnlessMemory};
ghost use Rattle.event_log.specs.LogPlaces.{moved_in};
ghost use Rattle.event_log.specs.TakenEvents.{removed_by};
ghost use Rattle.event_log.specs.Logs.{seen_log};
ghost use Rattle.event_log.specs.SoundLogs.{IsSound};

use crate::alignments::AlignedLog;
use crate::imports::{Import, PlacedImport};
use crate::left_refusals::told_again;
use crate::log_places::{LogPlaces, moved_in};
use crate::log_traces::{LogTrace, TraceOptions, passed_events, trace_of_passed};
use crate::options::Options;
use crate::refusals::LogError;
use crate::taken_events::{TakenEvents, taken_events};
use crate::workers::Workers;
use clock_offsets::Offsets;
use merged_receives::Parts;
use std::alloc::Global;
use std::borrow::CowSlice;
use timed_events::{Clock, Lateness, least_time};

/// The import of the events of an aligned log without lost sends, and then with merged receives. Asks for one of the
/// two, and for the log of the text, which is read once more if a refusal names something in it: what is left takes the
/// place of all.
///
/// Refuses NoEvents if none is left; UntilUnfit and TooManyTicks before receives are merged; then the first reason
/// against the events that are left. Memory may come at any step.
pub(crate) fn left_import<W: Workers>(
    workers: &W,
    alloc: Global,
    text: CowSlice<'_, u8, Global>,
    options: &Options,
    aligned: AlignedLog,
    lateness: Lateness,
    how: TraceOptions,
) -> Result<PlacedImport, LogError>
    requires sound { IsSound (seen_log aligned.log) }
    requires width { 0 < how.clock.width }
    requires asked { how.drop_lost ≡ false → how.merge ≡ true }
    requires given { IsAlignedLogOf options.now (cow_slice_items text) aligned.log.nodes
        aligned.log.events.items }
    ensures made { IfOk result
        (λ p. IsPlacedOfLog how.told how.drop_lost how.merge how.limit how.spread
        (length aligned.log.nodes) aligned.log.events.items how.clock p.import p.events.items
        p.logged p.left_at p.parts p.first p.places.items) }
    ensures given { IfOk result (λ p. AreGiven aligned lateness how.clock p) }
    ensures long { IfOk result (λ p. length p.places.items ≡ length p.import.trace.steps) }
    ensures refused { IfErr result
        (IsUnmadeUnlessMemory how.drop_lost how.merge how.limit how.spread
        (cow_slice_items text.entry) aligned.log.nodes aligned.log.events.items how.clock) }
{
    let AlignedLog { log, offsets } = aligned;
    let all = log.events.len();
    let mut left = taken_events(alloc, log, &how.clock, how.drop_lost, how.merge)?;
    let n = left.nodes.len() as u64;
    let logged = left.events.len();
    let lost = removed(how.drop_lost, all, left.kept);
    let merged = removed(how.merge, left.kept, logged);
    let counts = Counts {
        lost,
        merged,
        logged,
    };
    let first = least_time(left.events.as_slice());
    let passed = match passed_events(alloc, n, left.events.as_slice(), how) {
        Ok(passed) => passed,
        Err(why) => return Err(told_again(alloc, workers, &text, options, &left, why)),
    };
    drop(text);
    left.parts = parts_for(left.parts.take(), how.told);
    let events = &mut left.events;
    let made = trace_of_passed(alloc, n, events, how, passed)?;
    Ok(left_import_of(offsets, left, made, lateness, counts, first, how.clock))
}

/// Parts of events if a table has to tell them. Else none: they would stay beside the trace.
fn parts_for(parts: Option<Parts>, told: bool) -> Option<Parts>
    ensures { told ≡ true → result ≡ parts }
{
    if told {
        return parts;
    }
    None
}

/// How many events are lost sends and how many receives are merged into others, if these are counted, and how many are
/// left.
#[derive(Clone, Copy)]
struct Counts {
    lost: Option<u64>,
    merged: Option<u64>,
    logged: usize,
}

/// How many events a step takes away, if it is asked for.
fn removed(asked: bool, before: usize, after: usize) -> Option<u64>
    ensures { result ≡ removed_by asked before after }
{
    if asked {
        return Some(before.saturating_sub(after) as u64);
    }
    None
}

/// The import of the events that are left of a log, by how much its clocks were moved, of the trace and the late
/// messages, by a clock. The first of the events is at a time.
fn left_import_of(
    offsets: Option<Offsets>,
    left: TakenEvents,
    made: LogTrace,
    lateness: Lateness,
    counts: Counts,
    first: i128,
    clock: Clock,
) -> PlacedImport
    ensures import { result.import
        ≡ record {
          trace = made.trace;
          nodes = left.nodes;
          moved = moved_in (Some left.places.items) made.moved;
          lateness = lateness;
          offsets = offsets;
          idle = made.idle;
          lost = counts.lost;
          merged = counts.merged;
        } }
    ensures events { result.events.items ≡ left.events.items }
    ensures logged { result.logged ≡ counts.logged }
    ensures at { result.left_at ≡ Some left.places.items }
    ensures parts { result.parts ≡ left.parts }
    ensures first { result.first ≡ first }
    ensures clock { result.clock ≡ clock }
    ensures places { result.places.items ≡ made.places.items }
{
    let TakenEvents {
        nodes,
        events,
        places,
        parts,
        ..
    } = left;
    let moved = moved_in(&places, made.moved);
    PlacedImport {
        import: Import {
            trace: made.trace,
            nodes,
            moved,
            lateness,
            offsets,
            idle: made.idle,
            lost: counts.lost,
            merged: counts.merged,
        },
        events,
        logged: counts.logged,
        left_at: LogPlaces::of(places),
        parts,
        first,
        clock,
        places: made.places,
    }
}
