//! Logs whose clocks are aligned.

ghost use Rattle.std.specs.Prelude.{◌≡◌, ℕ, true, IfErr, IfOk, IfSome, MatchBool, ⊤, None, length};
ghost use Rattle.std.proofs.Common.{ℤ};
ghost use Rattle.timed_events.specs.Checks.{first_fault};
ghost use Rattle.clock_offsets.specs.ClockCycles.{IsClockCycle};
ghost use Rattle.clock_offsets.specs.EventNeeds.{AreClockOffsets, AreInOrder};
ghost use Rattle.event_log.specs.Alignments.{latest_in, AreAligned};
ghost use Rattle.event_log.specs.Alignments.{HaveNoOffsets, IsAlignRefusal};
ghost use Rattle.event_log.specs.Logs.{seen_log};
ghost use Rattle.event_log.specs.Naming.{is_memory};
ghost use Rattle.event_log.specs.SoundLogs.{IsSound};

use crate::clock_lines::clock_lines;
use crate::event_refusals::error_of;
use crate::logs::NamedEvents;
use crate::refusals::LogError;
use crate::times::{TimeKind, nanoseconds_in};
use clock_offsets::{
    ClockCycle, OffsetError, Offsets, TooLate, clock_cycle, clock_offsets, moved_events,
};
use std::alloc::{AllocError, Global};
use timed_events::check_messages;

/// A log with its clocks aligned, and by how much they were moved; nothing if that wasn't asked for.
#[derive(Drop)]
pub(crate) struct AlignedLog {
    pub(crate) log: NamedEvents,
    pub(crate) offsets: Option<Offsets>,
}

/// The log, with its clocks aligned if that is asked for.
///
/// Refuses, in this order: the first reason against a message, NoOffsets, TooLate. Memory may come before each of them.
pub(crate) fn aligned_log(
    alloc: Global,
    text: &[u8],
    log: NamedEvents,
    align: bool,
) -> Result<AlignedLog, LogError>
    requires sound { IsSound (seen_log log) }
    ensures aligned { IfOk result
        (λ a. AreAligned align log.kind (length log.nodes) log.events.items
        a.offsets a.log.events.items) }
    ensures kind { IfOk result (λ a. a.log.kind ≡ log.kind) }
    ensures nodes { IfOk result (λ a. a.log.nodes ≡ log.nodes) }
    ensures sound { IfOk result (λ a. IsSound (seen_log a.log)) }
    ensures refused { IfErr result
        (λ why. (align ≡ true) × IsAlignRefusal text.now log.nodes log.events.items why) }
{
    if !align {
        return Ok(AlignedLog { log, offsets: None });
    }
    test_messages(alloc, text, &log)?;
    let offsets = offsets_of(alloc, text, &log)?;
    moved_log(log, offsets)
}

/// Tests the messages of a log.
fn test_messages(alloc: Global, text: &[u8], log: &NamedEvents) -> Result<(), LogError>
    requires sound { IsSound (seen_log log.now) }
    ensures passed { IfOk result (λ done. first_fault log.now.events.items ≡ None) }
    ensures refused { IfErr result
        (λ why. IsAlignRefusal text.now log.now.nodes log.now.events.items why) }
{
    match check_messages(alloc, log.events.as_slice()) {
        Ok(()) => Ok(()),
        Err(why) => Err(error_of(alloc, text, &log.nodes, log.events.as_slice(), why)),
    }
}

/// The least offsets of the clocks of a log, against whose messages there is nothing.
fn offsets_of(alloc: Global, text: &[u8], log: &NamedEvents) -> Result<Offsets, LogError>
    requires sound { IsSound (seen_log log.now) }
    requires passed { first_fault log.now.events.items ≡ None }
    ensures offsets { IfOk result
        (λ offsets. AreClockOffsets (length log.now.nodes) log.now.events.items offsets) }
    ensures refused { IfErr result
        (λ why. IsAlignRefusal text.now log.now.nodes log.now.events.items why) }
{
    match clock_offsets(alloc, log.nodes.len(), log.events.as_slice()) {
        Ok(offsets) => Ok(offsets),
        Err(OffsetError::Cycle { .. }) => Err(no_offsets(alloc, text, log)),
        Err(OffsetError::TooFar) => Err(LogError::TooLate),
        Err(OffsetError::Memory) => Err(LogError::Memory),
    }
}

/// The refusal of a log whose clocks no offsets align, or Memory.
fn no_offsets(alloc: Global, text: &[u8], log: &NamedEvents) -> LogError
    requires sound { IsSound (seen_log log.now) }
    requires none { (y : ℕ → ℤ) → ¬ AreInOrder log.now.events.items y }
    ensures { MatchBool (is_memory result) ⊤
        (HaveNoOffsets text.now log.now.nodes log.now.events.items result) }
{
    match told_cycle(alloc, text, log) {
        Ok(error) => error,
        Err(_) => LogError::Memory,
    }
}

fn told_cycle(alloc: Global, text: &[u8], log: &NamedEvents) -> Result<LogError, AllocError>
    requires sound { IsSound (seen_log log.now) }
    requires none { (y : ℕ → ℤ) → ¬ AreInOrder log.now.events.items y }
    ensures { IfOk result
        (λ error. HaveNoOffsets text.now log.now.nodes log.now.events.items error) }
{
    let cycle = found_cycle(alloc, log)?;
    let lines = clock_lines(alloc, text, &log.nodes, log.events.as_slice(), cycle)?;
    Ok(LogError::NoOffsets(lines))
}

/// A cycle of the clocks of a log, if one is found.
fn found_cycle(alloc: Global, log: &NamedEvents) -> Result<Option<ClockCycle>, AllocError>
    requires sound { IsSound (seen_log log.now) }
    ensures cycle { IfOk result (λ cycle. IfSome cycle (λ c. IsClockCycle log.now.events.items c)) }
{
    match clock_cycle(alloc, log.events.as_slice()) {
        Ok(cycle) => Ok(cycle),
        Err(OffsetError::Memory) => Err(AllocError),
        Err(_) => Ok(None),
    }
}

/// The log once its clocks are moved.
fn moved_log(log: NamedEvents, offsets: Offsets) -> Result<AlignedLog, LogError>
    requires sound { IsSound (seen_log log) }
    requires passed { first_fault log.events.items ≡ None }
    requires least { AreClockOffsets (length log.nodes) log.events.items offsets }
    ensures aligned { IfOk result
        (λ a. AreAligned true log.kind (length log.nodes) log.events.items
        a.offsets a.log.events.items) }
    ensures kind { IfOk result (λ a. a.log.kind ≡ log.kind) }
    ensures nodes { IfOk result (λ a. a.log.nodes ≡ log.nodes) }
    ensures sound { IfOk result (λ a. IsSound (seen_log a.log)) }
    ensures refused { IfErr result (λ why. why ≡ LogError.TooLate) }
{
    let NamedEvents {
        kind,
        nodes,
        events,
    } = log;
    match moved_events(events, &offsets, latest_in(kind)) {
        Ok(events) => Ok(AlignedLog {
            log: NamedEvents {
                kind,
                nodes,
                events,
            },
            offsets: Some(offsets),
        }),
        Err(TooLate) => Err(LogError::TooLate),
    }
}

/// The latest time of a kind: the greatest number of 64 bits, in its unit or as seconds with nine decimals, and the
/// last time stamp that is read.
fn latest_in(kind: TimeKind) -> i128
    ensures { result ≡ latest_in kind }
{
    match kind {
        TimeKind::Number => 18_446_744_073_709_551_615,
        TimeKind::Whole(unit) => { 18_446_744_073_709_551_615 * i128::from(nanoseconds_in(unit)) }
        TimeKind::Decimal => 18_446_744_073_709_551_615_999_999_999,
        TimeKind::Stamp | TimeKind::Local => 253_402_207_200_999_999_999,
    }
}
