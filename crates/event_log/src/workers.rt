//! Who does what a log's import can share: one thread, or two.

ghost use Rattle.std.specs.Prelude.{◌≡◌, ◌<◌, IfErr, IfOk, false, length};
ghost use Rattle.std.specs.List.{All};
ghost use Rattle.timed_events.specs.Lateness.{lateness_of};
ghost use Rattle.event_log.specs.Imports.{IsUnmadeUnlessMemory};
ghost use Rattle.event_log.specs.LogTraces.{HavePassed};
ghost use Rattle.event_log.specs.Logs.{seen_log};
ghost use Rattle.event_log.specs.PackedEvents.{ArePlaced, IsWithin};
ghost use Rattle.event_log.specs.PlainLines.{LeadsOn};
ghost use Rattle.event_log.specs.SoundLogs.{IsSound};

use crate::log_traces::{PassedEvents, TraceOptions};
use crate::logs::NamedEvents;
use crate::packed_events::PackedEvent;
use crate::passed_logs::{both_by_two, lateness_in, passed_log};
use crate::placed_events::{place_all, place_by_two};
use crate::read_lines::{read_by_one, read_by_two};
use crate::reading::Reading;
use crate::refusals::LogError;
use crate::sent_messages::SentMessages;
use std::alloc::{AllocError, Global};
use std::thread::Threads;
use timed_events::Lateness;

/// How many events are too few to start a thread for.
const FEW_EVENTS: usize = 1_024;

/// Who does what an import can share.
pub trait Workers {
    /// Takes in the records at the front of a text, as far as each is a line that needs no reader of csv's, and isn't
    /// refused. Gives the place where the first other one begins.
    ///
    /// Refuses what the record that is taken in next would be refused for, and Memory.
    fn read_lines<'a>(
        &self,
        alloc: Global,
        text: &[u8],
        begun: Reading<'a>,
    ) -> Result<(Reading<'a>, usize), LogError>
        ensures { LeadsOn begun.entry text.now 0 result };

    /// Puts the places of the sends in place of the names of messages, in both halves of the events. Gives the messages
    /// of each half.
    fn place_messages(
        &self,
        alloc: Global,
        sent: &SentMessages,
        names: &[u8],
        low: &mut [PackedEvent],
        high: &mut [PackedEvent],
    ) -> (
        Result<Vec<Option<u32>>, AllocError>,
        Result<Vec<Option<u32>>, AllocError>,
    )
        requires low { All (IsWithin (length names.now)) low.old }
        requires high { All (IsWithin (length names.now)) high.old }
        ensures low { IfOk result.0
            (λ messages. ArePlaced sent.now names.now messages.items low.old low.new) }
        ensures high { IfOk result.1
            (λ messages. ArePlaced sent.now names.now messages.items high.old high.new) };

    /// How many messages of a log are late, which fails only if out of memory; and whether its events make a trace,
    /// which refuses the first reason against them.
    fn late_and_passed(
        &self,
        alloc: Global,
        text: &[u8],
        log: &NamedEvents,
        how: TraceOptions,
    ) -> (Result<Lateness, LogError>, Result<PassedEvents, LogError>)
        requires sound { IsSound (seen_log log.now) }
        requires width { 0 < how.clock.width }
        ensures lateness { IfOk result.0 (λ l. l ≡ lateness_of log.now.events.items) }
        ensures memory { IfErr result.0 (λ why. why ≡ LogError.Memory) }
        ensures passed { IfOk result.1
            (HavePassed how.limit how.spread (length log.now.nodes) log.now.events.items
            how.clock) }
        ensures refused { IfErr result.1
            (IsUnmadeUnlessMemory false false how.limit how.spread text.now log.now.nodes
            log.now.events.items how.clock) };
}

/// One thread, which does one thing after the other.
#[derive(Clone, Copy, Debug)]
pub struct OneThread;

impl Workers for OneThread {
    fn read_lines<'a>(
        &self,
        alloc: Global,
        text: &[u8],
        begun: Reading<'a>,
    ) -> Result<(Reading<'a>, usize), LogError>
        ensures { LeadsOn begun.entry text.now 0 result }
    {
        read_by_one(alloc, text, begun)
    }

    fn place_messages(
        &self,
        alloc: Global,
        sent: &SentMessages,
        names: &[u8],
        low: &mut [PackedEvent],
        high: &mut [PackedEvent],
    ) -> (
        Result<Vec<Option<u32>>, AllocError>,
        Result<Vec<Option<u32>>, AllocError>,
    )
        requires low { All (IsWithin (length names.now)) low.old }
        requires high { All (IsWithin (length names.now)) high.old }
        ensures low { IfOk result.0
            (λ messages. ArePlaced sent.now names.now messages.items low.old low.new) }
        ensures high { IfOk result.1
            (λ messages. ArePlaced sent.now names.now messages.items high.old high.new) }
    {
        let front = place_all(alloc, sent, names, low);
        let back = place_all(alloc, sent, names, high);
        (front, back)
    }

    fn late_and_passed(
        &self,
        alloc: Global,
        text: &[u8],
        log: &NamedEvents,
        how: TraceOptions,
    ) -> (Result<Lateness, LogError>, Result<PassedEvents, LogError>)
        requires sound { IsSound (seen_log log.now) }
        requires width { 0 < how.clock.width }
        ensures lateness { IfOk result.0 (λ l. l ≡ lateness_of log.now.events.items) }
        ensures memory { IfErr result.0 (λ why. why ≡ LogError.Memory) }
        ensures passed { IfOk result.1
            (HavePassed how.limit how.spread (length log.now.nodes) log.now.events.items
            how.clock) }
        ensures refused { IfErr result.1
            (IsUnmadeUnlessMemory false false how.limit how.spread text.now log.now.nodes
            log.now.events.items how.clock) }
    {
        let lateness = lateness_in(alloc, log);
        let passed = passed_log(alloc, text, log, how);
        (lateness, passed)
    }
}

/// Two threads, if another one can be started. It finds out what lines say, while this one takes in what the lines
/// before them say; and of two things it does the first.
#[derive(Clone, Copy)]
pub struct TwoThreads<'a, T> {
    pub rt: &'a T,
}

impl<'t, T: Threads> Workers for TwoThreads<'t, T> {
    fn read_lines<'a>(
        &self,
        alloc: Global,
        text: &[u8],
        begun: Reading<'a>,
    ) -> Result<(Reading<'a>, usize), LogError>
        ensures { LeadsOn begun.entry text.now 0 result }
    {
        read_by_two(self.rt, alloc, text, begun)
    }

    fn place_messages(
        &self,
        alloc: Global,
        sent: &SentMessages,
        names: &[u8],
        low: &mut [PackedEvent],
        high: &mut [PackedEvent],
    ) -> (
        Result<Vec<Option<u32>>, AllocError>,
        Result<Vec<Option<u32>>, AllocError>,
    )
        requires low { All (IsWithin (length names.now)) low.old }
        requires high { All (IsWithin (length names.now)) high.old }
        ensures low { IfOk result.0
            (λ messages. ArePlaced sent.now names.now messages.items low.old low.new) }
        ensures high { IfOk result.1
            (λ messages. ArePlaced sent.now names.now messages.items high.old high.new) }
    {
        if high.len() < FEW_EVENTS {
            return OneThread.place_messages(alloc, sent, names, low, high);
        }
        place_by_two(self.rt, alloc, sent, names, low, high)
    }

    fn late_and_passed(
        &self,
        alloc: Global,
        text: &[u8],
        log: &NamedEvents,
        how: TraceOptions,
    ) -> (Result<Lateness, LogError>, Result<PassedEvents, LogError>)
        requires sound { IsSound (seen_log log.now) }
        requires width { 0 < how.clock.width }
        ensures lateness { IfOk result.0 (λ l. l ≡ lateness_of log.now.events.items) }
        ensures memory { IfErr result.0 (λ why. why ≡ LogError.Memory) }
        ensures passed { IfOk result.1
            (HavePassed how.limit how.spread (length log.now.nodes) log.now.events.items
            how.clock) }
        ensures refused { IfErr result.1
            (IsUnmadeUnlessMemory false false how.limit how.spread text.now log.now.nodes
            log.now.events.items how.clock) }
    {
        if log.events.len() < FEW_EVENTS {
            return OneThread.late_and_passed(alloc, text, log, how);
        }
        both_by_two(self.rt, alloc, text, log, how)
    }
}
