//! How many messages are never taken.

ghost use Rattle.std.specs.Prelude.{◌≡◌, ◌+◌, ◌<◌, ◌≤◌, ◌^◌, ℕ, IfOk, IsTrue, Some, length, if◌then◌else◌};
ghost use Rattle.step_trace.specs.Processors.{IsWithin};
ghost use Rattle.step_trace.specs.PushRefusals.{is_taken};
ghost use Rattle.step_trace.specs.Ticks.{tick_of};
ghost use Rattle.run_story.specs.Messages.{flag_at, receiver_of};
ghost use Rattle.run_story.specs.MessageCounts.{is_lost, is_missed, is_receive_at, is_under_way, is_untaken};
ghost use Rattle.run_story.specs.MessageCounts.{last_receive, message_counts, tick_in};

use crate::headlines::is_between;
use crate::messages::{flag_at, receiver_of, taken_messages};
use std::alloc::{AllocError, Global};
use step_trace::{Act, ProcSet, Trace};

/// How many messages between members a trace has, and how many of them nobody ever takes. Such a message is lost if its
/// receiver receives in a later tick than its Send's, and else under way.
#[derive(Clone, Copy, Debug, PartialEq, Eq)]
pub struct MessageCounts {
    pub all: u64,
    pub lost: u64,
    pub under_way: u64,
    /// The last one that is lost.
    pub last_lost: Option<u64>,
}

/// The counts of the messages between members of a set.
///
/// Time grows with the steps and the ids that they take. Fails only if out of memory.
pub fn count_messages(
    alloc: Global,
    trace: &Trace,
    set: ProcSet,
) -> Result<MessageCounts, AllocError>
    requires { IsWithin set trace.now.config.n }
    ensures { IfOk result (λ counts. counts ≡ message_counts set trace.now) }
{
    let taken = taken_messages(alloc, trace)?;
    let lasts = last_receives(alloc, trace)?;
    Ok(counted(trace, set, &taken, &lasts))
}

/// The counts, by which messages are taken and when each processor receives last.
fn counted(trace: &Trace, set: ProcSet, taken: &[bool], lasts: &[u64]) -> MessageCounts
    requires within { IsWithin set trace.now.config.n }
    requires taken { (s : ℕ) → flag_at taken.now s ≡ is_taken trace.now.steps s }
    requires lasts { (p : ℕ) → p ≤ trace.now.config.n
        → tick_in lasts.now p ≡ last_receive p trace.now (length trace.now.steps) }
    ensures { result ≡ message_counts set trace.now }
{
    let mut counts = MessageCounts {
        all: 0,
        lost: 0,
        under_way: 0,
        last_lost: None,
    };
    for i in 0..trace.len() {
        let no = i as u64 + 1;
        let lost = is_lost(trace, set, taken, lasts, no);
        counts = MessageCounts {
            all: plus(counts.all, is_between(trace, set, no)),
            lost: plus(counts.lost, lost),
            under_way: plus(counts.under_way, is_under_way(trace, set, taken, lasts, no)),
            last_lost: latest(counts.last_lost, no, lost),
        };
    }
    counts
}

/// One more, if it counts.
pub(crate) fn plus(count: u64, counts: bool) -> u64
    requires { count < 2 ^ 63 }
    ensures { result ≡ (if counts then count + 1 else count) }
{
    if counts { count + 1 } else { count }
}

/// This message, if it counts, or else the one before.
fn latest(before: Option<u64>, no: u64, counts: bool) -> Option<u64>
    ensures { result ≡ (if counts then Some no else before) }
{
    if counts { Some(no) } else { before }
}

/// Whether a message is lost.
pub(crate) fn is_lost(trace: &Trace, set: ProcSet, taken: &[bool], lasts: &[u64], no: u64) -> bool
    requires within { IsWithin set trace.now.config.n }
    requires taken { (s : ℕ) → flag_at taken.now s ≡ is_taken trace.now.steps s }
    requires lasts { (p : ℕ) → p ≤ trace.now.config.n
        → tick_in lasts.now p ≡ last_receive p trace.now (length trace.now.steps) }
    ensures { result ≡ is_lost set trace.now no }
{
    if !is_untaken(trace, set, taken, no) {
        return false;
    }
    is_missed(trace, lasts, no)
}

/// Whether a message is under way.
fn is_under_way(trace: &Trace, set: ProcSet, taken: &[bool], lasts: &[u64], no: u64) -> bool
    requires within { IsWithin set trace.now.config.n }
    requires taken { (s : ℕ) → flag_at taken.now s ≡ is_taken trace.now.steps s }
    requires lasts { (p : ℕ) → p ≤ trace.now.config.n
        → tick_in lasts.now p ≡ last_receive p trace.now (length trace.now.steps) }
    ensures { result ≡ is_under_way set trace.now no }
{
    if !is_untaken(trace, set, taken, no) {
        return false;
    }
    !is_missed(trace, lasts, no)
}

/// Whether a message goes from a member to a member, and is never taken.
fn is_untaken(trace: &Trace, set: ProcSet, taken: &[bool], no: u64) -> bool
    requires within { IsWithin set trace.now.config.n }
    requires taken { (s : ℕ) → flag_at taken.now s ≡ is_taken trace.now.steps s }
    ensures value { result ≡ is_untaken set trace.now no }
    ensures receiver { IsTrue result → receiver_of trace.now.steps no ≤ trace.now.config.n }
{
    if !is_between(trace, set, no) {
        return false;
    }
    !flag_at(taken, no)
}

/// Whether its receiver receives in a later tick than its Send's.
fn is_missed(trace: &Trace, lasts: &[u64], no: u64) -> bool
    requires { tick_in lasts.now (receiver_of trace.now.steps no) ≡ last_receive
        (receiver_of trace.now.steps no) trace.now (length trace.now.steps) }
    ensures { result ≡ is_missed trace.now no }
{
    trace.tick_at(no) < tick_in(lasts, receiver_of(trace, no))
}

/// The tick of a processor in a list of ticks.
fn tick_in(ticks: &[u64], proc: u64) -> u64
    ensures { result ≡ tick_in ticks.now proc }
{
    match ticks.get(proc as usize) {
        Some(tick) => *tick,
        None => 0,
    }
}

/// For each processor the tick of its last Receive: 0 if there is none.
pub(crate) fn last_receives(alloc: Global, trace: &Trace) -> Result<Vec<u64>, AllocError>
    ensures { IfOk result (λ lasts. (p : ℕ) → p ≤ trace.now.config.n
        → tick_in lasts.items p ≡ last_receive p trace.now (length trace.now.steps)) }
{
    let mut lasts = vec![in alloc; 0; trace.config().n() as usize + 1]?;
    for i in 0..trace.len() {
        note_receive(&mut lasts, trace, i as u64 + 1);
    }
    Ok(lasts)
}

/// Notes the tick of this step, if it is a Receive.
fn note_receive(lasts: &mut Vec<u64>, trace: &Trace, no: u64)
    ensures len { length lasts.new.items ≡ length lasts.old.items }
    ensures ticks { (p : ℕ) → p < length lasts.old.items
        → tick_in lasts.new.items p
        ≡ (if is_receive_at p trace.now.steps no then tick_of trace.now no else tick_in
        lasts.old.items p) }
{
    let Some(step) = trace.step(no) else {
        return;
    };
    if let Act::Receive { .. } = &step.act {
        let place = step.proc as usize;
        if place < lasts.len() {
            lasts[place] = trace.tick_at(no);
        }
    }
}
