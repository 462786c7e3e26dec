//! The few receivers of most lost messages.

ghost use Rattle.std.specs.Prelude.{◌≡◌, ◌+◌, ◌*◌, ◌<◌, ◌≤◌, ◌&&◌, ◌==◌, ℕ, IfOk, length, if◌then◌else◌};
ghost use Rattle.step_trace.specs.declared.processors.TheConstants.{MAX_MEMBER};
ghost use Rattle.step_trace.specs.declared.traces.TheConstants.{MAX_STEPS};
ghost use Rattle.step_trace.specs.Processors.{IsWithin, has_proc};
ghost use Rattle.run_story.specs.MessageCounts.{count_of};
ghost use Rattle.run_story.specs.Losses.{AreFewOf, AreLostReceivers, are_few, comes_before, count_at, is_needed};
ghost use Rattle.run_story.specs.Losses.{lost_for, needed_to, share_before, share_needed, sum_to};

use crate::message_counts::{is_lost, last_receives, plus};
use crate::messages::{receiver_of, taken_messages};
use std::alloc::{AllocError, Global};
use step_trace::{ProcSet, Trace};

/// If fewer messages are lost, their receivers tell nothing.
const LEAST_LOST: u64 = 10;

/// Most messages are so many per cent of them.
const MOST: u64 = 80;

/// Receivers are few if there are so many times as many members.
const FEW: u64 = 4;

/// The few receivers of most lost messages, and how many of these are theirs.
#[derive(Debug, Drop)]
pub struct LostReceivers {
    /// In rising order; nobody if fewer than ten messages are lost, or these receivers are more than a quarter of the
    /// members.
    pub who: Vec<u64>,
    pub lost: u64,
}

/// The fewest receivers that 80 per cent of the lost messages between members of a set are for: those with the most,
/// and of several with as many the first.
///
/// Time grows with the steps and the ids that they take. Fails only if out of memory.
pub fn lost_receivers(
    alloc: Global,
    trace: &Trace,
    set: ProcSet,
) -> Result<LostReceivers, AllocError>
    requires { IsWithin set trace.now.config.n }
    ensures { IfOk result (AreLostReceivers set trace.now) }
{
    let counts = lost_counts(alloc, trace, set)?;
    let n = trace.config().n();
    few_receivers(alloc, n, &counts, count_members(set, n))
}

/// For each processor how many lost messages are for it.
fn lost_counts(alloc: Global, trace: &Trace, set: ProcSet) -> Result<Vec<u64>, AllocError>
    requires { IsWithin set trace.now.config.n }
    ensures each { IfOk result (λ counts. (p : ℕ) → p ≤ trace.now.config.n
        → count_at counts.items p ≡ lost_for set trace.now p (length trace.now.steps)) }
    ensures limit { IfOk result (λ counts. (p : ℕ) → p ≤ trace.now.config.n
        → count_at counts.items p ≤ MAX_STEPS) }
{
    let taken = taken_messages(alloc, trace)?;
    let lasts = last_receives(alloc, trace)?;
    let mut counts = vec![in alloc; 0; trace.config().n() as usize + 1]?;
    for i in 0..trace.len() {
        let no = i as u64 + 1;
        let lost = is_lost(trace, set, &taken, &lasts, no);
        note_lost(&mut counts, receiver_of(trace, no), lost);
    }
    Ok(counts)
}

/// Counts a message for its receiver, if it is lost.
fn note_lost(counts: &mut Vec<u64>, to: u64, lost: bool)
    requires { (p : ℕ) → p < length counts.old.items → count_at counts.old.items p < MAX_STEPS }
    ensures len { length counts.new.items ≡ length counts.old.items }
    ensures counts { (p : ℕ) → p < length counts.old.items
        → count_at counts.new.items p
        ≡ (if lost && to == p then count_at counts.old.items p + 1 else count_at
        counts.old.items p) }
{
    let count = count_at(counts, to);
    if lost && to < counts.len() as u64 {
        counts[to as usize] = count + 1;
    }
}

/// The count of a processor.
fn count_at(counts: &[u64], p: u64) -> u64
    ensures { result ≡ count_at counts.now p }
{
    match counts.get(p as usize) {
        Some(count) => *count,
        None => 0,
    }
}

/// The few receivers of `n` processors by these counts, among so many members.
fn few_receivers(
    alloc: Global,
    n: u64,
    counts: &[u64],
    members: u64,
) -> Result<LostReceivers, AllocError>
    requires n { n ≤ MAX_MEMBER }
    requires counts { (p : ℕ) → p ≤ n → count_at counts.now p ≤ MAX_STEPS }
    ensures { IfOk result (AreFewOf n counts.now members) }
{
    let lost = needed_sum(n, counts);
    let needed = needed(alloc, n, counts)?;
    if are_few(n, counts, needed.len() as u64, members) {
        Ok(LostReceivers { who: needed, lost })
    } else {
        let who = Vec::new(alloc);
        Ok(LostReceivers { who, lost })
    }
}

/// How many there are in all.
fn sum(n: u64, counts: &[u64]) -> u64
    requires n { n ≤ MAX_MEMBER }
    requires counts { (p : ℕ) → p ≤ n → count_at counts.now p ≤ MAX_STEPS }
    ensures value { result ≡ sum_to (count_at counts.now) n }
    ensures limit { result ≤ n * MAX_STEPS }
{
    let mut sum = 0;
    for k in 0..n {
        sum += count_at(counts, k + 1);
    }
    sum
}

/// How many are for those that come before a processor.
fn sum_before(n: u64, counts: &[u64], p: u64) -> u64
    requires n { n ≤ MAX_MEMBER }
    requires counts { (p : ℕ) → p ≤ n → count_at counts.now p ≤ MAX_STEPS }
    ensures value { result ≡ sum_to (share_before counts.now p) n }
    ensures limit { result ≤ n * MAX_STEPS }
{
    let mut sum = 0;
    for k in 0..n {
        sum += share_before(counts, p, k + 1);
    }
    sum
}

/// The count of `q`, if it comes before `p`; else nothing.
fn share_before(counts: &[u64], p: u64, q: u64) -> u64
    requires { count_at counts.now q ≤ MAX_STEPS }
    ensures value { result ≡ share_before counts.now p q }
    ensures limit { result ≤ MAX_STEPS }
{
    if comes_before(counts, p, q) {
        count_at(counts, q)
    } else {
        0
    }
}

/// Whether more are for `q` than for `p`, or as many and its number is smaller.
fn comes_before(counts: &[u64], p: u64, q: u64) -> bool
    ensures { result ≡ comes_before counts.now p q }
{
    let (own, other) = (count_at(counts, p), count_at(counts, q));
    own < other || (other == own && q < p)
}

/// Whether a processor is one of the fewest that most are for.
fn is_needed(n: u64, counts: &[u64], p: u64) -> bool
    requires n { n ≤ MAX_MEMBER }
    requires counts { (p : ℕ) → p ≤ n → count_at counts.now p ≤ MAX_STEPS }
    ensures { result ≡ is_needed n counts.now p }
{
    100 * sum_before(n, counts, p) < MOST * sum(n, counts)
}

/// The fewest that most are for.
fn needed(alloc: Global, n: u64, counts: &[u64]) -> Result<Vec<u64>, AllocError>
    requires n { n ≤ MAX_MEMBER }
    requires counts { (p : ℕ) → p ≤ n → count_at counts.now p ≤ MAX_STEPS }
    ensures value { IfOk result (λ who. who.items ≡ needed_to n counts.now n) }
    ensures limit { IfOk result (λ who. length who.items ≤ n) }
{
    let mut who = Vec::new(alloc);
    for k in 0..n {
        if is_needed(n, counts, k + 1) {
            who.push(k + 1)?;
        }
    }
    Ok(who)
}

/// How many are for these.
fn needed_sum(n: u64, counts: &[u64]) -> u64
    requires n { n ≤ MAX_MEMBER }
    requires counts { (p : ℕ) → p ≤ n → count_at counts.now p ≤ MAX_STEPS }
    ensures { result ≡ sum_to (share_needed n counts.now) n }
{
    let mut sum = 0;
    for k in 0..n {
        sum += share_needed(n, counts, k + 1);
    }
    sum
}

/// The count of a processor, if it is one of these; else nothing.
fn share_needed(n: u64, counts: &[u64], p: u64) -> u64
    requires n { n ≤ MAX_MEMBER }
    requires counts { (p : ℕ) → p ≤ n → count_at counts.now p ≤ MAX_STEPS }
    requires own { count_at counts.now p ≤ MAX_STEPS }
    ensures value { result ≡ share_needed n counts.now p }
    ensures limit { result ≤ MAX_STEPS }
{
    if is_needed(n, counts, p) {
        count_at(counts, p)
    } else {
        0
    }
}

/// Whether enough are lost, and so many receivers are few among so many members.
fn are_few(n: u64, counts: &[u64], who: u64, members: u64) -> bool
    requires n { n ≤ MAX_MEMBER }
    requires counts { (p : ℕ) → p ≤ n → count_at counts.now p ≤ MAX_STEPS }
    requires who { who ≤ MAX_MEMBER }
    ensures { result ≡ are_few n counts.now who members }
{
    LEAST_LOST <= sum(n, counts) && FEW * who <= members
}

/// How many of the first `n` processors are in a set.
fn count_members(set: ProcSet, n: u64) -> u64
    requires { n ≤ MAX_MEMBER }
    ensures { result ≡ count_of (has_proc set) n }
{
    let mut count = 0;
    for k in 0..n {
        count = plus(count, set.contains(k + 1));
    }
    count
}
