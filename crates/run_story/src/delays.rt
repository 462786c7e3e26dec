//! Late messages as runs of rows that name their misses.

ghost use Rattle.std.specs.Prelude.{◌≡◌, ◌+◌, ◌-◌, ◌<◌, ◌≤◌, ◌^◌, ◌&&◌, ◌==◌, ℕ};
ghost use Rattle.std.specs.Prelude.{IfOk, IfSome, MatchOption, None};
ghost use Rattle.step_trace.specs.PushRefusals.{is_taken};
ghost use Rattle.run_story.specs.Messages.{flag_at, receiver_of, sender_of};
ghost use Rattle.run_story.specs.Delays.{AreDelays, IsDelay, IsDelayUpTo, are_alike, goes_on, longer, miss_at};

use crate::messages::{flag_at, receiver_of, sender_of, taken_messages};
use std::alloc::{AllocError, Global};
use step_trace::{Miss, Row, Trace};

/// Misses that are alike, in the rows from place `first` to place `last`, which count from 0. The miss is that of the
/// first row.
#[derive(Clone, Copy, Debug, PartialEq, Eq)]
pub struct Delay {
    pub miss: Miss,
    /// The length of the miss, in ticks.
    pub ticks: u64,
    /// The receiver of its message.
    pub to: u64,
    pub first: usize,
    pub last: usize,
    /// How many messages the rows name: each row that names another one than the row before counts.
    pub messages: usize,
    /// The message of the last row.
    pub last_message: u64,
    /// Whether all of these messages go to one processor.
    pub one_receiver: bool,
    /// Whether all of them come from one.
    pub one_sender: bool,
}

/// The delays of rows of a trace, in their order: each row with a miss is in one.
///
/// Two misses are alike if none of their messages is ever taken. Or both are: then the later one is sent no later than
/// the Receive that misses the first one. And all of a delay's messages have one receiver, or all have one sender.
///
/// Time grows with the trace and the rows. Fails only if out of memory.
pub fn delays_of(alloc: Global, trace: &Trace, rows: &[Row]) -> Result<Vec<Delay>, AllocError>
    ensures { IfOk result (λ delays. AreDelays trace.now rows.now delays.items) }
{
    let taken = taken_messages(alloc, trace)?;
    let mut delays = Vec::new(alloc);
    let mut next = 0;
    while next < rows.len() {
        match delay_from(trace, &taken, rows, next) {
            Some(delay) => {
                delays.push(delay)?;
                next = delay.last + 1;
            }
            None => next += 1,
        }
    }
    Ok(delays)
}

/// The delay whose first row is at this place, if that has a miss.
fn delay_from(trace: &Trace, taken: &[bool], rows: &[Row], first: usize) -> Option<Delay>
    requires { (s : ℕ) → flag_at taken.now s ≡ is_taken trace.now.steps s }
    ensures delay { MatchOption result (miss_at rows.now first ≡ None)
        (IsDelay trace.now rows.now) }
    ensures first { MatchOption result (miss_at rows.now first ≡ None) (λ d. d.first ≡ first) }
{
    let mut delay = of_row(trace, rows, first)?;
    while let Some(longer) = with_next(trace, taken, rows, delay) {
        delay = longer;
    }
    Some(delay)
}

/// The delay of the row at this place alone, if that has a miss.
fn of_row(trace: &Trace, rows: &[Row], first: usize) -> Option<Delay>
    ensures run { MatchOption result (miss_at rows.now first ≡ None)
        (IsDelayUpTo trace.now rows.now) }
    ensures first { MatchOption result (miss_at rows.now first ≡ None)
        (λ d. (d.first ≡ first) × (d.last ≡ first) × (d.messages ≡ 1)) }
{
    let miss = miss_at(rows, first)?;
    Some(Delay {
        miss,
        ticks: trace
            .tick_at(miss.missed)
            .saturating_sub(trace.tick_at(miss.sent)),
        to: receiver_of(trace, miss.sent),
        first,
        last: first,
        messages: 1,
        last_message: miss.sent,
        one_receiver: true,
        one_sender: true,
    })
}

/// The delay with the next row, if its miss goes on with it.
fn with_next(trace: &Trace, taken: &[bool], rows: &[Row], delay: Delay) -> Option<Delay>
    requires taken { (s : ℕ) → flag_at taken.now s ≡ is_taken trace.now.steps s }
    requires run { IsDelayUpTo trace.now rows.now delay }
    requires few { delay.messages ≤ delay.last - delay.first + 1 }
    ensures run { MatchOption result ((o : Delay) → IsDelayUpTo trace.now rows.now o
        → o.first ≡ delay.first → o.last ≤ delay.last) (IsDelayUpTo trace.now rows.now) }
    ensures next { IfSome result (λ o. (o.first ≡ delay.first) × (o.last ≡ delay.last + 1)
        × (o.messages ≤ o.last - o.first + 1)) }
{
    let next = miss_at(rows, delay.last + 1)?;
    let one_receiver = with_receiver(trace, delay, next.sent);
    let one_sender = with_sender(trace, delay, next.sent);
    if goes_on(trace, taken, delay.miss, next, one_receiver, one_sender) {
        Some(longer(delay, next.sent, one_receiver, one_sender))
    } else {
        None
    }
}

/// The delay with one more row, which misses message `s`.
fn longer(delay: Delay, s: u64, one_receiver: bool, one_sender: bool) -> Delay
    requires last { delay.last < 2 ^ 63 }
    requires messages { delay.messages < 2 ^ 63 + 1 }
    ensures { result ≡ longer delay s one_receiver one_sender }
{
    let messages = if s == delay.last_message {
        delay.messages
    } else {
        delay.messages + 1
    };
    Delay {
        last: delay.last + 1,
        messages,
        last_message: s,
        one_receiver,
        one_sender,
        ..delay
    }
}

/// Whether the delay has one receiver, and message `s` goes there too.
fn with_receiver(trace: &Trace, delay: Delay, s: u64) -> bool
    ensures { result ≡ (delay.one_receiver && receiver_of trace.now.steps s == delay.to) }
{
    delay.one_receiver && receiver_of(trace, s) == delay.to
}

/// Whether the delay has one sender, and message `s` comes from there too.
fn with_sender(trace: &Trace, delay: Delay, s: u64) -> bool
    ensures { result ≡ (delay.one_sender && sender_of trace.now.steps s == sender_of trace.now.steps
        delay.miss.sent) }
{
    delay.one_sender && sender_of(trace, s) == sender_of(trace, delay.miss.sent)
}

/// Whether a miss goes on with a delay of this first miss, which then has one receiver, or one sender.
fn goes_on(
    trace: &Trace,
    taken: &[bool],
    first: Miss,
    next: Miss,
    one_receiver: bool,
    one_sender: bool,
) -> bool
    requires { (s : ℕ) → flag_at taken.now s ≡ is_taken trace.now.steps s }
    ensures { result ≡ goes_on trace.now first next one_receiver one_sender }
{
    are_alike(trace, taken, first, next)
        && (!flag_at(taken, first.sent) || (one_receiver || one_sender))
}

/// Whether none of both messages is ever taken, or both are and the later one is sent no later than the first one is
/// missed.
fn are_alike(trace: &Trace, taken: &[bool], first: Miss, next: Miss) -> bool
    requires { (s : ℕ) → flag_at taken.now s ≡ is_taken trace.now.steps s }
    ensures { result ≡ are_alike trace.now first next }
{
    if flag_at(taken, first.sent) {
        flag_at(taken, next.sent) && trace.tick_at(next.sent) <= trace.tick_at(first.missed)
    } else {
        !flag_at(taken, next.sent)
    }
}

/// The miss of the row at this place.
fn miss_at(rows: &[Row], place: usize) -> Option<Miss>
    ensures { result ≡ miss_at rows.now place }
{
    rows.get(place)?.miss
}
