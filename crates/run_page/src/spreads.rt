//! Evidence by the clock, and which of it there is only because events were moved to later ticks.

ghost use Rattle.std.specs.Prelude.{◌≡◌, ◌↔◌, ◌+◌, ◌<◌, ◌^◌, ℕ, IsTrue, Some, length, if◌then◌else◌};
ghost use Rattle.run_page.specs.Spreads.{IsLessThanHalf, IsSpread, IsSpreadCount, IsSpreadDelay};
ghost use Rattle.run_page.specs.Spreads.{IsSpreadStall, Lasts, passed};

use crate::pens::Pen;
use crate::pieces::Piece::{Node, Text, Ticks, Time};
use crate::runs::Run;
use crate::tick_steps::step_in;
use crate::timings::Timing;
use crate::titles::gap_ticks;
use run_story::{Delay, Evidence, Stall};
use step_tables::{StepRow, time_at};
use step_trace::Trace;

/// How many pieces of evidence are made by the spread alone, in ticks of this length.
pub(crate) fn spread_count(
    trace: &Trace,
    said: &[StepRow],
    evidence: &[Evidence],
    width: u64,
) -> u64
    ensures { IsSpreadCount trace.now said.now width evidence.now (length evidence.now) result }
{
    let mut count = 0;
    for k in 0..evidence.len() {
        count = plus(count, is_spread(trace, said, width, &evidence[k]));
    }
    count
}

/// One more, if it counts.
fn plus(count: u64, counts: bool) -> u64
    requires { count < 2 ^ 63 }
    ensures { result ≡ (if counts then count + 1 else count) }
{
    if counts { count + 1 } else { count }
}

/// Whether evidence is made by the spread alone: of each part of it the clock shows less than half of what the ticks
/// say.
fn is_spread(trace: &Trace, said: &[StepRow], width: u64, evidence: &Evidence) -> bool
    ensures { IsTrue result ↔ IsSpread trace.now said.now width evidence.now.stall
        evidence.now.delay }
{
    match (evidence.stall, evidence.delay) {
        (Some(stall), Some(delay)) => {
            is_spread_stall(trace, said, width, stall) && is_spread_delay(said, width, delay)
        }
        (Some(stall), None) => is_spread_stall(trace, said, width, stall),
        (None, Some(delay)) => is_spread_delay(said, width, delay),
        (None, None) => false,
    }
}

/// Whether the clock shows less than half of a silence.
fn is_spread_stall(trace: &Trace, said: &[StepRow], width: u64, stall: Stall) -> bool
    ensures { IsTrue result ↔ IsSpreadStall trace.now said.now width stall }
{
    match silence_time(trace, said, stall) {
        Some(time) => is_less_than_half(width, gap_ticks(stall.gap.from, stall.gap.to), time),
        None => false,
    }
}

/// Whether the clock shows less than half of the time from the Send of a late message to the Receive that misses it.
fn is_spread_delay(said: &[StepRow], width: u64, delay: Delay) -> bool
    ensures { IsTrue result ↔ IsSpreadDelay said.now width delay }
{
    match passed(said, delay.miss.sent, delay.miss.missed) {
        Some(time) => is_less_than_half(width, delay.ticks, time),
        None => false,
    }
}

/// Whether a time is less than half of so many ticks of this length.
fn is_less_than_half(width: u64, ticks: u64, time: u64) -> bool
    ensures { IsTrue result ↔ IsLessThanHalf width ticks time }
{
    2 * u128::from(time) < u128::from(ticks) * u128::from(width)
}

/// How long a silence takes by the clock: from the step right before it to the one right after it. None if there is no
/// such step, or a time of one isn't known.
fn silence_time(trace: &Trace, said: &[StepRow], stall: Stall) -> Option<u64>
    ensures { (time : ℕ) → Lasts trace.now said.now stall time ↔ (result ≡ Some time) }
{
    if trace.last_tick() <= stall.gap.to {
        return None;
    }
    let before = step_in(trace, stall.gap.proc, stall.gap.from.saturating_sub(1))?;
    let after = step_in(trace, stall.gap.proc, stall.gap.to + 1)?;
    passed(said, before, after)
}

/// How long after one step another one was made, by the clock, if both have times; 0 if it wasn't made after it.
fn passed(said: &[StepRow], from: u64, to: u64) -> Option<u64>
    ensures { result ≡ passed said.now from to }
{
    let begin = time_at(said, from)?;
    let end = time_at(said, to)?;
    Some(end.saturating_sub(begin))
}

/// Writes what the clock says about a silence that is made by the spread.
pub(crate) fn put_silence_by_clock(pen: &mut Pen<'_>, run: &Run<'_>, stall: Stall) {
    let Some(timing) = run.timing else {
        return;
    };
    if !is_spread_stall(run.trace, run.said, timing.width, stall) {
        return;
    }
    let ticks = gap_ticks(stall.gap.from, stall.gap.to);
    let time = silence_time(run.trace, run.said, stall);
    pen.text(" <em>By the clock it was silent for ");
    put_less(pen, amount(run, timing, time.unwrap_or(0)), ticks, "");
}

/// Writes what the clock says about a late message that is one only, or for the most part, because of the spread.
pub(crate) fn put_miss_by_clock(pen: &mut Pen<'_>, run: &Run<'_>, delay: Delay) {
    let Some(timing) = run.timing else {
        return;
    };
    if !is_spread_delay(run.said, timing.width, delay) {
        return;
    }
    let miss = delay.miss;
    match passed(run.said, miss.missed, miss.sent) {
        Some(early) if early > 0 => put_early(pen, delay, amount(run, timing, early)),
        _ => {
            let time = passed(run.said, miss.sent, miss.missed);
            pen.text(" <em>By the clock they are ");
            put_less(
                pen,
                amount(run, timing, time.unwrap_or(0)),
                delay.ticks,
                " apart",
            );
        }
    }
}

/// A time of the table in nanoseconds, if the page tells times.
fn amount(run: &Run, timing: Timing, time: u64) -> Option<u64> {
    if run.clock.is_none() {
        return None;
    }
    timing.nanoseconds(time)
}

/// Writes that a Receive came before the Send of the message that it misses; by so much, if that is known.
fn put_early(pen: &mut Pen<'_>, delay: Delay, early: Option<u64>) {
    pen.put(&[
        Text(" <em>By the clock "),
        Node(delay.to),
        Text(" received "),
    ]);
    if let Some(early) = early {
        pen.put(&[Time(early), Text(" ")]);
    }
    pen.text(
        "before the message was sent: this is a miss only because <code>--spread</code> moved events.</em>",
    );
}

/// Writes how long something took by the clock, if that is known, in place of so many ticks, and a word after it.
fn put_less(pen: &mut Pen<'_>, time: Option<u64>, ticks: u64, word: &'static str) {
    match time {
        Some(time) => pen.put(&[Time(time), Text(word), Text(", not "), Ticks(ticks)]),
        None => pen.put(&[Text("less than half of "), Ticks(ticks), Text(word)]),
    }
    pen.text(": <code>--spread</code> moved events.</em>");
}
