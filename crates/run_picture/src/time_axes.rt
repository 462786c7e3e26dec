//! Round times below an axis of ticks. Lengths are tenths of a pixel.

ghost use Rattle.std.specs.Prelude.{◌≡◌, ◌≤◌};
ghost use Rattle.run_picture.specs.TimeAxes.{begin_of, part_of, power_of, span_of, step_of, time_at, time_place};

use crate::frames::{LEFT, WIDTH, share_of};
use crate::svg::put;
use run_words::{Clock, LONGEST, power_within, round_step};
use std::alloc::{AllocError, Global};

/// How often the step between times fits into an axis.
const MOST_TIMES: u64 = 10;

/// The times of some ticks side by side: the first of them, and how many there are.
#[derive(Clone, Copy)]
pub(crate) struct TimeAxis {
    pub clock: Clock,
    pub first: u64,
    pub count: u64,
}

impl TimeAxis {
    /// When the first tick begins.
    fn begin(self) -> u64
        ensures value { result ≡ begin_of self }
        ensures limit { result ≤ LONGEST }
    {
        self.clock.time_of(self.first.saturating_sub(1))
    }

    /// How long the ticks are, all together.
    fn span(self) -> u64
        ensures value { result ≡ span_of self }
        ensures some { 1 ≤ result }
        ensures limit { result ≤ LONGEST }
    {
        self.clock.time_of(self.count).max(1)
    }

    /// The greatest power of ten that goes as often into them as there may be times.
    fn power(self) -> u64
        ensures value { result ≡ power_of self }
        ensures some { 1 ≤ result }
    {
        power_within(self.span() / MOST_TIMES).max(1)
    }

    /// How long it is from one time to the next.
    fn step(self) -> u64
        ensures value { result ≡ step_of self }
        ensures some { 1 ≤ result }
        ensures limit { result ≤ LONGEST }
    {
        let power = self.power();
        let times = round_step(self.span() / power, MOST_TIMES);
        power.saturating_mul(times).min(LONGEST).max(1)
    }

    /// To how many nanoseconds a time is told.
    fn part(self) -> u64
        ensures { result ≡ part_of self }
    {
        power_within(self.step())
    }

    /// The round time of this number, from 0, if the axis reaches it.
    fn time(self, number: u64) -> Option<u64>
        ensures { result ≡ time_at self number }
    {
        let step = self.step();
        let first = (self.begin() + (step - 1)) / step;
        let time = first.saturating_add(number).saturating_mul(step);
        if time <= self.begin() + self.span() {
            Some(time)
        } else {
            None
        }
    }

    /// Where a time is drawn.
    fn place(self, time: u64) -> u64
        ensures { result ≡ time_place self time }
    {
        let span = self.span();
        let before = time.saturating_sub(self.begin()).min(span);
        LEFT + share_of(WIDTH, u128::from(before), u128::from(span))
    }
}

/// Writes the round times of an axis at this height.
pub(crate) fn put_times(
    alloc: Global,
    out: &mut Vec<u8>,
    axis: TimeAxis,
    y: u64,
) -> Result<(), AllocError> {
    put(
        alloc,
        out,
        format_args!("<text x=\"620\" y=\"{y}\" class=\"n e\">time</text>\n"),
    )?;
    for i in 0..MOST_TIMES + 2 {
        let Some(time) = axis.time(i) else {
            return Ok(());
        };
        let x = axis.place(time);
        put(
            alloc,
            out,
            format_args!("<text x=\"{x}\" y=\"{y}\" class=\"n m\">"),
        )?;
        axis.clock.push_time(out, time, axis.part())?;
        out.extend_from_slice(b"</text>\n")?;
    }
    Ok(())
}
