//! Round ticks, or round points of time, below a picture.

ghost use Rattle.std.specs.Prelude.{◌≤◌};

use crate::pens::Pen;
use crate::pieces::Piece;
use crate::pieces::Piece::{Count, Moment, Percent, Text};
use crate::round_times::round_from;
use crate::scales::{Span, WIDE};
use run_words::{Clock, power_within, round_step};

/// Writes the axis of some ticks, with at most so many numbers or a few more: points of time if ticks have a known
/// length.
pub(crate) fn put_axis(pen: &mut Pen<'_>, clock: Option<Clock>, span: Span, numbers: u64) {
    pen.text("<div class=\"ax\" aria-hidden=\"true\">");
    match clock {
        Some(clock) => put_times(pen, clock, span, numbers),
        None => put_ticks(pen, span, numbers),
    }
    pen.text("</div>");
}

fn put_ticks(pen: &mut Pen<'_>, span: Span, numbers: u64) {
    let step = round_step(span.count(), numbers).max(1);
    let first = span.first.saturating_add(step - 1) / step;
    for k in 0..20 {
        let tick = first.saturating_add(k).saturating_mul(step);
        if tick > 0 && span.shows(tick) {
            put_label(pen, Count(tick), span.middle(tick).inside());
        }
    }
}

fn put_times(pen: &mut Pen<'_>, clock: Clock, span: Span, numbers: u64) {
    let times = Times::of(clock, span);
    let step = times.step(numbers);
    let part = power_within(step);
    let first = times.begin.div_ceil(step);
    for k in 0..20 {
        let time = first.saturating_add(k).saturating_mul(step);
        if time <= times.end {
            put_label(pen, Moment { clock, time, part }, times.place(time));
        }
    }
}

/// When the ticks of a picture begin and end, in nanoseconds.
#[derive(Clone, Copy)]
struct Times {
    begin: u64,
    end: u64,
}

impl Times {
    fn of(clock: Clock, span: Span) -> Self {
        Times {
            begin: clock.time_of(span.first.saturating_sub(1)),
            end: clock.time_of(span.to),
        }
    }

    fn length(self) -> u64
        ensures { 1 ≤ result }
    {
        self.end.saturating_sub(self.begin).max(1)
    }

    /// The least round time of which at most so many fit in.
    fn step(self, numbers: u64) -> u64
        ensures { 1 ≤ result }
    {
        round_from((self.length() / numbers.saturating_add(1).max(1)).saturating_add(1))
    }

    /// How far from the left edge a time is.
    fn place(self, time: u64) -> u64
        ensures { result ≤ WIDE }
    {
        let passed = u128::from(time.saturating_sub(self.begin));
        let place = passed * u128::from(WIDE) / u128::from(self.length());
        place.min(u128::from(WIDE)) as u64
    }
}

fn put_label(pen: &mut Pen<'_>, label: Piece, x: u64) {
    pen.put(&[
        Text("<span"),
        Text(end_class(x)),
        Text(" style=\"left:"),
        Percent(x),
        Text("\">"),
        label,
        Text("</span>"),
    ]);
}

/// The class of a label that begins or ends at its place, since it is near an edge.
fn end_class(x: u64) -> &'static str {
    if x < 300 {
        " class=\"l\""
    } else if x > WIDE - 400 {
        " class=\"r\""
    } else {
        ""
    }
}
