//! Both bounds over the whole run, as falling lines.

ghost use Rattle.std.specs.Prelude.{◌≤◌};

use crate::pens::Pen;
use crate::pieces::Piece;
use crate::pieces::Piece::{Count, From, Number, Percent, Short, Text, Tick, Ticks, Time};
use crate::round_times::{power_of_ten, round_from};
use crate::runs::Run;
use crate::scales::{Span, WIDE};
use run_words::{BoundScale, Clock};
use step_trace::Row;

/// The height of the picture, in pixels.
pub(crate) const HEIGHT: u64 = 190;

/// Where the bound 1 or 0 is, and how far above it the greatest one.
const BOTTOM: u64 = 182;

const FALL: u64 = 160;

/// How many lines there are at round bounds above 0, on a scale that isn't logarithmic.
const MOST_LINES: u64 = 4;

/// Which of the two bounds.
#[derive(Clone, Copy)]
pub(crate) enum Bound {
    Delta,
    Phi,
}

impl Bound {
    fn of(self, row: Row) -> u64 {
        match self {
            Bound::Delta => row.delta,
            Bound::Phi => row.phi,
        }
    }

    fn class(self) -> &'static str {
        match self {
            Bound::Delta => "dl",
            Bound::Phi => "phi",
        }
    }

    fn letter(self) -> &'static str {
        match self {
            Bound::Delta => "Δ ",
            Bound::Phi => "Φ ",
        }
    }
}

/// How many lines are tried.
const LINES: u64 = 20;

/// How high bounds are.
#[derive(Clone, Copy)]
pub(crate) struct Heights {
    scale: BoundScale,
    /// The greatest bound.
    most: u64,
    clock: Option<Clock>,
}

/// A line at a round bound, and what stands beside it.
#[derive(Clone, Copy)]
struct Line {
    y: u64,
    label: Piece,
}

impl Heights {
    pub(crate) fn of(run: &Run) -> Self {
        let first = run.row(0);
        let most = first.delta.max(first.phi);
        Heights {
            scale: BoundScale::up_to(most),
            most,
            clock: run.clock,
        }
    }

    pub(crate) fn is_log(self) -> bool {
        self.scale.is_log()
    }

    /// The height of a bound, from the top.
    fn y(self, bound: u64) -> u64
        ensures { result ≤ BOTTOM }
    {
        BOTTOM.saturating_sub(self.scale.rise(bound, FALL))
    }

    /// The line of this number from 0 on, if there is one: at a round time if ticks have a known length, and else at a
    /// round number of ticks.
    fn line(self, number: u64) -> Option<Line> {
        if let Some(clock) = self.clock {
            return self.time_line(clock, number);
        }
        let bound = self.scale.line(number, MOST_LINES)?;
        Some(Line {
            y: self.y(bound),
            label: Count(bound),
        })
    }

    fn time_line(self, clock: Clock, number: u64) -> Option<Line> {
        let most = clock.time_of(self.most);
        let time = if self.is_log() {
            power_of_ten(number)
        } else {
            round_from((most / (MOST_LINES + 1)).saturating_add(1)).checked_mul(number)?
        };
        if time > most || self.is_log() && (time < clock.width || number > 18) {
            return None;
        }
        Some(Line {
            y: self.y_at(clock, time),
            label: if time == 0 { Number(0) } else { Time(time) },
        })
    }

    /// The height of a time, from the top: straight between whole numbers of ticks.
    fn y_at(self, clock: Clock, time: u64) -> u64 {
        let width = clock.width.max(1);
        let (bound, rest) = (time / width, time % width);
        let y = self.y(bound);
        let fall = y.saturating_sub(self.y(bound.saturating_add(1)));
        let part = u128::from(fall) * u128::from(rest) / u128::from(width);
        y.saturating_sub(part as u64)
    }
}

/// Writes the picture of both lines, with the calm part shaded.
pub(crate) fn put_stairs(pen: &mut Pen<'_>, run: &Run<'_>, heights: Heights) {
    put_stairs_head(pen, run);
    put_grid(pen, heights);
    put_shade(pen, run);
    put_line(pen, run, heights, Bound::Phi);
    put_line(pen, run, heights, Bound::Delta);
    put_hints(pen, run);
    pen.text("</svg>");
}

fn put_stairs_head(pen: &mut Pen<'_>, run: &Run<'_>) {
    let (first, calm) = (run.row(0), run.found.calm);
    pen.put(&[
        Text("<svg viewBox=\"0 0 "),
        Number(WIDE),
        Text(" "),
        Number(HEIGHT),
        Text("\" height=\""),
        Number(HEIGHT),
        Text(
            "\" preserveAspectRatio=\"none\" role=\"img\" aria-label=\"The least bounds from each tick to the end. At the start Δ is ",
        ),
        Ticks(first.delta),
        Text(" and Φ is "),
        Ticks(first.phi),
    ]);
    pen.put(&[
        Text("; from "),
        From(calm.gst),
        Text(" on Δ is "),
        Ticks(calm.delta),
        Text(" and Φ is "),
        Ticks(calm.phi),
        Text(".\">"),
    ]);
}

/// Writes lines at round bounds.
fn put_grid(pen: &mut Pen<'_>, heights: Heights) {
    for k in 0..LINES {
        if let Some(line) = heights.line(k) {
            pen.put(&[
                Text("<path class=\"gr\" d=\"M0 "),
                Number(line.y),
                Text("H"),
                Number(WIDE),
                Text("\"/>"),
            ]);
        }
    }
}

/// Writes the numbers at the lines of round bounds.
pub(crate) fn put_numbers(pen: &mut Pen<'_>, heights: Heights) {
    for k in 0..LINES {
        if let Some(line) = heights.line(k) {
            pen.put(&[
                Text("<span style=\"top:"),
                Number(line.y),
                Text("px\">"),
                line.label,
                Text("</span>"),
            ]);
        }
    }
}

/// Writes a shade over the part of the run from the calm row on, unless it is all.
fn put_shade(pen: &mut Pen<'_>, run: &Run<'_>) {
    if run.found.calm_place == 0 {
        return;
    }
    let x = whole(run).edge(run.found.calm.gst);
    pen.put(&[
        Text("<rect class=\"calm\" x=\""),
        Number(x),
        Text("\" y=\"0\" width=\""),
        Number(WIDE - x),
        Text("\" height=\""),
        Number(HEIGHT),
        Text("\"/><path class=\"cm\" d=\"M"),
        Number(x),
        Text(" 0V"),
        Number(HEIGHT),
        Text("\"/>"),
    ]);
}

/// All ticks of a run.
pub(crate) fn whole(run: &Run) -> Span {
    Span {
        first: 1,
        to: run.last(),
    }
}

/// Writes the line of one bound: at most two corners in each column of 10 units.
fn put_line(pen: &mut Pen<'_>, run: &Run<'_>, heights: Heights, bound: Bound) {
    let mut y = heights.y(bound.of(run.row(0)));
    pen.put(&[
        Text("<path class=\"st "),
        Text(bound.class()),
        Text("-l\" d=\"M0 "),
        Number(y),
    ]);
    let mut column = 0;
    for row in run.rows {
        let x = whole(run).edge(row.gst);
        let next = heights.y(bound.of(*row));
        if x / 10 != column {
            put_corner(pen, y, x, next);
            column = x / 10;
        }
        y = next;
    }
    pen.put(&[Text("V"), Number(y), Text("H"), Number(WIDE), Text("\"/>")]);
}

/// Writes a corner: down to one height, along to a place, and down to another height.
fn put_corner(pen: &mut Pen<'_>, before: u64, x: u64, y: u64) {
    pen.put(&[
        Text("V"),
        Number(before),
        Text("H"),
        Number(x),
        Text("V"),
        Number(y),
    ]);
}

/// Writes titles with the bounds from a row on: one in each column of 40 units.
fn put_hints(pen: &mut Pen<'_>, run: &Run<'_>) {
    let mut column = None;
    for row in run.rows {
        let x = whole(run).edge(row.gst);
        if column != Some(x / 40) {
            put_hint(pen, *row, x);
            column = Some(x / 40);
        }
    }
}

fn put_hint(pen: &mut Pen<'_>, row: Row, x: u64) {
    pen.put(&[
        Text("<path class=\"hit\" d=\"M"),
        Number(x),
        Text(" 0H"),
        Number(WIDE),
        Text("V"),
        Number(HEIGHT),
        Text("H"),
        Number(x),
        Text("z\"><title>from "),
        Tick(row.gst),
    ]);
    pen.put(&[
        Text(" on: Δ = "),
        Ticks(row.delta),
        Text(", Φ = "),
        Ticks(row.phi),
        Text("</title></path>"),
    ]);
}

/// Writes the names of both lines, where they begin: the upper one above its line, and the other below if they are
/// near.
pub(crate) fn put_tops(pen: &mut Pen<'_>, run: &Run<'_>, heights: Heights) {
    let first = run.row(0);
    let (upper, lower) = if first.delta > first.phi {
        (Bound::Delta, Bound::Phi)
    } else {
        (Bound::Phi, Bound::Delta)
    };
    let (y, y_lower) = (heights.y(upper.of(first)), heights.y(lower.of(first)));
    let below = if y_lower < y.saturating_add(36) {
        y_lower.saturating_add(11)
    } else {
        y_lower.saturating_sub(9)
    };
    pen.text("<div class=\"tops\" aria-hidden=\"true\">");
    put_top(pen, upper, first, y.saturating_sub(9));
    put_top(pen, lower, first, below);
    pen.text("</div>");
}

fn put_top(pen: &mut Pen<'_>, bound: Bound, first: Row, y: u64) {
    pen.put(&[
        Text("<span class=\""),
        Text(bound.class()),
        Text("\" style=\"top:"),
        Number(y),
        Text("px\">"),
        Text(bound.letter()),
        Ticks(bound.of(first)),
        Text("</span>"),
    ]);
}

/// Writes the bounds of the calm row, beside its line.
pub(crate) fn put_calm_label(pen: &mut Pen<'_>, run: &Run<'_>) {
    if run.found.calm_place == 0 {
        return;
    }
    let calm = run.found.calm;
    let x = whole(run).edge(calm.gst);
    pen.put(&[
        Text("<span class=\"calmlab"),
        Text(if x > WIDE * 7 / 10 { " flip" } else { "" }),
        Text("\" style=\"left:"),
        Percent(x),
        Text("\">from "),
        From(calm.gst),
        Text(": <b class=\"dl\">Δ "),
        Short(calm.delta),
        Text("</b>, <b class=\"phi\">Φ "),
        Short(calm.phi),
        Text("</b></span>"),
    ]);
}
