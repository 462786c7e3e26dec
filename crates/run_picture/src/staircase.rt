//! The staircase of both bounds over the whole trace. Lengths are tenths of a pixel.

ghost use Rattle.std.specs.Prelude.{◌≡◌};
ghost use Rattle.run_picture.specs.Axes.{bound_height, column_edge, column_middle};

use crate::frames::{LEFT, WIDTH};
use crate::svg::put;
use crate::time_axes::{TimeAxis, put_times};
use crate::titles::push_corner_title;
use picture_marks::Picture;
use run_words::{BoundScale, Clock, round_step};
use std::alloc::{AllocError, Global};
use step_trace::{MAX_TICKS, Row};

pub(crate) const TOP: u64 = 500;

pub(crate) const HEIGHT: u64 = 1_700;

/// How many lines there are at round bounds above 0.
const MOST_LINES: u64 = 6;

/// The scales of both axes: the last tick, and that of bounds.
#[derive(Clone, Copy)]
pub(crate) struct Axes {
    last: u64,
    scale: BoundScale,
}

impl Axes {
    /// The axes of a picture of a trace with this last tick.
    pub(crate) fn of(picture: &Picture, last: u64) -> Self {
        Axes {
            last,
            scale: BoundScale::up_to(greatest_bound(&picture.corners)),
        }
    }

    /// The left edge of a tick, or the right edge of all, if the tick is after the last.
    pub(crate) fn edge(self, tick: u64) -> u64
        ensures { result ≡ column_edge self tick }
    {
        let last = self.last.clamp(1, MAX_TICKS);
        LEFT + tick.saturating_sub(1).min(last) * WIDTH / last
    }

    /// The middle of a tick.
    fn middle(self, tick: u64) -> u64
        ensures { result ≡ column_middle self tick }
    {
        let last = self.last.clamp(1, MAX_TICKS);
        LEFT + (tick.clamp(1, last) * 2 - 1) * WIDTH / (last * 2)
    }

    /// The height of a bound.
    fn y(self, bound: u64) -> u64
        ensures { result ≡ bound_height self bound }
    {
        (TOP + HEIGHT).saturating_sub(self.scale.rise(bound, HEIGHT))
    }
}

/// The two bounds of a row.
#[derive(Clone, Copy)]
enum Bound {
    Communication,
    Processor,
}

impl Bound {
    fn of(self, row: &Row) -> u64 {
        match self {
            Bound::Communication => row.delta,
            Bound::Processor => row.phi,
        }
    }

    fn colour(self) -> &'static str {
        match self {
            Bound::Communication => "#0072B2",
            Bound::Processor => "#D55E00",
        }
    }

    /// How far its line lies below its height, so that equal bounds are both seen.
    fn shift(self) -> u64 {
        match self {
            Bound::Communication => 0,
            Bound::Processor => 20,
        }
    }
}

/// Draws the staircase of a picture, with times if a clock tells them. Its shade of the ticks that are drawn reaches so
/// far below it.
pub(crate) fn put_staircase(
    alloc: Global,
    out: &mut Vec<u8>,
    axes: Axes,
    picture: &Picture,
    below: u64,
    clock: Option<Clock>,
) -> Result<(), AllocError> {
    put_heading(alloc, out, picture, axes.scale)?;
    put_shade(alloc, out, axes, picture, below)?;
    put_bounds_axis(alloc, out, axes)?;
    if let Some(clock) = clock {
        put_bound_times(alloc, out, axes, clock)?;
    }
    put_line(alloc, out, axes, &picture.corners, Bound::Communication)?;
    put_line(alloc, out, axes, &picture.corners, Bound::Processor)?;
    put_titles(alloc, out, axes, &picture.corners, clock)
}

/// Draws the axis of all ticks, with times if a clock tells them.
pub(crate) fn put_axis(
    alloc: Global,
    out: &mut Vec<u8>,
    axes: Axes,
    clock: Option<Clock>,
) -> Result<(), AllocError> {
    put_ticks_axis(alloc, out, axes)?;
    match clock {
        Some(clock) => put_all_times(alloc, out, axes, clock),
        None => Ok(()),
    }
}

fn greatest_bound(corners: &[Row]) -> u64 {
    let mut high = 1;
    for row in corners {
        high = row.delta.max(row.phi).max(high);
    }
    high
}

fn put_heading(
    alloc: Global,
    out: &mut Vec<u8>,
    picture: &Picture,
    scale: BoundScale,
) -> Result<(), AllocError> {
    let how = if scale.is_log() {
        ", on a log scale"
    } else {
        ""
    };
    put(
        alloc,
        out,
        format_args!(
            "<text x=\"900\" y=\"300\" class=\"h\">Least bounds that hold from a tick to the end{how}</text>\n"
        ),
    )?;
    let Some(row) = picture.corners.first() else {
        return Ok(());
    };
    let (gst, delta, phi) = (row.gst, row.delta, row.phi);
    put(
        alloc,
        out,
        format_args!(
            "<text x=\"10900\" y=\"300\" text-anchor=\"end\"><tspan class=\"delta\">Δ({gst}) = {delta}</tspan> in communication, <tspan class=\"phi\">Φ({gst}) = {phi}</tspan> of processors</text>\n"
        ),
    )
}

/// The ticks that are drawn below.
fn put_shade(
    alloc: Global,
    out: &mut Vec<u8>,
    axes: Axes,
    picture: &Picture,
    below: u64,
) -> Result<(), AllocError> {
    let (first, to) = (picture.window.first, picture.window.to);
    let x = axes.edge(first);
    let width = axes.edge(to.saturating_add(1)).saturating_sub(x);
    let height = HEIGHT.saturating_add(below);
    put(
        alloc,
        out,
        format_args!(
            "<rect x=\"{x}\" y=\"500\" width=\"{width}\" height=\"{height}\" fill=\"#f3f1e7\"/>\n"
        ),
    )
}

fn put_bounds_axis(alloc: Global, out: &mut Vec<u8>, axes: Axes) -> Result<(), AllocError> {
    for i in 0..MOST_LINES + 1 {
        let Some(bound) = axes.scale.line(i, MOST_LINES) else {
            return Ok(());
        };
        let y = axes.y(bound);
        put(
            alloc,
            out,
            format_args!(
                "<path class=\"a\" d=\"M900 {y}h10000\"/><text x=\"820\" y=\"{y}\" dy=\"40\" class=\"n e\">{bound}</text>\n"
            ),
        )?;
    }
    Ok(())
}

fn put_ticks_axis(alloc: Global, out: &mut Vec<u8>, axes: Axes) -> Result<(), AllocError> {
    out.extend_from_slice(b"<text x=\"620\" y=\"2380\" class=\"n e\">tick</text>\n")?;
    let step = round_step(axes.last, 10);
    for i in 1..11 {
        let tick = step.saturating_mul(i);
        if tick > axes.last {
            return Ok(());
        }
        let x = axes.middle(tick);
        put(
            alloc,
            out,
            format_args!("<text x=\"{x}\" y=\"2380\" class=\"n m\">{tick}</text>\n"),
        )?;
    }
    Ok(())
}

fn put_line(
    alloc: Global,
    out: &mut Vec<u8>,
    axes: Axes,
    corners: &[Row],
    bound: Bound,
) -> Result<(), AllocError> {
    let Some(first) = corners.first() else {
        return Ok(());
    };
    let y = axes.y(bound.of(first));
    let (colour, shift) = (bound.colour(), bound.shift());
    put(
        alloc,
        out,
        format_args!(
            "<path class=\"b\" stroke=\"{colour}\" transform=\"translate(0 {shift})\" d=\"M900 {y}"
        ),
    )?;
    for row in corners {
        let (x, y) = (axes.edge(row.gst), axes.y(bound.of(row)));
        put(alloc, out, format_args!("H{x}V{y}"))?;
    }
    out.extend_from_slice(b"H10900\"/>\n")
}

/// How long the bounds of the lines are.
fn put_bound_times(
    alloc: Global,
    out: &mut Vec<u8>,
    axes: Axes,
    clock: Clock,
) -> Result<(), AllocError> {
    for i in 0..MOST_LINES + 1 {
        let Some(bound) = axes.scale.line(i, MOST_LINES) else {
            return Ok(());
        };
        if bound > 0 {
            put_bound_time(alloc, out, clock, bound, axes.y(bound))?;
        }
    }
    Ok(())
}

fn put_bound_time(
    alloc: Global,
    out: &mut Vec<u8>,
    clock: Clock,
    bound: u64,
    y: u64,
) -> Result<(), AllocError> {
    put(
        alloc,
        out,
        format_args!("<text x=\"10960\" y=\"{y}\" dy=\"40\" class=\"n\">"),
    )?;
    clock.push_ticks(out, bound)?;
    out.extend_from_slice(b"</text>\n")
}

/// Round times below all ticks.
fn put_all_times(
    alloc: Global,
    out: &mut Vec<u8>,
    axes: Axes,
    clock: Clock,
) -> Result<(), AllocError> {
    let axis = TimeAxis {
        clock,
        first: 1,
        count: axes.last,
    };
    put_times(alloc, out, axis, 2_520)
}

/// The bounds from each corner on, shown to a reader who points there.
fn put_titles(
    alloc: Global,
    out: &mut Vec<u8>,
    axes: Axes,
    corners: &[Row],
    clock: Option<Clock>,
) -> Result<(), AllocError> {
    out.extend_from_slice(b"<g class=\"t\">\n")?;
    for row in corners {
        let x = axes.edge(row.gst);
        put(
            alloc,
            out,
            format_args!("<path d=\"M{x} 500H10900V2200H{x}\"><title>"),
        )?;
        push_corner_title(out, clock, row.gst, row.delta, row.phi)?;
        out.extend_from_slice(b"</title></path>\n")?;
    }
    out.extend_from_slice(b"</g>\n")
}
