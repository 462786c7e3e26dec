//! The strips of steps: when each processor makes steps, over all ticks. Lengths are tenths of a pixel.

ghost use Rattle.std.specs.Prelude.{◌≡◌, ◌≤◌, ◌+◌};
ghost use Rattle.run_picture.specs.ShownLanes.{lane_number};
ghost use Rattle.run_picture.specs.Strips.{half_strip, strip_count, strip_middle, strips_height, stroke_edge};
ghost use Rattle.run_picture.specs.declared.frames.TheConstants.{LEFT, WIDTH};

use crate::frames::{LEFT, WIDTH};
use crate::lanes::look_of;
use crate::mark_words::Words;
use crate::shown_lanes::lane_number;
use crate::staircase::{Axes, HEIGHT, TOP};
use crate::svg::{earliest, put};
use crate::titles::{push_gap_title, push_strip_title};
use picture_marks::{COLUMNS, Picture, Strokes};
use run_words::push_label;
use std::alloc::{AllocError, Global};
use step_trace::{ProcSet, Row};

/// More strips than these are thinner.
const FEW_STRIPS: u64 = 16;

/// How far the strips are from the staircase.
const SPACE: u64 = 110;

/// How many gaps are marked in strips: the first, of the greatest bounds.
const MAX_BANDS: usize = 12;

/// How narrow a gap may look.
const LEAST_BAND: u64 = 15;

/// The places of the strips: of whom there are strips, how many, and the axes of all ticks.
#[derive(Clone, Copy)]
pub(crate) struct Strips {
    shown: ProcSet,
    count: u64,
    pub axes: Axes,
}

impl Strips {
    /// The strips of a picture of processors 1 to `processors`: none if its window has all ticks up to the last.
    pub(crate) fn of(picture: &Picture, processors: u64, last: u64) -> Self
        ensures shown { result.shown ≡ picture.now.lanes }
        ensures count { result.count ≡ strip_count picture.now.window last
            (lane_number picture.now.lanes processors) }
    {
        let window = picture.window;
        let count = if window.first <= 1 && last <= window.to {
            0
        } else {
            lane_number(picture.lanes, processors)
        };
        Strips {
            shown: picture.lanes,
            count,
            axes: Axes::of(picture, last),
        }
    }

    /// Half of the height of a strip.
    fn half(&self) -> u64
        ensures value { result ≡ half_strip self.now.count }
        ensures limit { result ≤ 60 }
    {
        if self.count > FEW_STRIPS { 35 } else { 60 }
    }

    /// How much room the strips take.
    pub(crate) fn height(&self) -> u64
        ensures value { result ≡ strips_height self.now }
        ensures limit { result ≤ 10_000 }
    {
        if self.count == 0 {
            return 0;
        }
        SPACE + self.count.min(64) * 2 * self.half()
    }

    /// The middle of a strip.
    fn y(&self, processor: u64) -> u64
        ensures value { result ≡ strip_middle self.now processor }
        ensures limit { result ≤ 20_000 }
    {
        let number = lane_number(self.shown, processor).clamp(1, 64);
        TOP + HEIGHT + SPACE + (number * 2 - 1) * self.half()
    }

    /// Whether a processor has a strip.
    fn has(&self, processor: u64) -> bool {
        self.count > 0 && self.shown.contains(processor)
    }

    /// What makes the marks of many strips thinner.
    fn look(&self) -> &'static str {
        if self.count > FEW_STRIPS { " u" } else { "" }
    }
}

/// The left edge of a column of so many, or the right edge of all, if the column is after the last.
fn stroke_edge(columns: u64, column: u64) -> u64
    ensures value { result ≡ stroke_edge columns column }
    ensures limit { result ≤ LEFT + WIDTH }
{
    let columns = columns.clamp(1, COLUMNS);
    LEFT + column.min(columns) * WIDTH / columns
}

/// Draws the strips of a picture.
pub(crate) fn put_strips(
    alloc: Global,
    out: &mut Vec<u8>,
    strips: &Strips,
    picture: &Picture,
    set: ProcSet,
    words: Words<'_>,
) -> Result<(), AllocError> {
    for p in 1..65 {
        if strips.has(p) {
            put_strip(alloc, out, strips, picture, set, words, p)?;
        }
    }
    Ok(())
}

fn put_strip(
    alloc: Global,
    out: &mut Vec<u8>,
    strips: &Strips,
    picture: &Picture,
    set: ProcSet,
    words: Words<'_>,
    p: u64,
) -> Result<(), AllocError> {
    let (look, thin, y) = (look_of(set, p), strips.look(), strips.y(p));
    let base = y + strips.half() * 6 / 10;
    put(
        alloc,
        out,
        format_args!("<g class=\"s {look}{thin}\"><title>"),
    )?;
    push_strip_title(out, words, p)?;
    put(
        alloc,
        out,
        format_args!("</title><text x=\"780\" y=\"{base}\">"),
    )?;
    push_label(out, words.names, p)?;
    out.extend_from_slice(b"</text>")?;
    put_bands(alloc, out, strips, &picture.stalls, words, p)?;
    put_strokes(alloc, out, &picture.strokes, p, y)?;
    out.extend_from_slice(b"</g>\n")
}

/// Draws the first gaps that are those of this processor.
fn put_bands(
    alloc: Global,
    out: &mut Vec<u8>,
    strips: &Strips,
    stalls: &[Row],
    words: Words<'_>,
    p: u64,
) -> Result<(), AllocError> {
    for row in earliest(stalls, MAX_BANDS) {
        put_band(alloc, out, strips, row, words, p)?;
    }
    Ok(())
}

/// Draws the gap of a row, if it is one of this processor.
fn put_band(
    alloc: Global,
    out: &mut Vec<u8>,
    strips: &Strips,
    row: &Row,
    words: Words<'_>,
    p: u64,
) -> Result<(), AllocError> {
    let Some(gap) = row.gap else {
        return Ok(());
    };
    if gap.proc != p {
        return Ok(());
    }
    let (x, end) = (
        strips.axes.edge(gap.from),
        strips.axes.edge(gap.to.saturating_add(1)),
    );
    let width = end.saturating_sub(x).max(LEAST_BAND);
    let (top, high) = (strips.y(p).saturating_sub(strips.half()), strips.half() * 2);
    put(
        alloc,
        out,
        format_args!(
            "<rect class=\"g\" x=\"{x}\" y=\"{top}\" width=\"{width}\" height=\"{high}\"><title>"
        ),
    )?;
    push_gap_title(out, words, gap, row.gst, row.phi)?;
    out.extend_from_slice(b"</title></rect>")
}

/// Draws the strokes of a processor at this height.
fn put_strokes(
    alloc: Global,
    out: &mut Vec<u8>,
    strokes: &Strokes,
    p: u64,
    y: u64,
) -> Result<(), AllocError> {
    out.extend_from_slice(b"<path d=\"")?;
    let mut from = 0;
    for _ in 0..COLUMNS {
        let Some(stroke) = strokes.stroke_from(p, from) else {
            return out.extend_from_slice(b"\"/>");
        };
        let x = stroke_edge(strokes.columns, stroke.first);
        let width = stroke_edge(strokes.columns, stroke.end).saturating_sub(x);
        put(alloc, out, format_args!("M{x} {y}h{width}"))?;
        from = stroke.end;
    }
    out.extend_from_slice(b"\"/>")
}
