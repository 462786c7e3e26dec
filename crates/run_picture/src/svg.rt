//! The text of a picture, as SVG. Lengths are tenths of a pixel.

ghost use Rattle.std.specs.Prelude.{◌≡◌, ◌-◌, ◌≤◌, length, take, drop};

use crate::descriptions::put_description;
use crate::frames::Frame;
use crate::lanes::put_lanes;
use crate::legend::{LEGEND, STRIPS_LEGEND, STYLE};
use crate::mark_words::Words;
use crate::message_lines::put_message;
use crate::staircase::{put_axis, put_staircase};
use crate::step_marks::put_step;
use crate::strips::{Strips, put_strips};
use crate::witness_marks::{put_gap, put_miss};
use picture_marks::Picture;
use run_words::{LogWords, clock_of, short_width};
use std::alloc::{AllocError, Global};
use std::fmt::Display;
use step_trace::{ProcSet, Row, Trace};

/// How many messages are written, the last by their Sends.
pub const MAX_LINES: usize = 10_000;

/// How many misses are written, and how many gaps: the first, of the greatest bounds.
pub const MAX_WITNESSES: usize = 1_000;

/// The SVG of a picture of this trace, in UTF-8: the staircase and a strip of the steps of each lane, both over all
/// ticks; and in its lanes the steps of its ticks with their messages and the witnesses. If its ticks are all, there
/// are no strips. The lanes of the set are in ink. Nodes, messages and steps are called as in the log, as far as that
/// is known; if the length of a tick is, the axes have times, too.
///
/// Fails only if out of memory.
pub fn svg_text(
    alloc: Global,
    trace: &Trace,
    picture: &Picture,
    set: ProcSet,
    log: &LogWords<'_>,
) -> Result<Vec<u8>, AllocError> {
    let mut out = Vec::new(alloc);
    let words = Words {
        names: log.names,
        said: log.said,
        clock: clock_of(trace, log.said, log.unit),
    };
    let count = trace.config().n().min(64);
    let frame = &Frame::new(picture.window, picture.lanes, count);
    let strips = &Strips::of(picture, count, trace.last_tick());
    let paper = Paper::of(frame, strips, words);
    put_head(alloc, &mut out, paper)?;
    put_description(alloc, &mut out, picture, set, count, words)?;
    put_paper(alloc, &mut out, paper)?;
    if trace.last_tick() == 0 {
        out.extend_from_slice(
            b"<text x=\"900\" y=\"300\" class=\"h\">The trace has no tick.</text>\n</svg>\n",
        )?;
        return Ok(out);
    }
    put_all_ticks(alloc, &mut out, strips, picture, set, words)?;
    put_lanes(alloc, &mut out, frame, picture, count, set, words)?;
    put_marks(alloc, &mut out, frame, trace, picture, words)?;
    put_foot(alloc, &mut out, frame, strips, picture)?;
    Ok(out)
}

/// What is drawn over all ticks. What follows, from their axis on, is moved down by the strips.
fn put_all_ticks(
    alloc: Global,
    out: &mut Vec<u8>,
    strips: &Strips,
    picture: &Picture,
    set: ProcSet,
    words: Words<'_>,
) -> Result<(), AllocError> {
    let height = strips.height();
    put_staircase(alloc, out, strips.axes, picture, height, words.clock)?;
    put_strips(alloc, out, strips, picture, set, words)?;
    put(
        alloc,
        out,
        format_args!("<g transform=\"translate(0 {height})\">\n"),
    )?;
    put_axis(alloc, out, strips.axes, words.clock)
}

/// Appends the text of a value.
pub(crate) fn put<D: Display + Drop>(
    alloc: Global,
    out: &mut Vec<u8>,
    value: D,
) -> Result<(), AllocError> {
    let text = format!(in alloc; "{value}")?;
    out.extend_from_slice(text.as_bytes())
}

/// How wide a name is that fits next to the lanes.
const ROOM: u64 = 740;

/// How far the widest names reach beyond the usual left edge: those of as many characters as are shown, all of them
/// wide.
const MOST_OVERHANG: u64 = 1_060;

/// How far the widest name next to a lane reaches beyond the usual left edge.
fn overhang(names: &[&str]) -> u64
    ensures { result ≤ MOST_OVERHANG }
{
    let mut widest = ROOM;
    for name in names {
        widest = short_width(name.as_bytes()).max(widest);
    }
    widest.saturating_sub(ROOM).min(MOST_OVERHANG)
}

/// The page: how far it reaches beyond the usual left edge, how wide and how high it is.
#[derive(Clone, Copy)]
struct Paper {
    overhang: u64,
    width: u64,
    height: u64,
}

impl Paper {
    /// The page is wider by what names reach beyond its left edge, and by the times of bounds beyond its right one.
    fn of(frame: &Frame, strips: &Strips, words: Words<'_>) -> Self {
        let overhang = overhang(words.names);
        let right = if words.clock.is_some() {
            11_700
        } else {
            11_200
        };
        Paper {
            overhang,
            width: overhang + right,
            height: frame.lanes_end() + strips.height() + 1_000,
        }
    }
}

fn put_head(alloc: Global, out: &mut Vec<u8>, paper: Paper) -> Result<(), AllocError> {
    let Paper {
        overhang,
        width,
        height,
    } = paper;
    let minus = if overhang == 0 { "" } else { "-" };
    put(
        alloc,
        out,
        format_args!(
            "<svg xmlns=\"http://www.w3.org/2000/svg\" viewBox=\"{minus}{overhang} 0 {width} {height}\" font-family=\"system-ui, sans-serif\" font-size=\"120\" fill=\"#1a1a1a\" role=\"img\">\n"
        ),
    )
}

/// The looks of the marks, and the paper.
fn put_paper(alloc: Global, out: &mut Vec<u8>, paper: Paper) -> Result<(), AllocError> {
    let Paper {
        overhang,
        width,
        height,
    } = paper;
    put(alloc, out, format_args!("{STYLE}<rect"))?;
    if overhang > 0 {
        put(alloc, out, format_args!(" x=\"-{overhang}\""))?;
    }
    put(
        alloc,
        out,
        format_args!(" width=\"{width}\" height=\"{height}\" fill=\"#fff\"/>\n"),
    )
}

/// Gaps below messages, misses above them, and steps on top.
fn put_marks(
    alloc: Global,
    out: &mut Vec<u8>,
    frame: &Frame,
    trace: &Trace,
    picture: &Picture,
    words: Words<'_>,
) -> Result<(), AllocError> {
    put_gaps(alloc, out, frame, words, &picture.gaps)?;
    for message in latest(&picture.messages, MAX_LINES) {
        put_message(alloc, out, frame, trace, words, message)?;
    }
    put_misses(alloc, out, frame, trace, words, &picture.misses)?;
    put_steps(alloc, out, frame, trace, words, &picture.steps)
}

fn put_gaps(
    alloc: Global,
    out: &mut Vec<u8>,
    frame: &Frame,
    words: Words<'_>,
    gaps: &[Row],
) -> Result<(), AllocError> {
    for row in earliest(gaps, MAX_WITNESSES) {
        put_gap(alloc, out, frame, words, row)?;
    }
    Ok(())
}

fn put_misses(
    alloc: Global,
    out: &mut Vec<u8>,
    frame: &Frame,
    trace: &Trace,
    words: Words<'_>,
    misses: &[Row],
) -> Result<(), AllocError> {
    for row in earliest(misses, MAX_WITNESSES) {
        put_miss(alloc, out, frame, trace, words, row)?;
    }
    Ok(())
}

fn put_steps(
    alloc: Global,
    out: &mut Vec<u8>,
    frame: &Frame,
    trace: &Trace,
    words: Words<'_>,
    steps: &[u64],
) -> Result<(), AllocError> {
    for no in steps {
        put_step(alloc, out, frame, trace, words, *no)?;
    }
    Ok(())
}

/// The last of these, so many at most.
fn latest<T>(list: &[T], most: usize) -> &[T]
    ensures { result.now ≡ drop (length list.now - most) list.now }
{
    &list[list.len().saturating_sub(most)..]
}

/// The first of these, so many at most: in a report the witnesses of the greatest bounds.
pub(crate) fn earliest(rows: &[Row], most: usize) -> &[Row]
    ensures { result.now ≡ take most rows.now }
{
    &rows[..most.min(rows.len())]
}

/// What the marks mean, and how many are left out.
fn put_foot(
    alloc: Global,
    out: &mut Vec<u8>,
    frame: &Frame,
    strips: &Strips,
    picture: &Picture,
) -> Result<(), AllocError> {
    put_legend(alloc, out, frame, strips)?;
    let y = frame.lanes_end() + 860;
    put_left_out(
        alloc,
        out,
        (900, y),
        picture.messages.len(),
        MAX_LINES,
        "earlier messages",
    )?;
    put_left_out(
        alloc,
        out,
        (4_900, y),
        picture.misses.len(),
        MAX_WITNESSES,
        "later misses",
    )?;
    put_left_out(
        alloc,
        out,
        (7_900, y),
        picture.gaps.len(),
        MAX_WITNESSES,
        "later gaps",
    )?;
    out.extend_from_slice(b"</g>\n</svg>\n")
}

/// What the marks mean that there are.
fn put_legend(
    alloc: Global,
    out: &mut Vec<u8>,
    frame: &Frame,
    strips: &Strips,
) -> Result<(), AllocError> {
    let y = frame.lanes_end() + 540;
    let more = if strips.height() > 0 {
        STRIPS_LEGEND
    } else {
        ""
    };
    put(
        alloc,
        out,
        format_args!("<g transform=\"translate(900 {y})\" class=\"k\">\n{LEGEND}{more}</g>\n"),
    )
}

/// How many of so many marks are left out, if at most `most` are drawn.
fn left_out(count: usize, most: usize) -> usize
    ensures { result ≡ count - most }
{
    count.saturating_sub(most)
}

fn put_left_out(
    alloc: Global,
    out: &mut Vec<u8>,
    place: (u64, u64),
    count: usize,
    most: usize,
    kind: &str,
) -> Result<(), AllocError> {
    let left_out = left_out(count, most);
    if left_out == 0 {
        return Ok(());
    }
    let (x, y) = place;
    put(
        alloc,
        out,
        format_args!("<text x=\"{x}\" y=\"{y}\">{left_out} {kind} are not drawn.</text>\n"),
    )
}
