//! The lanes of the processors, and the axis of the ticks below them. Lengths are tenths of a pixel.

ghost use Rattle.std.specs.Prelude.{◌≡◌, codes, if◌then◌else◌};
ghost use Rattle.step_trace.specs.Processors.{has_proc};

use crate::frames::{Frame, LANES_TOP};
use crate::mark_words::Words;
use crate::shown_lanes::lane_number;
use crate::svg::put;
use crate::time_axes::{TimeAxis, put_times};
use picture_marks::{Picture, Window};
use run_words::{Clock, push_label, push_node, round_step};
use std::alloc::{AllocError, Global};
use step_trace::ProcSet;

/// How many numbers of ticks fit below the lanes.
const MOST_LABELS: u64 = 14;

/// Draws the heading, the lanes of a picture of processors 1 to `count`, and the axes of the ticks and of time.
pub(crate) fn put_lanes(
    alloc: Global,
    out: &mut Vec<u8>,
    frame: &Frame,
    picture: &Picture,
    count: u64,
    set: ProcSet,
    words: Words<'_>,
) -> Result<(), AllocError> {
    put_heading(alloc, out, picture, count)?;
    for p in 1..count.min(64) + 1 {
        if frame.has(p) {
            put_lane(alloc, out, frame, p, set, words.names)?;
        }
    }
    put_ticks(alloc, out, frame, picture.window)?;
    put_window_times(alloc, out, frame, picture.window, words.clock)
}

/// Round times below the ticks, if a clock tells them.
fn put_window_times(
    alloc: Global,
    out: &mut Vec<u8>,
    frame: &Frame,
    window: Window,
    clock: Option<Clock>,
) -> Result<(), AllocError> {
    let Some(clock) = clock else {
        return Ok(());
    };
    let axis = TimeAxis {
        clock,
        first: window.first,
        count: frame.count(),
    };
    put_times(alloc, out, axis, frame.lanes_end() + 320)
}

fn put_heading(
    alloc: Global,
    out: &mut Vec<u8>,
    picture: &Picture,
    count: u64,
) -> Result<(), AllocError> {
    let (first, to, y) = (picture.window.first, picture.window.to, LANES_TOP - 160);
    put(
        alloc,
        out,
        format_args!("<text x=\"900\" y=\"{y}\" class=\"h\">Steps of the ticks {first} to {to}"),
    )?;
    put_lane_count(alloc, out, picture.lanes, count)?;
    out.extend_from_slice(b"</text>\n")
}

/// Of how many of the processors 1 to `count` there are lanes, unless of each.
pub(crate) fn put_lane_count(
    alloc: Global,
    out: &mut Vec<u8>,
    lanes: ProcSet,
    count: u64,
) -> Result<(), AllocError> {
    let drawn = lane_number(lanes, count);
    if drawn == count {
        return Ok(());
    }
    put(
        alloc,
        out,
        format_args!(", of {drawn} of {count} processors"),
    )
}

/// How the lane of a processor looks: in ink, if it is one of the set, and pale, if it isn't.
pub(crate) fn look_of(set: ProcSet, p: u64) -> &'static str
    ensures { result.now ≡ (if has_proc set p then codes "i" else codes "o") }
{
    if set.contains(p) { "i" } else { "o" }
}

fn put_lane(
    alloc: Global,
    out: &mut Vec<u8>,
    frame: &Frame,
    p: u64,
    set: ProcSet,
    names: &[&str],
) -> Result<(), AllocError> {
    let (y, look) = (frame.y(p), look_of(set, p));
    put(alloc, out, format_args!("<g class=\"{look}\"><title>"))?;
    push_node(out, names, p)?;
    put(
        alloc,
        out,
        format_args!("</title><path d=\"M900 {y}h10000\"/><text x=\"780\" y=\"{y}\" dy=\"40\">"),
    )?;
    push_label(out, names, p)?;
    out.extend_from_slice(b"</text></g>\n")
}

/// Round numbers of ticks.
fn put_ticks(
    alloc: Global,
    out: &mut Vec<u8>,
    frame: &Frame,
    window: Window,
) -> Result<(), AllocError> {
    let y = frame.lanes_end() + 180;
    let step = round_step(frame.count(), MOST_LABELS).max(1);
    for i in 0..frame.count() {
        let tick = window.first.saturating_add(i);
        if frame.shows(tick) && tick % step == 0 {
            let x = frame.middle(tick);
            put(
                alloc,
                out,
                format_args!("<text x=\"{x}\" y=\"{y}\" class=\"n m\">{tick}</text>\n"),
            )?;
        }
    }
    Ok(())
}
