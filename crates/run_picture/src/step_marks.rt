//! Steps, as marks in the lanes of their processors. Lengths are tenths of a pixel.

ghost use Rattle.std.specs.Prelude.{◌≤◌};

use crate::frames::Frame;
use crate::mark_words::Words;
use crate::svg::put;
use crate::titles::{Made, push_receive_title, push_send_title};
use std::alloc::{AllocError, Global};
use step_trace::{Act, Trace};

/// Draws the step of this number.
pub(crate) fn put_step(
    alloc: Global,
    out: &mut Vec<u8>,
    frame: &Frame,
    trace: &Trace,
    words: Words<'_>,
    no: u64,
) -> Result<(), AllocError> {
    let Some(step) = trace.step(no) else {
        return Ok(());
    };
    let (tick, processor) = (trace.tick_at(no), step.proc);
    let mark = Mark {
        made: Made {
            no,
            tick,
            processor,
        },
        x: frame.middle(tick),
        y: frame.y(processor),
    };
    match &step.act {
        Act::Send { to } => put_send(alloc, out, frame, words, mark, *to),
        Act::Receive { ends, ids } => {
            put_receive(alloc, out, frame, words, mark, *ends, ids.as_slice())
        }
    }
}

/// The step of a mark, and the middle of the mark.
#[derive(Clone, Copy)]
struct Mark {
    made: Made,
    x: u64,
    y: u64,
}

fn put_send(
    alloc: Global,
    out: &mut Vec<u8>,
    frame: &Frame,
    words: Words<'_>,
    mark: Mark,
    to: u64,
) -> Result<(), AllocError> {
    let (x, y, size) = (mark.x, mark.y, radius(frame));
    put(
        alloc,
        out,
        format_args!("<circle cx=\"{x}\" cy=\"{y}\" r=\"{size}\"><title>"),
    )?;
    push_send_title(out, words, mark.made, to)?;
    out.extend_from_slice(b"</title></circle>\n")
}

fn put_receive(
    alloc: Global,
    out: &mut Vec<u8>,
    frame: &Frame,
    words: Words<'_>,
    mark: Mark,
    ends: bool,
    ids: &[u64],
) -> Result<(), AllocError> {
    put_square(alloc, out, frame, mark, ids.len() == 0)?;
    push_receive_title(out, words, mark.made, ends, ids)?;
    out.extend_from_slice(b"</title></rect>")?;
    if ends {
        put_end(alloc, out, frame, mark)?;
    }
    out.extend_from_slice(b"\n")
}

/// How far a mark goes from its middle.
fn radius(frame: &Frame) -> u64
    ensures { result ≤ 60 }
{
    (frame.half() * 6 / 10).clamp(22, 60)
}

fn put_square(
    alloc: Global,
    out: &mut Vec<u8>,
    frame: &Frame,
    mark: Mark,
    is_empty: bool,
) -> Result<(), AllocError> {
    let size = radius(frame);
    let (left, top) = (mark.x.saturating_sub(size), mark.y.saturating_sub(size));
    let wide = size * 2;
    let class = if is_empty { " class=\"z\"" } else { "" };
    put(
        alloc,
        out,
        format_args!(
            "<rect x=\"{left}\" y=\"{top}\" width=\"{wide}\" height=\"{wide}\"{class}><title>"
        ),
    )
}

/// A bar beside the mark of a Receive that ends its round.
fn put_end(alloc: Global, out: &mut Vec<u8>, frame: &Frame, mark: Mark) -> Result<(), AllocError> {
    let far = radius(frame) + 25;
    let (right, top) = (mark.x.min(100_000) + far, mark.y.saturating_sub(far));
    let tall = far * 2;
    put(
        alloc,
        out,
        format_args!("<path class=\"r\" d=\"M{right} {top}v{tall}\"/>"),
    )
}
