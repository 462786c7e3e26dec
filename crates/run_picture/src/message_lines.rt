//! Messages, as lines from their Sends to the Receives that take them. Lengths are tenths of a pixel.

use crate::frames::{Frame, Line};
use crate::mark_words::Words;
use crate::svg::put;
use crate::titles::{Made, push_message_title};
use picture_marks::Message;
use std::alloc::{AllocError, Global};
use step_trace::{Act, Trace};

/// A message: its Send, its receiver, and the Receive that takes it.
#[derive(Clone, Copy)]
struct Sending {
    made: Made,
    to: u64,
    taken: Option<u64>,
}

/// Draws a message that touches the window.
pub(crate) fn put_message(
    alloc: Global,
    out: &mut Vec<u8>,
    frame: &Frame,
    trace: &Trace,
    words: Words<'_>,
    message: &Message,
) -> Result<(), AllocError> {
    let Some(step) = trace.step(message.sent) else {
        return Ok(());
    };
    let Act::Send { to } = &step.act else {
        return Ok(());
    };
    let made = Made {
        no: message.sent,
        tick: trace.tick_at(message.sent),
        processor: step.proc,
    };
    let sending = Sending {
        made,
        to: *to,
        taken: message.taken,
    };
    put_way(alloc, out, frame, trace, sending)?;
    put_title(out, trace, words, sending)
}

/// The mark of a message, up to its title.
fn put_way(
    alloc: Global,
    out: &mut Vec<u8>,
    frame: &Frame,
    trace: &Trace,
    sending: Sending,
) -> Result<(), AllocError> {
    let (tick, from, to) = (sending.made.tick, sending.made.processor, sending.to);
    let Some(taken) = sending.taken else {
        return put_line(alloc, out, frame.lost(tick, from, to), "l d");
    };
    let end = trace.tick_at(taken);
    if from == to {
        return put_arc(alloc, out, frame, tick, end, from);
    }
    put_line(alloc, out, frame.line(tick, from, end, to), "l")
}

/// A straight line of these looks, up to its title.
pub(crate) fn put_line(
    alloc: Global,
    out: &mut Vec<u8>,
    line: Line,
    looks: &str,
) -> Result<(), AllocError> {
    let (x, y, x_end, y_end) = (line.x, line.y, line.x_end, line.y_end);
    put(
        alloc,
        out,
        format_args!("<path class=\"{looks}\" d=\"M{x} {y}L{x_end} {y_end}\">"),
    )
}

/// The end of the mark of a message: from whom to whom it is, where it was sent, and where it was received.
fn put_title(
    out: &mut Vec<u8>,
    trace: &Trace,
    words: Words<'_>,
    sending: Sending,
) -> Result<(), AllocError> {
    let end = match sending.taken {
        Some(taken) => trace.tick_at(taken),
        None => 0,
    };
    out.extend_from_slice(b"<title>")?;
    push_message_title(out, words, sending.made, sending.to, sending.taken, end)?;
    out.extend_from_slice(b"</title></path>\n")
}

/// A message to its own sender: up, along and down again, as far as it lies in the window.
fn put_arc(
    alloc: Global,
    out: &mut Vec<u8>,
    frame: &Frame,
    tick: u64,
    end: u64,
    processor: u64,
) -> Result<(), AllocError> {
    let line = frame.line(tick, processor, end, processor);
    put_way_up(alloc, out, frame, tick, line.x, line.y)?;
    put_way_down(alloc, out, frame, end, line.x_end)
}

/// How far a message to its own sender goes up.
fn rise(frame: &Frame) -> u64 {
    frame.half_lane() * 7 / 10
}

fn put_way_up(
    alloc: Global,
    out: &mut Vec<u8>,
    frame: &Frame,
    tick: u64,
    x: u64,
    y: u64,
) -> Result<(), AllocError> {
    let (half, rise) = (frame.half(), rise(frame));
    if frame.shows(tick) {
        return put(
            alloc,
            out,
            format_args!("<path class=\"l\" d=\"M{x} {y}q0 -{rise} {half} -{rise}"),
        );
    }
    let top = y.saturating_sub(rise);
    put(alloc, out, format_args!("<path class=\"l\" d=\"M{x} {top}"))
}

/// Along to the end, and down, if it is in the window.
fn put_way_down(
    alloc: Global,
    out: &mut Vec<u8>,
    frame: &Frame,
    end: u64,
    x_end: u64,
) -> Result<(), AllocError> {
    if !frame.shows(end) {
        return put(alloc, out, format_args!("H{x_end}\">"));
    }
    let (half, rise) = (frame.half(), rise(frame));
    let along = x_end.saturating_sub(half);
    put(
        alloc,
        out,
        format_args!("H{along}q{half} 0 {half} {rise}\">"),
    )
}
