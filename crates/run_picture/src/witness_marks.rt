//! The misses and gaps of a report. Lengths are tenths of a pixel.

use crate::frames::Frame;
use crate::mark_words::Words;
use crate::message_lines::put_line;
use crate::svg::put;
use crate::titles::{Made, push_gap_title, push_miss_title};
use picture_marks::processor_at;
use std::alloc::{AllocError, Global};
use step_trace::{Row, Trace};

/// Draws the miss of a row, from the Send to the Receive that it misses.
pub(crate) fn put_miss(
    alloc: Global,
    out: &mut Vec<u8>,
    frame: &Frame,
    trace: &Trace,
    words: Words<'_>,
    row: &Row,
) -> Result<(), AllocError> {
    let Some(miss) = row.miss else {
        return Ok(());
    };
    let (sent, from) = (miss.sent, processor_at(trace, miss.sent));
    let missed = Made {
        no: miss.missed,
        tick: trace.tick_at(miss.missed),
        processor: processor_at(trace, miss.missed),
    };
    let line = frame.line(trace.tick_at(sent), from, missed.tick, missed.processor);
    put_line(alloc, out, line, "w")?;
    out.extend_from_slice(b"<title>")?;
    push_miss_title(out, words, missed, sent, from, row.gst, row.delta)?;
    out.extend_from_slice(b"</title></path>\n")
}

/// Draws the gap of a row, as far as it lies in the window.
pub(crate) fn put_gap(
    alloc: Global,
    out: &mut Vec<u8>,
    frame: &Frame,
    words: Words<'_>,
    row: &Row,
) -> Result<(), AllocError> {
    let Some(gap) = row.gap else {
        return Ok(());
    };
    let x = frame.edge(gap.from);
    let width = frame.edge(gap.to.saturating_add(1)).saturating_sub(x);
    let y = frame.y(gap.proc).saturating_sub(90);
    put(
        alloc,
        out,
        format_args!(
            "<rect class=\"g\" x=\"{x}\" y=\"{y}\" width=\"{width}\" height=\"180\" rx=\"40\"><title>"
        ),
    )?;
    push_gap_title(out, words, gap, row.gst, row.phi)?;
    out.extend_from_slice(b"</title></rect>\n")
}
