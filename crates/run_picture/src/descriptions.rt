//! What a picture says to readers that don't show it.

use crate::lanes::put_lane_count;
use crate::mark_words::{Words, push_bound};
use crate::svg::put;
use picture_marks::Picture;
use run_words::{Clock, push_node};
use std::alloc::{AllocError, Global};
use step_trace::{ProcSet, Row};

/// Writes the title of a picture, and its description: which of the processors 1 to `count` are correct, and the bounds
/// at the first and the last tick.
pub(crate) fn put_description(
    alloc: Global,
    out: &mut Vec<u8>,
    picture: &Picture,
    set: ProcSet,
    count: u64,
    words: Words<'_>,
) -> Result<(), AllocError> {
    put_title(alloc, out, picture, count)?;
    out.extend_from_slice(b"<desc>")?;
    put_correct(out, set, count, words.names)?;
    put_bounds(alloc, out, &picture.corners, words.clock)?;
    out.extend_from_slice(b"</desc>\n")
}

fn put_title(
    alloc: Global,
    out: &mut Vec<u8>,
    picture: &Picture,
    count: u64,
) -> Result<(), AllocError> {
    let (first, to) = (picture.window.first, picture.window.to);
    if to == 0 {
        return out.extend_from_slice(b"<title>A trace with no tick</title>\n");
    }
    put(
        alloc,
        out,
        format_args!(
            "<title>Least bounds from each tick to the end, and steps of the ticks {first} to {to}"
        ),
    )?;
    put_lane_count(alloc, out, picture.lanes, count)?;
    out.extend_from_slice(b"</title>\n")
}

fn put_correct(
    out: &mut Vec<u8>,
    set: ProcSet,
    count: u64,
    names: &[&str],
) -> Result<(), AllocError> {
    let members = members_of(set, count);
    if members == 0 {
        return out.extend_from_slice(b"No processor is taken as correct.");
    }
    if members == count {
        return out.extend_from_slice(b"All processors are taken as correct.");
    }
    out.extend_from_slice(b"Taken as correct:")?;
    put_members(out, set, count, names)?;
    out.extend_from_slice(b".")
}

/// How many of the processors 1 to `count` are in the set.
fn members_of(set: ProcSet, count: u64) -> u64 {
    let mut members = 0_u64;
    for p in 1..count.min(64) + 1 {
        if set.contains(p) {
            members = members.saturating_add(1);
        }
    }
    members
}

fn put_members(
    out: &mut Vec<u8>,
    set: ProcSet,
    count: u64,
    names: &[&str],
) -> Result<(), AllocError> {
    let mut before = " ";
    for p in 1..count.min(64) + 1 {
        if set.contains(p) {
            out.extend_from_slice(before.as_bytes())?;
            push_node(out, names, p)?;
            before = ", ";
        }
    }
    Ok(())
}

/// The bounds of the first row, and of the last one.
fn put_bounds(
    alloc: Global,
    out: &mut Vec<u8>,
    corners: &[Row],
    clock: Option<Clock>,
) -> Result<(), AllocError> {
    let count = corners.len();
    if count == 0 {
        return Ok(());
    }
    put_row(alloc, out, " From", &corners[0], clock)?;
    if count > 1 {
        put_row(alloc, out, "; from", &corners[count - 1], clock)?;
    }
    out.extend_from_slice(b".")
}

fn put_row(
    alloc: Global,
    out: &mut Vec<u8>,
    from: &str,
    row: &Row,
    clock: Option<Clock>,
) -> Result<(), AllocError> {
    let gst = row.gst;
    put(alloc, out, format_args!("{from} tick {gst} on Δ = "))?;
    push_bound(out, clock, row.delta)?;
    out.extend_from_slice(" and Φ = ".as_bytes())?;
    push_bound(out, clock, row.phi)
}
