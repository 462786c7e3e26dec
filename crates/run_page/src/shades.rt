//! The bounds of all nodes and pairs as a grid of shades.

use crate::pens::Pen;
use crate::pieces::Piece::{Node, Number, Text, TwoDigits};
use crate::rooms::{ROOM_FOR_SHADES, put_within};
use crate::run_lanes::{lanes_in, put_lane_names};
use crate::runs::Run;
use crate::who::cell;
use run_words::log_of;
use std::alloc::Global;

/// How high a row is, in pixels.
const ROW: u64 = 10;

/// Writes the bounds of all members, closed at first.
pub(crate) fn put_shades(alloc: Global, pen: &mut Pen<'_>, run: &Run<'_>) {
    pen.put(&[
        Text("<details><summary>All "),
        Number(run.members()),
        Text(
            " members as shades</summary><p class=\"cap\">Rows are senders, columns receivers, in one order, and before them a column for Φ. The darker, the greater, on a log scale; blank: nothing was sent.",
        ),
        Text(if run.clock.is_none() {
            " In ticks.</p>"
        } else {
            "</p>"
        }),
    ]);
    let mut grid = Pen::new(alloc, run.names, run.said, run.clock);
    put_grid(&mut grid, run);
    put_within(pen, &grid, ROOM_FOR_SHADES);
    pen.text("</details>");
}

fn put_grid(pen: &mut Pen<'_>, run: &Run<'_>) {
    let count = lanes_in(run.set);
    put_lane_names(pen, run, run.set, ROW);
    pen.put(&[
        Text("<div class=\"plot\"><svg viewBox=\"0 0 "),
        Number(count + 1),
        Text(" "),
        Number(count * ROW),
        Text("\" height=\""),
        Number(count * ROW),
        Text(
            "\" preserveAspectRatio=\"none\" role=\"img\" aria-label=\"Φ of each member and Δ of each pair of members as shades\">",
        ),
    ]);
    pen.text("<g class=\"gp\">");
    put_silences(pen, run);
    pen.text("</g><g class=\"gd\">");
    put_rows(pen, run);
    pen.text("</g></svg></div></div>");
}

/// Writes the column of processor bounds.
fn put_silences(pen: &mut Pen<'_>, run: &Run<'_>) {
    let mut y = 0_u64;
    for p in 1..65 {
        if run.set.contains(p) {
            let bound = run.whole.phi(p);
            put_cell(pen, 0, y, depth(bound, run.row(0).phi));
            pen.put(&[
                Node(p),
                Text(": "),
                cell(run, bound),
                Text("</title></rect>"),
            ]);
            y = y.saturating_add(ROW);
        }
    }
}

/// Writes a row of communication bounds for each sender.
fn put_rows(pen: &mut Pen<'_>, run: &Run<'_>) {
    let mut y = 0_u64;
    for p in 1..65 {
        if run.set.contains(p) {
            put_row(pen, run, p, y);
            y = y.saturating_add(ROW);
        }
    }
}

fn put_row(pen: &mut Pen<'_>, run: &Run<'_>, from: u64, y: u64) {
    let mut x = 0_u64;
    for to in 1..65 {
        if run.set.contains(to) {
            x = x.saturating_add(1);
            put_pair(pen, run, from, to, x, y);
        }
    }
}

/// Writes the communication bound of a pair, if a message was sent.
fn put_pair(pen: &mut Pen<'_>, run: &Run<'_>, from: u64, to: u64, x: u64, y: u64) {
    let bound = run.whole.delta(from, to);
    if bound == 0 {
        return;
    }
    put_cell(pen, x, y, depth(bound, run.row(0).delta));
    pen.put(&[
        Node(from),
        Text(" to "),
        Node(to),
        Text(": "),
        cell(run, bound),
        Text("</title></rect>"),
    ]);
}

/// Writes a cell up to the words of its title.
fn put_cell(pen: &mut Pen<'_>, x: u64, y: u64, depth: u64) {
    pen.put(&[
        Text("<rect x=\""),
        Number(x),
        Text("\" y=\""),
        Number(y),
        Text("\" opacity=\"."),
        TwoDigits(depth),
        Text("\"><title>"),
    ]);
}

/// How dark a cell is, in hundredths: by the logarithm of its bound over that of the greatest, and over a decade at
/// least.
fn depth(bound: u64, most: u64) -> u64 {
    (8 + log_of(bound) * 91 / log_of(most.max(10)).max(1)).min(99)
}
