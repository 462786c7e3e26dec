//! Who is to blame: the bounds of each node and of each pair, as a table.

use crate::pens::Pen;
use crate::pieces::Piece;
use crate::pieces::Piece::{From, Label, Node, Number, Text, Ticks};
use crate::run_lanes::lanes_in;
use crate::runs::Run;
use crate::shades::put_shades;
use run_words::log_of;
use std::alloc::Global;
use step_trace::ProcSet;

/// With more members than this the table has only those with the greatest numbers, so many.
const FEW_MEMBERS: u64 = 12;

const SOME_MEMBERS: u64 = 10;

/// Writes the section about who is late or slow.
pub(crate) fn put_who(alloc: Global, pen: &mut Pen<'_>, run: &Run<'_>) {
    let shown = shown_members(run);
    pen.text(
        "<section aria-labelledby=\"h-who\"><h2 id=\"h-who\">Who</h2><div class=\"scroll\" tabindex=\"0\" role=\"region\" aria-label=\"Bounds of each node and each pair\"><table class=\"heat\"><thead>",
    );
    put_heads(pen, shown);
    pen.text("</thead><tbody>");
    put_rows(pen, run, shown);
    pen.text("</tbody></table></div>");
    put_caption(pen, run, shown);
    if lanes_in(shown) < run.members() {
        put_shades(alloc, pen, run);
    }
    pen.text("</section>");
}

/// All members, or those with the greatest numbers.
fn shown_members(run: &Run) -> ProcSet {
    if run.members() <= FEW_MEMBERS {
        return run.set;
    }
    let mut shown = ProcSet::empty();
    for p in 1..65 {
        if run.set.contains(p) && greater_ones(run, p) < SOME_MEMBERS {
            shown = shown.with(p);
        }
    }
    shown
}

/// How many members have a greater number than this one, or the same and a smaller place.
fn greater_ones(run: &Run, proc: u64) -> u64 {
    let mine = run.whole.greatest(proc);
    let mut count = 0_u64;
    for p in 1..65 {
        let number = run.whole.greatest(p);
        if run.set.contains(p) && (number > mine || number == mine && p < proc) {
            count = count.saturating_add(1);
        }
    }
    count
}

fn put_heads(pen: &mut Pen<'_>, shown: ProcSet) {
    pen.put(&[
        Text(
            "<tr><th rowspan=\"2\" scope=\"col\">node</th><th rowspan=\"2\" scope=\"col\" class=\"phi\">Φ<small>a step at least every</small></th><th colspan=\"",
        ),
        Number(lanes_in(shown)),
        Text("\" scope=\"colgroup\" class=\"dl\">Δ of messages to</th></tr><tr>"),
    ]);
    for p in 1..65 {
        if shown.contains(p) {
            put_head(pen, p, "col");
        }
    }
    pen.text("</tr>");
}

/// Writes the name of a row or a column.
fn put_head(pen: &mut Pen<'_>, proc: u64, scope: &'static str) {
    pen.put(&[
        Text("<th scope=\""),
        Text(scope),
        Text("\" title=\""),
        Node(proc),
        Text("\"><span>"),
        Label(proc),
        Text("</span></th>"),
    ]);
}

fn put_rows(pen: &mut Pen<'_>, run: &Run<'_>, shown: ProcSet) {
    for p in 1..65 {
        if shown.contains(p) {
            put_row(pen, run, shown, p);
        }
    }
}

/// Writes the name of a node, its processor bound, and the communication bounds of its messages.
fn put_row(pen: &mut Pen<'_>, run: &Run<'_>, shown: ProcSet, proc: u64) {
    pen.text("<tr>");
    put_head(pen, proc, "row");
    put_phi(pen, run, proc);
    for to in 1..65 {
        if shown.contains(to) {
            put_delta(pen, run, proc, to);
        }
    }
    pen.text("</tr>");
}

fn put_phi(pen: &mut Pen<'_>, run: &Run<'_>, proc: u64) {
    let value = run.whole.phi(proc);
    pen.put(&[
        Text("<td class=\"hp\" style=\"--a:"),
        Number(shade(value, run.row(0).phi)),
        Text("%\">"),
        cell(run, value),
    ]);
    put_later(pen, run, run.rest.phi(proc));
    pen.text("</td>");
}

fn put_delta(pen: &mut Pen<'_>, run: &Run<'_>, from: u64, to: u64) {
    let value = run.whole.delta(from, to);
    if value == 0 {
        pen.text("<td class=\"no\">·</td>");
        return;
    }
    pen.put(&[
        Text("<td class=\"hd\" style=\"--a:"),
        Number(shade(value, run.row(0).delta)),
        Text("%\" title=\""),
        Node(from),
        Text(" to "),
        Node(to),
        Text(": "),
        Ticks(value),
        Text("\">"),
        cell(run, value),
    ]);
    put_later(pen, run, run.rest.delta(from, to));
    pen.text("</td>");
}

/// Writes the bound from the calm row on, if that isn't the first; a dash if there is none.
fn put_later(pen: &mut Pen<'_>, run: &Run<'_>, bound: u64) {
    if run.found.calm_place == 0 {
        return;
    }
    if bound == 0 {
        pen.text("<small>–</small>");
    } else {
        pen.put(&[Text("<small>"), cell(run, bound), Text("</small>")]);
    }
}

/// A bound in a cell: as time, or else as a number of ticks.
pub(crate) fn cell(run: &Run, bound: u64) -> Piece {
    if run.clock.is_some() {
        Piece::Short(bound)
    } else {
        Piece::Count(bound)
    }
}

/// The shade of a bound, in per cent: by its logarithm over that of the greatest, and over a decade at least.
fn shade(value: u64, most: u64) -> u64 {
    if value <= 1 {
        return 0;
    }
    6 + log_of(value) * 54 / log_of(most.max(10)).max(1)
}

/// Writes what the numbers in the cells are.
fn put_cells(pen: &mut Pen<'_>, run: &Run<'_>) {
    pen.text("<p class=\"cap\">");
    let is_whole = run.found.calm_place == 0;
    if run.clock.is_none() {
        pen.text(if is_whole {
            "In ticks, over"
        } else {
            "In ticks. "
        });
    } else if is_whole {
        pen.text("Over");
    }
    if is_whole {
        pen.text(" the whole run.");
    } else {
        pen.put(&[
            Text("Upper number: over the whole run. Lower: from "),
            From(run.found.calm.gst),
            Text(" on."),
        ]);
    }
}

fn put_caption(pen: &mut Pen<'_>, run: &Run<'_>, shown: ProcSet) {
    put_cells(pen, run);
    pen.text(" A dot: nothing was sent.");
    let (some, all) = (lanes_in(shown), run.members());
    if some < all {
        pen.put(&[
            Text(" The "),
            Number(some),
            Text(" nodes of "),
            Number(all),
            Text(" with the greatest numbers."),
        ]);
    }
    pen.text("</p>");
}
