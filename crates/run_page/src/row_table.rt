//! The rows of the report in short: those that name other evidence than the row before.

use crate::cards::CARDS;
use crate::pens::Pen;
use crate::pieces::Piece::{Count, Many, Number, Text, Ticks};
use crate::runs::Run;
use run_story::Named;

/// How many rows the table has.
const MOST_ROWS: usize = 1_000;

/// Writes the table, closed at first.
pub(crate) fn put_row_table(pen: &mut Pen<'_>, run: &Run<'_>) {
    pen.put(&[
        Text("<details class=\"rowsd\"><summary>The rows of the report, in short ("),
        Count(run.brief.len() as u64),
        Text(
            ")</summary><div class=\"scroll\" tabindex=\"0\" role=\"region\" aria-label=\"Rows of the report\"><table class=\"rows\"><thead><tr><th scope=\"col\">from tick</th><th scope=\"col\" class=\"dl\">Δ</th><th scope=\"col\" class=\"phi\">Φ</th><th scope=\"col\">evidence</th><th scope=\"col\">rows</th></tr></thead><tbody>",
        ),
    ]);
    for k in 0..run.brief.len().min(MOST_ROWS) {
        let first = brief_at(run, k);
        let next = brief_at(run, k.saturating_add(1));
        put_row(pen, run, first, next.saturating_sub(1).max(first));
    }
    pen.text("</tbody></table></div>");
    put_caption(pen, run);
    pen.text("</details>");
}

/// The place of the brief row of this number, from 0; the number of rows if there is none.
fn brief_at(run: &Run, k: usize) -> usize {
    match run.brief.get(k) {
        Some(place) => *place,
        None => run.rows.len(),
    }
}

/// Writes the rows that name the same evidence, by the places of the first and the last.
fn put_row(pen: &mut Pen<'_>, run: &Run<'_>, first: usize, last: usize) {
    let (from, to) = (run.row(first), run.row(last));
    pen.put(&[
        Text(row_head(run, first, last)),
        Number(from.gst),
        Text("</td><td>"),
    ]);
    put_falling(pen, run, from.delta, to.delta);
    pen.text("</td><td>");
    put_falling(pen, run, from.phi, to.phi);
    pen.text("</td><td>");
    if let Some(named) = run.named.get(first) {
        put_links(pen, *named);
    }
    let rows = last.saturating_sub(first).saturating_add(1);
    pen.put(&[Text("</td><td>"), Count(rows as u64), Text("</td></tr>")]);
}

/// The calm row is in bold.
fn row_head(run: &Run, first: usize, last: usize) -> &'static str {
    let calm = run.found.calm_place;
    if first <= calm && calm <= last {
        "<tr class=\"here\"><td>"
    } else {
        "<tr><td>"
    }
}

/// Writes a bound that may fall.
fn put_falling(pen: &mut Pen<'_>, run: &Run<'_>, from: u64, to: u64) {
    pen.put(&[Ticks(from)]);
    if from != to {
        pen.text(" falling to ");
        put_again(pen, run, to);
    }
}

/// Writes a bound after another one: ticks alone have no unit then.
pub(crate) fn put_again(pen: &mut Pen<'_>, run: &Run<'_>, bound: u64) {
    pen.put(&[if run.clock.is_some() {
        Ticks(bound)
    } else {
        Count(bound)
    }]);
}

/// Writes links to the evidence that a row names.
fn put_links(pen: &mut Pen<'_>, named: Named) {
    match (named.miss, named.gap) {
        (None, None) => pen.text("none needed"),
        (Some(one), None) | (None, Some(one)) => put_link(pen, one),
        (Some(miss), Some(gap)) if miss == gap => put_link(pen, miss),
        (Some(miss), Some(gap)) => {
            put_link(pen, miss);
            pen.text(", ");
            put_link(pen, gap);
        }
    }
}

/// Writes the number of evidence, as a link if it has a card.
pub(crate) fn put_link(pen: &mut Pen<'_>, place: usize) {
    let no = place.saturating_add(1) as u64;
    if place < CARDS {
        pen.put(&[
            Text("<a href=\"#e"),
            Number(no),
            Text("\">"),
            Number(no),
            Text("</a>"),
        ]);
    } else {
        pen.put(&[Number(no)]);
    }
}

fn put_caption(pen: &mut Pen<'_>, run: &Run<'_>) {
    let (brief, all) = (run.brief.len(), run.rows.len() as u64);
    let further = brief.saturating_sub(MOST_ROWS);
    pen.text("<p class=\"cap\">");
    if further > 0 {
        pen.put(&[
            Many(further as u64, "further row"),
            Text(" are left out; the report has all "),
            Count(all),
            Text(".</p>"),
        ]);
    } else {
        pen.put(&[
            Count(brief as u64),
            Text(" of the report’s "),
            Many(all, "row"),
            Text(": those at which the evidence is another one.</p>"),
        ]);
    }
}
