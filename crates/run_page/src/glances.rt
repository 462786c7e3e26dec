//! The run at a glance: both bounds, numbered places of the evidence, and when each node steps.

ghost use Rattle.std.specs.Prelude.{◌≤◌};

use crate::pens::Pen;
use crate::pieces::Piece::{Number, Percent, Text};
use crate::run_lanes::put_all_lanes;
use crate::runs::Run;
use crate::stairs::{HEIGHT, Heights, put_calm_label, put_numbers, put_stairs, put_tops, whole};
use crate::titles::put_title;
use run_story::Evidence;

/// How many places of evidence are numbered, and how many if all is late.
const PINS: usize = 12;

const LATE_PINS: usize = 3;

/// Writes the first section of a page.
pub(crate) fn put_glance(pen: &mut Pen<'_>, run: &Run<'_>) {
    let heights = Heights::of(run);
    put_glance_key(pen, run, heights);
    pen.put(&[
        Text("<div class=\"pic\"><div class=\"nms ys\" style=\"height:"),
        Number(HEIGHT),
        Text("px\" aria-hidden=\"true\">"),
    ]);
    put_numbers(pen, heights);
    pen.text("</div><div class=\"plot\">");
    put_pins(pen, run);
    put_stairs(pen, run, heights);
    put_tops(pen, run, heights);
    put_calm_label(pen, run);
    pen.text("</div></div>");
    put_all_lanes(pen, run);
    pen.text("</section>");
}

fn put_glance_key(pen: &mut Pen<'_>, run: &Run<'_>, heights: Heights) {
    pen.put(&[
        Text(
            "<section aria-labelledby=\"h-run\"><h2 id=\"h-run\">The run at a glance</h2><p class=\"key\"><span class=\"k dlk\"></span><b class=\"dl\">Δ</b> how late a message may be <span class=\"k phik\"></span><b class=\"phi\">Φ</b> how long a node may take no step: the least that hold from each tick to the end",
        ),
        Text(if heights.is_log() {
            ", on a log scale"
        } else {
            ""
        }),
        Text(if run.clock.is_none() {
            ", in ticks"
        } else {
            ""
        }),
        Text("</p>"),
    ]);
}

/// Writes links from the places of the first evidence to its cards.
fn put_pins(pen: &mut Pen<'_>, run: &Run<'_>) {
    pen.text("<nav class=\"pins\" aria-label=\"Evidence\">");
    for place in 0..run.evidence.len().min(PINS) {
        if is_pinned(run, place) {
            put_pin(pen, run, place);
        }
    }
    pen.text("</nav>");
}

/// Whether the evidence at this place is numbered: it isn't late, or all is and it is one of the first; and it isn't
/// too near to evidence before it.
fn is_pinned(run: &Run, place: usize) -> bool {
    let (Some(first), Some(evidence)) = (run.evidence.first(), run.evidence.get(place)) else {
        return false;
    };
    if run.is_late(evidence) && !(run.is_late(first) && place < LATE_PINS) {
        return false;
    }
    let x = pin_x(run, evidence);
    for earlier in &run.evidence[..place.min(run.evidence.len())] {
        let other = pin_x(run, earlier);
        if x.max(other) - x.min(other) < 240 {
            return false;
        }
    }
    true
}

/// Where evidence begins.
fn pin_x(run: &Run, evidence: &Evidence) -> u64
    ensures { result ≤ 9_860 }
{
    let tick = match (evidence.stall, evidence.delay) {
        (Some(stall), _) => stall.gap.from,
        (None, Some(delay)) => run.tick(delay.miss.sent),
        (None, None) => 1,
    };
    whole(run).edge(tick).min(9_860)
}

fn put_pin(pen: &mut Pen<'_>, run: &Run<'_>, place: usize) {
    let Some(evidence) = run.evidence.get(place) else {
        return;
    };
    let no = place.saturating_add(1) as u64;
    pen.put(&[
        Text("<a class=\"pin\" href=\"#e"),
        Number(no),
        Text("\" style=\"left:"),
        Percent(pin_x(run, evidence)),
        Text("\" title=\""),
    ]);
    put_title(pen, run, evidence);
    pen.put(&[Text("\">"), Number(no), Text("</a>")]);
}
