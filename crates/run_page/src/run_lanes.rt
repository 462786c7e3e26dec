//! When each node steps, over the whole run: a lane for each, with strokes and with the silences of the evidence.

ghost use Rattle.std.specs.Prelude.{◌≤◌};

use crate::axes::put_axis;
use crate::pens::Pen;
use crate::pieces::Piece::{Label, Node, Number, Text};
use crate::runs::Run;
use crate::scales::WIDE;
use crate::stairs::whole;
use crate::titles::put_title;
use picture_marks::{COLUMNS, Stroke};
use run_story::{Evidence, Stall};
use step_trace::ProcSet;

/// With more nodes than this only some lanes are shown at first.
const FEW_NODES: u64 = 16;

/// How many lanes are shown then, and how high they are, in pixels.
const SOME_LANES: u64 = 10;

const HIGH: u64 = 18;

const LOW: u64 = 10;

/// How much evidence is marked in lanes, and how often in one of them.
const MARKED: usize = 40;

const BANDS: u64 = 12;

/// Writes the lanes of all nodes; or those of the first evidence, and then all if the reader asks for them.
pub(crate) fn put_all_lanes(pen: &mut Pen<'_>, run: &Run<'_>) {
    let count = run.count();
    let all = ProcSet::all_to(count);
    if count <= FEW_NODES {
        put_lanes(pen, run, all, HIGH);
        return;
    }
    put_lanes(pen, run, nodes_of_evidence(run), HIGH);
    pen.put(&[
        Text("<details><summary>All "),
        Number(count),
        Text(" lanes</summary>"),
    ]);
    put_lanes(pen, run, all, LOW);
    pen.text("</details>");
}

/// The nodes of the first evidence, so many at most; the first ones if there is no evidence.
fn nodes_of_evidence(run: &Run) -> ProcSet {
    let mut nodes = ProcSet::empty();
    let mut count = 0;
    for evidence in run.evidence {
        for p in nodes_in(run, evidence) {
            if count < SOME_LANES && 1 <= p && p <= 64 && !nodes.contains(p) {
                nodes = nodes.with(p);
                count += 1;
            }
        }
    }
    if count == 0 {
        ProcSet::all_to(8)
    } else {
        nodes
    }
}

/// The processors of evidence; 0 in place of each that there isn't.
fn nodes_in(run: &Run, evidence: &Evidence) -> [u64; 3] {
    let silent = match evidence.stall {
        Some(stall) => stall.gap.proc,
        None => 0,
    };
    match evidence.delay {
        Some(delay) => [silent, run.proc(delay.miss.sent), delay.to],
        None => [silent, 0, 0],
    }
}

/// Writes lanes of this height, with their names.
fn put_lanes(pen: &mut Pen<'_>, run: &Run<'_>, shown: ProcSet, high: u64) {
    put_lane_names(pen, run, shown, high);
    pen.text("<div class=\"plot\">");
    put_strokes(pen, run, shown, high);
    put_axis(pen, run.clock, whole(run), 7);
    pen.text("</div></div>");
}

/// Writes the beginning of a picture, with the names at the left of its lanes.
pub(crate) fn put_lane_names(pen: &mut Pen<'_>, run: &Run<'_>, shown: ProcSet, high: u64) {
    pen.text("<div class=\"pic\"><div class=\"nms\" aria-hidden=\"true\">");
    for p in 1..65 {
        if shown.contains(p) {
            put_lane_name(pen, run, p, high);
        }
    }
    pen.text("</div>");
}

fn put_lane_name(pen: &mut Pen<'_>, run: &Run<'_>, proc: u64, high: u64) {
    pen.put(&[
        Text("<div class=\"nm"),
        Text(paleness(run, proc)),
        Text("\" style=\"height:"),
        Number(high),
        Text("px;font-size:"),
        Number(high.min(13)),
        Text("px\" title=\""),
        Node(proc),
        Text("\"><span>"),
        Label(proc),
        Text("</span></div>"),
    ]);
}

/// The class of what belongs to a processor that is no member.
pub(crate) fn paleness(run: &Run, proc: u64) -> &'static str {
    if run.set.contains(proc) { "" } else { " pale" }
}

/// Writes the picture of the lanes.
fn put_strokes(pen: &mut Pen<'_>, run: &Run<'_>, shown: ProcSet, high: u64) {
    let height = lanes_in(shown) * high.min(100);
    pen.put(&[
        Text("<svg viewBox=\"0 0 "),
        Number(WIDE),
        Text(" "),
        Number(height),
        Text("\" height=\""),
        Number(height),
        Text(
            "\" preserveAspectRatio=\"none\" role=\"img\" aria-label=\"When each node took steps, over the whole run; silences that are evidence are marked.\">",
        ),
    ]);
    let mut y = 0_u64;
    for p in 1..65 {
        if shown.contains(p) {
            put_bands(pen, run, p, y, high);
            put_strip(pen, run, p, y.saturating_add(high / 2), high / 2);
            y = y.saturating_add(high);
        }
    }
    pen.text("</svg>");
}

/// How many lanes there are.
pub(crate) fn lanes_in(shown: ProcSet) -> u64
    ensures { result ≤ 64 }
{
    let mut count = 0_u64;
    for p in 1..65 {
        if shown.contains(p) {
            count = count.saturating_add(1);
        }
    }
    count.min(64)
}

/// Writes the silences of the evidence in a lane whose top is at this height.
fn put_bands(pen: &mut Pen<'_>, run: &Run<'_>, proc: u64, y: u64, high: u64) {
    let mut count = 0_u64;
    for place in 0..run.evidence.len().min(MARKED) {
        if let Some(stall) = stall_of(run, place, proc) {
            if count < BANDS {
                put_band(pen, run, stall, y.saturating_add(1), high.saturating_sub(2));
                put_band_title(pen, run, place);
                count = count.saturating_add(1);
            }
        }
    }
}

/// The silence that the evidence at this place is, if it is one of this processor.
fn stall_of(run: &Run, place: usize, proc: u64) -> Option<Stall> {
    let stall = run.evidence.get(place)?.stall?;
    if stall.gap.proc == proc {
        Some(stall)
    } else {
        None
    }
}

fn put_band(pen: &mut Pen<'_>, run: &Run<'_>, stall: Stall, y: u64, height: u64) {
    let x = whole(run).edge(stall.gap.from);
    let end = whole(run).edge(stall.gap.to.saturating_add(1));
    pen.put(&[
        Text("<rect class=\"gap\" x=\""),
        Number(x),
        Text("\" y=\""),
        Number(y),
        Text("\" width=\""),
        Number(end.saturating_sub(x).max(15)),
        Text("\" height=\""),
        Number(height),
        Text("\"><title>"),
    ]);
}

fn put_band_title(pen: &mut Pen<'_>, run: &Run<'_>, place: usize) {
    if let Some(evidence) = run.evidence.get(place) {
        put_title(pen, run, evidence);
    }
    pen.put(&[
        Text(" (evidence "),
        Number(place.saturating_add(1) as u64),
        Text(")</title></rect>"),
    ]);
}

/// Writes the steps in a lane: a stroke over each run of columns in which there is one.
fn put_strip(pen: &mut Pen<'_>, run: &Run<'_>, proc: u64, y: u64, thick: u64) {
    pen.put(&[
        Text("<path class=\"act"),
        Text(paleness(run, proc)),
        Text("\" stroke-width=\""),
        Number(thick),
        Text("\" d=\""),
    ]);
    put_steps(pen, run, proc, y);
    pen.text("\"/>");
}

/// Writes the strokes of a processor.
fn put_steps(pen: &mut Pen<'_>, run: &Run<'_>, proc: u64, y: u64) {
    let mut from = 0;
    for _ in 0..COLUMNS {
        let Some(stroke) = run.strokes.stroke_from(proc, from) else {
            return;
        };
        put_stroke(pen, stroke, y);
        from = stroke.end;
    }
}

fn put_stroke(pen: &mut Pen<'_>, stroke: Stroke, y: u64) {
    let (first, end) = (stroke.first.min(COLUMNS), stroke.end.min(COLUMNS));
    pen.put(&[
        Text("M"),
        Number(first * 10),
        Text(" "),
        Number(y),
        Text("h"),
        Number(end.saturating_sub(first) * 10),
    ]);
}
