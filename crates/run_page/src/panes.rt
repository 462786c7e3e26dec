//! The picture of evidence: the lanes of some ticks, with steps, messages, the silence and the miss.

ghost use Rattle.std.specs.Prelude.{◌≤◌, ◌*◌};

use crate::axes::put_axis;
use crate::message_marks::{count_in_lanes, put_messages, put_miss};
use crate::pens::Pen;
use crate::pieces::Piece::{Begin, Count, Number, Percent, Short, Text};
use crate::run_lanes::{lanes_in, paleness, put_lane_names};
use crate::runs::Run;
use crate::scales::{Span, WIDE};
use crate::scenes::{LARGE, Scene};
use crate::step_marks::put_steps;
use crate::titles::{gap_ticks, put_title};
use run_story::Stall;

/// The height of a lane, in pixels.
pub(crate) const LANE: u64 = 34;

/// How many messages a picture has, and one of later evidence.
const MOST_MESSAGES: u64 = 300;

const MOST_LATER_MESSAGES: u64 = 100;

/// Writes the picture of a scene, with its caption.
pub(crate) fn put_picture(pen: &mut Pen<'_>, scene: &Scene<'_>) {
    put_lane_names(pen, scene.run, scene.lanes, LANE);
    let left = Pane::of(scene, scene.left);
    match scene.right {
        Some(right) => put_two_plots(pen, &left, &Pane::of(scene, right)),
        None => put_plot(pen, &left),
    }
    pen.text("</div>");
    put_caption(pen, scene);
}

/// Writes two plots beside each other.
fn put_two_plots(pen: &mut Pen<'_>, left: &Pane<'_>, right: &Pane<'_>) {
    pen.text("<div class=\"two\">");
    put_plot(pen, left);
    let out = right.span.first.saturating_sub(left.span.to);
    pen.put(&[
        Text("<div class=\"cut\" aria-hidden=\"true\"><span>"),
        Short(out.saturating_sub(1)),
        Text(" left out</span></div>"),
    ]);
    put_plot(pen, right);
    pen.text("</div>");
}

/// Some ticks of a scene.
#[derive(Clone, Copy)]
pub(crate) struct Pane<'a> {
    pub scene: &'a Scene<'a>,
    pub run: &'a Run<'a>,
    pub span: Span,
    /// The number of the first step, and that of the first one after the last.
    pub first: u64,
    pub next: u64,
    /// Whether each mark has a title that says what it is.
    pub is_told: bool,
    /// How many messages are drawn.
    pub most: u64,
}

impl<'a> Pane<'a> {
    fn of(scene: &'a Scene<'a>, span: Span) -> Self {
        let most = if scene.no <= LARGE {
            MOST_MESSAGES
        } else {
            MOST_LATER_MESSAGES
        };
        Pane {
            scene,
            run: scene.run,
            span,
            first: scene.run.first_from(span.first),
            next: scene.run.first_from(span.to.saturating_add(1)),
            is_told: scene.is_told,
            most: if scene.right.is_none() {
                most
            } else {
                most / 2
            },
        }
    }

    /// The middle of a processor's lane; above all lanes if it has none.
    pub(crate) fn y(&self, proc: u64) -> u64
        ensures { result ≤ 64 * LANE }
    {
        let mut y = LANE / 2;
        for p in 1..proc.min(64) {
            if self.scene.lanes.contains(p) {
                y = y.saturating_add(LANE);
            }
        }
        y.min(64 * LANE)
    }

    pub(crate) fn has_lane(&self, proc: u64) -> bool {
        self.scene.lanes.contains(proc)
    }

    /// Whether it is one of two parts.
    fn is_part(&self) -> bool {
        self.scene.right.is_some()
    }
}

fn put_plot(pen: &mut Pen<'_>, pane: &Pane<'_>) {
    pen.text("<div class=\"plot\">");
    put_plot_head(pen, pane);
    put_lane_lines(pen, pane);
    if let Some(stall) = pane.scene.evidence.stall {
        put_gap(pen, pane, stall);
    }
    put_messages(pen, pane);
    put_steps(pen, pane);
    put_miss(pen, pane);
    pen.text("</svg>");
    if let Some(stall) = pane.scene.evidence.stall {
        put_gap_label(pen, pane, stall);
    }
    let numbers = if pane.is_part() { 3 } else { 5 };
    put_axis(pen, pane.run.clock, pane.span, numbers);
    pen.text("</div>");
}

fn put_plot_head(pen: &mut Pen<'_>, pane: &Pane<'_>) {
    let lanes = lanes_in(pane.scene.lanes);
    let is_dense = pane.next.saturating_sub(pane.first) > 45 * lanes;
    pen.put(&[
        Text(if is_dense {
            "<svg class=\"dense\""
        } else {
            "<svg"
        }),
        Text(" viewBox=\"0 0 "),
        Number(WIDE),
        Text(" "),
        Number(lanes * LANE),
        Text("\" height=\""),
        Number(lanes * LANE),
    ]);
    pen.put(&[
        Text("\" preserveAspectRatio=\"none\" role=\"img\" aria-label=\"Ticks "),
        Number(pane.span.first),
        Text(" to "),
        Number(pane.span.to),
        Text(": "),
    ]);
    put_title(pen, pane.run, pane.scene.evidence);
    pen.text("\">");
}

fn put_lane_lines(pen: &mut Pen<'_>, pane: &Pane<'_>) {
    for p in 1..65 {
        if pane.has_lane(p) {
            pen.put(&[
                Text("<path class=\"ln"),
                Text(paleness(pane.run, p)),
                Text("\" d=\"M0 "),
                Number(pane.y(p)),
                Text("H"),
                Number(WIDE),
                Text("\"/>"),
            ]);
        }
    }
}

/// Writes the silence as a band, unless it lies outside the pane.
fn put_gap(pen: &mut Pen<'_>, pane: &Pane<'_>, stall: Stall) {
    let (x, width) = band(pane, stall);
    if width == 0 {
        return;
    }
    pen.put(&[
        Text("<rect class=\"gap\" x=\""),
        Number(x),
        Text("\" y=\""),
        Number(pane.y(stall.gap.proc).saturating_sub(12)),
        Text("\" width=\""),
        Number(width),
        Text("\" height=\"24\"><title>"),
    ]);
    put_title(pen, pane.run, pane.scene.evidence);
    pen.text("</title></rect>");
}

/// Where a silence begins in a pane, and how wide it is there.
fn band(pane: &Pane, stall: Stall) -> (u64, u64) {
    let x = pane.span.edge(stall.gap.from);
    let end = pane.span.edge(stall.gap.to.saturating_add(1));
    (x, end.saturating_sub(x))
}

/// Writes the length of the silence, if the band has room for it.
fn put_gap_label(pen: &mut Pen<'_>, pane: &Pane<'_>, stall: Stall) {
    let (x, width) = band(pane, stall);
    if width < if pane.is_part() { 5_000 } else { 2_500 } {
        return;
    }
    pen.put(&[
        Text("<span class=\"inlab\" aria-hidden=\"true\" style=\"left:"),
        Percent(x.saturating_add(width / 2)),
        Text(";top:"),
        Number(pane.y(stall.gap.proc)),
        Text("px\">"),
        Short(gap_ticks(stall.gap.from, stall.gap.to)),
        Text("</span>"),
    ]);
}

/// Writes which ticks, lanes and messages a picture has.
fn put_caption(pen: &mut Pen<'_>, scene: &Scene<'_>) {
    pen.text("<p class=\"cap\">");
    put_times(pen, scene);
    put_range(pen, scene.left);
    if let Some(right) = scene.right {
        pen.text(" and ");
        put_range(pen, right);
    }
    put_some_lanes(pen, scene);
    put_left_out(pen, scene);
    pen.text("</p>");
}

/// Writes when the ticks of a picture begin, if that is known, and that its ticks come next.
fn put_times(pen: &mut Pen<'_>, scene: &Scene<'_>) {
    if scene.run.clock.is_none() {
        pen.text("Ticks ");
        return;
    }
    let (left, right) = (scene.left, scene.right);
    pen.put(&[Begin(left.first), Text(" to "), Begin(left.to)]);
    if let Some(right) = right {
        pen.put(&[
            Text(" and "),
            Begin(right.first),
            Text(" to "),
            Begin(right.to),
        ]);
    }
    pen.text(", ticks ");
}

/// Writes from which tick to which.
fn put_range(pen: &mut Pen<'_>, span: Span) {
    pen.put(&[Number(span.first), Text(" to "), Number(span.to)]);
}

/// Writes how many lanes of how many there are, if not all.
fn put_some_lanes(pen: &mut Pen<'_>, scene: &Scene<'_>) {
    let (some, all) = (lanes_in(scene.lanes), scene.run.count());
    if some < all {
        pen.put(&[
            Text("; "),
            Number(some),
            Text(" of "),
            Number(all),
            Text(" lanes, those that exchange most with the evidence"),
        ]);
    }
}

/// Writes how many messages of how many are drawn, if not all.
fn put_left_out(pen: &mut Pen<'_>, scene: &Scene<'_>) {
    let (mut all, mut drawn) = counted(scene, scene.left);
    if let Some(right) = scene.right {
        let (more, more_drawn) = counted(scene, right);
        all = all.saturating_add(more);
        drawn = drawn.saturating_add(more_drawn);
    }
    if drawn != all {
        pen.put(&[
            Text("; "),
            Count(drawn),
            Text(" of "),
            Count(all),
            Text(" messages"),
        ]);
    }
}

/// How many messages these ticks have between their lanes, and how many of them are drawn.
fn counted(scene: &Scene, span: Span) -> (u64, u64) {
    let pane = Pane::of(scene, span);
    let all = count_in_lanes(&pane);
    (all, all.min(pane.most))
}
