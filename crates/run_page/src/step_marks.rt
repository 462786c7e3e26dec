//! Steps as marks: those of one kind that are near in one lane are one mark.

use crate::panes::Pane;
use crate::pens::Pen;
use crate::pieces::Piece::{At, Begin, Message, Node, Number, Step, Text};
use crate::runs::Run;
use crate::stall_words::put_received;
use step_trace::Act;

/// Marks of one kind that are nearer than this are one.
const NEAR: u64 = 37;

/// What a step does.
#[derive(Clone, Copy, PartialEq, Eq)]
enum Kind {
    Send,
    Receive,
    ReceiveNothing,
}

fn kind_of(run: &Run, no: u64) -> Option<Kind> {
    match &run.trace.step(no)?.act {
        Act::Send { .. } => Some(Kind::Send),
        Act::Receive { ids, .. } => {
            if ids.as_slice().len() == 0 {
                Some(Kind::ReceiveNothing)
            } else {
                Some(Kind::Receive)
            }
        }
    }
}

/// Writes all steps of a pane.
pub(crate) fn put_steps(pen: &mut Pen<'_>, pane: &Pane<'_>) {
    if let Some(delay) = pane.scene.evidence.delay {
        put_ring(pen, pane, delay.miss.sent);
        put_ring(pen, pane, delay.miss.missed);
    }
    put_path(pen, pane, Kind::ReceiveNothing, "<path class=\"rq\" d=\"");
    put_marks(pen, pane, Kind::ReceiveNothing, "<path class=\"re\" d=\"");
    put_marks(pen, pane, Kind::Receive, "<path class=\"rf\" d=\"");
    put_marks(pen, pane, Kind::Send, "<path class=\"se\" d=\"");
}

/// Writes the marks of one kind, with these looks: each with its words, or all as one path.
fn put_marks(pen: &mut Pen<'_>, pane: &Pane<'_>, kind: Kind, path: &'static str) {
    if pane.is_told {
        put_told_marks(pen, pane, kind, path);
    } else {
        put_path(pen, pane, kind, path);
    }
}

fn put_path(pen: &mut Pen<'_>, pane: &Pane<'_>, kind: Kind, path: &'static str) {
    pen.text(path);
    let mut last = [0; 65];
    for no in pane.first..pane.next {
        if is_marked(pane, no, kind, &mut last) {
            put_spot(pen, pane, no);
        }
    }
    pen.text("\"/>");
}

fn put_told_marks(pen: &mut Pen<'_>, pane: &Pane<'_>, kind: Kind, path: &'static str) {
    let mut last = [0; 65];
    for no in pane.first..pane.next {
        if is_marked(pane, no, kind, &mut last) {
            put_told(pen, pane, no, path);
        }
    }
}

/// Writes a mark with its words.
fn put_told(pen: &mut Pen<'_>, pane: &Pane<'_>, no: u64, path: &'static str) {
    pen.text(path);
    put_spot(pen, pane, no);
    pen.text("\"><title>");
    put_step_title(pen, pane.run, no);
    pen.text("</title></path>");
}

/// Whether a step has a mark of this kind: it is of the kind, has a lane, and isn't too near to the last mark there.
/// Then it is the last: for each lane `last` has one more than the place of that mark.
fn is_marked(pane: &Pane, no: u64, kind: Kind, last: &mut [u64; 65]) -> bool {
    let proc = pane.run.proc(no);
    if !pane.has_lane(proc) || proc > 64 || kind_of(pane.run, no) != Some(kind) {
        return false;
    }
    let x = pane.span.middle(pane.run.tick(no)).inside();
    let before = last[proc as usize];
    if before > 0 && x < before.saturating_add(NEAR) {
        return false;
    }
    last[proc as usize] = x.saturating_add(1);
    true
}

/// Writes a dot at the place of a step.
fn put_spot(pen: &mut Pen<'_>, pane: &Pane<'_>, no: u64) {
    pen.put(&[
        Text("M"),
        At(pane.span.middle(pane.run.tick(no))),
        Text(" "),
        Number(pane.y(pane.run.proc(no))),
        Text("h1"),
    ]);
}

/// Writes a ring around a step of a miss.
fn put_ring(pen: &mut Pen<'_>, pane: &Pane<'_>, no: u64) {
    if pane.span.shows(pane.run.tick(no)) {
        put_told(pen, pane, no, "<path class=\"ring\" d=\"");
    }
}

/// Writes a step in words.
fn put_step_title(pen: &mut Pen<'_>, run: &Run<'_>, no: u64) {
    let Some(step) = run.trace.step(no) else {
        return;
    };
    match &step.act {
        Act::Send { to } => pen.put(&[
            Node(step.proc),
            Text(" sends message "),
            Message(no),
            Text(" to "),
            Node(*to),
        ]),
        Act::Receive { ids, .. } => {
            pen.put(&[Node(step.proc), Text(" receives ")]);
            put_received(pen, ids.as_slice());
        }
    }
    pen.put(&[Text(" ("), Step(no), Text(", tick "), Number(run.tick(no))]);
    if run.clock.is_some() {
        pen.put(&[Text(", "), Begin(run.tick(no))]);
    }
    pen.text(")");
}
