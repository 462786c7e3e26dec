//! Messages as lines: those of the evidence first, then of its pair, then of its nodes, then the others.

use crate::panes::{LANE, Pane};
use crate::pens::Pen;
use crate::pieces::Piece::{At, Message, Node, Number, Text, Ticks};
use crate::runs::Run;
use crate::scales::Place;
use crate::scenes::nodes_of;
use run_story::Delay;
use step_trace::Act;

/// How near messages are to the evidence, the nearest first; the message of the evidence itself is drawn apart.
const CLASSES: u64 = 3;

/// Writes the messages of a pane: those that are sent in it or received in it, between its lanes.
pub(crate) fn put_messages(pen: &mut Pen<'_>, pane: &Pane<'_>) {
    let own = match pane.scene.evidence.delay {
        Some(delay) => Some(delay.miss.sent),
        None => None,
    };
    let mut left = pane.most;
    if own.is_some() {
        left = left.saturating_sub(1);
    }
    for class in 1..CLASSES + 1 {
        put_class(pen, pane, class, left);
        left = left.saturating_sub(count_of(pane, class));
    }
    if let Some(sent) = own {
        put_way(pen, pane, sent);
    }
}

/// Writes the first messages of a class, so many.
fn put_class(pen: &mut Pen<'_>, pane: &Pane<'_>, class: u64, most: u64) {
    let mut left = most;
    for no in pane.first..pane.next {
        if left == 0 {
            return;
        }
        put_step(pen, pane, no, class, left);
        left = left.saturating_sub(count_at(pane, no, class));
    }
}

/// Writes the messages of a class that a step sends, or takes from before the pane, so many at most.
fn put_step(pen: &mut Pen<'_>, pane: &Pane<'_>, no: u64, class: u64, most: u64) {
    let Some(step) = pane.run.trace.step(no) else {
        return;
    };
    match &step.act {
        Act::Send { .. } => {
            if class_of(pane, no) == Some(class) {
                put_way(pen, pane, no);
            }
        }
        Act::Receive { ids, .. } => put_taken(pen, pane, ids.as_slice(), class, most),
    }
}

/// Writes the messages of a class among these that were sent before the pane, so many at most.
fn put_taken(pen: &mut Pen<'_>, pane: &Pane<'_>, ids: &[u64], class: u64, most: u64) {
    let mut left = most;
    for id in ids {
        if left > 0 && is_before(pane, *id, class) {
            put_way(pen, pane, *id);
            left = left.saturating_sub(1);
        }
    }
}

/// How many messages a pane has between its lanes.
pub(crate) fn count_in_lanes(pane: &Pane) -> u64 {
    let mut count = match pane.scene.evidence.delay {
        Some(_) => 1,
        None => 0,
    };
    for class in 1..CLASSES + 1 {
        count = count_of(pane, class).saturating_add(count);
    }
    count
}

fn count_of(pane: &Pane, class: u64) -> u64 {
    let mut count = 0_u64;
    for no in pane.first..pane.next {
        count = count.saturating_add(count_at(pane, no, class));
    }
    count
}

/// How many messages of a class a step sends, or takes from before the pane.
fn count_at(pane: &Pane, no: u64, class: u64) -> u64 {
    let Some(step) = pane.run.trace.step(no) else {
        return 0;
    };
    match &step.act {
        Act::Send { .. } => {
            if class_of(pane, no) == Some(class) {
                1
            } else {
                0
            }
        }
        Act::Receive { ids, .. } => count_taken(pane, ids.as_slice(), class),
    }
}

/// Whether a message is of a class, and was sent before the pane.
fn is_before(pane: &Pane, sent: u64, class: u64) -> bool {
    sent < pane.first && class_of(pane, sent) == Some(class)
}

fn count_taken(pane: &Pane, ids: &[u64], class: u64) -> u64 {
    let mut count = 0_u64;
    for id in ids {
        if is_before(pane, *id, class) {
            count = count.saturating_add(1);
        }
    }
    count
}

/// How near a message is to the evidence: 1 if it goes the same way, 2 if one of its nodes is of the evidence, else 3.
/// None if it is the evidence's own, or hasn't both lanes.
fn class_of(pane: &Pane, sent: u64) -> Option<u64> {
    let (run, evidence) = (pane.run, pane.scene.evidence);
    let (from, to) = (run.proc(sent), run.receiver(sent));
    if !pane.has_lane(from) || !pane.has_lane(to) {
        return None;
    }
    if let Some(delay) = evidence.delay {
        if delay.miss.sent == sent {
            return None;
        }
        if run.proc(delay.miss.sent) == from && delay.to == to {
            return Some(1);
        }
    }
    let hot = nodes_of(run, evidence);
    if hot.contains(from) || hot.contains(to) {
        Some(2)
    } else {
        Some(3)
    }
}

/// Writes a message, with its title if it has one.
fn put_way(pen: &mut Pen<'_>, pane: &Pane<'_>, sent: u64) {
    pen.put(&[
        Text("<path class=\""),
        Text(way_class(pane, sent)),
        Text("\" d=\""),
    ]);
    match pane.run.taker(sent) {
        Some(taker) => put_arrow(pen, pane, sent, taker, 0),
        None => put_stub(pen, pane, sent),
    }
    if pane.is_told || is_own(pane, sent) {
        pen.text("\"><title>");
        put_way_title(pen, pane.run, sent);
        pen.text("</title></path>");
    } else {
        pen.text("\"/>");
    }
}

/// How a message looks: the evidence's own, or another; received, or never.
fn way_class(pane: &Pane, sent: u64) -> &'static str {
    match (pane.run.taker(sent).is_some(), is_own(pane, sent)) {
        (true, true) => "m mw",
        (true, false) => "m",
        (false, true) => "lost mw",
        (false, false) => "lost",
    }
}

/// Whether a message is that of the evidence.
fn is_own(pane: &Pane, sent: u64) -> bool {
    match pane.scene.evidence.delay {
        Some(delay) => delay.miss.sent == sent,
        None => false,
    }
}

/// Writes a line from one step to another: a bow if both have one lane, above it, or so far below.
fn put_arrow(pen: &mut Pen<'_>, pane: &Pane<'_>, step: u64, end: u64, bow: u64) {
    let run = pane.run;
    let (from, to) = (run.proc(step), run.proc(end));
    let begin = pane.span.middle(run.tick(step));
    let end = pane.span.middle(run.tick(end));
    if from == to {
        let y = pane.y(from);
        let high = y.saturating_sub(LANE * 4 / 10).saturating_add(bow);
        put_bow(pen, begin, end, y, high);
    } else {
        pen.put(&[
            Text("M"),
            At(begin),
            Text(" "),
            Number(pane.y(from)),
            Text("L"),
            At(end),
            Text(" "),
            Number(pane.y(to)),
        ]);
    }
}

/// Writes a bow from one place to another at one height, by way of another height.
fn put_bow(pen: &mut Pen<'_>, begin: Place, end: Place, y: u64, bow: u64) {
    pen.put(&[
        Text("M"),
        At(begin),
        Text(" "),
        Number(y),
        Text("C"),
        At(begin),
        Text(" "),
        Number(bow),
        Text(" "),
    ]);
    pen.put(&[
        At(end),
        Text(" "),
        Number(bow),
        Text(" "),
        At(end),
        Text(" "),
        Number(y),
    ]);
}

/// Writes the beginning of a message that nobody takes.
fn put_stub(pen: &mut Pen<'_>, pane: &Pane<'_>, sent: u64) {
    let run = pane.run;
    let x = pane.span.middle(run.tick(sent));
    let y = pane.y(run.proc(sent));
    pen.put(&[
        Text("M"),
        At(x),
        Text(" "),
        Number(y),
        Text("L"),
        Number(x.inside() + 80),
        Text(" "),
        Number(stub_end(y, pane.y(run.receiver(sent)))),
    ]);
}

/// The height at which the beginning of a message ends: a part of the way to its receiver, or above its own lane.
fn stub_end(y: u64, y_end: u64) -> u64 {
    if y < y_end {
        y.saturating_add((y_end - y) / 4)
    } else if y_end < y {
        y.saturating_sub((y - y_end) / 4)
    } else {
        y.saturating_sub(LANE / 4)
    }
}

/// Writes the miss of the evidence, from the Send to the Receive that misses it.
pub(crate) fn put_miss(pen: &mut Pen<'_>, pane: &Pane<'_>) {
    let Some(delay) = pane.scene.evidence.delay else {
        return;
    };
    pen.text("<path class=\"miss\" d=\"");
    put_arrow(pen, pane, delay.miss.sent, delay.miss.missed, LANE * 8 / 10);
    pen.text("\"><title>");
    put_miss_title(pen, pane.run, delay);
    pen.text("</title></path>");
}

fn put_miss_title(pen: &mut Pen<'_>, run: &Run<'_>, delay: Delay) {
    let miss = delay.miss;
    pen.put(&[
        Text("message "),
        Message(miss.sent),
        Text(", sent "),
        run.made(miss.sent),
        Text(", is not there when "),
        Node(delay.to),
        Text(" receives "),
        run.made(miss.missed),
    ]);
}

/// Writes a message in words.
fn put_way_title(pen: &mut Pen<'_>, run: &Run<'_>, sent: u64) {
    let tick = run.tick(sent);
    pen.put(&[
        Text("message "),
        Message(sent),
        Text(", "),
        Node(run.proc(sent)),
        Text(" to "),
        Node(run.receiver(sent)),
        Text(": sent "),
        run.made(sent),
        Text(", "),
    ]);
    match run.taker(sent) {
        Some(taker) => put_taking(pen, run, tick, taker),
        None => pen.text("never received"),
    }
}

/// Writes in which tick a message was received, by the tick in which it was sent and the Receive that took it.
fn put_taking(pen: &mut Pen<'_>, run: &Run<'_>, sent: u64, taker: u64) {
    let taken = run.tick(taker);
    pen.put(&[
        Text("received "),
        run.made(taker),
        Text(", "),
        Ticks(taken.saturating_sub(sent)),
        Text(" later"),
    ]);
}
