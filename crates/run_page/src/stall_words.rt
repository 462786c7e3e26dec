//! A silence in words.

use crate::pens::Pen;
use crate::pieces::Piece::{In, Message, Node, Number, Silent, Step, Text, Tick, Ticks};
use crate::runs::Run;
use crate::spreads::put_silence_by_clock;
use crate::tick_steps::step_in;
use crate::titles::gap_ticks;
use run_story::Stall;
use step_trace::Act;

/// Writes the paragraph of a silence.
pub(crate) fn put_stall_words(pen: &mut Pen<'_>, run: &Run<'_>, stall: Stall) {
    let gap = stall.gap;
    pen.put(&[Text("<p><b>"), Node(gap.proc), Text("</b> took no step ")]);
    put_stretch(pen, gap.from, gap.to);
    pen.put(&[Text(": "), Silent(gap_ticks(gap.from, gap.to)), Text(". ")]);
    put_just_before(pen, run, stall);
    put_just_after(pen, run, stall);
    put_ruled_out(pen, run, stall);
    put_silence_by_clock(pen, run, stall);
    pen.text("</p>");
}

/// Writes from which tick to which.
pub(crate) fn put_stretch(pen: &mut Pen<'_>, from: u64, to: u64) {
    if from == to {
        pen.put(&[In(from)]);
    } else {
        pen.put(&[Text("from "), Tick(from), Text(" to "), Tick(to)]);
    }
}

/// The step of the silent processor right before its silence, in the tick before.
fn step_before(run: &Run, stall: Stall) -> Option<u64> {
    step_in(run.trace, stall.gap.proc, stall.gap.from.checked_sub(1)?)
}

/// Its step right after it, in the tick after.
fn step_after(run: &Run, stall: Stall) -> Option<u64> {
    step_in(run.trace, stall.gap.proc, stall.gap.to.checked_add(1)?)
}

fn put_just_before(pen: &mut Pen<'_>, run: &Run<'_>, stall: Stall) {
    match step_before(run, stall) {
        Some(no) => {
            pen.text("Just before, ");
            put_deed(pen, run, no);
            pen.text("; ");
        }
        None => pen.text("It had made no step before; "),
    }
}

fn put_just_after(pen: &mut Pen<'_>, run: &Run<'_>, stall: Stall) {
    match step_after(run, stall) {
        Some(no) => {
            pen.text("just after, ");
            put_deed(pen, run, no);
            pen.text(". ");
        }
        None => pen.text(
            "no step came after: how long the silence would have lasted the run does not tell. ",
        ),
    }
}

/// Writes what a processor did in a step.
fn put_deed(pen: &mut Pen<'_>, run: &Run<'_>, no: u64) {
    let Some(step) = run.trace.step(no) else {
        return;
    };
    match &step.act {
        Act::Send { to } => pen.put(&[
            Text("it sent message "),
            Message(no),
            Text(" to "),
            Node(*to),
        ]),
        Act::Receive { ids, .. } => {
            pen.text("it received ");
            put_received(pen, ids.as_slice());
        }
    }
    pen.put(&[Text(" ("), Step(no), Text(")")]);
}

/// How many messages of a Receive are named.
const NAMED_IDS: usize = 6;

/// Writes what a Receive takes: the first messages, and how many more there are.
pub(crate) fn put_received(pen: &mut Pen<'_>, ids: &[u64]) {
    let count = ids.len();
    pen.text(match count {
        0 => "nothing",
        1 => "message",
        _ => "messages",
    });
    for id in &ids[..count.min(NAMED_IDS)] {
        pen.put(&[Text(" "), Message(*id)]);
    }
    if count > NAMED_IDS {
        let more = count - NAMED_IDS;
        pen.put(&[Text(" and "), Number(more as u64), Text(" more")]);
    }
}

/// Writes which bounds a silence rules out, and until when.
fn put_ruled_out(pen: &mut Pen<'_>, run: &Run<'_>, stall: Stall) {
    pen.put(&[
        Text("It rules out each Φ below "),
        Ticks(run.row(stall.first).phi),
        Text(" until "),
        Tick(stall.gap.from),
    ]);
    match run.rows.get(stall.last.saturating_add(1)) {
        Some(next) => pen.put(&[
            Text(", then less and less until "),
            Tick(next.gst),
            Text(", where Φ falls to "),
            Ticks(next.phi),
            Text("."),
        ]),
        None if stall.first == stall.last => pen.text("."),
        None => pen.text(", then less and less."),
    }
}
