//! A late message in words.

use crate::headlines::was;
use crate::pens::Pen;
use crate::pieces::Piece::{Late, Many, Message, Node, Stepped, Text, Tick, Ticks};
use crate::row_table::put_link;
use crate::runs::Run;
use crate::spreads::put_miss_by_clock;
use run_story::{Delay, Stall, ended_silence};
use step_trace::Act;

/// Writes the paragraph of a late message, with the silence that explains it, if one does.
pub(crate) fn put_delay_words(
    pen: &mut Pen<'_>,
    run: &Run<'_>,
    delay: Delay,
    stall: Option<Stall>,
) {
    put_missed(pen, run, delay);
    put_fate(pen, run, delay.miss.sent);
    put_meanwhile(pen, run, delay);
    match stall {
        Some(stall) => put_quiet(pen, run, delay, stall),
        None => put_ended(pen, run, delay),
    }
    put_ruled_out(pen, run, delay);
    put_later_ones(pen, run, delay);
    put_miss_by_clock(pen, run, delay);
    pen.text("</p>");
}

/// Writes which message was missed, where and how late.
fn put_missed(pen: &mut Pen<'_>, run: &Run<'_>, delay: Delay) {
    let miss = delay.miss;
    pen.put(&[
        Text("<p>Message <b>"),
        Message(miss.sent),
        Text("</b> from <b>"),
        Node(run.proc(miss.sent)),
        Text("</b> to <b>"),
        Node(delay.to),
        Text("</b>, sent "),
        run.made(miss.sent),
    ]);
    pen.put(&[
        Text(", was not there when "),
        Node(delay.to),
        Text(" received "),
        Stepped {
            tick: run.tick(miss.missed),
            no: miss.missed,
        },
        Text(", "),
        Late(delay.ticks),
        Text(" later. "),
    ]);
}

/// Writes when a message was received, if ever.
fn put_fate(pen: &mut Pen<'_>, run: &Run<'_>, sent: u64) {
    let tick = run.tick(sent);
    match run.taker(sent) {
        Some(taker) => put_received(pen, run, tick, taker),
        None => put_never_received(pen, run, tick),
    }
}

/// Writes in which tick a message was received, by the tick in which it was sent and the Receive that took it.
fn put_received(pen: &mut Pen<'_>, run: &Run<'_>, sent: u64, taker: u64) {
    let taken = run.tick(taker);
    pen.put(&[
        Text("It was received "),
        run.made(taker),
        Text(", "),
        Ticks(taken.saturating_sub(sent)),
        Text(" after it was sent. "),
    ]);
}

/// Writes for how long a message was not received, and how many others weren't.
fn put_never_received(pen: &mut Pen<'_>, run: &Run<'_>, sent: u64) {
    pen.put(&[
        Text("It was not received to the end of the run, "),
        Ticks(run.last().saturating_sub(sent)),
        Text(" after it was sent"),
    ]);
    let others = run.counts.lost.saturating_sub(1);
    if others > 0 {
        pen.put(&[
            Text("; nor "),
            Text(was(others)),
            Text(" "),
            Many(others, "other"),
            Text(" of the "),
            Many(run.counts.all, "message"),
        ]);
    }
    pen.text(". ");
}

/// How often a processor received, and how many messages it took.
#[derive(Clone, Copy)]
struct Taken {
    receives: u64,
    messages: u64,
}

impl Taken {
    /// What the receiver of a late message did from its Send to the Receive that misses it.
    fn of(run: &Run, delay: Delay) -> Self {
        let mut taken = Taken {
            receives: 0,
            messages: 0,
        };
        let first = run.first_from(run.tick(delay.miss.sent).saturating_add(1));
        for no in first..delay.miss.missed.saturating_add(1) {
            if run.proc(no) == delay.to {
                taken.note(run, no);
            }
        }
        taken
    }

    fn note(&mut self, run: &Run, no: u64) {
        let Some(step) = run.trace.step(no) else {
            return;
        };
        if let Act::Receive { ids, .. } = &step.act {
            self.receives = self.receives.saturating_add(1);
            self.messages = self.messages.saturating_add(ids.as_slice().len() as u64);
        }
    }
}

fn put_meanwhile(pen: &mut Pen<'_>, run: &Run<'_>, delay: Delay) {
    let taken = Taken::of(run, delay);
    pen.put(&[
        Text("Until then "),
        Node(delay.to),
        Text(" had received "),
        Many(taken.receives, "time"),
        Text(" and taken "),
        Many(taken.messages, "other message"),
        Text(". "),
    ]);
}

/// Writes how much of this time the receiver was silent.
fn put_quiet(pen: &mut Pen<'_>, run: &Run<'_>, delay: Delay, stall: Stall) {
    let from = stall.gap.from.max(run.tick(delay.miss.sent));
    let to = stall.gap.to.min(run.tick(delay.miss.missed));
    pen.put(&[
        Text("For "),
        Ticks(to.saturating_sub(from.saturating_sub(1))),
        Text(" of this time "),
        Node(delay.to),
        Text(" was silent. "),
    ]);
}

/// Writes which silence ended shortly before, if one did that may have made the message late.
fn put_ended(pen: &mut Pen<'_>, run: &Run<'_>, delay: Delay) {
    let Some(place) = ended_silence(run.trace, run.evidence, delay) else {
        return;
    };
    let Some(evidence) = run.evidence.get(place) else {
        return;
    };
    if let Some(stall) = evidence.stall {
        put_end_time(
            pen,
            run.tick(delay.miss.sent),
            stall.gap.to.saturating_add(1),
        );
        pen.put(&[
            Text("the silence of "),
            Node(stall.gap.proc),
            Text(" ended (evidence "),
        ]);
        put_link(pen, place);
        pen.text("). ");
    }
}

/// Writes how long before or after a Send a silence ended, by the tick of the Send and the one after the silence.
fn put_end_time(pen: &mut Pen<'_>, sent: u64, end: u64) {
    if end < sent {
        pen.put(&[Ticks(sent - end), Text(" before it was sent, ")]);
    } else if sent < end {
        pen.put(&[Ticks(end - sent), Text(" after it was sent, ")]);
    } else {
        pen.text("As it was sent, ");
    }
}

/// Writes which bounds a late message rules out, and until when.
fn put_ruled_out(pen: &mut Pen<'_>, run: &Run<'_>, delay: Delay) {
    pen.put(&[
        Text("It rules out each Δ below "),
        Ticks(run.row(delay.first).delta),
        Text(" until "),
        Tick(run.tick(delay.miss.sent)),
        Text(". "),
    ]);
}

/// Writes how many messages like it rule out less.
fn put_later_ones(pen: &mut Pen<'_>, run: &Run<'_>, delay: Delay) {
    let more = (delay.messages as u64).saturating_sub(1);
    if more == 0 {
        return;
    }
    pen.put(&[Many(more, "later message"), Text(" ")]);
    put_likeness(pen, run, delay);
    pen.put(&[
        Text(if more == 1 { " rules" } else { " rule" }),
        Text(" out less and less, the last one <b>message "),
        Message(delay.last_message),
        Text("</b>, sent "),
        run.made(delay.last_message),
        Text("."),
    ]);
}

/// Writes what the messages of a delay have in common.
fn put_likeness(pen: &mut Pen<'_>, run: &Run<'_>, delay: Delay) {
    if run.taker(delay.miss.sent) == None {
        pen.text("that nobody received");
    } else if delay.one_receiver {
        pen.put(&[Text("to "), Node(delay.to)]);
    } else {
        pen.put(&[Text("from "), Node(run.proc(delay.miss.sent))]);
    }
}
