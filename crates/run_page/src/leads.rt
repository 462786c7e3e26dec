//! What a page says after its first sentence: what came before the calm, who is to blame, and what is lost.

use crate::headlines::{as_correct, is_long, knows_delta, put_first_node, silent_at_end, was};
use crate::pens::Pen;
use crate::pieces::Piece::{Count, From, Late, Many, Message, Node, Silent, Text, Ticks};
use crate::row_table::put_again;
use crate::runs::{Run, members_in};
use crate::stall_words::put_stretch;
use crate::titles::gap_ticks;
use run_story::{Delay, Headline, Stall};

/// Writes the sentences after the first, each with a space at its end.
pub(crate) fn put_lead(pen: &mut Pen<'_>, run: &Run<'_>) {
    if !run.is_shown() {
        return;
    }
    put_before(pen, run, first_stall(run), first_delay(run));
    put_blame(pen, run);
    put_room(pen, run);
    put_lost(pen, run);
    put_lost_for(pen, run);
    put_under_way(pen, run);
    put_silent_to_end(pen, run);
}

/// The first silence whose bound is above the calm one.
fn first_stall(run: &Run) -> Option<Stall> {
    for evidence in run.evidence {
        let phi = run.row(evidence.first).phi;
        if evidence.stall.is_some() && is_worse(run, evidence.first, phi, run.found.calm.phi) {
            return evidence.stall;
        }
    }
    None
}

/// The first late message whose bound is above the calm one.
fn first_delay(run: &Run) -> Option<Delay> {
    for evidence in run.evidence {
        let delta = run.row(evidence.first).delta;
        if evidence.delay.is_some() && is_worse(run, evidence.first, delta, run.found.calm.delta) {
            return evidence.delay;
        }
    }
    None
}

/// Whether the row at this place, with this bound, is before the calm one, whose bound is smaller.
fn is_worse(run: &Run, place: usize, bound: u64, calm: u64) -> bool {
    place < run.found.calm_place && bound > calm
}

/// Writes who was silent before the calm, and which message was late.
fn put_before(pen: &mut Pen<'_>, run: &Run<'_>, stall: Option<Stall>, delay: Option<Delay>) {
    if stall.is_none() && delay.is_none() {
        return;
    }
    put_when(pen, run, reaches_calm(run, stall, delay));
    if let Some(stall) = stall {
        put_silent(pen, stall);
    }
    if stall.is_some() && delay.is_some() {
        pen.text(", and ");
    }
    if let Some(delay) = delay {
        put_late(pen, run, delay);
    }
    pen.text(". ");
}

/// Whether the silence or the miss ends in the tick of the calm row or later.
fn reaches_calm(run: &Run, stall: Option<Stall>, delay: Option<Delay>) -> bool {
    let calm = run.found.calm.gst;
    let is_silent = match stall {
        Some(stall) => stall.gap.to >= calm,
        None => false,
    };
    let is_missed = match delay {
        Some(delay) => run.tick(delay.miss.missed) >= calm,
        None => false,
    };
    is_silent || is_missed
}

/// Writes before which moment; or what the rest of the sentence shows, if that reaches beyond this moment.
fn put_when(pen: &mut Pen<'_>, run: &Run<'_>, reaches: bool) {
    match (run.is_calm(), reaches) {
        (true, false) => pen.text("Before that, "),
        (true, true) => pen.text("Smaller bounds are ruled out before that: "),
        (false, true) => pen.text("What rules out smaller bounds: "),
        (false, false) => pen.put(&[
            Text("Before the run’s last "),
            Ticks(run.rest_ticks()),
            Text(", "),
        ]),
    }
}

/// Writes who was silent, for how long, and when.
fn put_silent(pen: &mut Pen<'_>, stall: Stall) {
    let gap = stall.gap;
    pen.put(&[
        Text("<b>"),
        Node(gap.proc),
        Text("</b> was silent for "),
        Silent(gap_ticks(gap.from, gap.to)),
        Text(" "),
    ]);
    put_stretch(pen, gap.from, gap.to);
}

/// Writes which message was late, and by how much.
fn put_late(pen: &mut Pen<'_>, run: &Run<'_>, delay: Delay) {
    let sent = delay.miss.sent;
    pen.put(&[
        Text("message "),
        Message(sent),
        Text(" from <b>"),
        Node(run.proc(sent)),
        Text("</b> to <b>"),
        Node(delay.to),
        Text("</b> "),
    ]);
    match run.taker(sent) {
        Some(_) => pen.put(&[
            Text("was not there "),
            Late(delay.ticks),
            Text(" after it was sent"),
        ]),
        None => pen.text("was never received"),
    }
}

/// A node, and the bounds of the whole run without it.
#[derive(Clone, Copy)]
struct Blame {
    proc: u64,
    delta: u64,
    phi: u64,
}

impl Blame {
    /// The node without which the greater bound of the whole run is least.
    fn of(run: &Run) -> Self {
        let first = run.row(0);
        let mut best = Blame {
            proc: 0,
            delta: first.delta,
            phi: first.phi,
        };
        for p in 1..65 {
            if run.set.contains(p) {
                best = best.or(Blame::without(run, p));
            }
        }
        best
    }

    fn without(run: &Run, proc: u64) -> Self {
        Blame {
            proc,
            delta: run.whole.delta_without(proc),
            phi: run.whole.phi_without(proc),
        }
    }

    /// The one with the smaller bounds: by the greater bound, then by the other.
    fn or(self, other: Blame) -> Self {
        let (most, least) = (self.delta.max(self.phi), self.delta.min(self.phi));
        let (other_most, other_least) = (other.delta.max(other.phi), other.delta.min(other.phi));
        if other_most < most || other_most == most && other_least < least {
            other
        } else {
            self
        }
    }

    /// Whether the greater bound falls to a quarter.
    fn tells(self, run: &Run) -> bool {
        let first = run.row(0);
        let most = self.delta.max(self.phi);
        self.proc != 0 && run.members() > 2 && first.delta.max(first.phi) / 4 >= most
    }
}

fn put_blame(pen: &mut Pen<'_>, run: &Run<'_>) {
    let blame = Blame::of(run);
    if !blame.tells(run) {
        return;
    }
    let first = run.row(0);
    pen.put(&[
        Text("Without <b>"),
        Node(blame.proc),
        Text("</b> the whole run would keep "),
    ]);
    put_fall(pen, run, "Δ = ", blame.delta, first.delta);
    if blame.delta < first.delta && blame.phi < first.phi {
        pen.text(" and ");
    }
    put_fall(pen, run, "Φ = ", blame.phi, first.phi);
    pen.text(". ");
}

/// Writes a bound in place of a greater one; nothing if it is the same.
fn put_fall(pen: &mut Pen<'_>, run: &Run<'_>, name: &'static str, bound: u64, before: u64) {
    if bound < before {
        pen.put(&[Text(name), Ticks(bound), Text(" in place of ")]);
        put_again(pen, run, before);
    }
}

/// Writes for how often the rest of a calm run has room for its bounds; for Δ only if something is known of it.
fn put_room(pen: &mut Pen<'_>, run: &Run<'_>) {
    if !run.is_calm() {
        return;
    }
    let (found, rest) = (run.found, run.rest_ticks());
    pen.put(&[
        Text(if found.calm_place == 0 {
            "The run"
        } else {
            "What follows"
        }),
        Text(" lasts "),
        Ticks(rest),
        Text(", which has room for "),
    ]);
    if knows_delta(run) {
        put_times(pen, "Δ ", rest, found.calm.delta);
        pen.text(" and for ");
    }
    put_times(pen, "Φ ", rest, found.calm.phi);
    pen.text(". ");
}

/// Writes how often so many ticks have room for a bound.
fn put_times(pen: &mut Pen<'_>, name: &'static str, ticks: u64, bound: u64) {
    pen.put(&[Text(name), Many(ticks / bound.max(1), "time")]);
}

/// Writes how many messages are lost, if the headline doesn't say it.
fn put_lost(pen: &mut Pen<'_>, run: &Run<'_>) {
    let counts = run.counts;
    if counts.lost == 0 || is_lost_in_headline(run) {
        return;
    }
    pen.put(&[
        Count(counts.lost),
        Text(" of "),
        Many(counts.all, "message"),
        Text(" between the nodes"),
        Text(as_correct(run)),
        Text(" "),
        Text(was(counts.lost)),
        Text(" never received"),
    ]);
    put_lost_in_calm(pen, run);
    pen.text(". ");
}

/// Writes how many of the lost messages the calm has, if it has any and isn't the whole run.
fn put_lost_in_calm(pen: &mut Pen<'_>, run: &Run<'_>) {
    if run.is_calm() && run.found.calm_place > 0 && run.fates.lost > 0 {
        pen.text(", ");
        if run.counts.lost > 1 {
            put_lost_among(pen, run);
        }
        pen.put(&[Text("sent from "), From(run.found.calm.gst), Text(" on")]);
    }
}

/// Writes how many of several lost messages the calm has.
fn put_lost_among(pen: &mut Pen<'_>, run: &Run<'_>) {
    if run.fates.lost == run.counts.lost {
        pen.text("all of them ");
    } else {
        pen.put(&[Count(run.fates.lost), Text(" of them ")]);
    }
}

/// Whether the headline says how many messages are lost.
fn is_lost_in_headline(run: &Run) -> bool {
    run.found.headline == Some(Headline::NeverReceived)
}

/// Writes who most lost messages were for, if these are few.
fn put_lost_for(pen: &mut Pen<'_>, run: &Run<'_>) {
    if run.lost.who.len() == 0 {
        return;
    }
    pen.put(&[
        Count(run.lost.lost),
        Text(if is_lost_in_headline(run) {
            " of those never received were for "
        } else {
            " of those were for "
        }),
    ]);
    for k in 0..run.lost.who.len() {
        let comma = if k == 0 { "" } else { ", " };
        let to = run.lost.who[k];
        pen.put(&[Text(comma), Text("<b>"), Node(to), Text("</b>")]);
    }
    pen.text(". ");
}

/// Writes how many messages nobody could miss: they were sent too late, or their receivers never receive.
fn put_under_way(pen: &mut Pen<'_>, run: &Run<'_>) {
    let deaf = run.fates.to_deaf;
    let late = run.counts.under_way.saturating_sub(deaf);
    if late > 0 {
        put_sent(pen, late);
        pen.put(&[
            Text("after "),
            Text(if late == 1 { "its" } else { "their" }),
            Text(" receiver’s last receive. "),
        ]);
    }
    if deaf > 0 {
        put_sent(pen, deaf);
        pen.text(if members_in(run.fates.deaf) == 1 {
            "to a node that never received. "
        } else {
            "to nodes that never received. "
        });
    }
}

/// Writes that so many messages were sent.
fn put_sent(pen: &mut Pen<'_>, count: u64) {
    pen.put(&[
        Many(count, "message"),
        Text(" "),
        Text(was(count)),
        Text(" sent "),
    ]);
}

/// Writes who takes no step in a last part of the run that is longer than the calm bound and a twentieth of the run.
fn put_silent_to_end(pen: &mut Pen<'_>, run: &Run<'_>) {
    let mut count = 0_u64;
    for p in 1..65 {
        if is_silent_to_end(run, p) {
            pen.text(if count == 0 { "<b>" } else { ", <b>" });
            put_silent_node(pen, run, p, count);
            pen.text("</b>");
            count = count.saturating_add(1);
        }
    }
    if count > 0 {
        pen.put(&[
            Text(if count == 1 { " is" } else { " are" }),
            Text(
                " silent to the end: there Φ tells how long was watched, not how long the silence lasts. ",
            ),
        ]);
    }
}

/// Writes a node, by how many there were before.
fn put_silent_node(pen: &mut Pen<'_>, run: &Run<'_>, proc: u64, before: u64) {
    if before == 0 {
        put_first_node(pen, run, proc);
    } else {
        pen.put(&[Node(proc)]);
    }
}

fn is_silent_to_end(run: &Run, proc: u64) -> bool {
    if !run.set.contains(proc) || is_in_headline(run, proc) {
        return false;
    }
    let silent = silent_at_end(run, proc);
    silent >= run.found.calm.phi && is_long(run, silent)
}

/// Whether the headline says for how long this processor is silent to the end.
fn is_in_headline(run: &Run, proc: u64) -> bool {
    match run.found.headline {
        Some(Headline::SilentToEnd { proc: silent, .. }) => silent == proc,
        _ => false,
    }
}
