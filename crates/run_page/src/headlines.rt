//! The first sentence of a page.

use crate::pens::Pen;
use crate::pieces::Piece;
use crate::pieces::Piece::{Count, From, In, Late, Many, Node, Number, Silent, Text, Tick, Ticks};
use crate::runs::Run;
use run_story::Headline;

/// Writes the headline of a run.
pub(crate) fn put_headline(pen: &mut Pen<'_>, run: &Run<'_>) {
    match run.found.headline {
        Some(headline) => put_case(pen, run, headline),
        None => pen.text("The trace has no tick: there is nothing to say."),
    }
}

fn put_case(pen: &mut Pen<'_>, run: &Run<'_>, headline: Headline) {
    match headline {
        Headline::NoMember => {
            pen.text("No processor was named correct, so every bound holds.");
        }
        Headline::NoStep => pen.text("No processor took a step in this run."),
        Headline::Calm { sent } => put_calm(pen, run, sent),
        Headline::Short { delta, phi } => put_too_short(pen, run, delta, phi),
        Headline::SilentToEnd { proc, since } => put_silent_to_end(pen, run, proc, since),
        Headline::NeverReceived => put_never_received(pen, run),
        Headline::Silence { ticks } => put_never_calm(pen, run, "a silence of ", Silent(ticks)),
        Headline::Late { ticks } => {
            put_never_calm(pen, run, "a message missed after ", Late(ticks));
        }
    }
}

/// Writes from when on which bounds hold.
fn put_calm(pen: &mut Pen<'_>, run: &Run<'_>, sent: bool) {
    let found = run.found;
    if found.calm_place == 0 {
        pen.text("All through the run ");
    } else {
        pen.put(&[Text("From "), From(found.calm.gst), Text(" on ")]);
    }
    put_arrived(pen, run, sent);
    pen.text(" and ");
    match silent_in_calm(run) {
        Some(proc) => put_last_step(pen, run, proc),
        None => put_stepped(pen, run),
    }
    pen.text(".");
}

/// Writes how often every node of a calm run steps.
fn put_stepped(pen: &mut Pen<'_>, run: &Run<'_>) {
    let phi = run.found.calm.phi;
    pen.put(&[
        Text("every node"),
        Text(as_correct(run)),
        Text(" stepped at least every "),
        Text(about(run, phi)),
        Silent(phi),
    ]);
}

/// Writes when a node makes its last step, within a sentence.
fn put_last_step(pen: &mut Pen<'_>, run: &Run<'_>, proc: u64) {
    pen.put(&[Text("<b>"), Node(proc), Text("</b> took no step ")]);
    put_after(pen, run.scan.last_tick_of(proc));
}

/// Writes after which tick something never happens; 0 is none.
fn put_after(pen: &mut Pen<'_>, tick: u64) {
    if tick == 0 {
        pen.text("in the whole run");
    } else {
        pen.put(&[Text("after "), Tick(tick)]);
    }
}

/// The node of the calm row's gap, if its silence lasts to the end of the run. Then nobody knows how often it steps.
/// A short silence in which a run ends by chance doesn't count, unless the calm has no step of the node at all.
fn silent_in_calm(run: &Run) -> Option<u64> {
    let calm = run.found.calm;
    let gap = calm.gap?;
    if gap.to != run.last() {
        return None;
    }
    let is_none_in_calm = run.scan.last_tick_of(gap.proc) < calm.gst;
    if is_none_in_calm || is_long(run, silent_at_end(run, gap.proc)) {
        Some(gap.proc)
    } else {
        None
    }
}

/// How many ticks there are after a node's last step.
pub(crate) fn silent_at_end(run: &Run, proc: u64) -> u64 {
    run.last().saturating_sub(run.scan.last_tick_of(proc))
}

/// Whether a silence at the end is more than a tick and more than a twentieth of the run.
pub(crate) fn is_long(run: &Run, silent: u64) -> bool {
    silent > 1 && silent > run.last() / 20
}

/// What limits `nodes` to those that the bounds are of: nothing, if these are all.
pub(crate) fn as_correct(run: &Run) -> &'static str {
    if run.has_all() {
        ""
    } else {
        " taken as correct"
    }
}

/// Of a bound of so few ticks, told as time, a tick is more than a tenth.
const FEW_TICKS: u64 = 10;

/// `about ` before a bound as time if its last tick counts much.
fn about(run: &Run, bound: u64) -> &'static str {
    if run.clock.is_some() && bound < FEW_TICKS {
        "about "
    } else {
        ""
    }
}

/// Whether a message of a calm run says anything about Δ: a Receive takes it, or could have missed it.
pub(crate) fn knows_delta(run: &Run) -> bool {
    run.fates.is_tested
}

/// Writes about the messages of a calm run, by their bound, and by whether there is one.
fn put_arrived(pen: &mut Pen<'_>, run: &Run<'_>, sent: bool) {
    let delta = run.found.calm.delta;
    if !sent {
        pen.put(&[
            Text("no message was sent between the nodes"),
            Text(as_correct(run)),
        ]);
    } else if delta == 1 {
        put_at_once(pen, run);
    } else {
        pen.put(&[
            Text("every message "),
            Text(if run.fates.lost > 0 {
                "that was received "
            } else {
                ""
            }),
            Text("arrived within "),
            Text(about(run, delta)),
            Late(delta),
        ]);
    }
}

/// Writes about the messages of a calm run in which no Receive misses one. That says nothing if none could.
fn put_at_once(pen: &mut Pen<'_>, run: &Run<'_>) {
    if run.fates.is_tested {
        pen.text("each message was received at the receiver’s next look");
    } else if received_none(run) {
        pen.put(&[
            Text("no node"),
            Text(as_correct(run)),
            Text(" received anything, so nothing is known of Δ,"),
        ]);
    } else {
        pen.text("no message could be missed, so nothing is known of Δ,");
    }
}

/// Whether no member takes a message in the tick of the calm row or later.
fn received_none(run: &Run) -> bool {
    let mut none = true;
    for p in 1..65 {
        if run.set.contains(p) && run.scan.last_full_of(p) >= run.found.calm.gst {
            none = false;
        }
    }
    none
}

/// Writes the bounds of a run that is too short to say more.
fn put_too_short(pen: &mut Pen<'_>, run: &Run<'_>, delta: u64, phi: u64) {
    pen.put(&[
        Text("The run is too short to tell much: from "),
        Tick(1),
        Text(" on Δ = "),
        Late(delta),
        Text(" and Φ = "),
        Silent(phi),
        Text(", in a run of "),
        Ticks(run.last()),
        Text("."),
    ]);
}

/// Writes who is silent to the end of the run, and since which step, if it makes one.
fn put_silent_to_end(pen: &mut Pen<'_>, run: &Run<'_>, proc: u64, since: Option<u64>) {
    let after = match since {
        Some(no) => run.tick(no),
        None => 0,
    };
    pen.text("<b>");
    put_first_node(pen, run, proc);
    pen.text("</b> took no step ");
    put_after(pen, after);
    pen.put(&[
        Text(if after == 0 {
            ""
        } else {
            ", to the end of the run"
        }),
        Text(": "),
        Silent(run.last().saturating_sub(after)),
        Text(" of silence."),
    ]);
}

/// Writes a node at the beginning of a sentence: one without a name gets a capital letter there.
pub(crate) fn put_first_node(pen: &mut Pen<'_>, run: &Run<'_>, proc: u64) {
    if has_name(run, proc) {
        pen.put(&[Node(proc)]);
    } else {
        pen.put(&[Text("Processor "), Number(proc)]);
    }
}

fn has_name(run: &Run, proc: u64) -> bool {
    let Some(place) = proc.checked_sub(1) else {
        return false;
    };
    match run.names.get(place as usize) {
        Some(name) => name.len() > 0,
        None => false,
    }
}

/// Writes how many messages are lost.
fn put_never_received(pen: &mut Pen<'_>, run: &Run<'_>) {
    let counts = run.counts;
    pen.put(&[
        Text("The run never calms down: <b class=\"dl\">"),
        Count(counts.lost),
        Text(" of "),
        Many(counts.all, "message"),
        Text("</b> "),
        Text(was(counts.lost)),
        Text(" never received"),
    ]);
    match counts.last_lost {
        Some(no) => pen.put(&[
            Text(", the last of them sent "),
            In(run.tick(no)),
            Text("."),
        ]),
        None => pen.text("."),
    }
}

/// `was` or `were`, for so many.
pub(crate) fn was(count: u64) -> &'static str {
    if count == 1 { "was" } else { "were" }
}

/// Writes what falls into the end of a run that never calms down.
fn put_never_calm(pen: &mut Pen<'_>, run: &Run<'_>, what: &'static str, lasts: Piece) {
    pen.put(&[
        Text("The run never calms down: "),
        Text(what),
        lasts,
        Text(" falls into its last "),
        Ticks(run.rest_ticks()),
        Text("."),
    ]);
}
