//! Warnings: what makes the bounds of a run say less than they seem to.

ghost use Rattle.run_page.specs.Notes.{made_text, one_text, some_text};
ghost use Rattle.run_page.specs.Pens.{HasWritten};

use crate::headlines::{put_first_node, was};
use crate::pens::Pen;
use crate::pieces::Piece::{Count, Many, Node, Text, Ticks, Time};
use crate::round_times::finer;
use crate::runs::{Run, members_in};
use crate::spreads::spread_count;
use crate::timings::Timing;

/// Writes the warnings, each after this start of a paragraph, if there is something to show.
pub(crate) fn put_notes(pen: &mut Pen<'_>, run: &Run<'_>, start: &'static str) {
    if !run.is_shown() {
        return;
    }
    if let Some(timing) = run.timing {
        if is_coarse(run, timing) {
            pen.text(start);
            put_coarse(pen, run, timing);
        }
    }
    if run.scan.full > 0 && run.scan.empty == 0 {
        pen.text(start);
        put_no_look(pen);
    }
    if run.fates.to_deaf > 0 {
        pen.text(start);
        put_deaf(pen, run);
    }
}

/// Whether an event was moved by several ticks, and by no fewer than the lesser calm bound.
fn is_coarse(run: &Run, timing: Timing) -> bool {
    let (far, calm) = (timing.moves.farthest, run.found.calm);
    far > 1 && far >= calm.delta.min(calm.phi)
}

/// Writes how far events were moved, how much evidence comes of that alone, and which ticks would be better.
fn put_coarse(pen: &mut Pen<'_>, run: &Run<'_>, timing: Timing) {
    let moves = timing.moves;
    pen.put(&[
        Text("<b>The tick is coarse.</b> "),
        Count(moves.moved),
        Text(" of "),
        Count(moves.events),
        Text(" events "),
        Text(was(moves.moved)),
        Text(" moved to later ticks, by up to "),
        Ticks(moves.farthest),
        Text("; a bound is off by up to as much."),
    ]);
    let made = spread_count(run.trace, run.said, run.evidence, timing.width);
    put_made(pen, made, run.evidence.len() as u64);
    if let Some(clock) = run.clock {
        if let Some(width) = finer(clock, run.last()) {
            pen.put(&[
                Text(" A shorter <code>--tick</code> moves them less, down to "),
                Time(width),
                Text(" for this log; <code>import --ticks</code> tells how far."),
            ]);
        }
    }
    pen.text("</p>");
}

/// Writes how many of so many pieces of evidence are made by the moves, if any is.
fn put_made(pen: &mut Pen<'_>, made: u64, all: u64)
    ensures { HasWritten (made_text made all) pen.old pen.new }
{
    if made == 0 {
        return;
    }
    if made == all {
        pen.text(" <b>All evidence below comes of that alone</b> and says little of the run.");
        return;
    }
    if made == 1 {
        put_one(pen, all);
    } else {
        put_some(pen, made, all);
    }
}

/// Writes that one of so many pieces of evidence is.
fn put_one(pen: &mut Pen<'_>, all: u64)
    ensures { HasWritten (one_text all) pen.old pen.new }
{
    pen.put(&[
        Text(" <b>1 of the "),
        Count(all),
        Text(" pieces of evidence below comes of that alone</b> and says little of the run."),
    ]);
}

/// Writes that several are.
fn put_some(pen: &mut Pen<'_>, made: u64, all: u64)
    ensures { HasWritten (some_text made all) pen.old pen.new }
{
    pen.put(&[
        Text(" <b>"),
        Count(made),
        Text(" of the "),
        Count(all),
        Text(" pieces of evidence below come of that alone</b> and say little of the run."),
    ]);
}

/// Writes that no Receive shows that there was nothing yet, if none does.
fn put_no_look(pen: &mut Pen<'_>) {
    pen.text(
        "<b>No receive of nothing is in this trace.</b> A receive that found nothing is what shows a message to be late; without them Δ is too low. <code>import --idle</code> adds them where a node only waited.</p>",
    );
}

/// How many nodes that never receive are named.
const NAMED_DEAF: u64 = 3;

/// Writes which nodes never receive, though messages are sent to them.
fn put_deaf(pen: &mut Pen<'_>, run: &Run<'_>) {
    let count = members_in(run.fates.deaf);
    pen.text("<b>");
    if count > NAMED_DEAF {
        pen.put(&[Many(count, "node")]);
    } else {
        put_deaf_names(pen, run, count);
    }
    pen.text(if count == 1 {
        " never receives in this trace.</b> No message to it can be late, so its Δ says nothing.</p>"
    } else {
        " never receive in this trace.</b> No message to them can be late, so their Δ says nothing.</p>"
    });
}

/// Writes the names of the nodes that never receive, of which there are so many.
fn put_deaf_names(pen: &mut Pen<'_>, run: &Run<'_>, count: u64) {
    let mut named = 0_u64;
    for p in 1..65 {
        if run.fates.deaf.contains(p) {
            put_deaf_name(pen, run, p, named, count);
            named = named.saturating_add(1);
        }
    }
}

/// Writes the next one of so many names, by how many there were before.
fn put_deaf_name(pen: &mut Pen<'_>, run: &Run<'_>, proc: u64, before: u64, count: u64) {
    if before == 0 {
        put_first_node(pen, run, proc);
    } else if before.saturating_add(1) == count {
        pen.put(&[Text(" and "), Node(proc)]);
    } else {
        pen.put(&[Text(", "), Node(proc)]);
    }
}
