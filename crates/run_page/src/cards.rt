//! Cards: each has one piece of evidence in words, with its picture.

use crate::delay_words::put_delay_words;
use crate::panes::put_picture;
use crate::pens::Pen;
use crate::pieces::Piece::{Begin, Count, From, In, Number, Text};
use crate::rooms::{ROOM_FOR_PICTURES, put_within};
use crate::runs::Run;
use crate::scenes::{LARGE, Scene};
use crate::stall_words::put_stall_words;
use crate::titles::put_title;
use run_story::Evidence;
use std::alloc::Global;

/// How many cards a page has.
pub(crate) const CARDS: usize = 40;

/// With more nodes than this only the first card has a picture of all lanes.
const FEW_NODES: u64 = 16;

/// Writes the cards of the first evidence. Those that count only after the calm row come into one part, which is
/// closed.
pub(crate) fn put_cards(alloc: Global, pen: &mut Pen<'_>, run: &Run<'_>) {
    let group = first_late(run);
    for place in 0..run.evidence.len().min(CARDS) {
        if Some(place) == group {
            put_group_head(pen, run, place);
        }
        if let Some(evidence) = run.evidence.get(place) {
            put_card(alloc, pen, run, evidence, place);
        }
    }
    if group != None {
        pen.text("</details>");
    }
    put_further(pen, run);
}

/// The place of the first of the cards that come late, if there are several.
fn first_late(run: &Run) -> Option<usize> {
    let shown = run.evidence.len().min(CARDS);
    for place in 0..shown {
        if run.is_late_at(place) {
            return if place.saturating_add(1) < shown {
                Some(place)
            } else {
                None
            };
        }
    }
    None
}

/// Writes the beginning of the part with the late cards.
fn put_group_head(pen: &mut Pen<'_>, run: &Run<'_>, place: usize) {
    let late = run.evidence.len().saturating_sub(place);
    pen.put(&[
        Text("<details class=\"later\"><summary>After "),
        From(run.found.calm.gst),
        Text(": "),
        Count(late as u64),
        Text(
            " more, each smaller than the one before, as less and less is left of the run</summary>",
        ),
    ]);
}

fn put_card(alloc: Global, pen: &mut Pen<'_>, run: &Run<'_>, evidence: &Evidence, place: usize) {
    put_card_head(pen, run, evidence, place);
    put_card_words(pen, run, evidence);
    pen.text("</div><div class=\"px\">");
    let scene = Scene::of(run, evidence, place.saturating_add(1));
    put_scene(alloc, pen, run, &scene);
    if scene.has_some_lanes() && may_have_all_lanes(run, place) {
        put_all_lanes(alloc, pen, run, &scene);
    }
    pen.text("</div></div></details>");
}

/// Writes the picture of a scene, if the page has room for it.
fn put_scene(alloc: Global, pen: &mut Pen<'_>, run: &Run<'_>, scene: &Scene<'_>) {
    let mut picture = Pen::new(alloc, run.names, run.said, run.clock);
    put_picture(&mut picture, scene);
    put_within(pen, &picture, ROOM_FOR_PICTURES);
}

/// Whether the card of this place has the picture of all lanes too: the first one, and the next ones if the nodes are
/// few.
fn may_have_all_lanes(run: &Run, place: usize) -> bool {
    place == 0 || place < LARGE && run.count() <= FEW_NODES
}

/// Writes the picture of a scene with all lanes, closed at first.
fn put_all_lanes(alloc: Global, pen: &mut Pen<'_>, run: &Run<'_>, scene: &Scene<'_>) {
    pen.put(&[
        Text("<details class=\"all\"><summary>All "),
        Number(run.count()),
        Text(" lanes</summary>"),
    ]);
    put_scene(alloc, pen, run, &scene.with_all_lanes());
    pen.text("</details>");
}

/// Writes a card up to its words.
fn put_card_head(pen: &mut Pen<'_>, run: &Run<'_>, evidence: &Evidence, place: usize) {
    let no = place.saturating_add(1) as u64;
    pen.put(&[
        Text("<details class=\"card\" id=\"e"),
        Number(no),
        Text(if is_open(run, place) {
            "\" open><summary><span class=\"no\">"
        } else {
            "\"><summary><span class=\"no\">"
        }),
        Number(no),
        Text("</span> <span class=\"ti\">"),
    ]);
    put_title(pen, run, evidence);
    pen.text("</span><span class=\"when\">counts ");
    put_counted(pen, run, evidence);
    pen.text("</span></summary><div class=\"body\"><div class=\"tx\">");
}

/// Writes for which ticks evidence counts.
fn put_counted(pen: &mut Pen<'_>, run: &Run<'_>, evidence: &Evidence) {
    let (first, until) = (run.row(evidence.first).gst, run.until(evidence.last));
    if first == until {
        pen.put(&[In(first)]);
    } else {
        put_stretch_of(pen, run, first, until);
    }
}

/// Writes from which tick to which.
fn put_stretch_of(pen: &mut Pen<'_>, run: &Run<'_>, first: u64, until: u64) {
    if run.clock.is_some() {
        pen.put(&[
            Text("from "),
            Begin(first),
            Text(" to "),
            Begin(until),
            Text(", ticks "),
        ]);
    } else {
        pen.text("from tick ");
    }
    pen.put(&[Number(first), Text(" to "), Number(until)]);
}

/// Whether the card of this place is open at first: the first one is, and the next ones if they aren't late.
fn is_open(run: &Run, place: usize) -> bool {
    place == 0 || place < LARGE && !run.is_late_at(place)
}

/// Writes the paragraphs of a card.
pub(crate) fn put_card_words(pen: &mut Pen<'_>, run: &Run<'_>, evidence: &Evidence) {
    if let Some(stall) = evidence.stall {
        put_stall_words(pen, run, stall);
    }
    if let Some(delay) = evidence.delay {
        put_delay_words(pen, run, delay, evidence.stall);
    }
}

/// Writes how much evidence has no card.
fn put_further(pen: &mut Pen<'_>, run: &Run<'_>) {
    let further = run.evidence.len().saturating_sub(CARDS);
    if further > 0 {
        pen.put(&[
            Text("<p class=\"cap\">"),
            Count(further as u64),
            Text(" further, smaller pieces of evidence have no card.</p>"),
        ]);
    }
}
