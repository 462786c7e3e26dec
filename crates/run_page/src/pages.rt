//! The whole page.

ghost use Rattle.std.specs.Prelude.{◌<◌};
ghost use Rattle.step_trace.specs.Fronts.{IsReport};
ghost use Rattle.step_trace.specs.Processors.{IsWithin};

use crate::cards::{put_card_words, put_cards};
use crate::fates::Fates;
use crate::glances::put_glance;
use crate::headlines::{as_correct, put_headline};
use crate::leads::put_lead;
use crate::node_bounds::NodeBounds;
use crate::notes::put_notes;
use crate::pens::Pen;
use crate::pieces::Piece::{Count, Many, Node, Number, Short, Text};
use crate::row_table::put_row_table;
use crate::runs::{Found, Run, row_at};
use crate::scans::Scan;
use crate::starts::put_start;
use crate::styles::{COLOURS, PICTURES, PLACES, TABLES, WORDS};
use crate::timings::Timing;
use crate::titles::put_title;
use crate::who::put_who;
use picture_marks::takers::takers;
use picture_marks::{COLUMNS, Strokes, strokes_of};
use run_story::{
    Evidence, LostReceivers, MessageCounts, Named, brief_rows, calm_row, count_messages,
    evidence_of, headline_of, lost_receivers, named_evidence,
};
use run_words::{LogWords, clock_of};
use std::alloc::{AllocError, Global};
use step_trace::{ProcSet, Row, Trace};

/// The page about a run, in UTF-8: HTML that needs no script and loads nothing else. `rows` is the report of the trace
/// for the set. The row that applies to the tick `at` is the calm one, if it is given.
///
/// Time grows with the trace and the rows, apart from the sorting of the evidence. Fails only if out of memory.
pub fn page_text(
    alloc: Global,
    trace: &Trace,
    set: ProcSet,
    rows: &[Row],
    words: &LogWords<'_>,
    at: Option<u64>,
) -> Result<Vec<u8>, AllocError>
    requires within { IsWithin set trace.now.config.n }
    requires report { IsReport set trace.now rows.now }
{
    let found = found_in(trace, set, rows, at);
    let story = Story::of(alloc, trace, rows)?;
    let bounds = Bounds::of(alloc, trace, set, row_at(rows, 0), found.calm)?;
    let steps = Steps::of(alloc, trace, set, found.calm.gst)?;
    let timing = Timing::of(trace, words.said, words.unit);
    let run = Run {
        trace,
        set,
        rows,
        names: words.names,
        said: words.said,
        timing,
        clock: clock_of(trace, words.said, words.unit),
        evidence: &story.evidence,
        named: &story.named,
        brief: &story.brief,
        takers: &steps.takers,
        scan: &steps.scan,
        strokes: &steps.strokes,
        whole: &bounds.whole,
        rest: &bounds.rest,
        counts: steps.counts,
        fates: steps.fates,
        lost: &steps.lost,
        found,
    };
    written(alloc, &run)
}

/// Where the run is calm, and its headline.
fn found_in(trace: &Trace, set: ProcSet, rows: &[Row], at: Option<u64>) -> Found
    requires { IsReport set trace.now rows.now }
{
    let place = match at {
        Some(tick) => place_for(rows, tick),
        None => calm_row(trace, set, rows).unwrap_or(0),
    };
    let calm = row_at(rows, place);
    let headline = if place < rows.len() {
        Some(headline_of(trace, set, rows, place, at.is_some()))
    } else {
        None
    };
    Found {
        calm_place: place,
        calm,
        headline,
    }
}

/// The place of the row that applies to a tick: the last one that begins there or before, and else the first.
fn place_for(rows: &[Row], tick: u64) -> usize {
    let mut place = 0;
    for k in 0..rows.len() {
        if rows[k].gst <= tick {
            place = k;
        }
    }
    place
}

/// The evidence, and which rows name it.
#[derive(Drop)]
struct Story {
    evidence: Vec<Evidence>,
    named: Vec<Named>,
    brief: Vec<usize>,
}

impl Story {
    fn of(alloc: Global, trace: &Trace, rows: &[Row]) -> Result<Self, AllocError> {
        let evidence = evidence_of(alloc, trace, rows)?;
        let named = named_evidence(alloc, rows.len(), &evidence)?;
        let brief = brief_rows(alloc, &named)?;
        Ok(Story {
            evidence,
            named,
            brief,
        })
    }
}

/// The bounds of nodes and pairs, of the whole run and from the calm row on.
#[derive(Drop)]
struct Bounds {
    whole: NodeBounds,
    rest: NodeBounds,
}

impl Bounds {
    fn of(
        alloc: Global,
        trace: &Trace,
        set: ProcSet,
        first: Row,
        calm: Row,
    ) -> Result<Self, AllocError>
        requires { IsWithin set trace.now.config.n }
    {
        Ok(Bounds {
            whole: NodeBounds::from_row(alloc, trace, set, first)?,
            rest: NodeBounds::from_row(alloc, trace, set, calm)?,
        })
    }
}

/// What is found from single steps.
#[derive(Drop)]
struct Steps {
    takers: Vec<Option<u64>>,
    scan: Scan,
    strokes: Strokes,
    counts: MessageCounts,
    fates: Fates,
    lost: LostReceivers,
}

impl Steps {
    /// With the tick of the calm row.
    fn of(alloc: Global, trace: &Trace, set: ProcSet, calm: u64) -> Result<Self, AllocError>
        requires { IsWithin set trace.now.config.n }
    {
        let takers = takers(alloc, trace)?;
        let scan = Scan::of(alloc, trace)?;
        Ok(Steps {
            counts: count_messages(alloc, trace, set)?,
            fates: Fates::of(trace, set, &takers, &scan, calm),
            lost: lost_receivers(alloc, trace, set)?,
            takers,
            scan,
            strokes: strokes_of(alloc, trace, COLUMNS)?,
        })
    }
}

/// The text of the page.
fn written(alloc: Global, run: &Run<'_>) -> Result<Vec<u8>, AllocError> {
    let mut pen = Pen::new(alloc, run.names, run.said, run.clock);
    put_head(&mut pen, run);
    put_header(&mut pen, run);
    if run.is_shown() {
        put_body(alloc, &mut pen, run);
    }
    pen.text(FOOT);
    pen.written()
}

const FOOT: &str =
    "<p class=\"facts\">Made by <code>synchrony page</code>. The bounds and their evidence are those of <code>synchrony report</code>; whoever has the trace can have them checked by <code>synchrony check</code>.</p></main></body></html>\n";

/// Writes the looks of the page.
fn put_head(pen: &mut Pen<'_>, run: &Run<'_>) {
    pen.put(&[
        Text(
            "<!doctype html><html lang=\"en\"><head><meta charset=\"utf-8\"><meta name=\"viewport\" content=\"width=device-width,initial-scale=1\"><meta name=\"color-scheme\" content=\"light dark\"><title>How synchronous was this run?</title><style>",
        ),
        Text(COLOURS),
        Text(WORDS),
        Text(PICTURES),
        Text(TABLES),
        Text(PLACES),
        Text("</style></head><body style=\"--nw:"),
        Number(name_width(run)),
        Text("px\"><main>"),
    ]);
}

/// How wide the names beside lanes are, in pixels.
fn name_width(run: &Run) -> u64 {
    let mut most = 0;
    for name in run.names {
        most = name.len().min(15).max(most);
    }
    (10 + 9 * most.min(15) as u64).clamp(58, 138)
}

/// Writes the first words of the page.
fn put_header(pen: &mut Pen<'_>, run: &Run<'_>) {
    pen.text("<header><h1>");
    put_headline(pen, run);
    pen.text("</h1><p class=\"lead\">");
    put_lead(pen, run);
    pen.text("</p>");
    put_notes(pen, run, "<p class=\"note\">");
    pen.text("<p class=\"facts\">");
    put_facts(pen, run);
    pen.text("</p></header>");
}

/// Writes how much there is of everything.
fn put_facts(pen: &mut Pen<'_>, run: &Run<'_>) {
    pen.put(&[Many(run.count(), "node"), Text(", ")]);
    put_chosen(pen, run);
    pen.put(&[
        Text(" · "),
        Many(run.trace.len() as u64, "step"),
        Text(", "),
        Many(run.counts.all, "message"),
        Text(" between nodes"),
        Text(as_correct(run)),
        Text(" · "),
    ]);
    put_length(pen, run);
}

/// Writes how long the run is, how long its ticks are, and when the first one begins.
fn put_length(pen: &mut Pen<'_>, run: &Run<'_>) {
    if run.clock.is_some() {
        pen.put(&[Short(run.last()), Text(" in ")]);
    }
    pen.put(&[Many(run.last(), "tick")]);
    if run.clock.is_some() {
        pen.put(&[Text(" of "), Short(1)]);
    }
    put_start(pen, run);
}

/// Writes which nodes are members.
fn put_chosen(pen: &mut Pen<'_>, run: &Run<'_>) {
    let members = run.members();
    if members == 0 {
        pen.text("none taken as correct");
        return;
    }
    if run.has_all() {
        pen.text("all taken as correct");
        return;
    }
    pen.put(&[Count(members), Text(" taken as correct:")]);
    for p in 1..65 {
        if run.set.contains(p) {
            pen.put(&[Text(" <b>"), Node(p), Text("</b>")]);
        }
    }
}

fn put_body(alloc: Global, pen: &mut Pen<'_>, run: &Run<'_>) {
    put_glance(pen, run);
    pen.text("<div class=\"side\">");
    put_who(alloc, pen, run);
    put_how(pen, run);
    put_key(pen, run);
    put_cards(alloc, pen, run);
    put_row_table(pen, run);
    pen.text("</section>");
    put_bug_report(pen, run);
}

const HOW: &str =
    "<section class=\"how\" aria-labelledby=\"h-how\"><h2 id=\"h-how\">How to read this</h2><p><b class=\"dl\">Δ</b> is the least time such that no receive misses a message that was sent that long before it or longer; <b class=\"phi\">Φ</b> is the least time in which each node always takes a step. Each tick has its own pair, which holds from there to the end of the run, so the lines only fall, and each piece of evidence rules out smaller bounds. The last stretch of a run shows small bounds because nothing was left to refute them, and ";

/// Writes what the bounds are.
fn put_how(pen: &mut Pen<'_>, run: &Run<'_>) {
    pen.text(HOW);
    if run.clock.is_some() {
        pen.put(&[
            Text("a tick tells a moment only to within its own "),
            Short(1),
        ]);
    } else {
        pen.text("ticks are counted, not timed");
    }
    pen.text(".</p></section>");
}

/// Writes the beginning of the evidence, with what the marks mean, if there are any.
fn put_key(pen: &mut Pen<'_>, run: &Run<'_>) {
    pen.text(
        "</div><section aria-labelledby=\"h-ev\"><h2 id=\"h-ev\">Why no smaller bounds hold</h2>",
    );
    if run.evidence.len() == 0 {
        pen.text("<p>Δ = 1 and Φ = 1 are the least there are, so nothing has to be shown.</p>");
        return;
    }
    pen.text(
        "<p class=\"key\"><svg width=\"12\" height=\"12\" aria-hidden=\"true\"><path class=\"se\" d=\"M6 6h.1\"/></svg>&nbsp;send <svg width=\"12\" height=\"12\" aria-hidden=\"true\"><path class=\"rf\" d=\"M6 6h.1\"/></svg>&nbsp;receive <svg width=\"12\" height=\"12\" aria-hidden=\"true\"><path class=\"rq\" d=\"M6 6h.1\"/><path class=\"re\" d=\"M6 6h.1\"/></svg>&nbsp;receive of nothing <svg width=\"26\" height=\"12\" aria-hidden=\"true\"><path class=\"m\" d=\"M0 6H26\"/></svg>&nbsp;message <svg width=\"26\" height=\"12\" aria-hidden=\"true\"><path class=\"miss\" d=\"M0 6H26\"/></svg>&nbsp;sent, and not there yet <svg width=\"22\" height=\"12\" aria-hidden=\"true\"><rect class=\"gap\" width=\"22\" height=\"12\"/></svg>&nbsp;no step</p>",
    );
}

/// How much evidence the words for a bug report have.
const REPORTED: usize = 3;

/// Writes the page in words alone.
fn put_bug_report(pen: &mut Pen<'_>, run: &Run<'_>) {
    pen.text(
        "<details class=\"rowsd\"><summary>The same as text, for a bug report</summary><div class=\"pre\" tabindex=\"0\"><p>",
    );
    put_headline(pen, run);
    pen.text("</p><p>");
    put_lead(pen, run);
    pen.text("</p>");
    for place in 0..run.evidence.len().min(REPORTED) {
        if let Some(evidence) = run.evidence.get(place) {
            put_reported(pen, run, evidence, place);
        }
    }
    put_notes(pen, run, "<p>");
    pen.text("</div></details>");
}

/// Writes one piece of evidence in words.
fn put_reported(pen: &mut Pen<'_>, run: &Run<'_>, evidence: &Evidence, place: usize) {
    pen.put(&[
        Text("<p>"),
        Number(place.saturating_add(1) as u64),
        Text(". "),
    ]);
    put_title(pen, run, evidence);
    pen.text(".</p>");
    put_card_words(pen, run, evidence);
}
