//! Which ticks and which lanes the picture of evidence shows.

use crate::evidence_ticks::{core_of, padded, taker_of};
use crate::run_lanes::lanes_in;
use crate::runs::Run;
use crate::scales::Span;
use run_story::Evidence;
use step_trace::{Act, ProcSet};

/// With more nodes than this a picture has only some lanes, so many.
const FEW_NODES: u64 = 6;

const SOME_LANES: u64 = 5;

/// A picture with more steps than this is cut in two; later evidence has smaller pictures.
const MOST_STEPS: u64 = 1_200;

const MOST_LATER_STEPS: u64 = 500;

/// How many steps each part of a picture in two parts has, about.
const PART_STEPS: u64 = 160;

/// The evidence up to these numbers has the larger pictures, and titles for each of their marks.
pub(crate) const LARGE: usize = 3;

const TOLD: usize = 5;

/// What a picture of evidence shows.
#[derive(Drop)]
pub(crate) struct Scene<'a> {
    pub run: &'a Run<'a>,
    pub evidence: &'a Evidence,
    /// The number of the evidence, from 1.
    pub no: usize,
    pub lanes: ProcSet,
    /// Whether each mark has a title that says what it is.
    pub is_told: bool,
    /// One part, or the two ends.
    pub left: Span,
    pub right: Option<Span>,
}

impl<'a> Scene<'a> {
    /// What the picture of the evidence of this number shows.
    pub(crate) fn of(run: &'a Run<'a>, evidence: &'a Evidence, no: usize) -> Self {
        let window = padded(core_in(run, evidence), run.last());
        let whole = Scene {
            run,
            evidence,
            no,
            lanes: lanes_of(run, evidence, window),
            is_told: no <= TOLD,
            left: window,
            right: None,
        };
        if whole.fits() {
            return whole;
        }
        whole.in_two(core_in(run, evidence))
    }

    /// The same with the lanes of all nodes, and with titles for the witness alone.
    pub(crate) fn with_all_lanes(&self) -> Self {
        let (run, evidence) = (self.run, self.evidence);
        let whole = Scene {
            run,
            evidence,
            no: self.no,
            lanes: ProcSet::all_to(run.count()),
            is_told: false,
            left: padded(core_in(run, evidence), run.last()),
            right: None,
        };
        if whole.fits() {
            return whole;
        }
        whole.in_two(core_in(run, evidence))
    }

    /// Whether it leaves lanes out.
    pub(crate) fn has_some_lanes(&self) -> bool {
        lanes_in(self.lanes) < self.run.count()
    }

    /// Whether one part has room for all of its steps.
    fn fits(&self) -> bool {
        self.steps_in_lanes() <= self.most_steps()
    }

    /// About how many steps its lanes have.
    fn steps_in_lanes(&self) -> u64 {
        let from = self.run.first_from(self.left.first);
        let next = self.run.first_from(self.left.to.saturating_add(1));
        let steps = next.saturating_sub(from).min(1 << 30);
        steps * lanes_in(self.lanes) / self.run.count().max(1)
    }

    fn most_steps(&self) -> u64 {
        if self.no <= LARGE {
            MOST_STEPS
        } else {
            MOST_LATER_STEPS
        }
    }

    /// The two ends of these ticks, or all if they meet.
    fn in_two(&self, core: Span) -> Self {
        let steps = PART_STEPS * self.run.count().max(1) / lanes_in(self.lanes).max(1);
        let left = part(self.run, core.first, steps / 4, steps / 4 * 3);
        let right = part(self.run, core.to, steps / 4 * 3, steps / 4);
        if right.first <= left.to {
            let both = Span {
                first: left.first,
                to: right.to,
            };
            return self.with_parts(both, None);
        }
        self.with_parts(left, Some(right))
    }

    /// The same lanes in other ticks.
    fn with_parts(&self, left: Span, right: Option<Span>) -> Self {
        Scene {
            run: self.run,
            evidence: self.evidence,
            no: self.no,
            lanes: self.lanes,
            is_told: self.is_told,
            left,
            right,
        }
    }
}

/// The ticks that a picture of evidence has to show.
fn core_in(run: &Run, evidence: &Evidence) -> Span {
    core_of(run.trace, evidence, taker_of(run.takers, evidence))
}

/// The ticks around this one with so many steps before it, and after it.
fn part(run: &Run, tick: u64, before: u64, after: u64) -> Span {
    let no = run.first_from(tick);
    let last = no.saturating_add(after).min(run.trace.len() as u64);
    let first = no.saturating_sub(before).max(1);
    Span {
        first: run.tick(first).min(tick).max(1),
        to: run.tick(last).max(tick).min(run.last()),
    }
}

/// All nodes if they are few; else those of the evidence, and those that exchange most messages with them.
fn lanes_of(run: &Run, evidence: &Evidence, window: Span) -> ProcSet {
    if run.count() <= FEW_NODES {
        return ProcSet::all_to(run.count());
    }
    let hot = nodes_of(run, evidence);
    let counts = exchanged(run, hot, window);
    let mut lanes = hot;
    for _more in 0..SOME_LANES {
        if lanes_in(lanes) < SOME_LANES {
            lanes = with_node(lanes, busiest(counts, lanes));
        }
    }
    lanes
}

/// The nodes of evidence: who is silent, who sends and who receives.
pub(crate) fn nodes_of(run: &Run, evidence: &Evidence) -> ProcSet {
    let mut nodes = ProcSet::empty();
    if let Some(stall) = evidence.stall {
        nodes = with_node(nodes, stall.gap.proc);
    }
    if let Some(delay) = evidence.delay {
        nodes = with_node(nodes, run.proc(delay.miss.sent));
        nodes = with_node(nodes, delay.to);
    }
    nodes
}

/// These nodes, and one more.
pub(crate) fn with_node(nodes: ProcSet, proc: u64) -> ProcSet {
    if 1 <= proc && proc <= 64 {
        nodes.with(proc)
    } else {
        nodes
    }
}

/// How many messages each node exchanges with these nodes in these ticks.
fn exchanged(run: &Run, hot: ProcSet, window: Span) -> [u64; 65] {
    let mut counts = [0; 65];
    let next = run.first_from(window.to.saturating_add(1));
    for no in run.first_from(window.first)..next {
        note_exchange(run, hot, no, &mut counts);
    }
    counts
}

/// Counts the messages that this step sends or takes.
fn note_exchange(run: &Run, hot: ProcSet, no: u64, counts: &mut [u64; 65]) {
    let Some(step) = run.trace.step(no) else {
        return;
    };
    match &step.act {
        Act::Send { to } => note_pair(hot, step.proc, *to, counts),
        Act::Receive { ids, .. } => {
            for id in ids.as_slice() {
                note_pair(hot, run.proc(*id), step.proc, counts);
            }
        }
    }
}

fn note_pair(hot: ProcSet, from: u64, to: u64, counts: &mut [u64; 65]) {
    if hot.contains(from) {
        note_node(to, counts);
    }
    if hot.contains(to) {
        note_node(from, counts);
    }
}

fn note_node(node: u64, counts: &mut [u64; 65]) {
    if node < 65 {
        counts[node as usize] = counts[node as usize].saturating_add(1);
    }
}

/// The node with the most messages that isn't among these; 0 if there is none.
fn busiest(counts: [u64; 65], but: ProcSet) -> u64 {
    let mut best = 0;
    let mut most = 0;
    for p in 1..65 {
        let count = counts[p as usize];
        if count > most && !but.contains(p) {
            best = p;
            most = count;
        }
    }
    best
}
