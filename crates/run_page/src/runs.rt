//! What a page is made of: a trace, its report, and what is found from both before a word is written.

ghost use Rattle.std.specs.Prelude.{◌≤◌};

use crate::fates::Fates;
use crate::node_bounds::NodeBounds;
use crate::pieces::Piece;
use crate::scans::Scan;
use crate::timings::Timing;
use picture_marks::takers::taker_in;
use picture_marks::{Strokes, processor_at};
use run_story::{Evidence, Headline, LostReceivers, MessageCounts, Named};
use run_words::Clock;
use step_tables::StepRow;
use step_trace::{Act, ProcSet, Row, Trace, steps_before};

/// A run, and what is found in it. All is lent, so that a phrase takes it whole.
#[derive(Drop)]
pub(crate) struct Run<'a> {
    pub trace: &'a Trace,
    pub set: ProcSet,
    pub rows: &'a [Row],
    pub names: &'a [&'a str],
    /// What a table says about the steps; nothing without one.
    pub said: &'a [StepRow],
    /// What the table says about times, if that fits ticks of one length; and how long they are, if that is known.
    pub timing: Option<Timing>,
    pub clock: Option<Clock>,
    /// Evidence in the order of the page, and for each row which it names.
    pub evidence: &'a [Evidence],
    pub named: &'a [Named],
    /// The places of the rows that name other evidence than the one before.
    pub brief: &'a [usize],
    /// For each message the Receive that takes it.
    pub takers: &'a [Option<u64>],
    pub scan: &'a Scan,
    /// In which columns of the whole run each processor makes steps.
    pub strokes: &'a Strokes,
    /// The bounds of nodes and pairs in the whole run, and from the calm row on.
    pub whole: &'a NodeBounds,
    pub rest: &'a NodeBounds,
    pub counts: MessageCounts,
    pub fates: Fates,
    /// Who most lost messages are for, if these are few.
    pub lost: &'a LostReceivers,
    pub found: Found,
}

/// Where a run is calm, and its headline.
#[derive(Clone, Copy)]
pub(crate) struct Found {
    /// The place of the calm row, and the row.
    pub calm_place: usize,
    pub calm: Row,
    /// None if the trace has no tick.
    pub headline: Option<Headline>,
}

impl Run<'_> {
    pub(crate) fn last(&self) -> u64 {
        self.trace.last_tick()
    }

    /// How many processors there are.
    pub(crate) fn count(&self) -> u64
        ensures { result ≤ 64 }
    {
        self.trace.config().n().min(64)
    }

    pub(crate) fn members(&self) -> u64 {
        members_in(self.set)
    }

    /// Whether there is something to show: a tick, a step and a member.
    pub(crate) fn is_shown(&self) -> bool {
        self.last() > 0 && self.trace.len() > 0 && self.members() > 0
    }

    /// The tick of the step of this number; 0 if there is no such step.
    pub(crate) fn tick(&self, no: u64) -> u64 {
        self.trace.tick_at(no)
    }

    /// When the step of this number was made.
    pub(crate) fn made(&self, no: u64) -> Piece {
        Piece::Made {
            tick: self.tick(no),
            no,
        }
    }

    /// The processor of the step of this number; 0 if there is no such step.
    pub(crate) fn proc(&self, no: u64) -> u64 {
        processor_at(self.trace, no)
    }

    /// The receiver of the message of this number; 0 if there is no such message.
    pub(crate) fn receiver(&self, no: u64) -> u64 {
        receiver_at(self.trace, no)
    }

    /// The Receive that takes the message of this number.
    pub(crate) fn taker(&self, no: u64) -> Option<u64> {
        taker_in(self.takers, no)
    }

    /// The least number of a step in this tick or later; one after the last if there is none.
    pub(crate) fn first_from(&self, tick: u64) -> u64 {
        steps_before(self.trace, tick).saturating_add(1)
    }

    /// The row at this place; bounds of 1 from tick 1 on if there is none.
    pub(crate) fn row(&self, place: usize) -> Row {
        row_at(self.rows, place)
    }

    /// The last tick to which the row at this place applies: the one before the next row's, or the last of the run.
    pub(crate) fn until(&self, place: usize) -> u64 {
        match self.rows.get(place.saturating_add(1)) {
            Some(row) => row.gst.saturating_sub(1),
            None => self.last(),
        }
    }

    /// Whether evidence counts only after the calm row.
    pub(crate) fn is_late(&self, evidence: &Evidence) -> bool {
        self.row(evidence.first).gst > self.found.calm.gst
    }

    /// Whether the evidence at this place counts only after the calm row.
    pub(crate) fn is_late_at(&self, place: usize) -> bool {
        match self.evidence.get(place) {
            Some(evidence) => self.is_late(evidence),
            None => false,
        }
    }

    /// Whether each node is a member.
    pub(crate) fn has_all(&self) -> bool {
        self.members() == self.count()
    }

    /// How many ticks there are from the calm row's to the last.
    pub(crate) fn rest_ticks(&self) -> u64 {
        self.last()
            .saturating_sub(self.found.calm.gst.saturating_sub(1))
    }

    /// Whether the headline is that of a run that is calm.
    pub(crate) fn is_calm(&self) -> bool {
        match self.found.headline {
            Some(Headline::Calm { .. }) => true,
            _ => false,
        }
    }
}

/// How many processors a set has.
pub(crate) fn members_in(set: ProcSet) -> u64 {
    let mut count = 0_u64;
    for p in 1..65 {
        if set.contains(p) {
            count = count.saturating_add(1);
        }
    }
    count
}

/// The receiver of the message of this number; 0 if there is no such message.
pub(crate) fn receiver_at(trace: &Trace, no: u64) -> u64 {
    match trace.step(no) {
        Some(step) => match &step.act {
            Act::Send { to } => *to,
            Act::Receive { .. } => 0,
        },
        None => 0,
    }
}

/// The row at this place; bounds of 1 from tick 1 on if there is none.
pub(crate) fn row_at(rows: &[Row], place: usize) -> Row {
    match rows.get(place) {
        Some(row) => *row,
        None => Row {
            gst: 1,
            delta: 1,
            phi: 1,
            miss: None,
            gap: None,
        },
    }
}
