//! The bounds of each node and of each ordered pair, to be looked up.

ghost use Rattle.step_trace.specs.Processors.{IsWithin};

use link_bounds::{BoundRow, bound_rows};
use std::alloc::{AllocError, Global};
use step_trace::{MAX_MEMBER, ProcSet, Row, Trace};

/// How many places there are: one for each processor, and one for number 0, which is none.
const PLACES: usize = MAX_MEMBER as usize + 1;

/// The least bounds of nodes and pairs from one tick on: 0 if there is none.
#[derive(Drop)]
pub(crate) struct NodeBounds {
    phi: Vec<u64>,
    delta: Vec<u64>,
}

impl NodeBounds {
    /// The bounds from the tick of a row on.
    pub(crate) fn from_row(
        alloc: Global,
        trace: &Trace,
        set: ProcSet,
        row: Row,
    ) -> Result<Self, AllocError>
        requires { IsWithin set trace.now.config.n }
    {
        let at = row.gst.clamp(1, trace.last_tick() + 1);
        let rows = bound_rows(alloc, trace, set, at)?;
        NodeBounds::of_rows(alloc, &rows)
    }

    fn of_rows(alloc: Global, rows: &[BoundRow]) -> Result<Self, AllocError> {
        let mut bounds = NodeBounds {
            phi: vec![in alloc; 0; PLACES]?,
            delta: vec![in alloc; 0; PLACES * PLACES]?,
        };
        for row in rows {
            bounds.note(row);
        }
        Ok(bounds)
    }

    fn note(&mut self, row: &BoundRow) {
        match row {
            BoundRow::Phi { proc, bound } => put_at(&mut self.phi, *proc as usize, bound.least),
            BoundRow::Delta { from, to, bound } => {
                put_at(&mut self.delta, place_of(*from, *to), bound.least)
            }
        }
    }

    /// The processor bound of a node; 0 if it is no member.
    pub(crate) fn phi(&self, proc: u64) -> u64 {
        at(&self.phi, proc as usize)
    }

    /// The communication bound of a pair; 0 if no message is sent.
    pub(crate) fn delta(&self, from: u64, to: u64) -> u64 {
        at(&self.delta, place_of(from, to))
    }

    /// The greatest number of a node: of its own bound, and of those of its messages both ways.
    pub(crate) fn greatest(&self, proc: u64) -> u64 {
        let mut most = self.phi(proc);
        for other in 1..MAX_MEMBER + 1 {
            let both = self.delta(proc, other).max(self.delta(other, proc));
            most = most.max(both);
        }
        most
    }

    /// The processor bound of all nodes but this one, which is at least 1.
    pub(crate) fn phi_without(&self, proc: u64) -> u64 {
        let mut most = 1;
        for other in 1..MAX_MEMBER + 1 {
            if other != proc {
                most = self.phi(other).max(most);
            }
        }
        most
    }

    /// The communication bound of all messages that don't come from this node or go there, which is at least 1.
    pub(crate) fn delta_without(&self, proc: u64) -> u64 {
        let mut most = 1;
        for from in 1..MAX_MEMBER + 1 {
            if from != proc {
                most = self.delta_from(from, proc).max(most);
            }
        }
        most
    }

    fn delta_from(&self, from: u64, but: u64) -> u64 {
        let mut most = 0;
        for to in 1..MAX_MEMBER + 1 {
            if to != but {
                most = self.delta(from, to).max(most);
            }
        }
        most
    }
}

fn place_of(from: u64, to: u64) -> usize {
    from.min(MAX_MEMBER) as usize * PLACES + to.min(MAX_MEMBER) as usize
}

fn at(list: &[u64], place: usize) -> u64 {
    match list.get(place) {
        Some(value) => *value,
        None => 0,
    }
}

fn put_at(list: &mut Vec<u64>, place: usize, value: u64) {
    if place < list.len() {
        list[place] = value;
    }
}
