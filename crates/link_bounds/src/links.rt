//! How late the messages of each processor to each other are: their misses, going back over a trace.

ghost use Rattle.std.specs.Prelude.{◌≡◌, ℕ, ◌-◌, ◌/◌, ◌%◌, ◌≤◌, length, IfOk, OnOk};
ghost use Rattle.step_trace.specs.declared.processors.TheConstants.{MAX_MEMBER};
ghost use Rattle.step_trace.specs.declared.configurations.TheConstants.{MAX_PROCESSORS};
ghost use Rattle.step_trace.specs.Processors.{IsWithin};
ghost use Rattle.step_trace.specs.Ticks.{IsTimed, IsTrace};
ghost use Rattle.step_trace.specs.Traces.{Recorded};
ghost use Rattle.suffix_staircase.specs.Receives.{IsLastMissByNumber};
ghost use Rattle.link_bounds.specs.Passes.{KnowsLinksFrom, ListsBefore};
ghost use Rattle.link_bounds.specs.Rows.{AreRows};
ghost use Rattle.link_bounds.specs.KnownMisses.{KnowsLinks, place_of};

use crate::bounds::LeastBound;
use crate::copies::copies;
use crate::rows::BoundRow;
use std::alloc::{AllocError, Global};
use step_trace::{MAX_MEMBER, Miss, ProcSet, Trace, receiver, step_of};

/// How many places a sender has: one for each receiver, and one for number 0, which is no processor.
pub(crate) const RECEIVERS: u64 = MAX_MEMBER + 1;

/// What is known of the messages of each link after a step.
#[derive(Debug, Drop)]
pub(crate) struct Links {
    // For each sender and receiver the bound that the misses of their messages leave possible, if there is a message.
    bounds: Vec<Option<LeastBound<Miss>>>,
}

impl Links {
    /// What is known after the last step.
    pub(crate) fn after_all(alloc: Global, trace: &Trace) -> Result<Self, AllocError>
        ensures { IfOk result (λ links. (set : ℕ)
            → KnowsLinks set trace.now (length trace.now.steps) links) }
    {
        let senders = trace.config().n() + 1;
        let places = senders * RECEIVERS;
        Ok(Links {
            bounds: copies(alloc, None, places as usize)?,
        })
    }

    /// Goes back over a step, whose message the Receive of number `missed` is the last to miss.
    pub(crate) fn step_back(&mut self, trace: &Trace, set: ProcSet, no: u64, missed: u64)
        requires low { 1 ≤ no }
        requires high { no ≤ length trace.now.steps }
        requires within { IsWithin set trace.now.config.n }
        requires sound { IsTrace trace.now }
        requires missed { IsLastMissByNumber set trace.now.steps no missed }
        requires known { KnowsLinks set trace.now no self.old }
        ensures { KnowsLinks set trace.now (no - 1) self.new }
    {
        let Some(to) = receiver(trace, set, no) else {
            return;
        };
        let from = step_of(trace, no).proc;
        let place = place_of(from, to);
        let mut bound = self.bounds[place].unwrap_or(LeastBound::without_evidence());
        let long = trace.tick_at(missed).saturating_sub(trace.tick(no));
        bound.note(Miss { sent: no, missed }, long);
        self.bounds[place] = Some(bound);
    }

    /// Pushes the row of each link that has a message, after those of processors.
    pub(crate) fn push_rows(&self, rows: &mut Vec<BoundRow>) -> Result<(), AllocError>
        ensures { (set : ℕ) (trace : Recorded) (at : ℕ) → IsTimed trace
            → IsWithin set trace.config.n → KnowsLinksFrom set trace at self.now
            → ListsBefore set trace at RECEIVERS rows.old.items
            → OnOk result (AreRows set trace at rows.new.items) }
    {
        for place in 0..self.bounds.len() {
            if let Some(bound) = self.bounds[place] {
                rows.push(row_at(place as u64, bound))?;
            }
        }
        Ok(())
    }
}

/// The row of the link whose bound is at this place.
fn row_at(place: u64, bound: LeastBound<Miss>) -> BoundRow
    ensures { result ≡ BoundRow.Delta (place / RECEIVERS) (place % RECEIVERS) bound }
{
    BoundRow::Delta {
        from: place / RECEIVERS,
        to: place % RECEIVERS,
        bound,
    }
}

/// Where the bound of a link is.
fn place_of(from: u64, to: u64) -> usize
    requires from { from ≤ MAX_PROCESSORS }
    requires to { to ≤ MAX_MEMBER }
    ensures { result ≡ place_of from to }
{
    (from * RECEIVERS + to) as usize
}
