//! One backward pass over a trace, from which all rows come.

ghost use Rattle.std.specs.Prelude.{◌+◌, ◌-◌, ◌≤◌, length, IfOk};
ghost use Rattle.step_trace.specs.Processors.{IsWithin};
ghost use Rattle.step_trace.specs.Bounds.{IsDelta, IsPhi};
ghost use Rattle.link_bounds.specs.Passes.{KnowsAfter, KnowsFrom};
ghost use Rattle.link_bounds.specs.Rows.{AreRows, greatest_delta, greatest_phi};

use crate::links::Links;
use crate::paces::Paces;
use crate::rows::BoundRow;
use std::alloc::{AllocError, Global};
use step_trace::{ProcSet, Trace};
use suffix_staircase::Receives;

/// What is known of the scanned steps of a trace, from the last one back.
#[derive(Debug, Drop)]
pub(crate) struct Pass {
    set: ProcSet,
    receives: Receives,
    paces: Paces,
    links: Links,
}

impl Pass {
    /// A pass that has scanned no step.
    fn after_all(alloc: Global, trace: &Trace, set: ProcSet) -> Result<Self, AllocError>
        ensures { IfOk result (λ pass. KnowsAfter set trace.now (length trace.now.steps) pass) }
    {
        Ok(Pass {
            set,
            receives: Receives::after_all(alloc, trace)?,
            paces: Paces::after_all(alloc, trace)?,
            links: Links::after_all(alloc, trace)?,
        })
    }

    /// Goes back over the steps in tick `at` and later.
    fn back_to(&mut self, trace: &Trace, at: u64)
        requires within { IsWithin self.old.set trace.now.config.n }
        requires known { KnowsAfter self.old.set trace.now (length trace.now.steps) self.old }
        ensures { KnowsFrom self.old.set trace.now at self.new }
    {
        for no in (1..trace.len() as u64 + 1).rev() {
            if trace.tick(no) < at {
                return;
            }
            self.step_back(trace, no);
        }
    }

    /// Goes back over a step.
    fn step_back(&mut self, trace: &Trace, no: u64)
        requires low { 1 ≤ no }
        requires high { no ≤ length trace.now.steps }
        requires within { IsWithin self.old.set trace.now.config.n }
        requires known { KnowsAfter self.old.set trace.now no self.old }
        ensures { KnowsAfter self.old.set trace.now (no - 1) self.new }
    {
        let missed = self.receives.step_back(trace, self.set, no);
        self.links.step_back(trace, self.set, no, missed);
        self.paces.step_back(trace, no);
    }
}

/// The rows from a tick on, in ticks, each with its named witness. Each member of the set has its processor bound. Each
/// link between members with a message sent in that tick or later has its communication bound.
///
/// One pass from the last step back to the tick, in time that grows with the steps, the ids in them, and the square of
/// the number of processors. Fails only if out of memory.
pub fn bound_rows(
    alloc: Global,
    trace: &Trace,
    set: ProcSet,
    at: u64,
) -> Result<Vec<BoundRow>, AllocError>
    requires within { IsWithin set trace.now.config.n }
    requires start { 1 ≤ at }
    requires end { at ≤ trace.now.last + 1 }
    ensures rows { IfOk result (λ rows. AreRows set trace.now at rows.items) }
    ensures phi { IfOk result (λ rows. IsPhi set trace.now at (greatest_phi rows.items)) }
    ensures delta { IfOk result (λ rows. IsDelta set trace.now at (greatest_delta rows.items)) }
{
    let mut pass = Pass::after_all(alloc, trace, set)?;
    pass.back_to(trace, at);
    let mut rows = Vec::new(alloc);
    pass.paces.push_rows(trace, set, at, &mut rows)?;
    pass.links.push_rows(&mut rows)?;
    Ok(rows)
}
