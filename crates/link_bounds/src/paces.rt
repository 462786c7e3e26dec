//! How slow each processor is: the gaps between its steps, going back over a trace.

ghost use Rattle.std.specs.Prelude.{◌≡◌, ◌+◌, ◌-◌, ◌<◌, ◌≤◌, length, slice_index, [], IfOk, OnOk};
ghost use Rattle.step_trace.specs.declared.traces.TheConstants.{MAX_TICKS};
ghost use Rattle.step_trace.specs.Processors.{IsWithin};
ghost use Rattle.link_bounds.specs.declared.links.TheConstants.{RECEIVERS};
ghost use Rattle.link_bounds.specs.Passes.{KnowsPacesFrom, ListsBefore};
ghost use Rattle.link_bounds.specs.KnownGaps.{KnowsPaces, bound_from};

use crate::bounds::LeastBound;
use crate::copies::copies;
use crate::rows::BoundRow;
use std::alloc::{AllocError, Global};
use step_trace::{Gap, ProcSet, Trace, step_of};

/// What is known of the gaps of each processor after a step.
#[derive(Debug, Drop)]
pub(crate) struct Paces {
    // For each processor the tick of its next step: one after the last if there is none. The entry of number 0, which
    // is no processor, is 0.
    next_steps: Vec<u64>,
    // For each processor the bound that its gaps from its next step on leave possible.
    bounds: Vec<LeastBound<Gap>>,
}

impl Paces {
    /// What is known after the last step.
    pub(crate) fn after_all(alloc: Global, trace: &Trace) -> Result<Self, AllocError>
        ensures { IfOk result (λ paces. KnowsPaces trace.now (length trace.now.steps) paces) }
    {
        let processors = trace.config().n() as usize + 1;
        let mut next_steps = copies(alloc, trace.last_tick() + 1, processors)?;
        next_steps[0] = 0;
        Ok(Paces {
            next_steps,
            bounds: copies(alloc, LeastBound::without_evidence(), processors)?,
        })
    }

    /// Goes back over a step.
    pub(crate) fn step_back(&mut self, trace: &Trace, no: u64)
        requires low { 1 ≤ no }
        requires high { no ≤ length trace.now.steps }
        requires known { KnowsPaces trace.now no self.old }
        ensures { KnowsPaces trace.now (no - 1) self.new }
    {
        let proc = step_of(trace, no).proc;
        let tick = trace.tick(no);
        self.bounds[proc as usize] = self.bound_from(proc, tick + 1);
        self.next_steps[proc as usize] = tick;
    }

    /// The bound of a processor, with the gap from tick `from` to before its next step.
    pub(crate) fn bound_from(&self, proc: u64, from: u64) -> LeastBound<Gap>
        requires proc { proc < length self.now.bounds.items }
        requires next { proc < length self.now.next_steps.items }
        requires limit { slice_index self.now.next_steps.items proc ≤ MAX_TICKS + 1 }
        requires from { 1 ≤ from }
        ensures { result ≡ bound_from self.now proc from }
    {
        let until = self.next_steps[proc as usize];
        let mut bound = self.bounds[proc as usize];
        let gap = Gap {
            proc,
            from,
            to: until.saturating_sub(1),
        };
        bound.note(gap, until.saturating_sub(from));
        bound
    }

    /// Pushes the row of each member, from the tick back to which the steps are scanned.
    pub(crate) fn push_rows(
        &self,
        trace: &Trace,
        set: ProcSet,
        at: u64,
        rows: &mut Vec<BoundRow>,
    ) -> Result<(), AllocError>
        requires within { IsWithin set trace.now.config.n }
        requires start { 1 ≤ at }
        requires end { at ≤ trace.now.last + 1 }
        requires known { KnowsPacesFrom trace.now at self.now }
        requires none { rows.old.items ≡ [] }
        ensures { OnOk result (ListsBefore set trace.now at RECEIVERS rows.new.items) }
    {
        for proc in 1..trace.config().n() + 1 {
            if set.contains(proc) {
                let bound = self.bound_from(proc, at);
                rows.push(BoundRow::Phi { proc, bound })?;
            }
        }
        Ok(())
    }
}
