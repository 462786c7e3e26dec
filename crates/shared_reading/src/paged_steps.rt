//! Steps that no trace has yet, in pages.

ghost use Rattle.std.specs.Prelude.{◌≡◌, [], ◌++◌, ◌∷◌, IfOk, OnOk, OnErr, IfErr, Ok, All};
ghost use Rattle.step_trace.specs.AppendedSteps.{appended, IsStepRefusal};
ghost use Rattle.shared_reading.specs.PagedSteps.{IsPaired, steps_of, ticks_of};

use std::alloc::{AllocError, Global};
use std::marker::Model;
use std::mem;
use step_trace::{LooseSteps, PAGE_STEPS, Step, StepRefused, Trace};

/// Steps, each with its tick, that are cut at the pages of a trace: so the trace takes a full page unchanged.
#[derive(Drop)]
pub(crate) struct PagedSteps {
    // (the first may begin within a page of the trace)
    full: Vec<LooseSteps>,
    // The page that is being filled.
    last: LooseSteps,
}

impl Model for PagedSteps {
    ghost use Rattle.step_trace.specs.PlacedSteps.{Ticked};
    ghost use Rattle.shared_reading.specs.PagedSteps.{joined, ArePaired};

    ghost Value = { Ticked };

    ghost view = { λ a. joined a.full.items a.last };

    ghost invariant = { λ a. ArePaired a.full.items a.last };
}

impl PagedSteps {
    /// No steps.
    pub(crate) fn new(alloc: Global) -> Result<PagedSteps, AllocError>
        ensures { IfOk result (λ none. none ≡ record { steps = []; ticks = [] }) }
    {
        Ok(PagedSteps {
            full: Vec::new(alloc),
            last: LooseSteps::new(alloc)?,
        })
    }

    /// Adds the step of this number, in this tick. Fails only if out of memory, and then the step is gone.
    pub(crate) fn push(
        &mut self,
        alloc: Global,
        no: u64,
        tick: u32,
        step: Step,
    ) -> Result<(), AllocError>
        ensures ok { OnOk result
            (self.new ≡ record {
              steps = self.old.steps ++ step ∷ [];
              ticks = self.old.ticks ++ tick ∷ [];
            }) }
        ensures err { OnErr result (self.new ≡ self.old) }
    {
        self.cut_before(alloc, no)?;
        self.last.push(tick, step)
    }

    /// Begins a page, where a page of a trace begins with the step of this number.
    fn cut_before(&mut self, alloc: Global, no: u64) -> Result<(), AllocError>
        ensures { self.new ≡ self.old }
    {
        if no % PAGE_STEPS as u64 != 1 {
            return Ok(());
        }
        self.full.reserve(1)?;
        let full = mem::replace(&mut self.last, LooseSteps::new(alloc)?);
        self.full.push_reserved(full);
        Ok(())
    }

    /// The trace with these steps behind its own, as `Trace::with_steps` appends them.
    pub(crate) fn append_to(self, trace: Trace) -> Result<Trace, StepRefused>
        ensures appended { IfOk result
            (λ longer. appended trace self.steps self.ticks ≡ Ok longer) }
        ensures refused { IfErr result (IsStepRefusal (appended trace self.steps self.ticks)) }
    {
        let PagedSteps { full, last } = self;
        append_pages(trace, full)?.with_steps(last)
    }
}

/// The trace with the steps of these pages behind its own.
fn append_pages(trace: Trace, pages: Vec<LooseSteps>) -> Result<Trace, StepRefused>
    requires { All IsPaired pages.items }
    ensures appended { IfOk result
        (λ longer. appended trace (steps_of pages.items) (ticks_of pages.items) ≡ Ok longer) }
    ensures refused { IfErr result
        (IsStepRefusal (appended trace (steps_of pages.items) (ticks_of pages.items))) }
{
    let mut trace = trace;
    for page in pages {
        trace = trace.with_steps(page)?;
    }
    Ok(trace)
}
