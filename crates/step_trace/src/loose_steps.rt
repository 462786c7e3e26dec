//! Steps that no trace has yet.

ghost use Rattle.std.specs.Prelude.{◌≡◌, [], ◌++◌, ◌∷◌, ◌+◌, length, IfOk, OnOk, IfErr, OnErr, Ok, None};
ghost use Rattle.step_trace.specs.AppendedSteps.{appended, unless_refused, IsReached, IsStepRefusal};
ghost use Rattle.step_trace.specs.Ticks.{with_step};
ghost use Rattle.step_trace.specs.TickRefusals.{refusal_in};

use crate::paged_lists::PAGE_LEN;
use crate::steps::Step;
use crate::traces::{MAX_STEPS, PushError, Trace};
use std::alloc::{AllocError, Global};
use std::marker::Model;

/// Steps that no trace has yet, each with the tick in which it is to be, and with room for a page of them.
#[derive(Drop)]
pub struct LooseSteps {
    pub(crate) steps: Vec<Step>,
    pub(crate) ticks: Vec<u32>,
}

impl Model for LooseSteps {
    ghost use Rattle.std.specs.Prelude.{◌≡◌, length};
    ghost use Rattle.step_trace.specs.PlacedSteps.{Ticked};

    ghost Value = { Ticked };

    ghost view = { λ a. record { steps = a.steps.items; ticks = a.ticks.items } };

    ghost invariant = { λ a. length a.ticks.items ≡ length a.steps.items };
}

/// The step that a trace refuses.
#[derive(Clone, Copy, Debug, PartialEq, Eq)]
pub struct StepRefused {
    /// The number that it would have.
    pub no: u64,
    /// Why it is refused.
    pub why: PushError,
}

impl LooseSteps {
    /// No steps, with room for those of a page.
    pub fn new(alloc: Global) -> Result<Self, AllocError>
        ensures { IfOk result (λ none. none ≡ record { steps = []; ticks = [] }) }
    {
        Ok(LooseSteps {
            steps: Vec::with_capacity(alloc, PAGE_LEN)?,
            ticks: Vec::with_capacity(alloc, PAGE_LEN)?,
        })
    }

    /// The number of the steps.
    pub fn len(&self) -> usize
        ensures { result ≡ length self.now.steps }
    {
        self.steps.len()
    }

    /// Adds a step, in this tick. Fails only if out of memory, and then the step is gone.
    pub fn push(&mut self, tick: u32, step: Step) -> Result<(), AllocError>
        ensures ok { OnOk result
            (self.new ≡ record {
              steps = self.old.steps ++ step ∷ [];
              ticks = self.old.ticks ++ tick ∷ [];
            }) }
        ensures err { OnErr result (self.new ≡ self.old) }
    {
        self.steps.reserve(1)?;
        self.ticks.reserve(1)?;
        self.steps.push_reserved(step);
        self.ticks.push_reserved(tick);
        Ok(())
    }
}

impl Trace {
    /// The trace with these steps behind its own, each in its tick, as `push_at` appends one after the other. So many
    /// as a page of the trace has, which begin where one begins, are taken unchanged.
    ///
    /// Refuses the first step that `push_at` refuses, for the same reason, and out of memory at any step up to that
    /// one. The trace is then gone.
    pub fn with_steps(self, steps: LooseSteps) -> Result<Self, StepRefused>
        ensures appended { IfOk result
            (λ longer. appended self steps.steps steps.ticks ≡ Ok longer) }
        ensures refused { IfErr result (IsStepRefusal (appended self steps.steps steps.ticks)) }
        ensures reached { IfErr result (λ e. IsReached self steps.steps steps.ticks e.no) }
    {
        let len = self.len();
        if steps.len() == PAGE_LEN && len % PAGE_LEN == 0 && len + PAGE_LEN <= MAX_STEPS {
            self.with_page(steps)
        } else {
            self.with_each(steps)
        }
    }

    /// The same, step by step.
    fn with_each(self, steps: LooseSteps) -> Result<Self, StepRefused>
        ensures appended { IfOk result
            (λ longer. appended self steps.steps steps.ticks ≡ Ok longer) }
        ensures refused { IfErr result (IsStepRefusal (appended self steps.steps steps.ticks)) }
        ensures reached { IfErr result (λ e. IsReached self steps.steps steps.ticks e.no) }
    {
        let LooseSteps { steps, ticks } = steps;
        let mut trace = self;
        for (tick, step) in ticks.into_iter().zip(steps) {
            trace.push_next(tick, step)?;
        }
        Ok(trace)
    }

    /// Appends a step in this tick, and names it if it is refused.
    fn push_next(&mut self, tick: u32, step: Step) -> Result<(), StepRefused>
        ensures fits { OnOk result (refusal_in self.old tick step ≡ None) }
        ensures appended { OnOk result (self.new ≡ with_step self.old tick step) }
        ensures refused { IfErr result
            (IsStepRefusal (unless_refused (refusal_in self.old tick step)
            (length self.old.steps + 1) (Ok self.old))) }
        ensures no { IfErr result (λ e. e.no ≡ length self.old.steps + 1) }
    {
        let no = self.len() as u64 + 1;
        match self.push_at(u64::from(tick), step) {
            Ok(()) => Ok(()),
            Err(why) => Err(StepRefused { no, why }),
        }
    }
}
