//! Steps that a trace has taken unchanged, and that are checked after that, one after the other.

ghost use Rattle.std.specs.Prelude.{◌≡◌, ◌<◌, ◌+◌, ℕ, length, OnOk, IfErr};
ghost use Rattle.step_trace.specs.AppendedSteps.{IsStepRefusal};
ghost use Rattle.step_trace.specs.UncheckedSteps.{IsChecked, IsLeft, unchecked};

use crate::configurations::Config;
use crate::delivery_index::append_flag;
use crate::loose_steps::StepRefused;
use crate::placed_steps::PlacedSteps;
use crate::push_refusals::step_refusal;
use crate::steps_so_far::StepsSoFar;
use crate::traces::PushError;

/// A trace of which only the first steps were checked: those for which there is a flag.
#[derive(Drop)]
pub(crate) struct Unchecked {
    pub(crate) config: Config,
    pub(crate) placed: PlacedSteps,
    /// The tick of the last step that was checked.
    pub(crate) last: u64,
    /// For each step that was checked, whether the message of its number was taken.
    pub(crate) taken: Vec<bool>,
}

impl Unchecked {
    /// Checks all steps.
    pub(crate) fn check_all(&mut self) -> Result<(), StepRefused>
        requires sound { IsChecked self.old }
        ensures sound { OnOk result (IsChecked self.new) }
        ensures all { OnOk result (length self.new.taken.items ≡ length self.old.placed.steps) }
        ensures config { self.new.config ≡ self.old.config }
        ensures placed { self.new.placed ≡ self.old.placed }
        ensures leads { OnOk result (unchecked self.new ≡ unchecked self.old) }
        ensures refused { IfErr result (IsStepRefusal (unchecked self.old)) }
        ensures reached { IfErr result (λ e. IsLeft self.old e.no) }
    {
        while self.taken.len() < self.placed.len() {
            self.check_next()?;
        }
        Ok(())
    }

    /// Checks the next step.
    fn check_next(&mut self) -> Result<(), StepRefused>
        requires sound { IsChecked self.old }
        requires more { length self.old.taken.items < length self.old.placed.steps }
        ensures sound { OnOk result (IsChecked self.new) }
        ensures next { OnOk result (length self.new.taken.items ≡ length self.old.taken.items + 1) }
        ensures config { self.new.config ≡ self.old.config }
        ensures placed { self.new.placed ≡ self.old.placed }
        ensures leads { OnOk result (unchecked self.new ≡ unchecked self.old) }
        ensures refused { IfErr result (IsStepRefusal (unchecked self.old)) }
        ensures reached { IfErr result (λ e. IsLeft self.old e.no) }
        ensures later { OnOk result ((no : ℕ) → IsLeft self.new no → IsLeft self.old no) }
    {
        let count = self.taken.len();
        let no = count as u64 + 1;
        let Some(step) = self.placed.step(no) else {
            unreachable!();
        };
        let tick = self.placed.tick(no);
        let so_far = StepsSoFar::first(&self.placed, count);
        let refusal = step_refusal(&self.config, &so_far, self.last, &self.taken, tick, step);
        if let Some(why) = refusal {
            return Err(StepRefused { no, why });
        }
        let Ok(()) = self.taken.reserve(1) else {
            let why = PushError::Memory;
            return Err(StepRefused { no, why });
        };
        append_flag(&mut self.taken, step.act.ids());
        self.last = tick;
        Ok(())
    }
}
