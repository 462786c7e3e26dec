//! Traces that end earlier.

ghost use Rattle.std.specs.Prelude.{◌≡◌, ◌-◌, ◌<◌, ◌≤◌, ℕ, length, IfOk, OnOk};
ghost use Rattle.step_trace.specs.Traces.{Recorded};
ghost use Rattle.step_trace.specs.Ticks.{tick_of, IsTimed, IsTrace};
ghost use Rattle.step_trace.specs.Cuts.{IsCutAt, first_steps};

use crate::steps::Step;
use crate::traces::{PushError, Trace};
use std::alloc::{AllocError, Global};

impl Trace {
    /// The trace up to this tick, as if it ended there: its steps of the ticks 1 to `tick`, with `tick` as its last.
    /// Asks for a tick that isn't above the last one; at tick 0 it has no steps.
    ///
    /// Takes time that grows with the steps that it keeps. Fails only if out of memory.
    pub fn until(&self, alloc: Global, tick: u64) -> Result<Self, AllocError>
        requires { tick ≤ self.now.last }
        ensures cut { IfOk result (IsCutAt self.now tick) }
        ensures sound { IfOk result IsTrace }
        ensures only { IfOk result (λ cut. (other : Recorded) → IsTimed other
            → IsCutAt self.now tick other → other ≡ cut) }
    {
        let count = self.steps_until(tick);
        let mut cut = self.first_steps(alloc, count)?;
        match cut.idle_to(tick) {
            Ok(()) => Ok(cut),
            Err(_) => unreachable!(),
        }
    }

    /// How many of its steps are in this tick or before it: these are its first ones.
    fn steps_until(&self, tick: u64) -> u64
        ensures inside { result ≤ length self.now.steps }
        ensures before { tick_of self.now result ≤ tick }
        ensures after { (k : ℕ) → result < k → k ≤ length self.now.steps
            → tick < tick_of self.now k }
        ensures sound { IsTrace self.now }
    {
        let end = self.len() as u64;
        if self.last_tick() <= tick {
            return end;
        }
        for before in 0..end {
            if self.tick(before + 1) > tick {
                return before;
            }
        }
        end
    }

    /// The trace of so many of its first steps, which ends in the tick of the last of them.
    fn first_steps(&self, alloc: Global, count: u64) -> Result<Self, AllocError>
        requires { count ≤ length self.now.steps }
        ensures { IfOk result (λ front. front ≡ first_steps self.now count) }
    {
        let mut front = Trace::new(alloc, self.config().copy(alloc)?);
        for so_far in 0..count {
            front.take_next(self, so_far + 1)?;
        }
        Ok(front)
    }

    /// Appends the step of this number of another trace, of which it has the ones before.
    fn take_next(&mut self, other: &Trace, no: u64) -> Result<(), AllocError>
        requires low { 1 ≤ no }
        requires high { no ≤ length other.now.steps }
        requires front { self.old ≡ first_steps other.now (no - 1) }
        ensures { OnOk result (self.new ≡ first_steps other.now no) }
    {
        let Some(step) = other.step(no) else {
            unreachable!();
        };
        match self.push_at(other.tick(no), copy_of(step)?) {
            Ok(()) => Ok(()),
            Err(why) => Err(want_of_memory(why)),
        }
    }
}

/// A copy of a step.
fn copy_of(step: &Step) -> Result<Step, AllocError>
    ensures { IfOk result (λ copy. copy ≡ step.now) }
{
    step.clone()
}

/// The refusal of a step that is out of memory.
fn want_of_memory(_why: PushError) -> AllocError
    requires { _why ≡ PushError.Memory }
{
    AllocError
}
