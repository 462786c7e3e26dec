//! The tick of the next step of each member, as far as the gaps from a tick on depend on it.
//!
//! Processors are numbered from 1. The entry of number 0 is 0, so that each member comes later.

ghost use Rattle.std.specs.Prelude.{ℕ, ◌≡◌, ◌+◌, ◌-◌, ◌<◌, ◌≤◌, length, IfOk, IsTrue, Some, slice_index};
ghost use Rattle.step_trace.specs.declared.steps.Step.{Step};
ghost use Rattle.step_trace.specs.Processors.{has_proc};
ghost use Rattle.step_trace.specs.Traces.{step_at};
ghost use Rattle.step_trace.specs.Ticks.{tick_of, IsTimed};
ghost use Rattle.suffix_staircase.specs.NextSteps.{AreNextTicks, IsLatest, KnowsNextSteps};

use std::alloc::{AllocError, Global};
use step_trace::{ProcSet, Trace, step_of};

/// What is known of the gaps that begin at a tick: the longest is that of the member whose next step
/// comes last.
#[derive(Debug, Drop)]
pub(crate) struct NextSteps {
    // For each member, the tick of its next step: one after the last if there is none.
    by_processor: Vec<u64>,
    // The member whose next step comes in the last tick, and of these the least: 0 if there is no member.
    latest: u64,
}

impl NextSteps {
    /// What is known after the last step.
    pub(crate) fn after_all(alloc: Global, trace: &Trace, set: ProcSet) -> Result<Self, AllocError>
        ensures { IfOk result (λ n. KnowsNextSteps set trace.now (length trace.now.steps) n) }
    {
        let by_processor = no_next_steps(alloc, trace)?;
        let latest = latest_member(&by_processor, set);
        Ok(NextSteps {
            by_processor,
            latest,
        })
    }

    /// Goes back over a step of a member, which is in this tick.
    pub(crate) fn step_back(&mut self, trace: &Trace, set: ProcSet, no: u64, tick: u64)
        requires low { 1 ≤ no }
        requires high { no ≤ length trace.now.steps }
        requires tick { tick ≡ tick_of trace.now no }
        requires timed { IsTimed trace.now }
        requires member { (x : Step) → (step_at trace.now.steps no ≡ Some x)
            → IsTrue (has_proc set x.proc) }
        requires known { KnowsNextSteps set trace.now no self.old }
        ensures { KnowsNextSteps set trace.now (no - 1) self.new }
    {
        let proc = step_of(trace, no).proc;
        self.by_processor[proc as usize] = tick;
        // Another processor's next step came no later than the latest, and now comes earlier.
        if proc == self.latest {
            self.latest = latest_member(&self.by_processor, set);
        }
    }

    /// The member whose next step comes in the last tick, and of these the least: 0 if there is no member.
    pub(crate) fn latest(&self) -> u64
        ensures { result ≡ self.now.latest }
    {
        self.latest
    }

    /// The tick of its next step.
    pub(crate) fn until(&self) -> u64
        requires { self.now.latest < length self.now.by_processor.items }
        ensures { result ≡ slice_index self.now.by_processor.items self.now.latest }
    {
        self.by_processor[self.latest as usize]
    }
}

/// The next steps from the end of a trace on: each is one after the last tick.
fn no_next_steps(alloc: Global, trace: &Trace) -> Result<Vec<u64>, AllocError>
    ensures { IfOk result (λ n. (set : ℕ)
        → AreNextTicks (λ p. IsTrue (has_proc set p)) trace.now (length trace.now.steps) n.items) }
{
    let processors = trace.config().n() as usize + 1;
    let mut next_steps = vec![in alloc; trace.last_tick() + 1; processors]?;
    next_steps[0] = 0;
    Ok(next_steps)
}

/// The member whose next step comes in the last tick, and of these the least: 0 if there is no member.
fn latest_member(next_steps: &[u64], set: ProcSet) -> u64
    requires some { 0 < length next_steps.now }
    requires zero { slice_index next_steps.now 0 ≡ 0 }
    ensures { IsLatest set next_steps.now (length next_steps.now) result }
{
    let mut latest = 0;
    for p in 1..next_steps.len() {
        if set.contains(p as u64) && next_steps[latest] < next_steps[p] {
            latest = p;
        }
    }
    latest as u64
}
