//! The silences of the members of a set, by the ticks in which each of them takes steps.

ghost use Rattle.std.specs.Prelude.{ℕ, ◌≡◌, ◌+◌, ◌≤◌, ◌++◌, ◌∷◌, [], length, IfOk, OnOk};
ghost use Rattle.step_trace.specs.declared.traces.TheConstants.{MAX_TICKS};
ghost use Rattle.certificate_checker.specs.Closings.{IsRaised, PutsEnds};
ghost use Rattle.certificate_checker.specs.Silences.{IsNextStep, IsSilence, KnowsSilences, AreSilences};

use std::alloc::{AllocError, Global};
use step_trace::{ProcSet, Trace, step_of};

/// Where one processor is silent, by the ticks in which it takes steps.
#[derive(Debug, Drop)]
pub(crate) struct Silence {
    // These ticks, in their order.
    ticks: Vec<u32>,
}

impl Silence {
    /// Goes on over a step in this tick.
    fn note(&mut self, tick: u64) -> Result<(), AllocError>
        requires { tick ≤ MAX_TICKS }
        ensures { OnOk result (self.new.ticks.items ≡ self.old.ticks.items ++ tick ∷ []) }
    {
        self.ticks.push(tick as u32)?;
        Ok(())
    }

    /// The first tick from `x` on in which the processor takes a step, or the tick after the last of the trace.
    pub(crate) fn end(&self, trace: &Trace, x: u64) -> u64
        ensures { (p : ℕ) → IsSilence trace.now p self.now → x ≤ trace.now.last
            → IsNextStep trace.now p x result }
    {
        let after = trace.last_tick() + 1;
        let passed = self
            .ticks
            .as_slice()
            .partition_point(|tick| u64::from(*tick) < x);
        if passed < self.ticks.len() {
            u64::from(self.ticks[passed])
        } else {
            after
        }
    }

    /// Puts the end of each silence down in the tick in which it begins, unless a later one is there.
    pub(crate) fn put_ends(&self, trace: &Trace, ends: &mut Vec<u32>)
        requires { length ends.old.items ≡ trace.now.last + 1 }
        ensures { (p : ℕ) → IsSilence trace.now p self.now
            → PutsEnds trace.now p (trace.now.last + 1) ends.old.items ends.new.items }
    {
        let after = trace.last_tick() as u32 + 1;
        let mut from = 0;
        for tick in &self.ticks {
            raise(ends, from, *tick);
            from = u64::from(*tick) + 1;
        }
        raise(ends, from, after);
    }
}

/// Puts a tick down in a place, if it is one, unless a later one is there.
fn raise(ends: &mut Vec<u32>, place: u64, tick: u32)
    ensures { IsRaised place tick ends.old.items ends.new.items }
{
    let place = place as usize;
    if place < ends.len() && ends[place] < tick {
        ends[place] = tick;
    }
}

/// What is known of the members before the first step.
fn before_all(alloc: Global, trace: &Trace) -> Result<Vec<Silence>, AllocError>
    ensures { IfOk result (λ v. (set : ℕ) → KnowsSilences set trace.now 1 v.items) }
{
    let mut found = Vec::new(alloc);
    for _ in 0..trace.config().n() + 1 {
        found.push(Silence {
            ticks: Vec::new(alloc),
        })?;
    }
    Ok(found)
}

/// Goes on over a step.
fn note(silences: &mut Vec<Silence>, trace: &Trace, set: ProcSet, no: u64) -> Result<(), AllocError>
    requires low { 1 ≤ no }
    requires high { no ≤ length trace.now.steps }
    requires known { KnowsSilences set trace.now no silences.old.items }
    ensures { OnOk result (KnowsSilences set trace.now (no + 1) silences.new.items) }
{
    let step = step_of(trace, no);
    if set.contains(step.proc) {
        silences[step.proc as usize].note(trace.tick(no))?;
    }
    Ok(())
}

/// The silences of the members of a set, each in the place of its number.
///
/// It takes memory that grows with the processors and the steps of the members, and not with the ticks.
pub(crate) fn silences(
    alloc: Global,
    trace: &Trace,
    set: ProcSet,
) -> Result<Vec<Silence>, AllocError>
    ensures { IfOk result (λ v. AreSilences set trace.now v.items) }
{
    let mut found = before_all(alloc, trace)?;
    for no in 1..trace.len() as u64 + 1 {
        note(&mut found, trace, set, no)?;
    }
    Ok(found)
}
