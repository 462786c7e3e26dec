//! The backward pass: from the last tick to the first, the level of each tick from that of the next.
//!
//! Steps are scanned by falling number. A scanned Send adds at most one miss that counts, the last one of its
//! message; a scanned tick adds one gap, the longest that begins there. An equal length keeps the witness that
//! comes later.

ghost use Rattle.std.specs.Prelude.{◌≡◌, ◌+◌, ◌-◌, ◌<◌, ◌≤◌, length, slice_index, IfOk, OnOk};
ghost use Rattle.step_trace.specs.declared.traces.TheConstants.{MAX_TICKS};
ghost use Rattle.step_trace.specs.Processors.{IsWithin};
ghost use Rattle.step_trace.specs.Ticks.{tick_of, IsTimed};
ghost use Rattle.suffix_staircase.specs.Levels.{StandsBefore};
ghost use Rattle.suffix_staircase.specs.Analysis.{AreLevels, KnowsStepsAfter, KnowsTicksFrom, KnowsGaps};
ghost use Rattle.suffix_staircase.specs.Analysis.{AreIdleUpTo, with_miss, with_gap};

use crate::levels::Level;
use crate::next_steps::NextSteps;
use crate::receives::Receives;
use crate::staircases::StairBuilder;
use std::alloc::{AllocError, Global};
use step_trace::{Gap, Miss, ProcSet, Trace, step_of};

/// What is known of the scanned steps of a trace, from the last one back, and of the ticks.
#[derive(Debug, Drop)]
pub(crate) struct Pass {
    set: ProcSet,
    receives: Receives,
    next_steps: NextSteps,
    // The level of the tick that was scanned last, with the misses of the steps since.
    level: Level,
}

impl Pass {
    /// A pass that has scanned no step.
    pub(crate) fn after_all(alloc: Global, trace: &Trace, set: ProcSet) -> Result<Self, AllocError>
        ensures steps { IfOk result
            (λ p. KnowsStepsAfter set trace.now (length trace.now.steps) p) }
        ensures gaps { IfOk result
            (λ p. KnowsGaps set trace.now (trace.now.last + 1) p.level.phi p.level.gap) }
    {
        Ok(Pass {
            set,
            receives: Receives::after_all(alloc, trace)?,
            next_steps: NextSteps::after_all(alloc, trace, set)?,
            level: Level {
                delta: 1,
                miss: None,
                phi: 1,
                gap: None,
            },
        })
    }

    /// Goes back over the whole trace, and puts the level of each tick before those so far, of which there
    /// are none.
    pub(crate) fn all_back(
        &mut self,
        trace: &Trace,
        builder: &mut StairBuilder,
    ) -> Result<(), AllocError>
        requires within { IsWithin self.old.set trace.now.config.n }
        requires known { KnowsTicksFrom self.old.set trace.now (length trace.now.steps)
            (trace.now.last + 1) self.old builder.old }
        ensures levels { OnOk result (AreLevels self.old.set trace.now builder.new) }
    {
        let len = trace.len() as u64;
        let mut tick = self.ticks_back(trace, len, trace.last_tick(), builder)?;
        for no in (1..len + 1).rev() {
            self.step_back(trace, no, tick);
            tick = self.ticks_back(trace, no - 1, tick, builder)?;
        }
        Ok(())
    }

    /// Goes back over a step, which is in this tick. One of another processor changes nothing.
    fn step_back(&mut self, trace: &Trace, no: u64, tick: u64)
        requires low { 1 ≤ no }
        requires high { no ≤ length trace.now.steps }
        requires tick { tick ≡ tick_of trace.now no }
        requires timed { IsTimed trace.now }
        requires known { KnowsStepsAfter self.old.set trace.now no self.old }
        ensures known { KnowsStepsAfter self.old.set trace.now (no - 1) self.new }
        ensures falling { StandsBefore self.new.level self.old.level }
        ensures phi { self.new.level.phi ≡ self.old.level.phi }
        ensures gap { self.new.level.gap ≡ self.old.level.gap }
    {
        if !self.set.contains(step_of(trace, no).proc) {
            return;
        }
        let missed = self.receives.step_back(trace, self.set, no);
        self.next_steps.step_back(trace, self.set, no, tick);
        let long = trace.tick_at(missed).saturating_sub(tick);
        note_miss(&mut self.level, Miss { sent: no, missed }, long);
    }

    /// Scans the ticks back from `high` to the one after that of step `done`, between which there is no step, and
    /// puts their levels before those so far. Gives the tick of that step.
    fn ticks_back(
        &mut self,
        trace: &Trace,
        done: u64,
        high: u64,
        builder: &mut StairBuilder,
    ) -> Result<u64, AllocError>
        requires done { done ≤ length trace.now.steps }
        requires timed { IsTimed trace.now }
        requires within { IsWithin self.old.set trace.now.config.n }
        requires idle { AreIdleUpTo trace.now done high }
        requires known { KnowsTicksFrom self.old.set trace.now done
            (high + 1) self.old builder.old }
        ensures known { OnOk result
            (KnowsTicksFrom self.old.set trace.now done (tick_of trace.now done + 1) self.new
            builder.new) }
        ensures tick { IfOk result (λ tick. tick ≡ tick_of trace.now done) }
    {
        let tick = trace.tick_at(done);
        for g in (tick + 1..high + 1).rev() {
            builder.lower(self.tick_back(g))?;
        }
        Ok(tick)
    }

    /// The level of a tick whose steps are scanned.
    fn tick_back(&mut self, g: u64) -> Level
        requires low { 1 ≤ g }
        requires positive { 1 ≤ self.old.level.phi }
        requires latest { self.old.next_steps.latest < length
            self.old.next_steps.by_processor.items }
        ensures level { result ≡ with_gap self.old.level self.old.next_steps.latest g
            (slice_index self.old.next_steps.by_processor.items self.old.next_steps.latest) }
        ensures kept { self.new.level ≡ result }
        ensures set { self.new.set ≡ self.old.set }
        ensures receives { self.new.receives ≡ self.old.receives }
        ensures next_steps { self.new.next_steps ≡ self.old.next_steps }
    {
        let until = self.next_steps.until();
        note_gap(&mut self.level, self.next_steps.latest(), g, until);
        self.level
    }
}

/// Takes a miss of this length, in ticks, into the level, if its bound allows no such miss.
pub fn note_miss(level: &mut Level, miss: Miss, long: u64)
    requires { long ≤ MAX_TICKS }
    ensures { level.new ≡ with_miss level.old miss long }
{
    if level.delta <= long {
        level.delta = long + 1;
        level.miss = Some(miss);
    }
}

/// Takes the gap of `proc` from tick `from` to before tick `until` into the level, if its bound allows no such
/// gap. None is taken if `until` isn't after `from`.
pub fn note_gap(level: &mut Level, proc: u64, from: u64, until: u64)
    requires positive { 1 ≤ level.old.phi }
    requires from { 1 ≤ from }
    ensures { level.new ≡ with_gap level.old proc from until }
{
    if level.phi <= until.saturating_sub(from) {
        level.phi = until - from + 1;
        level.gap = Some(Gap {
            proc,
            from,
            to: until - 1,
        });
    }
}
