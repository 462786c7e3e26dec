//! The levels of a whole trace.

ghost use Rattle.std.specs.Prelude.{◌≡◌, ◌∷◌, [], ◌+◌, ◌-◌, ◌<◌, ◌≤◌, length, Some};
ghost use Rattle.std.specs.Prelude.{slice_get, IfOk, OnOk, OnErr, IsTrue};
ghost use Rattle.step_trace.specs.declared.traces.TheConstants.{MAX_TICKS};
ghost use Rattle.step_trace.specs.Processors.{IsWithin};
ghost use Rattle.suffix_staircase.specs.Analysis.{AreLevels};
ghost use Rattle.suffix_staircase.specs.Levels.{CanStandBefore, IsStaircase, begins, repeated};
ghost use Rattle.suffix_staircase.specs.Levels.{starts, rows_of, AreStarts};

use crate::backward_pass::Pass;
use crate::levels::Level;
use crate::stretches::{Stretch, height, level_at, put_before, repeat_first, row_at};
use std::alloc::{AllocError, Global};
use std::marker::Model;
use step_trace::{ProcSet, Row, Trace};

/// The level of each tick g of a trace, from 1 to its last. Neither bound rises with g, and a bound that
/// stays keeps its witness.
///
/// It keeps one record for each stretch of levels of equal bounds.
#[derive(Debug, Drop)]
pub struct Stairs {
    stretches: Vec<Stretch>,
}

impl Model for Stairs {
    ghost use Rattle.std.specs.Prelude.{List};
    ghost use Rattle.suffix_staircase.specs.declared.levels.Level.{Level};

    ghost Value = { List Level };

    ghost use Rattle.suffix_staircase.specs.Stretches.{levels_of, AreStairs};

    ghost view = { λ a. levels_of a.stretches.items };

    ghost invariant = { λ a. AreStairs a.stretches.items };
}

impl Stairs {
    /// The level of each tick of a trace, if the members of a set count as correct: the least bounds of section 2
    /// of the 1988 paper from that tick on, and their named witnesses.
    ///
    /// One pass from the last tick to the first, in time that grows with the ticks, the steps, the ids in them
    /// and, for some steps, the processors. Fails only if out of memory.
    pub fn of_trace(alloc: Global, trace: &Trace, set: ProcSet) -> Result<Stairs, AllocError>
        requires { IsWithin set trace.now.config.n }
        ensures { IfOk result (λ stairs. AreLevels set trace.now stairs) }
    {
        let mut pass = Pass::after_all(alloc, trace, set)?;
        let mut builder = StairBuilder::new(alloc);
        pass.all_back(trace, &mut builder)?;
        Ok(builder.build())
    }

    /// The number of its levels, and so of the trace's ticks.
    pub fn len(&self) -> usize
        ensures value { result ≡ length self.now }
        ensures limit { result ≤ MAX_TICKS }
        ensures falling { IsStaircase self.now }
    {
        height(&self.stretches) as usize
    }

    /// The level of tick `g`.
    pub fn at(&self, g: u64) -> Level
        requires low { 1 ≤ g }
        requires high { g ≤ length self.now }
        ensures { slice_get self.now (g - 1) ≡ Some result }
    {
        level_at(&self.stretches, g)
    }

    /// The start of number `i`, counted from 0 in rising order. A start is a tick that is 1, or one
    /// whose level has another bound than the tick before. Takes no memory.
    pub fn start(&self, i: usize) -> Option<u64>
        ensures value { result ≡ slice_get (starts self.now) i }
        ensures starts { AreStarts self.now (starts self.now) }
    {
        self.row(i).map(|row| row.gst)
    }

    /// The row of the start of number `i`: the start, with its level. Takes no memory.
    pub fn row(&self, i: usize) -> Option<Row>
        ensures { result ≡ slice_get (rows_of self.now) i }
    {
        row_at(&self.stretches, i)
    }
}

/// Stairs that are built from their last level to their first.
#[derive(Debug, Drop)]
pub struct StairBuilder {
    stairs: Stairs,
}

impl Model for StairBuilder {
    ghost use Rattle.std.specs.Prelude.{List};
    ghost use Rattle.suffix_staircase.specs.declared.levels.Level.{Level};

    ghost Value = { List Level };

    ghost view = { λ a. a.stairs };
}

impl StairBuilder {
    /// No level yet. Takes no memory.
    pub fn new(alloc: Global) -> Self
        ensures { result ≡ [] }
    {
        StairBuilder {
            stairs: Stairs {
                stretches: Vec::new(alloc),
            },
        }
    }

    /// Puts a level before those so far, which it may not be below: neither bound is below that of the current
    /// first level, and an equal bound has the same witness. Takes memory only if one of the bounds differs from
    /// that of the current first level.
    pub fn lower(&mut self, level: Level) -> Result<(), AllocError>
        requires room { length self.old < MAX_TICKS }
        requires falling { CanStandBefore level self.old }
        ensures ok { OnOk result (self.new ≡ level ∷ self.old) }
        ensures err { OnErr result (self.new ≡ self.old) }
        ensures more { OnErr result (IsTrue (begins level self.old)) }
    {
        put_before(&mut self.stairs.stretches, level)
    }

    /// Puts the current first level before the others so many times more, in time that doesn't grow with their
    /// number; without a first level, it changes nothing. Takes no memory.
    pub fn repeat(&mut self, count: u64)
        requires room { length self.old + count ≤ MAX_TICKS }
        ensures { self.new ≡ repeated count self.old }
    {
        repeat_first(&mut self.stairs.stretches, count);
    }

    /// The stairs of these levels. Takes no memory.
    pub fn build(self) -> Stairs
        ensures { result ≡ self }
    {
        self.stairs
    }
}
