//! The first steps of a list, as if no further ones were behind them.

ghost use Rattle.std.specs.Prelude.{◌≡◌, ◌≤◌, length, option_copied};
ghost use Rattle.step_trace.specs.Traces.{step_at};
ghost use Rattle.step_trace.specs.Ticks.{tick_at};

use crate::placed_steps::PlacedSteps;
use crate::steps::Step;
use std::marker::Model;

/// The steps of a list up to one of them, with their ticks: those after it are not looked at.
#[derive(Drop)]
pub(crate) struct StepsSoFar<'a> {
    placed: &'a PlacedSteps,
    count: usize,
}

impl<'a> Model for StepsSoFar<'a> {
    ghost use Rattle.std.specs.Prelude.{◌≤◌, length, take};
    ghost use Rattle.step_trace.specs.PlacedSteps.{Ticked};

    ghost Value = { Ticked };

    ghost view = { λ a.
        record {
          steps = take a.count a.placed.now.steps;
          ticks =
              take a.count a.placed.now.ticks;
        } };

    ghost invariant = { λ a. a.count ≤ length a.placed.now.steps };
}

impl<'a> StepsSoFar<'a> {
    ghost use Rattle.std.specs.Prelude.{take};

    /// The first so many steps of these.
    pub(crate) fn first(placed: &'a PlacedSteps, count: usize) -> Self
        requires { count ≤ length placed.now.steps }
        ensures { result ≡ record {
          steps = take count placed.now.steps;
          ticks = take count placed.now.ticks;
        } }
    {
        StepsSoFar { placed, count }
    }

    /// All of these.
    pub(crate) fn all(placed: &'a PlacedSteps) -> Self
        ensures { result ≡ placed.now }
    {
        let count = placed.len();
        StepsSoFar { placed, count }
    }

    /// The number of the steps.
    pub(crate) fn len(&self) -> usize
        ensures { result ≡ length self.now.steps }
    {
        self.count
    }

    /// The step of this number, if there is one.
    pub(crate) fn step(&self, no: u64) -> Option<&Step>
        ensures { option_copied result ≡ step_at self.now.steps no }
    {
        if no > self.count as u64 {
            return None;
        }
        self.placed.step(no)
    }

    /// The tick of the step of this number; 0 if there is no such step.
    pub(crate) fn tick(&self, no: u64) -> u64
        ensures { result ≡ tick_at self.now.ticks no }
    {
        if no > self.count as u64 {
            return 0;
        }
        self.placed.tick(no)
    }
}
