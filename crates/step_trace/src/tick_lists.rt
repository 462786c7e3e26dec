//! The ticks of the steps of a trace.

ghost use Rattle.std.specs.Prelude.{◌≡◌, ◌++◌, ◌∷◌, [], ◌≤◌, ◌↔◌, ℕ, IfOk, OnOk, IsTrue};
ghost use Rattle.step_trace.specs.Ticks.{tick_at};
ghost use Rattle.step_trace.specs.TickLists.{all_ticks, HasRoom, IsNextNumber};

use crate::paged_lists::item_at;
use std::alloc::{AllocError, Global};

/// The tick of each step, in the order of their numbers, which begin with 1.
#[derive(Debug, Drop)]
pub(crate) struct TickList {
    // So many of the first steps are in the tick of their own number: these take no memory.
    by_number: u32,
    // The ticks of the steps after them.
    others: Vec<u32>,
}

impl TickList {
    /// No ticks. Takes no memory.
    pub(crate) fn new(alloc: Global) -> Self
        ensures { all_ticks result ≡ [] }
    {
        TickList {
            by_number: 0,
            others: Vec::new(alloc),
        }
    }

    /// The tick of the step of this number; 0 if there is no such step.
    pub(crate) fn tick(&self, no: u64) -> u64
        ensures { result ≡ tick_at (all_ticks self.now) no }
    {
        let by_number = u64::from(self.by_number);
        if no <= by_number {
            return no;
        }
        match item_at(&self.others, (no - by_number - 1) as usize) {
            Some(tick) => u64::from(*tick),
            None => 0,
        }
    }

    /// Makes room for this tick. Takes memory only if it isn't the number of the next step.
    pub(crate) fn reserve(&mut self, tick: u32) -> Result<(), AllocError>
        ensures same { all_ticks self.new ≡ all_ticks self.old }
        ensures room { OnOk result (HasRoom self.new tick) }
    {
        if self.is_next_number(tick) {
            return Ok(());
        }
        self.others.reserve(1)
    }

    /// Adds the tick of the next step, for which there is room.
    pub(crate) fn push_reserved(&mut self, tick: u32)
        requires { HasRoom self.old tick }
        ensures { all_ticks self.new ≡ all_ticks self.old ++ tick ∷ [] }
    {
        if self.is_next_number(tick) {
            self.by_number = tick;
        } else {
            self.others.push_reserved(tick);
        }
    }

    /// Adds the ticks of the next steps.
    pub(crate) fn extend(&mut self, ticks: &[u32]) -> Result<(), AllocError>
        ensures { OnOk result (all_ticks self.new ≡ all_ticks self.old ++ ticks.now) }
    {
        for tick in ticks {
            self.reserve(*tick)?;
            self.push_reserved(*tick);
        }
        Ok(())
    }

    /// How many steps, from the first on and at most `end`, surely have the tick that they have in another list.
    pub(crate) fn same_first(&self, other: &TickList, end: u64) -> u64
        ensures inside { result ≤ end }
        ensures same { (k : ℕ) → k ≤ result
            → tick_at (all_ticks self.now) k ≡ tick_at (all_ticks other.now) k }
    {
        for no in u64::from(self.by_number.min(other.by_number))..end {
            if self.tick(no + 1) != other.tick(no + 1) {
                return no;
            }
        }
        end
    }

    /// Equal ticks. Takes memory for those that aren't the numbers of their steps.
    pub(crate) fn copy(&self) -> Result<Self, AllocError>
        ensures { IfOk result (λ copy. all_ticks copy ≡ all_ticks self.now) }
    {
        Ok(TickList {
            by_number: self.by_number,
            others: self.others.clone()?,
        })
    }

    /// Whether this tick is the number of the next step, as that of each step so far is.
    fn is_next_number(&self, tick: u32) -> bool
        ensures { IsTrue result ↔ IsNextNumber self.now tick }
    {
        self.others.is_empty() && tick > 0 && tick - 1 == self.by_number
    }
}
