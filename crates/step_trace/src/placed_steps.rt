//! The steps of a trace in the order of real time, each with its tick.

ghost use Rattle.std.specs.Prelude.{◌≡◌, ◌++◌, ◌∷◌, [], ◌≤◌, ◌<◌, ◌+◌, ◌%◌, ◌↔◌, ℕ, length, vec_len};
ghost use Rattle.std.specs.Prelude.{option_copied, OnOk, OnErr, IfOk, IsTrue, List};
ghost use Rattle.step_trace.specs.declared.traces.TheConstants.{MAX_STEPS};
ghost use Rattle.step_trace.specs.declared.steps.Step.{Step};
ghost use Rattle.step_trace.specs.Steps.{act_ids};
ghost use Rattle.step_trace.specs.Traces.{step_at};
ghost use Rattle.step_trace.specs.Ticks.{tick_at};
ghost use Rattle.step_trace.specs.PlacedSteps.{at_number};
ghost use Rattle.step_trace.specs.Pages.{BeginAlike};
ghost use Rattle.step_trace.specs.declared.paged_lists.TheConstants.{PAGE_LEN};

use crate::paged_lists::{PAGE_LEN, PagedList};
use crate::steps::Step;
use crate::tick_lists::TickList;
use std::alloc::{AllocError, Global};
use std::marker::Model;

/// Steps, numbered from 1, with their ticks; copies share the full pages of steps.
#[derive(Debug, Drop)]
pub(crate) struct PlacedSteps {
    steps: PagedList<Step>,
    ticks: TickList,
}

impl Model for PlacedSteps {
    ghost use Rattle.std.specs.Prelude.{◌≡◌, length};
    ghost use Rattle.step_trace.specs.PlacedSteps.{Ticked};

    ghost Value = { Ticked };

    ghost use Rattle.step_trace.specs.TickLists.{all_ticks};

    ghost view = { λ a. record { steps = a.steps; ticks = all_ticks a.ticks } };

    ghost invariant = { λ a. length (all_ticks a.ticks) ≡ length a.steps };
}

impl PlacedSteps {
    /// No steps. Takes no memory.
    pub(crate) fn new(alloc: Global) -> Self
        ensures { result ≡ record { steps = []; ticks = [] } }
    {
        PlacedSteps {
            steps: PagedList::new(alloc),
            ticks: TickList::new(alloc),
        }
    }

    /// The number of the steps.
    pub(crate) fn len(&self) -> usize
        ensures steps { result ≡ length self.now.steps }
        ensures ticks { result ≡ length self.now.ticks }
        ensures limit { result ≤ MAX_STEPS }
    {
        self.steps.len()
    }

    /// The step of this number, if there is one.
    pub(crate) fn step(&self, no: u64) -> Option<&Step>
        ensures { option_copied result ≡ step_at self.now.steps no }
    {
        if no == 0 {
            return None;
        }
        self.steps.get(no as usize - 1)
    }

    /// The tick of the step of this number; 0 if there is no such step.
    pub(crate) fn tick(&self, no: u64) -> u64
        ensures { result ≡ tick_at self.now.ticks no }
    {
        self.ticks.tick(no)
    }

    /// Whether another list has the same at this number: one step, in one tick; or both none.
    pub(crate) fn is_same_at(&self, other: &PlacedSteps, no: u64) -> bool
        ensures { IsTrue result ↔ (at_number self.now no ≡ at_number other.now no) }
    {
        match (self.step(no), other.step(no)) {
            (Some(here), Some(there)) => self.tick(no) == other.tick(no) && here.is_same(there),
            (None, None) => true,
            _ => false,
        }
    }

    /// How many steps, from the first on, another list has too, in the same ticks: at most those of the full pages
    /// before the first different page.
    pub(crate) fn same_pages(&self, other: &PlacedSteps) -> usize
        ensures inside { result ≤ length other.now.steps }
        ensures steps { (k : ℕ) → k ≤ result
            → step_at self.now.steps k ≡ step_at other.now.steps k }
        ensures ticks { (k : ℕ) → k ≤ result
            → tick_at self.now.ticks k ≡ tick_at other.now.ticks k }
    {
        let same = same_pages(&self.steps, &other.steps);
        self.ticks.same_first(&other.ticks, same as u64) as usize
    }

    /// Appends a step, for which there is room, in this tick.
    ///
    /// Fails only if out of memory, and then the step is gone.
    pub(crate) fn push(&mut self, step: Step, tick: u32) -> Result<(), AllocError>
        requires { length self.old.steps < MAX_STEPS }
        ensures ok { OnOk result
            (self.new ≡ record {
              steps = self.old.steps ++ step ∷ [];
              ticks = self.old.ticks ++ tick ∷ [];
            }) }
        ensures err { OnErr result (self.new ≡ self.old) }
    {
        self.ticks.reserve(tick)?;
        self.steps.push(step)?;
        self.ticks.push_reserved(tick);
        Ok(())
    }

    /// These steps and a page of further ones, each in its tick, where a page of these ends. The page is taken
    /// unchanged.
    ///
    /// Fails only if out of memory.
    pub(crate) fn with_page(self, steps: Vec<Step>, ticks: &[u32]) -> Result<Self, AllocError>
        requires full { vec_len steps ≡ PAGE_LEN }
        requires each { length ticks.now ≡ PAGE_LEN }
        requires ends { length self.steps % PAGE_LEN ≡ 0 }
        requires room { length self.steps + PAGE_LEN ≤ MAX_STEPS }
        ensures { IfOk result
            (λ longer. longer ≡ record {
              steps = self.steps ++ steps.items;
              ticks = self.ticks ++ ticks.now;
            }) }
    {
        let PlacedSteps {
            steps: mut all_steps,
            ticks: mut all_ticks,
        } = self;
        all_ticks.extend(ticks)?;
        all_steps.push_page(steps)?;
        Ok(PlacedSteps {
            steps: all_steps,
            ticks: all_ticks,
        })
    }

    /// The ids that the last step takes; none if there is no step.
    pub(crate) fn last_ids(&self) -> &[u64]
        ensures { (steps : List Step) (x : Step) → self.now.steps ≡ steps ++ x ∷ []
            → result.now ≡ act_ids x.act }
    {
        match self.step(self.steps.len() as u64) {
            Some(step) => step.act.ids(),
            None => &[],
        }
    }

    /// Equal steps, which share the full pages.
    pub(crate) fn copy(&self) -> Result<Self, AllocError>
        ensures { IfOk result (λ copy. copy ≡ self.now) }
    {
        Ok(PlacedSteps {
            steps: self.steps.copy()?,
            ticks: self.ticks.copy()?,
        })
    }
}

/// How many items of the first one's full pages the other has too, up to the first page that is another one.
fn same_pages(one: &PagedList<Step>, other: &PagedList<Step>) -> usize
    ensures inside { result ≤ length other.now }
    ensures same { BeginAlike one.now other.now result }
{
    let pages = one.len() / PAGE_LEN;
    for q in 0..pages {
        let (Some(here), Some(there)) = (one.page(q), other.page(q)) else {
            return q * PAGE_LEN;
        };
        if !is_same_page(here, there) {
            return q * PAGE_LEN;
        }
    }
    pages * PAGE_LEN
}

/// Whether two pages have the same at each place.
fn is_same_page(one: &[Step], other: &[Step]) -> bool
    ensures { IsTrue result → BeginAlike one.now other.now PAGE_LEN }
{
    for r in 0..PAGE_LEN {
        if !are_same(one.get(r), other.get(r)) {
            return false;
        }
    }
    true
}

/// Whether there are the same: one step; or both none.
fn are_same(one: Option<&Step>, other: Option<&Step>) -> bool
    ensures { IsTrue result ↔ (option_copied one.entry ≡ option_copied other.entry) }
{
    match (one, other) {
        (Some(here), Some(there)) => here.is_same(there),
        (None, None) => true,
        _ => false,
    }
}
