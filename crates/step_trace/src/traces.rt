//! Well-formed lists of steps under a configuration, each step in its tick.

ghost use Rattle.std.specs.Prelude.{◌≡◌, [], ◌∷◌, ◌≤◌, ◌<◌, length, option_copied, OnOk};
ghost use Rattle.std.specs.Prelude.{OnErr, IfErr, IfOk, IsTrue, ◌↔◌, None, Ok, ◌+◌, ◌%◌, ◌⊎◌, ℕ};

use crate::configurations::Config;
use crate::delivery_index::append_flag;
use crate::loose_steps::{LooseSteps, StepRefused};
use crate::own_steps::own_steps;
use crate::paged_lists::PAGE_LEN;
use crate::placed_steps::PlacedSteps;
use crate::push_refusals::step_refusal;
use crate::steps::Step;
use crate::steps_so_far::StepsSoFar;
use crate::ticks::BadTick;
use crate::unchecked_steps::Unchecked;
use std::alloc::{AllocError, Global};
use std::marker::Model;

/// How many steps a trace may have.
pub const MAX_STEPS: usize = 1_000_000;

/// The greatest tick of a trace.
pub const MAX_TICKS: u64 = 1_000_000;

/// How many steps a full page of a trace has. Its first page begins with step 1.
pub const PAGE_STEPS: usize = PAGE_LEN;

/// Why a step is refused, in the order in which the reasons are tested.
#[derive(Clone, Copy, Debug, PartialEq, Eq)]
pub enum PushError {
    /// The trace has `MAX_STEPS` steps, or there is no tick after its last.
    Full,
    /// The tick is 0, below the last tick, or above `MAX_TICKS`.
    BadTick,
    /// The step is of no processor of the configuration.
    BadProc,
    /// The last step is in the same tick, and not of a smaller processor.
    ProcOrder,
    /// The destination is no processor of the configuration.
    BadDest,
    /// The ids of a Receive don't rise.
    IdsNotRising,
    /// No earlier step of this number is a Send.
    UnknownMessage(u64),
    /// The message of this number was sent to another processor.
    NotAddressed(u64),
    /// The message of this number was sent in this tick.
    SameTick(u64),
    /// The message of this number was taken before.
    Redelivered(u64),
    /// Out of memory for one more step.
    Memory,
}

/// A configuration and a well-formed list of steps, numbered from 1 in the order of real time. Each step is in a tick,
/// which is its moment of real time. A tick holds at most one step of each processor, and possibly none. The trace
/// goes on to its last tick.
#[derive(Debug, Drop)]
pub struct Trace {
    config: Config,
    placed: PlacedSteps,
    // The last tick.
    last: u64,
    // For each step, whether the message of its number was taken.
    taken: Vec<bool>,
}

impl Model for Trace {
    ghost use Rattle.step_trace.specs.Traces.{Recorded};

    ghost Value = { Recorded };

    ghost use Rattle.step_trace.specs.Ticks.{IsTrace};
    ghost use Rattle.step_trace.specs.DeliveryIndex.{IsIndex};

    ghost view = { λ a.
        record {
          config = a.config;
          steps = a.placed.steps;
          ticks = a.placed.ticks;
          last = a.last;
        } };

    ghost invariant = { λ a.
        IsTrace
        (record {
          config = a.config;
          steps = a.placed.steps;
          ticks = a.placed.ticks;
          last = a.last;
        })
        × IsIndex a.placed.steps a.taken.items };
}

impl Trace {
    ghost use Rattle.step_trace.specs.Traces.{step_at, IsWellFormed};
    ghost use Rattle.step_trace.specs.Ticks.{tick_of, IsTimed, IsTrace, IsOnePerTick, CanAppend, with_step, with_last};
    ghost use Rattle.step_trace.specs.Differences.{placed_at};
    ghost use Rattle.step_trace.specs.Extensions.{Extends};
    ghost use Rattle.step_trace.specs.OwnSteps.{own_steps};
    ghost use Rattle.step_trace.specs.PushRefusals.{refusal, IsRefusal};
    ghost use Rattle.step_trace.specs.TickRefusals.{refusal_in, next_refusal, IsJustifiedIn, NamesLeastIn};
    ghost use Rattle.step_trace.specs.AppendedSteps.{appended, IsReached, IsStepRefusal};
    ghost use Rattle.step_trace.specs.declared.paged_lists.TheConstants.{PAGE_LEN};

    /// The trace of a configuration that has no steps, and no tick yet. Takes no memory.
    pub fn new(alloc: Global, config: Config) -> Self
        ensures config { result.config ≡ config }
        ensures steps { result.steps ≡ [] }
        ensures ticks { result.ticks ≡ [] }
        ensures last { result.last ≡ 0 }
        ensures numbered { IsOnePerTick result }
    {
        Trace {
            config,
            placed: PlacedSteps::new(alloc),
            last: 0,
            taken: Vec::new(alloc),
        }
    }

    /// An equal trace. It shares the pages of steps that are full; the steps after them, and what was taken, are
    /// copied.
    pub fn copy(&self, alloc: Global) -> Result<Self, AllocError>
        ensures copied { IfOk result (λ copy. copy ≡ self.now) }
    {
        Ok(Trace {
            config: self.config.copy(alloc)?,
            placed: self.placed.copy()?,
            last: self.last,
            taken: Vec::from_slice(alloc, &self.taken)?,
        })
    }

    /// Its configuration.
    pub fn config(&self) -> &Config
        ensures { result.now ≡ self.now.config }
    {
        &self.config
    }

    /// The number of its steps.
    pub fn len(&self) -> usize
        ensures value { result ≡ length self.now.steps }
        ensures limit { result ≤ MAX_STEPS }
        ensures sound { IsWellFormed self.now.config self.now.steps }
    {
        self.placed.len()
    }

    /// Whether it has no steps.
    pub fn is_empty(&self) -> bool
        ensures { IsTrue result ↔ (self.now.steps ≡ []) }
    {
        self.placed.len() == 0
    }

    /// The step of this number, if there is one.
    pub fn step(&self, no: u64) -> Option<&Step>
        ensures value { option_copied result ≡ step_at self.now.steps no }
        ensures limit { length self.now.steps ≤ MAX_STEPS }
        ensures sound { IsWellFormed self.now.config self.now.steps }
    {
        self.placed.step(no)
    }

    /// The tick of the step of this number; 0 if there is no such step.
    pub fn tick_at(&self, no: u64) -> u64
        ensures value { result ≡ tick_of self.now no }
        ensures limit { result ≤ MAX_TICKS }
    {
        self.placed.tick(no)
    }

    /// Whether another trace has the same at this number: one step, in one tick; or both none.
    pub(crate) fn is_same_at(&self, other: &Trace, no: u64) -> bool
        ensures { IsTrue result ↔ (placed_at self.now no ≡ placed_at other.now no) }
    {
        self.placed.is_same_at(&other.placed, no)
    }

    /// How many steps, from the first on, surely are those of another trace too, in the same ticks.
    pub(crate) fn same_pages(&self, other: &Trace) -> u64
        ensures inside { result ≤ length other.now.steps }
        ensures same { (k : ℕ) → k < result + 1 → placed_at self.now k ≡ placed_at other.now k }
    {
        self.placed.same_pages(&other.placed) as u64
    }

    /// Whether it extends another trace. They have one configuration, the other's steps with their ticks are a prefix
    /// of its own, and neither its last tick nor that of a further step is below the other's last tick. Takes no
    /// memory.
    pub fn begins(&self, other: &Trace) -> bool
        ensures { IsTrue result ↔ Extends self.now other.now }
    {
        if !self.config.is_same(&other.config) {
            return false;
        }
        // It differs only after all of the other's steps.
        if self.first_difference(other) <= other.placed.len() as u64 {
            return false;
        }
        if self.last < other.last {
            return false;
        }
        // The ticks of the steps after the next one are no lower than its own.
        other.placed.len() == self.placed.len()
            || other.last <= self.placed.tick(other.placed.len() as u64 + 1)
    }

    /// The steps of a processor with their numbers, in order: none if there is no such processor.
    ///
    /// Fails only if out of memory, and only if there is a step to list.
    pub fn restrict(&self, alloc: Global, proc: u64) -> Result<Vec<(u64, Step)>, AllocError>
        ensures own { IfOk result (λ own. own.items ≡ own_steps self.now.steps proc) }
        ensures more { OnErr result (0 < length (own_steps self.now.steps proc)) }
    {
        own_steps(alloc, &self.placed, proc)
    }

    /// The tick of the step of this number. Asks for the number of a step.
    pub fn tick(&self, no: u64) -> u64
        requires low { 1 ≤ no }
        requires high { no ≤ length self.now.steps }
        ensures value { result ≡ tick_of self.now no }
        ensures limit { result ≤ MAX_TICKS }
        ensures timed { IsTimed self.now }
        ensures well_formed { IsTrace self.now }
    {
        self.placed.tick(no)
    }

    /// The last tick: 0 in a new trace.
    pub fn last_tick(&self) -> u64
        ensures value { result ≡ self.now.last }
        ensures limit { result ≤ MAX_TICKS }
        ensures timed { IsTimed self.now }
        ensures well_formed { IsTrace self.now }
    {
        self.last
    }

    /// Appends a step in the tick after the last, as `push_at` does. It is Full if there is no such tick.
    pub fn push(&mut self, step: Step) -> Result<(), PushError>
        ensures appended { OnOk result (self.new ≡ with_step self.old (self.old.last + 1) step) }
        ensures well_formed { OnOk result (IsTrace self.new) }
        ensures ok { OnOk result (next_refusal self.old step ≡ None) }
        ensures refused { IfErr result (λ e. IsRefusal e (next_refusal self.old step)) }
        ensures justified { IfErr result (λ e. IsJustifiedIn self.old (self.old.last + 1) step e) }
        ensures least { IfErr result (λ e. NamesLeastIn self.old (self.old.last + 1) step e) }
        ensures by_number { IsOnePerTick self.old
            → next_refusal self.old step ≡ refusal self.old.config self.old.steps step }
        ensures one_per_tick { IsOnePerTick self.old → OnOk result (IsOnePerTick self.new) }
        ensures err { OnErr result (self.new ≡ self.old) }
    {
        if self.last >= MAX_TICKS {
            return Err(PushError::Full);
        }
        let next = self.last + 1;
        self.push_at(next, step)
    }

    /// Appends a step in this tick, in time that grows with the ids that it takes.
    ///
    /// Refuses in the order of `PushError`, and names the least id of the kind that is refused. Unless it is out of
    /// memory, it accepts the step exactly if the tick isn't before the last and the trace stays well formed with the
    /// step.
    pub fn push_at(&mut self, tick: u64, step: Step) -> Result<(), PushError>
        ensures appended { OnOk result (self.new ≡ with_step self.old tick step) }
        ensures well_formed { OnOk result (IsTrace self.new) }
        ensures ok { OnOk result (refusal_in self.old tick step ≡ None) }
        ensures refused { IfErr result (λ e. IsRefusal e (refusal_in self.old tick step)) }
        ensures justified { IfErr result (λ e. IsJustifiedIn self.old tick step e) }
        ensures least { IfErr result (λ e. NamesLeastIn self.old tick step e) }
        ensures err { OnErr result (self.new ≡ self.old) }
    {
        if let Some(why) = self.refusal(tick, &step) {
            return Err(why);
        }
        match self.append(tick, step) {
            Ok(()) => Ok(()),
            Err(_) => Err(PushError::Memory),
        }
    }

    /// Appends a step in this tick, for which there is no reason of `PushError`, so that none is looked for. Fails only
    /// if out of memory; then nothing is appended.
    pub fn append(&mut self, tick: u64, step: Step) -> Result<(), AllocError>
        requires { CanAppend self.old tick step }
        ensures appended { OnOk result (self.new ≡ with_step self.old tick step) }
        ensures err { OnErr result (self.new ≡ self.old) }
    {
        self.taken.reserve(1)?;
        self.placed.push(step, tick as u32)?;
        append_flag(&mut self.taken, self.placed.last_ids());
        self.last = tick;
        Ok(())
    }

    /// The trace with a page of further steps, each in its tick, where a page of its own ends. It appends as `push_at`
    /// does one after the other, but takes the page unchanged, and checks it after that.
    pub(crate) fn with_page(self, page: LooseSteps) -> Result<Self, StepRefused>
        requires full { length page.steps ≡ PAGE_LEN }
        requires ends { length self.steps % PAGE_LEN ≡ 0 }
        requires room { length self.steps + PAGE_LEN ≤ MAX_STEPS }
        ensures appended { IfOk result (λ longer. appended self page.steps page.ticks ≡ Ok longer) }
        ensures refused { IfErr result (IsStepRefusal (appended self page.steps page.ticks)) }
        ensures reached { IfErr result (λ e. IsReached self page.steps page.ticks e.no) }
    {
        let Trace {
            config,
            placed,
            last,
            taken,
        } = self;
        let LooseSteps { steps, ticks } = page;
        let Ok(placed) = placed.with_page(steps, &ticks) else {
            let no = taken.len() as u64 + 1;
            let why = PushError::Memory;
            return Err(StepRefused { no, why });
        };
        let mut longer = Unchecked {
            config,
            placed,
            last,
            taken,
        };
        longer.check_all()?;
        let Unchecked {
            config,
            placed,
            last,
            taken,
        } = longer;
        Ok(Trace {
            config,
            placed,
            last,
            taken,
        })
    }

    /// Goes on to this tick with no step in between. The last tick itself changes nothing. Takes no memory.
    ///
    /// Refuses a tick below the last one or above `MAX_TICKS`.
    pub fn idle_to(&mut self, tick: u64) -> Result<(), BadTick>
        ensures passed { OnOk result (self.new ≡ with_last self.old tick) }
        ensures ok { OnOk result ((self.old.last ≤ tick) × (tick ≤ MAX_TICKS)) }
        ensures refused { OnErr result ((tick < self.old.last) ⊎ (MAX_TICKS < tick)) }
        ensures err { OnErr result (self.new ≡ self.old) }
    {
        if tick < self.last || tick > MAX_TICKS {
            return Err(BadTick);
        }
        self.last = tick;
        Ok(())
    }

    /// The first reason against a step in this tick.
    fn refusal(&self, tick: u64, step: &Step) -> Option<PushError>
        ensures exact { result ≡ refusal_in self.now tick step.now }
        ensures sound { IsTrace self.now }
    {
        let so_far = StepsSoFar::all(&self.placed);
        step_refusal(&self.config, &so_far, self.last, &self.taken, tick, step)
    }
}
