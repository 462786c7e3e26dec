//! The World: all processors of a configuration, moved one step at a time.

ghost use Rattle.std.specs.Prelude.{◌≡◌, ◌+◌, ◌-◌, ◌<◌, ◌≤◌, ◌++◌, ◌∷◌, [], Some, None, Contains};
ghost use Rattle.std.specs.Prelude.{length, option_map, IfOk, OnOk, IfErr, OnErr};
ghost use Rattle.std.specs.List.Sorted.{IsStrictlyIncreasing};
ghost use Rattle.step_trace.specs.declared.traces.TheConstants.{MAX_STEPS};
ghost use Rattle.step_trace.specs.Configurations.{IsProc};
ghost use Rattle.step_trace.specs.Ticks.{IsOnePerTick};
ghost use Rattle.round_model.specs.RoundStates.{state_after};
ghost use Rattle.step_buffers.specs.HeardTables.{passed, heard_table};
ghost use Rattle.step_buffers.specs.Runs.{node_at, IsSend, IsRun};
ghost use Rattle.step_buffers.specs.Buffers.{buffer};
ghost use Rattle.step_buffers.specs.Origins.{sender_of, round_ahead};
ghost use Rattle.step_buffers.specs.Moves.{next_send, step_of, step_refusal, IsStepRefusal};
ghost use Rattle.step_buffers.specs.NextSteps.{IsNext, IsGrown};

use crate::copies::{copied_letters, copied_processors};
use crate::letters::{Place, round_of};
use crate::moves::{Done, Move, StepError};
use crate::processors::{Processor, next_send, opening_processors};
use crate::steps::{act_of, make};
use lock_phases::Node;
use std::alloc::{AllocError, Global};
use std::marker::Model;
use step_trace::{Act, Config, Step, Trace};

/// All processors of a configuration with their nodes and buffers, and the trace of the steps that they
/// made, which is a run (section 2 and 3 of the 1988 paper).
#[derive(Debug, Drop)]
pub struct World {
    limit: u64,
    trace: Trace,
    // For each step the message that it sent, until its receiver took it and can't hear it any more.
    letters: Vec<Place>,
    // For each processor what is kept of it.
    processors: Vec<Processor>,
}

impl Model for World {
    ghost use Rattle.std.specs.Prelude.{◌≤◌, length};
    ghost use Rattle.step_buffers.specs.Progress.{Progress};

    ghost Value = { Progress };

    ghost use Rattle.step_trace.specs.declared.traces.TheConstants.{MAX_STEPS};
    ghost use Rattle.step_buffers.specs.Worlds.{IsWorld};

    ghost view = { λ w. record { trace = w.trace; limit = w.limit } };

    ghost invariant = { λ w. IsWorld w.trace w.letters.items w.processors.items
        × (w.limit ≤ MAX_STEPS) × (length w.trace.steps ≤ w.limit) };
}

impl World {
    /// The World of a configuration in which no step was made, and at most so many may be.
    ///
    /// Asks for at most 1,000,000 steps. Takes memory for each processor.
    pub fn new(alloc: Global, config: Config, max_steps: u64) -> Result<Self, AllocError>
        requires { max_steps ≤ MAX_STEPS }
        ensures config { IfOk result (λ world. world.trace.config ≡ config) }
        ensures steps { IfOk result (λ world. world.trace.steps ≡ []) }
        ensures limit { IfOk result (λ world. world.limit ≡ max_steps) }
    {
        let processors = opening_processors(alloc, &config)?;
        Ok(World {
            limit: max_steps,
            trace: Trace::new(alloc, config),
            letters: Vec::new(alloc),
            processors,
        })
    }

    /// A World that is equal: in it the same steps were made, and as many may be. Takes memory for all that
    /// is kept.
    pub fn copy(&self, alloc: Global) -> Result<Self, AllocError>
        ensures copied { IfOk result (λ copy. copy ≡ self.now) }
    {
        let trace = self.trace.copy(alloc)?;
        let letters = copied_letters(alloc, &self.letters)?;
        let processors = copied_processors(alloc, &self.processors)?;
        Ok(World {
            limit: self.limit,
            trace,
            letters,
            processors,
        })
    }

    /// The trace of the steps made. It is a run, with one step in each tick: the tick of a step is its number.
    pub fn trace(&self) -> &Trace
        ensures value { result.now ≡ self.now.trace }
        ensures run { IsRun self.now.trace.config self.now.trace.steps }
        ensures one_per_tick { IsOnePerTick self.now.trace }
        ensures within { length self.now.trace.steps ≤ self.now.limit }
    {
        &self.trace
    }

    /// How many steps may be made in all.
    pub fn limit(&self) -> u64
        ensures value { result ≡ self.now.limit }
        ensures bounded { result ≤ MAX_STEPS }
    {
        self.limit
    }

    /// The round of processor `p`. Asks for a processor.
    pub fn round(&self, p: u64) -> u64
        requires { IsProc self.now.trace.config p }
        ensures { result ≡ passed self.now.trace.steps p + 1 }
    {
        self.processors[(p - 1) as usize].round
    }

    /// The node of processor `p`, as the rounds that it passed made it. Asks for a processor.
    pub fn node(&self, p: u64) -> &Node
        requires { IsProc self.now.trace.config p }
        ensures { result.now ≡ node_at self.now.trace.config self.now.trace.steps p }
    {
        &self.processors[(p - 1) as usize].node
    }

    /// The decision of processor `p`, if it has one. Asks for a processor.
    pub fn decision(&self, p: u64) -> Option<u64>
        requires { IsProc self.now.trace.config p }
        ensures { result ≡ (node_at self.now.trace.config self.now.trace.steps p).decision }
    {
        self.node(p).decision()
    }

    /// The decision that processor `p` has in a round, if it has one in it. Asks for a processor, and for a round
    /// that it has reached.
    pub fn decision_in(&self, p: u64, round: u64) -> Option<u64>
        requires processor { IsProc self.now.trace.config p }
        requires first { 1 ≤ round }
        requires reached { round ≤ passed self.now.trace.steps p + 1 }
        ensures { result
            ≡ (state_after self.now.trace.config (heard_table self.now.trace.steps)
            (round - 1) p).decision }
    {
        let processor = &self.processors[(p - 1) as usize];
        if round < processor.since {
            return None;
        }
        processor.node.decision()
    }

    /// The rising ids of the messages that wait for processor `p`. Asks for a processor.
    pub fn waiting(&self, p: u64) -> &[u64]
        requires { IsProc self.now.trace.config p }
        ensures value { result.now ≡ buffer self.now.trace.steps p }
        ensures rising { IsStrictlyIncreasing result.now }
    {
        self.processors[(p - 1) as usize].buffer.as_slice()
    }

    /// Who sent a message that waits for processor `p`, and in which round. The round is 0 if `p` has passed it,
    /// and can hear nothing of it any more. Asks for a processor, and for the id of a message that waits for it.
    pub fn origin(&self, p: u64, id: u64) -> (u64, u64)
        requires processor { IsProc self.now.trace.config p }
        requires waiting { Contains (buffer self.now.trace.steps p) id }
        ensures sender { result.0 ≡ sender_of self.now.trace.steps id }
        ensures sent { IsSend self.now.trace.steps result.0 p id }
        ensures processor { IsProc self.now.trace.config result.0 }
        ensures round { result.1 ≡ round_ahead self.now.trace.steps p id }
    {
        let sender = sender_of(&self.trace, id);
        let round = round_of(&self.letters, id);
        let ahead = if round < self.round(p) { 0 } else { round };
        (sender, ahead)
    }

    /// Where processor `p` sends next in its round; None if all its messages are out. Asks for a processor.
    pub fn next_destination(&self, p: u64) -> Option<u64>
        requires { IsProc self.now.trace.config p }
        ensures { result ≡ next_send self.now.trace.config self.now.trace.steps p }
    {
        next_send(&self.trace, &self.processors[(p - 1) as usize], p)
    }

    /// Makes one step of processor `p`: it sends, or takes messages and, if the move says so, ends its round
    /// (section 3 of the 1988 paper).
    ///
    /// Refuses in the order of `StepError`: Full, BadProc, NothingToSend, StillSending, IdsNotRising,
    /// NotInBuffer, Memory. Then everything is unchanged.
    ///
    /// Takes memory for the step, for the message that it sends or the ids that it takes, and for the node if its
    /// round ends. Takes time in these, and in the messages of its round that it took if its round ends. Time
    /// doesn't grow with the length of the trace, nor with what waits or was taken for later rounds, except with
    /// the logarithm of their number for each message that joins or leaves them. If some of the messages that it
    /// takes are neither among the first that wait nor among the last, it scans what is between these, and moves
    /// what waits on their shorter side.
    pub fn step(&mut self, alloc: Global, p: u64, step: Move) -> Result<Done, StepError>
        ensures step { IfOk result (λ done. Some done.step
            ≡ step_of self.old.trace.config self.old.trace.steps p step.entry) }
        ensures made { IfOk result (λ done.
            self.new.trace.steps ≡ self.old.trace.steps ++ done.step ∷ []) }
        ensures number { IfOk result (λ done. done.no ≡ length self.new.trace.steps) }
        ensures round { IfOk result (λ done. done.round ≡ passed self.new.trace.steps p + 1) }
        ensures decision { IfOk result (λ done. done.decision
            ≡ (node_at self.new.trace.config self.new.trace.steps p).decision) }
        ensures config { self.new.trace.config ≡ self.old.trace.config }
        ensures limit { self.new.limit ≡ self.old.limit }
        ensures ok { OnOk result
            (step_refusal self.old.trace.config self.old.limit
            self.old.trace.steps p step.entry ≡ None) }
        ensures refused { IfErr result (λ e.
            IsStepRefusal e (step_refusal self.old.trace.config self.old.limit
            self.old.trace.steps p step.entry)) }
        ensures err { OnErr result (self.new ≡ self.old) }
    {
        let act = self.act_of(alloc, p, step)?;
        let Ok(copy) = act.clone() else {
            return Err(StepError::Memory);
        };
        self.make(alloc, p, copy)?;
        Ok(Done {
            no: self.trace.len() as u64,
            step: Step { proc: p, act },
            round: self.round(p),
            decision: self.decision(p),
        })
    }

    /// Makes one step of processor `p` as `step` does, and doesn't answer what it was: it is at the end of the
    /// trace.
    ///
    /// Refuses what `step` refuses, in the same order. Then everything is unchanged. Takes the time and memory of
    /// `step`, but for one copy of the ids that it takes, not two.
    pub fn advance(&mut self, alloc: Global, p: u64, step: Move) -> Result<(), StepError>
        ensures made { OnOk result (option_map (λ made. self.old.trace.steps ++ made ∷ [])
            (step_of self.old.trace.config self.old.trace.steps p step.entry)
            ≡ Some self.new.trace.steps) }
        ensures config { self.new.trace.config ≡ self.old.trace.config }
        ensures limit { self.new.limit ≡ self.old.limit }
        ensures ok { OnOk result
            (step_refusal self.old.trace.config self.old.limit
            self.old.trace.steps p step.entry ≡ None) }
        ensures refused { IfErr result (λ e.
            IsStepRefusal e (step_refusal self.old.trace.config self.old.limit
            self.old.trace.steps p step.entry)) }
        ensures err { OnErr result (self.new ≡ self.old) }
    {
        let act = self.act_of(alloc, p, step)?;
        self.make(alloc, p, act)
    }

    /// What processor `p` does in a move.
    fn act_of(&self, alloc: Global, p: u64, step: Move) -> Result<Act, StepError>
        ensures step { IfOk result (λ act. Some (record { proc = p; act = act })
            ≡ step_of self.now.trace.config self.now.trace.steps p step.entry) }
        ensures room { OnOk result (length self.now.trace.steps < self.now.limit) }
        ensures next { IfOk result (λ act. IsNext self.now.trace (record { proc = p; act = act })) }
        ensures ok { OnOk result
            (step_refusal self.now.trace.config self.now.limit
            self.now.trace.steps p step.entry ≡ None) }
        ensures refused { IfErr result (λ e.
            IsStepRefusal e (step_refusal self.now.trace.config self.now.limit
            self.now.trace.steps p step.entry)) }
    {
        if self.trace.len() as u64 >= self.limit {
            return Err(StepError::Full);
        }
        if !self.trace.config().is_processor(p) {
            return Err(StepError::BadProc);
        }
        act_of(alloc, &self.trace, &self.processors, p, step)
    }

    /// Makes a step of processor `p` that is due.
    fn make(&mut self, alloc: Global, p: u64, act: Act) -> Result<(), StepError>
        requires room { length self.old.trace.steps < self.old.limit }
        requires next { IsNext self.old.trace (record { proc = p; act = act }) }
        ensures grown { OnOk result (IsGrown self.old.trace self.new.trace
            (record { proc = p; act = act })) }
        ensures limit { self.new.limit ≡ self.old.limit }
        ensures refused { IfErr result (λ e. e ≡ StepError.Memory) }
        ensures err { OnErr result (self.new ≡ self.old) }
    {
        match make(
            alloc,
            &mut self.trace,
            &mut self.letters,
            &mut self.processors,
            p,
            act,
        ) {
            Ok(()) => Ok(()),
            Err(_) => Err(StepError::Memory),
        }
    }
}

/// Who made the step of this number; 0 if there is no such step.
fn sender_of(trace: &Trace, id: u64) -> u64
    ensures { result ≡ sender_of trace.now.steps id }
{
    match trace.step(id) {
        Some(step) => step.proc,
        None => 0,
    }
}
