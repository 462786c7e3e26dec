//! The misses of a trace, by one pass over its Receives.
//!
//! Steps and processors are numbered from 1, and 0 denotes none.

ghost use Rattle.std.specs.Prelude.{◌≡◌, ◌-◌, ◌<◌, ◌≤◌, ◌↔◌, length, IfOk, IsTrue, MatchOption};
ghost use Rattle.step_trace.specs.Processors.{IsWithin};
ghost use Rattle.step_trace.specs.Witnesses.{IsMiss};
ghost use Rattle.certificate_checker.specs.Receives.{KnowsReceives, last_waited};
ghost use Rattle.certificate_checker.specs.LongestWitnesses.{HasNoMiss, IsLastMiss};

use std::alloc::{AllocError, Global};
use step_trace::{Act, Miss, ProcSet, Trace, is_receive_of, note_messages, receiver, step_of};

/// Denotes a message that no Receive takes: no step has this number.
const UNTAKEN: u32 = 4_294_967_295;

/// The last Receive that each message waits through.
#[derive(Debug, Drop)]
pub(crate) struct Receives {
    // For each message that is taken, the Receive of the same processor before the one that takes it; `UNTAKEN`
    // for every other step.
    before: Vec<u32>,
    // For each processor, its last Receive.
    last: Vec<u32>,
}

impl Receives {
    /// The Receives of a whole trace.
    pub(crate) fn of_trace(alloc: Global, trace: &Trace) -> Result<Self, AllocError>
        ensures { IfOk result (λ r. KnowsReceives trace.now (length trace.now.steps) r) }
    {
        let mut receives = Receives::before_all(alloc, trace)?;
        for no in 1..trace.len() as u64 + 1 {
            receives.note(trace, no);
        }
        Ok(receives)
    }

    /// What is known before the first step.
    fn before_all(alloc: Global, trace: &Trace) -> Result<Self, AllocError>
        ensures { IfOk result (λ r. KnowsReceives trace.now 0 r) }
    {
        let steps = trace.len() + 1;
        let processors = trace.config().n() as usize + 1;
        Ok(Receives {
            before: vec![in alloc; UNTAKEN; steps]?,
            last: vec![in alloc; 0u32; processors]?,
        })
    }

    /// Goes on over a step.
    fn note(&mut self, trace: &Trace, no: u64)
        requires low { 1 ≤ no }
        requires high { no ≤ length trace.now.steps }
        requires known { KnowsReceives trace.now (no - 1) self.old }
        ensures { KnowsReceives trace.now no self.new }
    {
        let step = step_of(trace, no);
        if let Act::Receive { ids, .. } = &step.act {
            note_messages(
                &mut self.before,
                ids.as_slice(),
                self.last[step.proc as usize],
            );
            self.last[step.proc as usize] = no as u32;
        }
    }

    /// The last Receive of `to` up to which message `s`, which goes to it, isn't taken.
    fn last_waited(&self, s: u64, to: u64) -> u64
        requires sent { s < length self.now.before.items }
        requires to { to < length self.now.last.items }
        ensures { result ≡ last_waited self.now s to }
    {
        let before = self.before[s as usize];
        if before == UNTAKEN {
            u64::from(self.last[to as usize])
        } else {
            u64::from(before)
        }
    }

    /// Whether this is a miss of the trace and the set.
    pub(crate) fn is_miss(&self, trace: &Trace, set: ProcSet, miss: Miss) -> bool
        requires set { IsWithin set trace.now.config.n }
        requires known { KnowsReceives trace.now (length trace.now.steps) self.now }
        ensures { IsTrue result ↔ IsMiss set trace.now miss }
    {
        let Some(to) = receiver(trace, set, miss.sent) else {
            return false;
        };
        if !is_receive_of(trace, miss.missed, to) {
            return false;
        }
        trace.tick(miss.sent) < trace.tick(miss.missed)
            && miss.missed <= self.last_waited(miss.sent, to)
    }

    /// The last miss of message `sent`.
    pub(crate) fn last_miss(&self, trace: &Trace, set: ProcSet, sent: u64) -> Option<Miss>
        requires set { IsWithin set trace.now.config.n }
        requires known { KnowsReceives trace.now (length trace.now.steps) self.now }
        ensures { MatchOption result (HasNoMiss set trace.now sent)
            (IsLastMiss set trace.now sent) }
    {
        let to = receiver(trace, set, sent)?;
        let start = trace.tick(sent);
        let missed = self.last_waited(sent, to);
        if missed == 0 || trace.tick(missed) <= start {
            return None;
        }
        Some(Miss { sent, missed })
    }
}
