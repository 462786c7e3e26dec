//! The Receives after a step, as far as the misses of earlier messages depend on them.
//!
//! Steps and processors are numbered from 1, and 0 denotes none.

ghost use Rattle.std.specs.Prelude.{ℕ, ◌≡◌, ◌-◌, ◌<◌, ◌≤◌, length, All, IfOk, slice_index, replicate};
ghost use Rattle.step_trace.specs.declared.traces.TheConstants.{MAX_STEPS};
ghost use Rattle.step_trace.specs.Traces.{IsWellFormed};
ghost use Rattle.suffix_staircase.specs.Receives.{KnowsReceives, NotesReceive};
ghost use Rattle.suffix_staircase.specs.Receives.{IsLastMissByNumber, last_missed};

use std::alloc::{AllocError, Global};
use step_trace::{Act, ProcSet, Trace, note_messages, step_of};

/// What is known of the Receives of members after a step. One list has an entry for each step, so the entries are no
/// wider than a number of a step needs.
#[derive(Debug, Drop)]
pub struct Receives {
    // For each message to a member, the Receive after the step that takes it. And for each member's Receive after the
    // step, the one of the same member right before it, if that comes after the step too.
    links: Vec<u32>,
    // For each member, its first Receive after the step.
    first: Vec<u32>,
    // For each member, its last Receive after the step.
    last: Vec<u32>,
}

/// So many zeros.
fn zeros(alloc: Global, count: usize) -> Result<Vec<u32>, AllocError>
    ensures { IfOk result (λ v. v.items ≡ replicate count 0) }
{
    vec![in alloc; 0u32; count]
}

impl Receives {
    /// What is known after the last step: there is none.
    pub fn after_all(alloc: Global, trace: &Trace) -> Result<Self, AllocError>
        ensures { IfOk result
            (λ r. (set : ℕ) → KnowsReceives set trace.now (length trace.now.steps) r) }
    {
        let steps = trace.len() + 1;
        let processors = trace.config().n() as usize + 1;
        Ok(Receives {
            links: zeros(alloc, steps)?,
            first: zeros(alloc, processors)?,
            last: zeros(alloc, processors)?,
        })
    }

    /// Scans a step backward, and gives the last Receive that misses its message: 0 if none does, or if it is no
    /// message between members.
    pub fn step_back(&mut self, trace: &Trace, set: ProcSet, no: u64) -> u64
        requires low { 1 ≤ no }
        requires high { no ≤ length trace.now.steps }
        requires known { KnowsReceives set trace.now no self.old }
        ensures known { KnowsReceives set trace.now (no - 1) self.new }
        ensures missed { IsLastMissByNumber set trace.now.steps no result }
        ensures sound { IsWellFormed trace.now.config trace.now.steps }
    {
        let step = step_of(trace, no);
        if !set.contains(step.proc) {
            return 0;
        }
        match &step.act {
            Act::Send { to } => {
                if set.contains(*to) {
                    self.last_missed(no, *to)
                } else {
                    0
                }
            }
            Act::Receive { ids, .. } => {
                self.note(no, step.proc, ids.as_slice());
                0
            }
        }
    }

    /// The last Receive after the step that doesn't find the message delivered, which goes to `to`.
    fn last_missed(&self, sent: u64, to: u64) -> u64
        requires sent { sent < length self.now.links.items }
        requires taken { slice_index self.now.links.items sent < length self.now.links.items }
        requires to { to < length self.now.last.items }
        ensures { result ≡ last_missed self.now sent to }
    {
        let taker = self.links[sent as usize];
        if taker == 0 {
            u64::from(self.last[to as usize])
        } else {
            u64::from(self.links[taker as usize])
        }
    }

    /// Notes a Receive that comes before those so far. If there is none yet, the link is written at number 0, which
    /// denotes no step.
    fn note(&mut self, no: u64, proc: u64, ids: &[u64])
        requires limit { no ≤ MAX_STEPS }
        requires ids { All (λ s. s < length self.old.links.items) ids.now }
        requires first { proc < length self.old.first.items }
        requires last { proc < length self.old.last.items }
        requires next { slice_index self.old.first.items proc < length self.old.links.items }
        ensures { NotesReceive no proc ids.now self.old self.new }
    {
        note_messages(&mut self.links, ids, no as u32);
        let next = self.first[proc as usize];
        self.links[next as usize] = no as u32;
        self.first[proc as usize] = no as u32;
        if self.last[proc as usize] == 0 {
            self.last[proc as usize] = no as u32;
        }
    }
}
