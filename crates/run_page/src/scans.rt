//! What one pass over a trace finds: when each processor acts last, and the kinds of Receives.

use std::alloc::{AllocError, Global};
use step_trace::{Act, MAX_MEMBER, Step, Trace};

/// What one pass over a trace finds.
#[derive(Drop)]
pub(crate) struct Scan {
    // For each processor, by its number.
    lasts: Vec<LastTicks>,
    /// How many Receives take something, and how many take nothing.
    pub full: u64,
    pub empty: u64,
}

/// The ticks of a processor's last step, its last Receive, and its last Receive that takes something: 0 if there is
/// none.
#[derive(Clone, Copy)]
struct LastTicks {
    step: u64,
    receive: u64,
    full: u64,
}

impl LastTicks {
    fn none() -> Self {
        LastTicks {
            step: 0,
            receive: 0,
            full: 0,
        }
    }

    /// These after one more step, in this tick.
    fn after(self, step: &Step, tick: u64) -> Self {
        match &step.act {
            Act::Send { .. } => LastTicks {
                step: tick,
                receive: self.receive,
                full: self.full,
            },
            Act::Receive { ids, .. } => LastTicks {
                step: tick,
                receive: tick,
                full: if ids.as_slice().len() == 0 {
                    self.full
                } else {
                    tick
                },
            },
        }
    }
}

impl Scan {
    /// Time grows with the trace.
    pub(crate) fn of(alloc: Global, trace: &Trace) -> Result<Self, AllocError> {
        let mut scan = Scan {
            lasts: vec![in alloc; LastTicks::none(); MAX_MEMBER as usize + 1]?,
            full: 0,
            empty: 0,
        };
        for i in 0..trace.len() {
            scan.note(trace, i as u64 + 1);
        }
        Ok(scan)
    }

    fn note(&mut self, trace: &Trace, no: u64) {
        let Some(step) = trace.step(no) else {
            return;
        };
        let proc = step.proc as usize;
        if proc < self.lasts.len() {
            self.lasts[proc] = self.lasts[proc].after(step, trace.tick_at(no));
        }
        self.count(step);
    }

    fn count(&mut self, step: &Step) {
        if let Act::Receive { ids, .. } = &step.act {
            if ids.as_slice().len() == 0 {
                self.empty = self.empty.saturating_add(1);
            } else {
                self.full = self.full.saturating_add(1);
            }
        }
    }

    /// The tick of a processor's last step; 0 if there is none.
    pub(crate) fn last_tick_of(&self, proc: u64) -> u64 {
        self.lasts_of(proc).step
    }

    /// The tick of its last Receive; 0 if there is none.
    pub(crate) fn last_receive_of(&self, proc: u64) -> u64 {
        self.lasts_of(proc).receive
    }

    /// The tick of its last Receive that takes something; 0 if there is none.
    pub(crate) fn last_full_of(&self, proc: u64) -> u64 {
        self.lasts_of(proc).full
    }

    fn lasts_of(&self, proc: u64) -> LastTicks {
        match self.lasts.get(proc as usize) {
            Some(lasts) => *lasts,
            None => LastTicks::none(),
        }
    }
}
