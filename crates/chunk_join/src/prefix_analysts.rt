//! An analyst of a given trace, as if it ended in an earlier tick.

ghost use Rattle.std.specs.Prelude.{ℕ, ◌≡◌, ◌+◌, ◌≤◌, IfOk};
ghost use Rattle.step_trace.specs.Cuts.{IsCutAt};
ghost use Rattle.step_trace.specs.Ticks.{IsTrace};
ghost use Rattle.step_trace.specs.Traces.{Recorded};
ghost use Rattle.suffix_staircase.specs.Analysis.{AreLevelsFrom};
ghost use Rattle.chunk_join.specs.Analysts.{IsDigestUpTo};

use crate::digests::Digest;
use crate::growing_digests::take_in;
use crate::joins::Joined;
use std::alloc::{AllocError, Global};
use std::marker::Model;
use step_trace::{ProcSet, Trace};
use suffix_staircase::Stairs;

/// Analyses the prefixes of a given trace. It keeps no step of it: only the digest of the prefix that it saw last.
#[derive(Drop)]
pub struct PrefixAnalyst<'a> {
    set: ProcSet,
    trace: &'a Trace,
    digest: Digest,
    // Up to this tick goes the digest.
    to: u64,
}

impl<'a> Model for PrefixAnalyst<'a> {
    ghost use Rattle.std.specs.Prelude.{◌≤◌};
    ghost use Rattle.chunk_join.specs.Analysts.{Followed, IsDigestUpTo};

    ghost Value = { Followed };

    ghost view = { λ a. record { set = a.set; seen = a.trace.now } };

    ghost invariant = { λ a. (a.to ≤ a.trace.now.last)
        × IsDigestUpTo a.set a.trace.now a.to a.digest };
}

impl<'a> PrefixAnalyst<'a> {
    /// The analyst of a trace, for a set of processors that count as correct. Takes no memory.
    pub fn new(trace: &'a Trace, set: ProcSet) -> Self
        ensures { result ≡ record { set = set; seen = trace.now } }
    {
        PrefixAnalyst {
            set,
            trace,
            digest: Digest::unit(),
            to: 0,
        }
    }

    /// The processors that count as correct.
    pub fn set(&self) -> ProcSet
        ensures { result ≡ self.now.set }
    {
        self.set
    }

    /// The trace.
    pub fn trace(&self) -> &'a Trace
        ensures { result.now ≡ self.now.seen }
    {
        self.trace
    }

    /// The levels of the ticks from `from` on, of the trace as if it ended in tick `to`. Only the ticks since the last
    /// call are summarised, or all up to an earlier tick.
    ///
    /// Takes time that grows with what may change later, and with these levels. Fails only if out of memory.
    pub fn stairs_until(&mut self, alloc: Global, from: u64, to: u64) -> Result<Stairs, AllocError>
        requires low { 1 ≤ from }
        requires order { from ≤ to + 1 }
        requires high { to ≤ self.old.seen.last }
        ensures stairs { IfOk result (λ stairs. (cut : Recorded) → IsTrace cut
            → IsCutAt self.old.seen to cut → AreLevelsFrom self.old.set cut from stairs) }
        ensures same { self.new ≡ self.old }
        ensures sound { IsTrace self.old.seen }
    {
        // It says that this is a trace.
        let _last = self.trace.last_tick();
        self.to = begun(&mut self.digest, self.to, to);
        let next = self.to + 1;
        take_in(&mut self.digest, alloc, self.trace, self.set, next, to)?;
        self.to = to;
        self.digest.last_stairs(alloc, from)
    }
}

/// How far a digest of the first ticks goes that is to go on to tick `to`. If it goes further, it begins anew.
fn begun(digest: &mut Digest, so_far: u64, to: u64) -> u64
    ensures before { (set : ℕ) (trace : Recorded) → IsDigestUpTo set trace so_far digest.old
        → IsDigestUpTo set trace result digest.new }
    ensures within { result ≤ to }
    ensures inside { result ≤ so_far }
{
    if to < so_far {
        *digest = Digest::unit();
        0
    } else {
        so_far
    }
}
