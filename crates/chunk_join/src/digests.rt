//! Digests: of a part of a trace what later parts can still change, and of the rest only what nothing later makes
//! needless.

ghost use Rattle.std.specs.Prelude.{◌≡◌, ◌≤◌, ℕ, Some, IfOk};
ghost use Rattle.chunk_join.specs.Summaries.{Whole};
ghost use Rattle.chunk_join.specs.Digests.{digest, IsDigestOf};

use crate::block_parts::part_of_block;
use crate::finishes::{FinishError, stairs_of};
use crate::joins::{JoinRefused, Joined};
use crate::message_digests::thin_messages;
use crate::parts::{Part, join_parts};
use crate::silence_digests::thin_silences;
use std::alloc::{AllocError, Global};
use std::marker::Model;
use step_trace::{ProcSet, Trace};
use suffix_staircase::{StairBuilder, Stairs};

/// How many ticks are summarised before what is needless goes.
const BLOCK: u64 = 4096;

/// The digest of the ticks of a part of a trace, for a set of processors that count as correct; the empty part has one
/// for all sets. It is small: its messages are open, or missed for longer than all later ones; its silences likewise.
#[derive(Debug, Drop)]
pub(crate) struct Digest {
    pub(crate) part: Option<Part>,
}

impl Model for Digest {
    ghost use Rattle.std.specs.Prelude.{Option};
    ghost use Rattle.chunk_join.specs.Summaries.{Summary};

    ghost Value = { Option Summary };

    ghost view = { λ a. a.part };
}

impl Joined for Digest {
    ghost use Rattle.std.specs.Prelude.{None};
    ghost use Rattle.chunk_join.specs.Summaries.{Whole};
    ghost use Rattle.chunk_join.specs.Digests.{IsDigestOf, joined_digests};
    ghost use Rattle.chunk_join.specs.Parts.{refusal};
    ghost use Rattle.chunk_join.specs.Laws.DigestsJoined.{digests_join};

    ghost Whole = { Whole };

    ghost IsPart = { IsDigestOf };

    ghost empty = { None };

    ghost refusal = { refusal };

    ghost joined = { joined_digests };

    fn unit() -> Digest {
        Digest { part: None }
    }

    fn fits(&self, right: &Digest) -> bool {
        match (&self.part, &right.part) {
            (Some(left), Some(right)) => left.refusal(right).is_none(),
            _ => true,
        }
    }

    fn join(self, right: Digest) -> Result<Digest, JoinRefused<Digest>> {
        let left = match self.part {
            None => return Ok(right),
            Some(left) => left,
        };
        let right = match right.part {
            None => return Ok(Digest { part: Some(left) }),
            Some(right) => right,
        };
        match join_parts(left, right) {
            Ok(both) => Ok(Digest {
                part: Some(thin(both)),
            }),
            Err(refused) => Err(JoinRefused {
                why: refused.why,
                left: Digest {
                    part: Some(refused.left),
                },
                right: Digest {
                    part: Some(refused.right),
                },
            }),
        }
    }

    ghost laws = { digests_join };
}

impl Digest {
    ghost use Rattle.std.specs.Prelude.{◌≡◌, ◌≢◌, ◌+◌, ◌-◌, ◌≤◌, ◌<◌, ◌↔◌, ℕ, None, IfOk, IfErr, OnOk, OnErr};
    ghost use Rattle.step_trace.specs.Ticks.{IsTrace};
    ghost use Rattle.suffix_staircase.specs.Analysis.{AreLevels, AreLevelsFrom};
    ghost use Rattle.chunk_join.specs.declared.finishes.FinishError.TheVariants.{NotWhole};
    ghost use Rattle.chunk_join.specs.Summaries.{Whole};
    ghost use Rattle.chunk_join.specs.Digests.{IsDigestOf, KeepsUndominated};
    ghost use Rattle.chunk_join.specs.Finishes.{BeginsWithFirst};

    /// The digest of the ticks `from` to `to`, from 1 to the last tick; if `from` is one after `to`, the unit. It keeps
    /// exactly the undominated messages and silences of these ticks. These are the ones that a later part may still
    /// change, and of the others those that are longer than each that comes later.
    ///
    /// Fails only if out of memory; the unit takes none.
    pub(crate) fn of(
        alloc: Global,
        trace: &Trace,
        set: ProcSet,
        from: u64,
        to: u64,
    ) -> Result<Digest, AllocError>
        requires low { 1 ≤ from }
        requires order { from ≤ to + 1 }
        requires high { to ≤ trace.now.last }
        ensures some { OnErr result (from ≤ to) }
        ensures none { IfOk result (λ digest. to < from → digest ≡ None) }
        ensures digest { IfOk result (λ digest. (sound : IsTrace trace.now)
            → IsDigestOf (record { set = set; trace = trace.now; sound = sound })
            (from - 1) to digest) }
        ensures keeps { IfOk result (λ digest. IsTrace trace.now
            → KeepsUndominated set trace.now (from - 1) to digest) }
    {
        let mut whole = Digest::unit();
        let mut next = from;
        while next <= to {
            let end = block_end(next, to);
            let part = part_of_block(alloc, trace, set, next, end)?;
            whole = followed_by(whole, thin(part))?;
            next = end + 1;
        }
        Ok(whole)
    }

    /// An equal digest. Takes no memory for the unit.
    pub(crate) fn copy(&self, alloc: Global) -> Result<Digest, AllocError>
        ensures copied { IfOk result (λ copy. copy ≡ self.now) }
        ensures more { OnErr result (self.now ≢ None) }
    {
        match &self.part {
            None => Ok(Digest { part: None }),
            Some(part) => Ok(Digest {
                part: Some(part.copy(alloc)?),
            }),
        }
    }

    /// The stairs of a digest that begins with tick 1: those of `Stairs::of_trace`, if it is of the whole trace. The
    /// unit has no levels.
    pub(crate) fn finish(&self, alloc: Global) -> Result<Stairs, FinishError>
        ensures whole { IfOk result (λ stairs. (whole : Whole)
            → IsDigestOf whole 0 whole.trace.last self.now
            → AreLevels whole.set whole.trace stairs) }
        ensures begins { OnOk result (BeginsWithFirst self.now) }
        ensures not_whole { IfErr result (λ why. (why ≡ NotWhole) ↔ ¬ BeginsWithFirst self.now) }
        ensures some { OnErr result (¬ (self.now ≡ None)) }
    {
        match &self.part {
            None => Ok(StairBuilder::new(alloc).build()),
            Some(part) => {
                if part.from != 1 {
                    return Err(FinishError::NotWhole);
                }
                match stairs_of(alloc, part, 1) {
                    Ok(stairs) => Ok(stairs),
                    Err(_) => Err(FinishError::Memory),
                }
            }
        }
    }

    /// The levels from tick `from` on, of a digest of the ticks of a whole trace.
    pub(crate) fn last_stairs(&self, alloc: Global, from: u64) -> Result<Stairs, AllocError>
        requires { 1 ≤ from }
        ensures { IfOk result (λ stairs. (whole : Whole)
            → IsDigestOf whole 0 whole.trace.last self.now → from ≤ whole.trace.last + 1
            → AreLevelsFrom whole.set whole.trace from stairs) }
    {
        match &self.part {
            None => Ok(StairBuilder::new(alloc).build()),
            Some(part) => stairs_of(alloc, part, from),
        }
    }
}

/// Where the block of ticks ends that begins with `next`.
fn block_end(next: u64, to: u64) -> u64
    requires { next ≤ to }
    ensures low { next ≤ result }
    ensures high { result ≤ to }
{
    if to - next < BLOCK {
        to
    } else {
        next + (BLOCK - 1)
    }
}

/// The digest of ticks and of those that follow.
fn followed_by(left: Digest, right: Part) -> Result<Digest, AllocError>
    ensures { IfOk result (λ both. (whole : Whole) (i j k : ℕ) → IsDigestOf whole i j left
        → IsDigestOf whole j k (Some right) → IsDigestOf whole i k both) }
{
    match left.join(Digest { part: Some(right) }) {
        Ok(both) => Ok(both),
        Err(_) => Err(AllocError),
    }
}

/// The part without what is needless.
fn thin(mut part: Part) -> Part
    ensures { result ≡ digest part }
{
    thin_messages(&mut part.sent);
    thin_silences(&mut part.silent, part.from, part.to);
    part
}
