//! Pieces: what is known of a part of a trace, joined with what is known of the part that follows.

use crate::block_parts::part_of_block;
use crate::joins::{JoinRefused, Joined};
use crate::parts::{Part, join_parts};
use std::alloc::{AllocError, Global};
use std::marker::Model;
use step_trace::{ProcSet, Trace};

/// The summary of the ticks of a part of a trace, for a set of processors that count as correct. The empty part has
/// one for all sets.
#[derive(Debug, Drop)]
pub struct Piece {
    pub(crate) part: Option<Part>,
}

impl Model for Piece {
    ghost use Rattle.std.specs.Prelude.{Option};
    ghost use Rattle.chunk_join.specs.Summaries.{Summary};

    ghost Value = { Option Summary };

    ghost view = { λ a. a.part };
}

impl Joined for Piece {
    ghost use Rattle.std.specs.Prelude.{None};
    ghost use Rattle.chunk_join.specs.Summaries.{Whole, IsPiece};
    ghost use Rattle.chunk_join.specs.Parts.{refusal, joined};
    ghost use Rattle.chunk_join.specs.Laws.PiecesJoined.{pieces_join};

    ghost Whole = { Whole };

    ghost IsPart = { IsPiece };

    ghost empty = { None };

    ghost refusal = { refusal };

    ghost joined = { joined };

    fn unit() -> Piece {
        Piece { part: None }
    }

    fn fits(&self, right: &Piece) -> bool {
        match (&self.part, &right.part) {
            (Some(left), Some(right)) => left.refusal(right).is_none(),
            _ => true,
        }
    }

    fn join(self, right: Piece) -> Result<Piece, JoinRefused<Piece>> {
        let left = match self.part {
            None => return Ok(right),
            Some(left) => left,
        };
        let right = match right.part {
            None => return Ok(Piece { part: Some(left) }),
            Some(right) => right,
        };
        match join_parts(left, right) {
            Ok(both) => Ok(Piece { part: Some(both) }),
            Err(refused) => Err(JoinRefused {
                why: refused.why,
                left: Piece {
                    part: Some(refused.left),
                },
                right: Piece {
                    part: Some(refused.right),
                },
            }),
        }
    }

    ghost laws = { pieces_join };
}

impl Piece {
    ghost use Rattle.std.specs.Prelude.{◌≡◌, ◌+◌, ◌-◌, ◌≤◌, IfOk, OnErr};
    ghost use Rattle.step_trace.specs.Ticks.{IsTrace};
    ghost use Rattle.chunk_join.specs.Summaries.{IsPiece};

    /// The piece of the ticks `from` to `to`, from 1 to the last tick; if `from` is one after `to`, the unit. It
    /// takes time that grows with these ticks and their steps, and with the logarithm of the number of all steps.
    ///
    /// Fails only if out of memory; the unit takes none.
    pub fn of(
        alloc: Global,
        trace: &Trace,
        set: ProcSet,
        from: u64,
        to: u64,
    ) -> Result<Piece, AllocError>
        requires low { 1 ≤ from }
        requires order { from ≤ to + 1 }
        requires high { to ≤ trace.now.last }
        ensures some { OnErr result (from ≤ to) }
        ensures piece { IfOk result (λ piece. (sound : IsTrace trace.now)
            → IsPiece (record { set = set; trace = trace.now; sound = sound })
            (from - 1) to piece) }
    {
        if to < from {
            return Ok(Piece::unit());
        }
        Ok(Piece {
            part: Some(part_of_block(alloc, trace, set, from, to)?),
        })
    }
}
