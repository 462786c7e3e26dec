//! Pieces of never-delivered, and their joins.

use chunk_join::{FinishError, JoinRefused, Joined, Piece, Why, join_all};
use std::alloc::{AllocError, Global};
use step_trace::Trace;
use test_support::stair_levels::has_levels_at;
use test_support::traces::both;

/// Some levels of never-delivered.
const LEVELS: &[(u64, [u64; 7])] = &[
    (1, [5, 1, 5, 3, 1, 4, 5]),
    (2, [1, 0, 0, 3, 1, 4, 5]),
    (5, [1, 0, 0, 2, 1, 5, 5]),
];

/// Whether a piece has the levels of never-delivered.
fn is_whole(alloc: Global, piece: &Piece) -> Result<bool, AllocError> {
    match piece.finish(alloc) {
        Ok(stairs) => Ok(stairs.len() == 5 && has_levels_at(&stairs, LEVELS)),
        Err(FinishError::Memory) => Err(AllocError),
        Err(FinishError::NotWhole) => Ok(false),
    }
}

/// The piece of these ticks, if the trace has them.
fn piece_of(alloc: Global, trace: &Trace, from: u64, to: u64) -> Result<Piece, AllocError> {
    if from == 0 || from - 1 > to || to > trace.last_tick() {
        return Err(AllocError);
    }
    Piece::of(alloc, trace, both(), from, to)
}

/// Whether the pieces up to a cut and after it are joined to the whole one. Fails if the answer is out of memory.
pub(crate) fn is_joined(alloc: Global, trace: &Trace, cut: u64) -> Result<bool, AllocError> {
    let left = piece_of(alloc, trace, 1, cut)?;
    let right = piece_of(alloc, trace, cut.saturating_add(1), 5)?;
    are_joined(alloc, left, right)
}

fn are_joined(alloc: Global, left: Piece, right: Piece) -> Result<bool, AllocError> {
    match left.join(right) {
        Ok(whole) => is_whole(alloc, &whole),
        Err(refused) => is_handed_back(alloc, refused),
    }
}

fn fails_if(wanting: bool) -> Result<bool, AllocError> {
    if wanting { Err(AllocError) } else { Ok(false) }
}

/// Fails if two pieces were handed back because out of memory, and now join to the whole one.
fn is_handed_back(alloc: Global, refused: JoinRefused<Piece>) -> Result<bool, AllocError> {
    let is_memory = refused.why == Why::Memory;
    match refused.left.join(refused.right) {
        Ok(whole) => fails_if(is_memory && is_whole(alloc, &whole) == Ok(true)),
        Err(_) => Ok(false),
    }
}

/// The piece of each tick.
fn pieces_of(alloc: Global, trace: &Trace) -> Result<Vec<Piece>, AllocError> {
    let mut pieces = Vec::new(alloc);
    for tick in 1..6u64 {
        pieces.push(piece_of(alloc, trace, tick, tick)?)?;
    }
    Ok(pieces)
}

/// Whether the pieces of each tick are joined to the whole one. Fails if the answer is out of memory.
pub(crate) fn are_all_joined(alloc: Global, trace: &Trace) -> Result<bool, AllocError> {
    match join_all(pieces_of(alloc, trace)?) {
        Ok(whole) => is_whole(alloc, &whole),
        Err(Why::Memory) => Err(AllocError),
        Err(_) => Ok(false),
    }
}
