//! Pieces of the greatest trace, which no command makes: what no clause says is that memory is enough for them.

use chunk_join::{Joined, Piece};
use std::alloc::Global;
use std::test::Fail;
use step_trace::Trace;
use test_support::stair_levels::has_levels_at;
use test_support::traces::{both, empty_trace, step_of};

/// 500,000 messages go from 1 to 2, which then takes one after the other.
fn sent_and_then_taken(alloc: Global) -> Result<Trace, Fail> {
    let mut trace = empty_trace(alloc, 2)?;
    for before in 0..1_000_000u64 {
        let step = if before < 500_000 {
            step_of(alloc, 1, 2, &[])
        } else {
            step_of(alloc, 2, 0, &[before - 499_999])
        };
        trace.push(step?)?;
    }
    Ok(trace)
}

/// The piece of these ticks for 1 and 2, if the trace has them.
fn piece_of(alloc: Global, trace: &Trace, from: u64, to: u64) -> Result<Piece, Fail> {
    if from == 0 || from - 1 > to || to > trace.last_tick() {
        return Err(Fail::new("no part of the trace"));
    }
    Ok(Piece::of(alloc, trace, both(), from, to)?)
}

/// All messages but the first are last missed 499,999 ticks after they were sent. Each processor is silent in one half.
const BY_HALVES: &[(u64, [u64; 7])] = &[
    (
        1,
        [500_000, 500_000, 999_999, 500_001, 1, 500_001, 1_000_000],
    ),
    (
        500_000,
        [500_000, 500_000, 999_999, 500_001, 1, 500_001, 1_000_000],
    ),
    (500_001, [1, 0, 0, 500_001, 1, 500_001, 1_000_000]),
    (500_002, [1, 0, 0, 500_000, 1, 500_002, 1_000_000]),
    (1_000_000, [1, 0, 0, 2, 1, 1_000_000, 1_000_000]),
];

/// Whether a piece has these levels.
fn climbs(alloc: Global, whole: &Piece) -> bool {
    match whole.finish(alloc) {
        Ok(stairs) => has_levels_at(&stairs, BY_HALVES),
        Err(_) => false,
    }
}

/// Whether two pieces are joined to one that has these levels.
fn join_to_whole(alloc: Global, left: Piece, right: Piece) -> bool {
    match left.join(right) {
        Ok(whole) => climbs(alloc, &whole),
        Err(_) => false,
    }
}

fn is_whole(alloc: Global, trace: &Trace) -> Result<bool, Fail> {
    Ok(climbs(alloc, &piece_of(alloc, trace, 1, 1_000_000)?))
}

/// The same of the two halves, over whose seam each message goes.
fn is_joined(alloc: Global, trace: &Trace) -> Result<bool, Fail> {
    let left = piece_of(alloc, trace, 1, 500_000)?;
    let right = piece_of(alloc, trace, 500_001, 1_000_000)?;
    Ok(join_to_whole(alloc, left, right))
}

#[test]
fn pieces_of_half_a_million_messages(rt: HostRuntime) -> Result<(), Fail> {
    let trace = sent_and_then_taken(rt.alloc())?;
    assert!(rt; is_whole(rt.alloc(), &trace)?);
    assert!(rt; is_joined(rt.alloc(), &trace)?);
    Ok(())
}
