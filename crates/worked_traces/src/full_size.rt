//! The greatest trace, by calls that no command makes: no clause says that they succeed if memory is ample.

use bound_witness::gaps;
use std::alloc::{AllocError, Global};
use std::test::Fail;
use step_trace::{Gap, MAX_STEPS, Trace};
use test_support::traces::{both, empty_trace, step_of};

/// Two processors take turns, but for 20,000 steps in the middle, which are all of processor 1.
fn processor_of(no: u64) -> u64 {
    if no % 2 == 1 || (40_000 < no && no <= 60_000) {
        1
    } else {
        2
    }
}

/// A trace of so many Receives of these processors that take nothing.
fn turns(alloc: Global, count: u64) -> Result<Trace, Fail> {
    let mut trace = empty_trace(alloc, 2)?;
    for before in 0..count {
        trace.push(step_of(alloc, processor_of(before + 1), 0, &[])?)?;
    }
    Ok(trace)
}

/// Whether so many of its steps are those of processor 1.
fn lists_own(alloc: Global, trace: &Trace, own: usize) -> Result<bool, AllocError> {
    Ok(trace.restrict(alloc, 1)?.len() == own)
}

/// Some of the longest gaps, each with its place in their list. Processor 1 misses the even steps outside the middle:
/// 20,000 before it, and 470,000 after. Processor 2 misses the 20,000 odd ones before the middle, then the middle and
/// the step after it in one gap, and the 469,999 odd ones from there on.
const GAPS: &[(usize, u64, u64, u64)] = &[
    (0, 1, 2, 2),
    (19_999, 1, 40_000, 40_000),
    (20_000, 1, 60_002, 60_002),
    (489_999, 1, 1_000_000, 1_000_000),
    (490_000, 2, 1, 1),
    (509_999, 2, 39_999, 39_999),
    (510_000, 2, 40_001, 60_001),
    (510_001, 2, 60_003, 60_003),
    (979_999, 2, 999_999, 999_999),
];

fn are_gaps(listed: &[Gap]) -> bool {
    for &(place, proc, from, to) in GAPS {
        if listed.get(place) != Some(&Gap { proc, from, to }) {
            return false;
        }
    }
    listed.len() == 980_000
}

/// Whether these are the longest gaps of both processors.
fn lists_gaps(alloc: Global, trace: &Trace) -> Result<bool, AllocError> {
    let set = both();
    if !set.within(trace.config().n()) {
        return Ok(false);
    }
    Ok(are_gaps(&gaps(alloc, trace, set)?))
}

/// Processor 1 has the odd steps, and the 10,000 even ones in the middle.
#[test]
fn own_steps_and_gaps_of_the_greatest_trace(rt: HostRuntime) -> Result<(), Fail> {
    let trace = turns(rt.alloc(), MAX_STEPS as u64)?;
    assert!(rt; lists_own(rt.alloc(), &trace, 510_000)?);
    assert!(rt; lists_gaps(rt.alloc(), &trace)?);
    Ok(())
}
