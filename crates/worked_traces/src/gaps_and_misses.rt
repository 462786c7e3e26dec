//! The longest gaps of worked traces, the last misses of their messages, and their least bounds from each tick on.

use bound_witness::{delta_at, gaps, last_miss, phi_at};
use std::alloc::{AllocError, Global};
use std::test::Fail;
use step_trace::{Gap, Miss, ProcSet, Trace};
use suffix_staircase::{Level, Stairs};
use test_support::traces::ticked;

/// A trace of two processors with these steps, each with its tick before it, up to the tick `last`. If the processors
/// of the list are correct, these are their longest gaps, each as its processor, its first and its last tick; and of
/// each of these messages the last Receive that misses it, None if none does.
struct Worked<'a> {
    name: &'a str,
    steps: &'a [(u64, u64, u64, &'a [u64])],
    last: u64,
    correct: &'a str,
    gaps: &'a [(u64, u64, u64)],
    misses: &'a [(u64, Option<u64>)],
}

const WORKED: &[Worked] = &[
    Worked {
        name: "one miss",
        steps: &[(1, 1, 2, &[]), (2, 2, 0, &[]), (3, 2, 0, &[1])],
        last: 3,
        correct: "1,2",
        gaps: &[(1, 2, 3), (2, 1, 1)],
        misses: &[(1, Some(2))],
    },
    Worked {
        name: "never delivered",
        steps: &[
            (1, 1, 2, &[]),
            (2, 2, 0, &[]),
            (3, 1, 2, &[]),
            (4, 2, 0, &[3]),
            (5, 2, 0, &[]),
        ],
        last: 5,
        correct: "1,2",
        gaps: &[(1, 2, 2), (1, 4, 5), (2, 1, 1), (2, 3, 3)],
        misses: &[(0, None), (1, Some(5)), (2, None), (3, None), (6, None)],
    },
    Worked {
        name: "shared ticks",
        steps: &[
            (1, 1, 2, &[]),
            (1, 2, 1, &[]),
            (2, 1, 0, &[2]),
            (2, 2, 0, &[1]),
        ],
        last: 2,
        correct: "1,2",
        gaps: &[],
        misses: &[(1, None), (2, None)],
    },
    Worked {
        name: "an idle end",
        steps: &[(1, 1, 0, &[])],
        last: 3,
        correct: "1",
        gaps: &[(1, 2, 3)],
        misses: &[],
    },
    Worked {
        name: "sparse steps",
        steps: &[(1, 1, 2, &[]), (3, 2, 0, &[]), (5, 2, 0, &[1])],
        last: 5,
        correct: "1,2",
        gaps: &[(1, 2, 5), (2, 1, 2), (2, 4, 4)],
        misses: &[(1, Some(2))],
    },
    // A Receive in its Send's own tick is no miss.
    Worked {
        name: "a Receive in the Send's tick",
        steps: &[(1, 1, 2, &[]), (1, 2, 0, &[]), (2, 2, 0, &[1])],
        last: 2,
        correct: "1,2",
        gaps: &[(1, 2, 2)],
        misses: &[(1, None)],
    },
];

fn are_gaps(listed: &[Gap], want: &[(u64, u64, u64)]) -> bool {
    for i in 0..want.len() {
        let (proc, from, to) = want[i];
        if listed.get(i) != Some(&Gap { proc, from, to }) {
            return false;
        }
    }
    listed.len() == want.len()
}

/// Whether these are the longest gaps of the members of a set within the trace.
fn lists_gaps(
    alloc: Global,
    trace: &Trace,
    set: ProcSet,
    want: &[(u64, u64, u64)],
) -> Result<bool, AllocError> {
    if !set.within(trace.config().n()) {
        return Ok(false);
    }
    Ok(are_gaps(&gaps(alloc, trace, set)?, want))
}

/// Whether these are the last misses of messages, if a set within the trace is correct.
fn misses_all(trace: &Trace, set: ProcSet, misses: &[(u64, Option<u64>)]) -> bool {
    if !set.within(trace.config().n()) {
        return false;
    }
    for &(sent, missed) in misses {
        let want = missed.map(|missed| Miss { sent, missed });
        if last_miss(trace, set, sent) != want {
            return false;
        }
    }
    true
}

fn is_found(alloc: Global, it: &Worked, set: ProcSet) -> Result<bool, Fail> {
    let trace = ticked(alloc, 2, it.steps, it.last)?;
    Ok(misses_all(&trace, set, it.misses) && lists_gaps(alloc, &trace, set, it.gaps)?)
}

#[test]
fn gaps_and_misses(rt: HostRuntime) -> Result<(), Fail> {
    for it in WORKED {
        let set = ProcSet::parse_list(it.correct).expect(&rt, "a list");
        assert!(rt; is_found(rt.alloc(), it, set)?, "{}", it.name);
    }
    Ok(())
}

/// Whether plain searches find the bounds of a level at this tick, if the trace has it and a set within it is correct.
fn is_level(trace: &Trace, set: ProcSet, g: u64, level: Level) -> bool {
    if g == 0 || g > trace.last_tick() || !set.within(trace.config().n()) {
        return false;
    }
    delta_at(trace, set, g) == (level.delta, level.miss)
        && phi_at(trace, set, g) == (level.phi, level.gap)
}

/// Whether the stairs have a level for each tick of the trace, with the bounds that plain searches find.
fn are_levels(trace: &Trace, set: ProcSet, stairs: &Stairs) -> bool {
    let last = stairs.len() as u64;
    for g in 1..last + 1 {
        if !is_level(trace, set, g, stairs.at(g)) {
            return false;
        }
    }
    last == trace.last_tick()
}

/// Whether one pass over the trace finds the same bounds as plain searches at each tick.
fn has_levels(alloc: Global, it: &Worked, set: ProcSet) -> Result<bool, Fail> {
    let trace = ticked(alloc, 2, it.steps, it.last)?;
    if !set.within(trace.config().n()) {
        return Ok(false);
    }
    Ok(are_levels(&trace, set, &Stairs::of_trace(alloc, &trace, set)?))
}

#[test]
fn bounds_of_each_tick(rt: HostRuntime) -> Result<(), Fail> {
    for it in WORKED {
        let set = ProcSet::parse_list(it.correct).expect(&rt, "a list");
        assert!(rt; has_levels(rt.alloc(), it, set)?, "{}", it.name);
    }
    Ok(())
}
