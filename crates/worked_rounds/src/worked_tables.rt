//! Worked tables. There are three processors of which one may be faulty.

use crate::tables::{have_decisions, heard_by_three, hold, run};
use round_model::MAX_ROUNDS;
use std::alloc::Global;
use std::process::Abort;
use std::test::Fail;

/// Initial values. A table of so many rounds, in these of which the processors 1, 2 and 3 hear these senders, and
/// nobody hears anything in the others. What each has decided after them, its PROPER values, and its locks.
struct Worked<'a> {
    name: &'a str,
    init: &'a [u64],
    rounds: u64,
    hearing: &'a [(u64, [&'a [u64]; 3])],
    decisions: &'a [Option<u64>],
    held: &'a [(&'a [u64], &'a [(u64, u64)])],
}

const ALL: &[u64] = &[1, 2, 3];

const NOBODY: &[u64] = &[];

const FIVE: &[(u64, u64)] = &[(5, 2)];

const SEVEN: &[(u64, u64)] = &[(7, 1)];

const LEARNED: (&[u64], &[(u64, u64)]) = (&[5, 7, 9], &[]);

const LOCKED: (&[u64], &[(u64, u64)]) = (&[5, 7], SEVEN);

const WORKED: &[Worked] = &[
    // 1 hears all in round 1 and proposes nothing, and all learn all values in round 4. Then 2 proposes; 1 and 2 hear
    // its lock, and 2 hears both acknowledge it.
    Worked {
        name: "one decides",
        init: &[5, 7, 9],
        rounds: 7,
        hearing: &[
            (1, [ALL, NOBODY, NOBODY]),
            (4, [ALL, ALL, ALL]),
            (5, [NOBODY, ALL, NOBODY]),
            (6, [&[2], &[2], NOBODY]),
            (7, [NOBODY, &[1, 2], NOBODY]),
        ],
        decisions: &[None, Some(5), None],
        held: &[(&[5, 7, 9], FIVE), (&[5, 7, 9], FIVE), (&[5, 7, 9], &[])],
    },
    Worked {
        name: "nobody decides",
        init: &[5, 7, 9],
        rounds: 4,
        hearing: &[(1, [ALL, NOBODY, NOBODY]), (4, [ALL, ALL, ALL])],
        decisions: &[None; 3],
        held: &[LEARNED; 3],
    },
    Worked {
        name: "all hear all in three rounds",
        init: &[5, 7, 7],
        rounds: 3,
        hearing: &[(1, [ALL; 3]), (2, [ALL; 3]), (3, [ALL; 3])],
        decisions: &[Some(7), None, None],
        held: &[LOCKED; 3],
    },
    Worked {
        name: "no rounds",
        init: &[5, 7, 7],
        rounds: 0,
        hearing: &[],
        decisions: &[None; 3],
        held: &[(&[5], &[]), (&[7], &[]), (&[7], &[])],
    },
    // 1 hears two lists with 7, of which its own is one.
    Worked {
        name: "its own list is heard",
        init: &[7, 7, 5],
        rounds: 3,
        hearing: &[(1, [&[1, 2], ALL, ALL]), (2, [ALL; 3]), (3, [ALL; 3])],
        decisions: &[Some(7), None, None],
        held: &[(&[5, 7], SEVEN), (&[7], SEVEN), (&[5, 7], SEVEN)],
    },
    // A processor hears itself only if the table says so: 1 hears one list, and proposes nothing.
    Worked {
        name: "its own list is missed",
        init: &[7, 7, 5],
        rounds: 3,
        hearing: &[(1, [&[2], ALL, ALL]), (2, [ALL; 3]), (3, [ALL; 3])],
        decisions: &[None; 3],
        held: &[(&[7], &[]), (&[7], &[]), (&[5], &[])],
    },
    // 1 doesn't lock what it proposes, and decides by the acknowledgements of 2 and 3.
    Worked {
        name: "its own Lock is missed",
        init: &[7, 7, 5],
        rounds: 3,
        hearing: &[
            (1, [&[1, 2], ALL, ALL]),
            (2, [&[2, 3], ALL, ALL]),
            (3, [ALL; 3]),
        ],
        decisions: &[Some(7), None, None],
        held: &[(&[5, 7], &[]), (&[7], SEVEN), (&[5, 7], SEVEN)],
    },
    // 1 hears one acknowledgement, where two are needed.
    Worked {
        name: "its own acknowledgement is missed",
        init: &[7, 7, 5],
        rounds: 3,
        hearing: &[
            (1, [&[1, 2], ALL, ALL]),
            (2, [ALL; 3]),
            (3, [&[2], ALL, ALL]),
        ],
        decisions: &[None; 3],
        held: &[(&[7], SEVEN), (&[7], SEVEN), (&[5, 7], SEVEN)],
    },
];

fn ends_so(rt: &impl Abort, alloc: Global, worked: &Worked) -> Result<bool, Fail> {
    if worked.rounds > MAX_ROUNDS {
        return Ok(false);
    }
    let heard = heard_by_three(rt, alloc, worked.rounds, worked.hearing)?;
    let nodes = run(rt, alloc, (1, worked.init), &heard)?;
    Ok(have_decisions(&nodes, worked.decisions) && hold(&nodes, worked.held))
}

#[test]
fn worked_tables(rt: HostRuntime) -> Result<(), Fail> {
    for worked in WORKED {
        assert!(rt; ends_so(&rt, rt.alloc(), worked)?, "{}", worked.name);
    }
    Ok(())
}
