//! Rounds in which all hear all, as tables of who heard whom.

use lock_phases::Node;
use refused_growths::{LentCall, first_wrong_lent};
use round_model::{Heard, run_rounds};
use std::alloc::{AllocError, Global};
use step_trace::{Config, ProcSet};

/// The table of three processors and eight rounds in which all hear all.
fn all_heard(alloc: Global) -> Result<Heard, AllocError> {
    let mut heard = Heard::new(alloc, 3, 8)?;
    let all = ProcSet::empty().with(1).with(2).with(3);
    for i in 0..24 {
        let (round, proc) = (i / 3 + 1, i % 3 + 1);
        if round <= heard.rounds() && proc <= heard.n() && all.within(heard.n()) {
            heard.set(round, proc, all);
        }
    }
    Ok(heard)
}

fn ends_so(node: &Node, decision: Option<u64>) -> bool {
    node.decision() == decision && node.locks() == [(5, 2)].as_slice()
}

/// No value is in two lists at first, and all learn all values; then 2 decides the least.
fn have_decided(nodes: &[Node]) -> bool {
    let decisions = [None, Some(5), None];
    nodes.len() == 3
        && nodes
            .iter()
            .zip(decisions.as_slice())
            .all(|(node, decision)| ends_so(node, *decision))
}

/// Three processors with the initial values 5, 7 and 9, of which one may be faulty.
#[derive(Drop)]
struct Runs {
    config: Config,
}

impl LentCall for Runs {
    fn is_right(&self, alloc: Global) -> Result<bool, AllocError> {
        let heard = all_heard(alloc)?;
        if heard.n() != self.config.n() {
            return Ok(false);
        }
        Ok(have_decided(&run_rounds(alloc, &self.config, &heard)?))
    }

    fn is_as_before(&self) -> bool {
        true
    }
}

fn three(alloc: Global) -> Option<Runs> {
    let init = Vec::from_slice(alloc, &[5, 7, 9]).ok()?;
    let config = Config::new(3, 1, init).ok()?;
    Some(Runs { config })
}

#[test]
fn rounds_are_run(rt: HostRuntime) {
    let wrong = match three(rt.alloc()) {
        Some(call) => first_wrong_lent(rt.alloc(), &call),
        None => Some(0),
    };
    assert!(rt; wrong.is_none(), "{wrong:?}");
}
