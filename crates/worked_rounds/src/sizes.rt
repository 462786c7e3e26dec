//! The greatest tables, and the most processors: what no clause says is that memory is enough for them.

ghost use Rattle.std.specs.Prelude.{◌≤◌};
ghost use Rattle.round_model.specs.declared.heard_sets.TheConstants.{MAX_ROUNDS};

use crate::tables::{all_heard, have_decisions, run};
use lock_phases::Node;
use round_model::{Heard, MAX_ROUNDS};
use std::alloc::Global;
use std::process::Abort;
use std::test::Fail;
use step_trace::ProcSet;

#[test]
fn a_table_of_the_most_rounds(rt: HostRuntime) -> Result<(), Fail> {
    let mut heard = Heard::new(rt.alloc(), 2, MAX_ROUNDS)?;
    assert!(rt; heard.rounds() == MAX_ROUNDS);
    heard.set(MAX_ROUNDS, 2, ProcSet::empty().with(1));
    assert!(rt; heard.get(MAX_ROUNDS, 2).contains(1));
    assert!(rt; !heard.get(MAX_ROUNDS, 1).contains(1));
    Ok(())
}

/// The initial values 64 to 1.
fn falling() -> [u64; 64] {
    let mut init = [0; 64];
    for i in 0..64usize {
        init[i] = 64 - i as u64;
    }
    init
}

/// Whether each node has all 64 values.
fn know_all(nodes: &[Node]) -> bool {
    nodes.iter().all(|node| node.proper().len() == 64)
}

/// Whether 64 processors, of which none may be faulty, have learned all values and decided 1 after so many rounds in
/// which all hear all; but the first has decided this.
fn sixty_four_decide(
    rt: &impl Abort,
    alloc: Global,
    rounds: u64,
    first: Option<u64>,
) -> Result<bool, Fail>
    requires { rounds ≤ MAX_ROUNDS }
{
    let mut decisions = [Some(1); 64];
    decisions[0] = first;
    let init = falling();
    let heard = all_heard(rt, alloc, 64, rounds)?;
    let nodes = run(rt, alloc, (0, &init), &heard)?;
    Ok(know_all(&nodes) && have_decisions(&nodes, &decisions))
}

/// In phase 1 its owner 1 hears no value in all 64 lists, and all learn all values at its end. Then each owner decides
/// the least in its phase, 64 in round 255 and 1 last, in phase 65: by round 259, which is 4 (1 + 64) - 1.
#[test]
fn sixty_four_decide_by_the_bound(rt: HostRuntime) -> Result<(), Fail> {
    assert!(rt; sixty_four_decide(&rt, rt.alloc(), 258, None)?);
    assert!(rt; sixty_four_decide(&rt, rt.alloc(), 259, Some(1))?);
    Ok(())
}
