//! Whom a processor may hear in a round, as far as its own node knows.

ghost use Rattle.std.specs.Prelude.{◌≡◌, ◌≤◌};
ghost use Rattle.deciding_runs.specs.Audible.{may_hear, may_hear_all};

use lock_phases::{Node, owner, part_of, phase_of};
use step_trace::Config;

/// Whether p, with this node, may hear q in a round.
pub(crate) fn may_hear(config: &Config, node: &Node, round: u64, p: u64, q: u64) -> bool
    requires { 1 ≤ round }
    ensures { result ≡ may_hear config.now node.now round p q }
{
    let owner = owner(config.n(), phase_of(round));
    match part_of(round) {
        1 => p == owner,
        2 => q == owner && (p != owner || node.proposal().is_some()),
        3 => p == owner && node.proposal().is_some(),
        _ => true,
    }
}

/// Whether p, with this node, may hear everybody in a round.
pub(crate) fn may_hear_all(config: &Config, node: &Node, round: u64, p: u64) -> bool
    requires { 1 ≤ round }
    ensures { result ≡ may_hear_all config.now node.now round p }
{
    let owner = owner(config.n(), phase_of(round));
    match part_of(round) {
        1 => p == owner,
        2 => false,
        3 => p == owner && node.proposal().is_some(),
        _ => true,
    }
}
