//! The decisions of a run: who decides, with which step, and what.

ghost use Rattle.std.specs.Prelude.{◌≡◌, ◌+◌, ◌≤◌, ◌++◌, ◌∷◌, [], length, filter_map, IfOk, OnOk, Some};
ghost use Rattle.step_trace.specs.declared.traces.TheConstants.{MAX_STEPS};
ghost use Rattle.step_trace.specs.Configurations.{IsProc};
ghost use Rattle.step_trace.specs.Traces.{step_at};
ghost use Rattle.step_buffers.specs.HeardTables.{act_ends};
ghost use Rattle.deciding_runs.specs.Decisions.{decision_at, decisions, ended_decision, new_decision};
ghost use Rattle.deciding_runs.specs.RoundCounts.{AreRounds};

use std::alloc::{AllocError, Global};
use step_buffers::World;
use step_trace::{Act, Step};

/// A decision of a run (section 3 of the 1988 paper).
#[derive(Clone, Copy, Debug, PartialEq, Eq)]
pub struct Decision {
    /// Who decides.
    pub processor: u64,
    /// The number of the step with which it ends the round that decides.
    pub step: u64,
    /// What it decides.
    pub value: u64,
}

/// The decisions of the run that a World made, in the order of their steps. A processor decides once at most.
///
/// Fails only if the list, or a number of each processor, can't be allocated. Scans the steps once.
pub fn decisions_of(alloc: Global, world: &World) -> Result<Vec<Decision>, AllocError>
    ensures { IfOk result (λ found. found.items
        ≡ decisions world.now.trace.config world.now.trace.steps) }
{
    let mut rounds = vec![in alloc; 1u64; world.trace().config().n() as usize]?;
    let mut found = Vec::new(alloc);
    for no in 1..world.trace().len() as u64 + 1 {
        note_step(world, no, &mut rounds, &mut found)?;
    }
    Ok(found)
}

/// Puts the decision of the step of this number, if it is one, behind those of the steps before it.
fn note_step(
    world: &World,
    no: u64,
    rounds: &mut [u64],
    found: &mut Vec<Decision>,
) -> Result<(), AllocError>
    requires numbered { 1 ≤ no }
    requires within { no ≤ length world.now.trace.steps }
    requires rounds { AreRounds world.now.trace.config world.now.trace.steps no rounds.old }
    ensures rounds { OnOk result
        (AreRounds world.now.trace.config world.now.trace.steps (no + 1) rounds.new) }
    ensures found { OnOk result (found.new.items
        ≡ found.old.items ++ filter_map
        (decision_at world.now.trace.config world.now.trace.steps) (no ∷ [])) }
{
    let Some(step) = world.trace().step(no) else {
        return Ok(());
    };
    if let Some(decision) = decided_with(world, step, no, rounds) {
        found.push(decision)?;
    }
    Ok(())
}

/// What the step of this number decides, if anything. `rounds` has the round of each processor, before this step and
/// then after it.
fn decided_with(world: &World, step: &Step, no: u64, rounds: &mut [u64]) -> Option<Decision>
    requires step { step_at world.now.trace.steps no ≡ Some step.now }
    requires processor { IsProc world.now.trace.config step.now.proc }
    requires limit { length world.now.trace.steps ≤ MAX_STEPS }
    requires rounds { AreRounds world.now.trace.config world.now.trace.steps no rounds.old }
    ensures decided { result ≡ ended_decision world.now.trace.config world.now.trace.steps no
        step.now.proc (act_ends step.now.act) }
    ensures rounds { AreRounds world.now.trace.config world.now.trace.steps (no + 1) rounds.new }
{
    if !ends_round(&step.act) {
        return None;
    }
    let p = step.proc;
    let round = rounds[(p - 1) as usize];
    rounds[(p - 1) as usize] = round + 1;
    new_decision(
        p,
        no,
        world.decision_in(p, round),
        world.decision_in(p, round + 1),
    )
}

/// Whether a step ends the round of its processor.
fn ends_round(act: &Act) -> bool
    ensures { result ≡ act_ends act.now }
{
    match act {
        Act::Send { .. } => false,
        Act::Receive { ends, .. } => *ends,
    }
}

/// The decision with which a processor ends a round, if it has none in the round and one after it.
fn new_decision(p: u64, no: u64, before: Option<u64>, after: Option<u64>) -> Option<Decision>
    ensures { result ≡ new_decision p no before after }
{
    match (before, after) {
        (None, Some(value)) => Some(Decision {
            processor: p,
            step: no,
            value,
        }),
        _ => None,
    }
}
