//! The decisions that a replay finds, as `judge` takes them.

ghost use Rattle.std.specs.Prelude.{◌≡◌, IfOk, IfErr, map};
ghost use Rattle.text_commands.specs.Answers.{IsDeclined};
ghost use Rattle.text_commands.specs.ReplayedDecisions.{AreReplayed, step_tick, with_tick};
ghost use Rattle.text_commands.specs.Replays.{IsOffRun};

use command_faults::Fault;
use deciding_runs::{Decision as RunDecision, decisions_of};
use decision_claims::Decision;
use std::alloc::{AllocError, Global};
use step_buffers::replay;
use step_trace::Trace;

/// The decisions of the run that a trace records, in the order of their steps, each with the tick of its step.
///
/// Declines a trace by NotARun as `replay` does. Memory may come instead.
pub(crate) fn replayed_decisions(alloc: Global, trace: &Trace) -> Result<Vec<Decision>, Fault>
    ensures decisions { IfOk result (λ found. AreReplayed trace.now found.items) }
    ensures refused { IfErr result (IsDeclined (IsOffRun trace.now)) }
{
    let world = replay(alloc, trace)?;
    let found = decisions_of(alloc, &world)?;
    Ok(with_ticks(alloc, trace, &found)?)
}

/// These decisions with the ticks of their steps.
fn with_ticks(
    alloc: Global,
    trace: &Trace,
    found: &[RunDecision],
) -> Result<Vec<Decision>, AllocError>
    ensures { IfOk result (λ decisions. decisions.items ≡ map (with_tick trace.now) found.now) }
{
    let mut decisions = Vec::with_capacity(alloc, found.len())?;
    for decision in found {
        decisions.push(Decision {
            proc: decision.processor,
            tick: step_tick(trace, decision.step),
            value: decision.value,
        })?;
    }
    Ok(decisions)
}

/// The tick of the step of this number, 0 if there is no such step.
#[tactic(auto, unfolding(crate::specs::ReplayedDecisions::step_tick))]
fn step_tick(trace: &Trace, number: u64) -> u64
    ensures { result ≡ step_tick trace.now number }
{
    if 1 <= number && number <= trace.len() as u64 {
        trace.tick(number)
    } else {
        0
    }
}
