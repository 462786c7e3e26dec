//! What the seats did, compared with what is done in the trace of a World, step by step.

ghost use Rattle.std.specs.Prelude.{◌≡◌, ◌+◌, ◌≤◌, ◌↔◌, Some, length, slice_get, cond, IsTrue, IfOk};
ghost use Rattle.step_trace.specs.declared.traces.TheConstants.{MAX_STEPS};
ghost use Rattle.step_buffers.specs.HeardTables.{act_ends};
ghost use Rattle.locked_recorder.specs.Audits.{AreInOrder};
ghost use Rattle.locked_recorder.specs.Comparisons.{AreCompared, IsNextAgreed};

use crate::seats::Seat;
use std::alloc::{AllocError, Global};
use step_buffers::{Done, World};
use step_trace::{Act, Step};

/// Of each seat how many of the first things that it did are what its processor did, if they never differed.
///
/// Takes memory for two numbers for each seat.
pub(crate) fn compare_seats(
    alloc: Global,
    world: &World,
    seats: &[Seat],
) -> Result<Vec<Option<usize>>, AllocError>
    requires order { AreInOrder world.now.trace.config seats.now }
    ensures { IfOk result (λ agreed. AreCompared world.now.trace.config world.now.trace.steps
        (length world.now.trace.steps) seats.now agreed.items) }
{
    let trace = world.trace();
    let n = trace.config().n() as usize;
    let mut rounds = vec![in alloc; 1u64; n]?;
    let mut agreed = vec![in alloc; Some(0usize); n]?;
    for no in 1..trace.len() as u64 + 1 {
        let Some(step) = trace.step(no) else {
            unreachable!()
        };
        let i = (step.proc - 1) as usize;
        let round = round_after(step, rounds[i]);
        rounds[i] = round;
        let decision = world.decision_in(step.proc, round);
        agreed[i] = next_agreed(seats[i].done(), agreed[i], no, step, round, decision);
    }
    Ok(agreed)
}

/// The round of a processor after its step in a round.
fn round_after(step: &Step, round: u64) -> u64
    requires { round ≤ MAX_STEPS }
    ensures { result ≡ round + cond (act_ends step.now.act) 1 0 }
{
    match step.act {
        Act::Receive { ends: true, .. } => round + 1,
        _ => round,
    }
}

/// How many of the first things that a seat did are what its processor did, with one step more, if so many were
/// before it. None from the first difference on.
fn next_agreed(
    own: &[Done],
    agreed: Option<usize>,
    no: u64,
    step: &Step,
    round: u64,
    decision: Option<u64>,
) -> Option<usize>
    ensures { IsNextAgreed own.now
        (record { no = no; step = step.now; round = round; decision = decision }) agreed result }
{
    match agreed {
        Some(count) if has_at(own, count, no, step, round, decision) => Some(count + 1),
        _ => None,
    }
}

/// Whether this was done at an index of a list.
fn has_at(
    list: &[Done],
    index: usize,
    no: u64,
    step: &Step,
    round: u64,
    decision: Option<u64>,
) -> bool
    ensures { IsTrue result
        ↔ (slice_get list.now index ≡ Some
        (record { no = no; step = step.now; round = round; decision = decision })) }
{
    match list.get(index) {
        Some(done) => {
            done.no == no
                && done.step.is_same(step)
                && done.round == round
                && done.decision == decision
        }
        None => false,
    }
}
