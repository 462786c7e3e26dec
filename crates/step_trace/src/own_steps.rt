//! The steps of one processor.

ghost use Rattle.std.specs.Prelude.{◌≡◌, ◌<◌, length, IfOk, OnErr};
ghost use Rattle.step_trace.specs.OwnSteps.{own_steps};

use crate::placed_steps::PlacedSteps;
use crate::steps::Step;
use std::alloc::{AllocError, Global};

/// The steps of processor `p` with their numbers, in order. Refuses only if there is one.
pub(crate) fn own_steps(
    alloc: Global,
    placed: &PlacedSteps,
    p: u64,
) -> Result<Vec<(u64, Step)>, AllocError>
    ensures own { IfOk result (λ own. own.items ≡ own_steps placed.now.steps p) }
    ensures more { OnErr result (0 < length (own_steps placed.now.steps p)) }
{
    let mut own = Vec::new(alloc);
    for i in 0..placed.len() as u64 {
        if let Some(step) = placed.step(i + 1) {
            if step.proc == p {
                own.push(numbered(i + 1, step)?)?;
            }
        }
    }
    Ok(own)
}

/// A copy of the step, with its number.
fn numbered(no: u64, step: &Step) -> Result<(u64, Step), AllocError>
    ensures { IfOk result (λ pair. pair ≡ (no, step.now)) }
{
    Ok((no, step.clone()?))
}
