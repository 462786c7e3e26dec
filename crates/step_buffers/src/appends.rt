//! One step more, if nothing but memory can lack.

ghost use Rattle.std.specs.Prelude.{◌≡◌, ◌++◌, ◌∷◌, [], List, OnOk, OnErr};
ghost use Rattle.step_trace.specs.declared.steps.Step.{Step as TraceStep};
ghost use Rattle.step_trace.specs.Steps.{act_ids};
ghost use Rattle.step_buffers.specs.NextSteps.{IsNext, IsGrown};
ghost use Rattle.step_buffers.specs.Worlds.{IsPacedRun};

use std::alloc::AllocError;
use step_trace::{PushError, Step, Trace};

/// Appends a step that may come next, in a tick of its own.
pub(crate) fn append(trace: &mut Trace, step: Step) -> Result<(), AllocError>
    requires run { IsPacedRun trace.old }
    requires next { IsNext trace.old step }
    ensures run { IsPacedRun trace.new }
    ensures grown { OnOk result (IsGrown trace.old trace.new step) }
    ensures err { OnErr result (trace.new ≡ trace.old) }
{
    match trace.push(step) {
        Ok(()) => Ok(()),
        Err(PushError::Memory) => Err(AllocError),
        Err(_) => unreachable!(),
    }
}

/// The ids that the last step of a trace takes.
pub(crate) fn last_ids(trace: &Trace) -> &[u64]
    ensures { (steps : List TraceStep) (last : TraceStep) → trace.now.steps ≡ steps ++ last ∷ []
        → result.now ≡ act_ids last.act }
{
    match trace.step(trace.len() as u64) {
        Some(step) => step.act.ids(),
        None => &[],
    }
}
