//! A step: what a move comes to, and a Send or a Receive that is made.

ghost use Rattle.std.specs.Prelude.{◌≡◌, ◌<◌, Some, None, length, IfOk, OnOk, IfErr, OnErr};
ghost use Rattle.step_trace.specs.declared.traces.TheConstants.{MAX_STEPS};
ghost use Rattle.step_trace.specs.Configurations.{IsProc};
ghost use Rattle.step_buffers.specs.Moves.{step_of, move_refusal, IsStepRefusal};
ghost use Rattle.step_buffers.specs.NextSteps.{IsNext, IsGrown};
ghost use Rattle.step_buffers.specs.Worlds.{AreProcessors, IsWorld};

use crate::letters::Place;
use crate::moves::{Move, StepError};
use crate::processors::{Processor, next_send};
use crate::receives::{chosen, receive};
use crate::sends::send;
use std::alloc::{AllocError, Global};
use step_trace::{Act, Trace};

/// What processor `p` does in a move.
pub(crate) fn act_of(
    alloc: Global,
    trace: &Trace,
    processors: &[Processor],
    p: u64,
    step: Move,
) -> Result<Act, StepError>
    requires processors { AreProcessors trace.now.config trace.now.steps processors.now }
    requires room { length trace.now.steps < MAX_STEPS }
    requires processor { IsProc trace.now.config p }
    ensures step { IfOk result (λ act. Some (record { proc = p; act = act })
        ≡ step_of trace.now.config trace.now.steps p step.entry) }
    ensures next { IfOk result (λ act. IsNext trace.now (record { proc = p; act = act })) }
    ensures ok { OnOk result (move_refusal trace.now.config trace.now.steps p step.entry ≡ None) }
    ensures refused { IfErr result (λ e.
        IsStepRefusal e (move_refusal trace.now.config trace.now.steps p step.entry)) }
{
    let processor = &processors[(p - 1) as usize];
    match step {
        Move::Send => {
            let Some(to) = next_send(trace, processor, p) else {
                return Err(StepError::NothingToSend);
            };
            Ok(Act::Send { to })
        }
        Move::Receive { take, ends } => {
            let ids = chosen(alloc, trace, processor, p, take, ends)?;
            Ok(Act::Receive { ends, ids })
        }
    }
}

/// Makes a step of processor `p` that is due.
pub(crate) fn make(
    alloc: Global,
    trace: &mut Trace,
    letters: &mut Vec<Place>,
    processors: &mut Vec<Processor>,
    p: u64,
    act: Act,
) -> Result<(), AllocError>
    requires world { IsWorld trace.old letters.old.items processors.old.items }
    requires next { IsNext trace.old (record { proc = p; act = act }) }
    ensures world { IsWorld trace.new letters.new.items processors.new.items }
    ensures grown { OnOk result (IsGrown trace.old trace.new (record { proc = p; act = act })) }
    ensures err { OnErr result (trace.new ≡ trace.old) }
{
    match act {
        Act::Send { to } => send(alloc, trace, letters, processors, p, to),
        Act::Receive { ends, ids } => receive(alloc, trace, letters, processors, p, ends, ids),
    }
}
