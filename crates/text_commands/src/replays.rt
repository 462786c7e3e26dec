//! The replay of a trace: the command `replay`.

ghost use Rattle.std.specs.Prelude.{◌≡◌, IfOk, IfErr};
ghost use Rattle.step_buffers.specs.Runs.{IsRun};
ghost use Rattle.text_commands.specs.Answers.{IsDeclined};
ghost use Rattle.text_commands.specs.Replays.{IsOffRun};

use crate::answers::Answer;
use crate::replay_texts::replay_text_of;
use command_faults::Fault;
use std::alloc::Global;
use step_buffers::{World, replay};
use step_trace::Trace;

/// The command `replay`: the round and the decision of each processor at the end of a run.
///
/// Declines a trace by NotARun with the number of the first step that is none of a run, and with what its processor had
/// to do.
#[derive(Clone, Copy)]
pub struct Replay;

impl Answer for Replay {
    ghost use Rattle.text_commands.specs.Replays.{IsOffRun, IsReplayOf};

    ghost Gives = { λ _. IsReplayOf };

    ghost Declines = { λ _. IsOffRun };

    fn answer(&self, alloc: Global, trace: &mut Trace) -> Result<Vec<u8>, Fault> {
        let world = world_of(alloc, trace)?;
        Ok(replay_text_of(alloc, &world)?)
    }
}

/// The World that made the steps of a trace, whatever their ticks.
fn world_of(alloc: Global, trace: &Trace) -> Result<World, Fault>
    ensures config { IfOk result (λ world. world.trace.config ≡ trace.now.config) }
    ensures steps { IfOk result (λ world. world.trace.steps ≡ trace.now.steps) }
    ensures run { IfOk result (λ world. IsRun world.trace.config world.trace.steps) }
    ensures refused { IfErr result (IsDeclined (IsOffRun trace.now)) }
{
    Ok(replay(alloc, trace)?)
}
