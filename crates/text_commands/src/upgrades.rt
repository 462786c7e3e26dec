//! The upgrade of a trace text to version 2: the command `upgrade`.

ghost use Rattle.std.specs.Prelude.{◌≡◌, IfOk, IfErr};
ghost use Rattle.command_faults.specs.declared.faults.Fault.TheVariants as fault;
ghost use Rattle.text_commands.specs.Upgrades.{IsUpgradeOf};

use crate::answers::Answer;
use command_faults::Fault;
use std::alloc::Global;
use std::thread::Threads;
use step_trace::Trace;
use trace_text::{trace_text_2_by_four, trace_text_2_of};

/// The command `upgrade`: the text of a trace in version 2. It declines no trace.
#[derive(Clone, Copy)]
pub struct Upgrade;

impl Answer for Upgrade {
    ghost use Rattle.text_commands.specs.Upgrades.{IsNothingElse, IsUpgradeOf};

    ghost Gives = { λ _. IsUpgradeOf };

    ghost Declines = { λ _. IsNothingElse };

    fn answer(&self, alloc: Global, trace: &mut Trace) -> Result<Vec<u8>, Fault> {
        text_2_of(alloc, trace)
    }
}

/// The text of a trace in version 2, which is read back as that trace.
pub(crate) fn text_2_of(alloc: Global, trace: &Trace) -> Result<Vec<u8>, Fault>
    ensures text { IfOk result (λ text. IsUpgradeOf trace.now text.items) }
    ensures refused { IfErr result (λ why. why ≡ fault.Memory) }
{
    Ok(trace_text_2_of(alloc, trace)?)
}

/// The same, with the help of other threads.
pub(crate) fn text_2_by_four<T: Threads + Sync>(
    rt: &T,
    alloc: Global,
    trace: &Trace,
) -> Result<Vec<u8>, Fault>
    ensures text { IfOk result (λ text. IsUpgradeOf trace.now text.items) }
    ensures refused { IfErr result (λ why. why ≡ fault.Memory) }
{
    Ok(trace_text_2_by_four(rt, alloc, trace)?)
}
