//! The silences of a block of ticks, by one pass over its steps.

ghost use Rattle.std.specs.Prelude.{◌≡◌, ◌+◌, ◌-◌, ◌<◌, ◌≤◌, ℕ, length, IfOk, OnOk};
ghost use Rattle.step_trace.specs.Ticks.{IsTrace};
ghost use Rattle.step_trace.specs.TickSteps.{AreStepsBefore};
ghost use Rattle.chunk_join.specs.Summaries.{IsListing, IsLongest, EndsBefore};
ghost use Rattle.chunk_join.specs.TickSteps.{AreStepsOf};
ghost use Rattle.chunk_join.specs.BlockSteps.{IsMemberAt, AreEnded};

use crate::tick_steps::{TickSpan, steps_through};
use std::alloc::{AllocError, Global};
use step_trace::{Gap, MAX_MEMBER, ProcSet, Trace};

/// The longest silences of the members in the ticks `from` to `to`, before which there are this many steps.
pub(crate) fn silences_in(
    alloc: Global,
    trace: &Trace,
    set: ProcSet,
    from: u64,
    to: u64,
    before: u64,
) -> Result<Vec<Gap>, AllocError>
    requires sound { IsTrace trace.now }
    requires low { 1 ≤ from }
    requires order { from ≤ to }
    requires high { to ≤ trace.now.last }
    requires first { AreStepsBefore trace.now from before }
    ensures { IfOk result
        (λ silent. IsListing EndsBefore (IsLongest set trace.now (from - 1) to) silent.items) }
{
    let mut silent = Vec::new(alloc);
    let mut begun = vec![in alloc; from; MAX_MEMBER as usize + 1]?;
    let mut end = before;
    for tick in from..to + 1 {
        let before = end;
        end = steps_through(trace, tick, before);
        let span = TickSpan { tick, before, end };
        end_silences(&mut silent, &mut begun, trace, set, span)?;
    }
    append_tails(&mut silent, &begun, trace, set, to)?;
    Ok(silent)
}

/// Appends the silences that the steps of a tick end, from its last step back.
fn end_silences(
    silent: &mut Vec<Gap>,
    begun: &mut Vec<u64>,
    trace: &Trace,
    set: ProcSet,
    span: TickSpan,
) -> Result<(), AllocError>
    requires sound { IsTrace trace.now }
    requires long { length begun.old.items ≡ MAX_MEMBER + 1 }
    requires low { 1 ≤ span.tick }
    requires high { span.tick ≤ trace.now.last }
    requires steps { AreStepsOf trace.now span.tick span.before span.end }
    ensures long { length begun.new.items ≡ MAX_MEMBER + 1 }
    ensures ended { OnOk result ((i : ℕ) → i < span.tick
        → AreEnded set trace.now i span.tick span.end silent.old.items begun.old.items
        → AreEnded set trace.now i span.tick span.before silent.new.items begun.new.items) }
{
    for no in (span.before..span.end).rev() {
        if let Some(proc) = member_at(trace, set, no + 1) {
            let from = begun[proc as usize];
            if from < span.tick {
                silent.push(Gap {
                    proc,
                    from,
                    to: span.tick - 1,
                })?;
            }
            begun[proc as usize] = span.tick + 1;
        }
    }
    Ok(())
}

/// If the step of this number is one of a member, the member.
fn member_at(trace: &Trace, set: ProcSet, no: u64) -> Option<u64>
    ensures { IsMemberAt set trace.now.steps no result }
{
    let Some(step) = trace.step(no) else {
        return None;
    };
    set.contains(step.proc).then_some(step.proc)
}

/// Appends the silences that last up to the last tick of the block.
fn append_tails(
    silent: &mut Vec<Gap>,
    begun: &[u64],
    trace: &Trace,
    set: ProcSet,
    to: u64,
) -> Result<(), AllocError>
    requires sound { IsTrace trace.now }
    requires long { length begun.now ≡ MAX_MEMBER + 1 }
    requires high { to ≤ trace.now.last }
    ensures { OnOk result ((i : ℕ) → i < to
        → AreEnded set trace.now i (to + 1) (length trace.now.steps) silent.old.items begun.now
        → IsListing EndsBefore (IsLongest set trace.now i to) silent.new.items) }
{
    for p in (1..MAX_MEMBER + 1).rev() {
        if set.contains(p) {
            let from = begun[p as usize];
            if from <= to {
                silent.push(Gap { proc: p, from, to })?;
            }
        }
    }
    Ok(())
}
