//! The messages of a block of ticks that follow one another: what members send and take, by passes over its steps.

ghost use Rattle.std.specs.Prelude.{◌≡◌, ◌-◌, ◌<◌, ◌≤◌, ℕ, slice_index_or, ◌++◌};
ghost use Rattle.std.specs.Prelude.{length, map, filter, All, IfOk, OnOk, []};
ghost use Rattle.step_trace.specs.Traces.{ids_at};
ghost use Rattle.step_trace.specs.Ticks.{IsTrace, IsTimed};
ghost use Rattle.step_trace.specs.TickSteps.{AreStepsBefore};
ghost use Rattle.chunk_join.specs.declared.summaries.Fate.TheVariants.{Open};
ghost use Rattle.chunk_join.specs.Parts.{is_older};
ghost use Rattle.chunk_join.specs.BlockSteps.{AreFated, AreFates, fate_after, AreLastBy, take_of, AreTakesBy};

use crate::summaries::{Fate, Message, Place, Take, after, last_of};
use crate::tick_steps::receiving_member;
use std::alloc::{AllocError, Global};
use step_trace::{MAX_MEMBER, ProcSet, Trace, receiver};

/// The messages between members that the steps after number `before` up to number `end` send, with these fates.
pub(crate) fn sent_in(
    alloc: Global,
    trace: &Trace,
    set: ProcSet,
    from: u64,
    before: u64,
    end: u64,
    fates: &[Fate],
) -> Result<Vec<Message>, AllocError>
    requires timed { IsTimed trace.now }
    requires first { AreStepsBefore trace.now from before }
    requires low { 1 ≤ from }
    requires order { before ≤ end }
    requires within { end ≤ length trace.now.steps }
    requires long { length fates.now ≡ end - before }
    ensures { IfOk result
        (λ sent. AreFated set trace.now (from - 1) before end fates.now sent.items) }
{
    let mut sent = Vec::new(alloc);
    for no in before..end {
        if let Some(to) = receiver(trace, set, no + 1) {
            sent.push(Message {
                sent: Place::of(trace, no + 1),
                to,
                fate: fates[(no - before) as usize],
            })?;
        }
    }
    Ok(sent)
}

/// For each step after number `before` up to number `end`, what becomes of its message by these takes.
pub(crate) fn fates_by(
    alloc: Global,
    taken: &[Take],
    before: u64,
    end: u64,
) -> Result<Vec<Fate>, AllocError>
    requires { before ≤ end }
    ensures long { IfOk result (λ fates. length fates.items ≡ end - before) }
    ensures fates { IfOk result (λ fates. AreFates before taken.now fates.items) }
{
    let mut fates = vec![in alloc; Fate::Open; (end - before) as usize]?;
    for k in (0..taken.len()).rev() {
        note_fate(&mut fates, taken[k], before);
    }
    Ok(fates)
}

/// Notes a take of a message that has a place in this list.
fn note_fate(fates: &mut Vec<Fate>, take: Take, before: u64)
    ensures long { length fates.new.items ≡ length fates.old.items }
    ensures noted { (s : ℕ) → before < s → s - before - 1 < length fates.old.items
        → slice_index_or fates.new.items (s - before - 1) Open ≡ fate_after take s
        (slice_index_or fates.old.items (s - before - 1) Open) }
{
    let sent = u64::from(take.sent.no);
    if sent <= before {
        return;
    }
    let at = (sent - before - 1) as usize;
    if at < fates.len() {
        let missed = after(take.sent, take.before);
        fates[at] = Fate::Taken { missed };
    }
}

/// What members take by some steps, and the last Receive of each among them.
pub(crate) struct Receives {
    pub(crate) taken: Vec<Take>,
    pub(crate) last: Vec<Option<Place>>,
}

/// What members take by the steps after number `before` up to number `end`, whenever it was sent, and the last Receive
/// of each.
pub(crate) fn receives_in(
    alloc: Global,
    trace: &Trace,
    set: ProcSet,
    from: u64,
    before: u64,
    end: u64,
) -> Result<Receives, AllocError>
    requires sound { IsTrace trace.now }
    requires first { AreStepsBefore trace.now from before }
    requires low { 1 ≤ from }
    requires order { before ≤ end }
    requires within { end ≤ length trace.now.steps }
    ensures taken { IfOk result (λ r. AreTakesBy set trace.now (from - 1) end [] r.taken.items) }
    ensures last { IfOk result (λ r. AreLastBy set trace.now (from - 1) end r.last.items) }
{
    let mut taken = Vec::new(alloc);
    let mut last = vec![in alloc; None; MAX_MEMBER as usize + 1]?;
    for no in before..end {
        if let Some(by) = receiving_member(trace, set, no + 1) {
            let at = Place::of(trace, no + 1);
            let missed = last_of(&last, by);
            append_takes(&mut taken, trace, at, by, missed)?;
            last[by as usize] = Some(at);
        }
    }
    Ok(Receives { taken, last })
}

/// Appends what a Receive takes.
fn append_takes(
    taken: &mut Vec<Take>,
    trace: &Trace,
    at: Place,
    by: u64,
    before: Option<Place>,
) -> Result<(), AllocError>
    ensures { OnOk result (taken.new.items ≡ taken.old.items
        ++ map (take_of trace.now at by before) (ids_at trace.now.steps at.no)) }
{
    if let Some(step) = trace.step(u64::from(at.no)) {
        append_ids(taken, trace, at, by, before, step.act.ids())?;
    }
    Ok(())
}

/// Appends the takes of these messages by a Receive.
fn append_ids(
    taken: &mut Vec<Take>,
    trace: &Trace,
    at: Place,
    by: u64,
    before: Option<Place>,
    ids: &[u64],
) -> Result<(), AllocError>
    requires low { All (λ s. 1 ≤ s) ids.now }
    requires high { All (λ s. s ≤ length trace.now.steps) ids.now }
    ensures { OnOk result (taken.new.items ≡ taken.old.items
        ++ map (take_of trace.now at by before) ids.now) }
{
    for id in ids {
        taken.push(Take {
            at,
            by,
            sent: Place::of(trace, *id),
            before,
        })?;
    }
    Ok(())
}

/// Of these the takes of messages from before tick `from`.
pub(crate) fn keep_older(taken: &mut Vec<Take>, from: u64)
    ensures { taken.new.items ≡ filter (is_older from) taken.old.items }
{
    taken.retain(|take| u64::from(take.sent.tick) < from);
}
