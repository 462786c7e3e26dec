//! The ticks in which short silences of processors end.

ghost use Rattle.std.specs.Prelude.{◌≡◌, ◌<◌, ◌≤◌, ◌+◌, ◌-◌, ◌∷◌, ℕ, []};
ghost use Rattle.std.specs.Prelude.{length, IfOk, OnOk, slice_index};
ghost use Rattle.timed_events.specs.Checks.{AreMeant, AreOfProcessors};
ghost use Rattle.timed_events.specs.IdleTicks.{AreIdle};
ghost use Rattle.timed_events.specs.IdleWalks.{IsWalkedTo, HaveEnded, noted};
ghost use Rattle.timed_events.specs.Orders.{IsOrder};

use crate::events::Event;
use crate::walk_briefs::{processor_of, walk_briefs_of};
use std::alloc::{AllocError, Global};
use step_trace::{MAX_PROCESSORS, MAX_TICKS};

/// A tick of a processor in which a short silence of it ends.
#[derive(Clone, Copy, Debug)]
pub struct IdleTick {
    pub processor: u64,
    pub tick: u32,
}

/// The last tick of each short silence of `n` processors, in the order of their moments. A short silence is at most
/// `limit` ticks without an event of the processor: from tick 1 or its event before to its next event or the tick
/// `last`.
///
/// Asks for ticks from 1 to `last`, and for the order of the events by their moments.
pub(crate) fn idle_ticks(
    alloc: Global,
    n: u64,
    events: &[Event],
    ticks: &[u32],
    order: &[u32],
    last: u64,
    limit: u128,
) -> Result<Vec<IdleTick>, AllocError>
    requires most { n ≤ MAX_PROCESSORS }
    requires meant { AreMeant events.now n }
    requires ticks { length ticks.now ≡ length events.now }
    requires first { (i : ℕ) → i < length events.now → 1 ≤ slice_index ticks.now i }
    requires within { (i : ℕ) → i < length events.now → slice_index ticks.now i ≤ last }
    requires last { last ≤ MAX_TICKS }
    requires ordered { IsOrder events.now ticks.now order.now }
    ensures { IfOk result (λ v. AreIdle n events.now ticks.now last limit v.items) }
{
    let mut walk = idle_before_events(alloc, events, ticks, order, limit)?;
    idle_at_end(
        n,
        events,
        ticks,
        &walk.lasts,
        last as u32,
        limit,
        &mut walk.idles,
    )?;
    Ok(walk.idles)
}

/// The short silences that end before an event, and the last tick of each processor; 0 if it has none.
#[derive(Drop)]
struct Walk {
    idles: Vec<IdleTick>,
    lasts: Vec<u32>,
}

/// Walks over the events in the order of their moments, and notes the short silences before them.
fn idle_before_events(
    alloc: Global,
    events: &[Event],
    ticks: &[u32],
    order: &[u32],
    limit: u128,
) -> Result<Walk, AllocError>
    requires processors { AreOfProcessors events.now }
    requires ticks { length ticks.now ≡ length events.now }
    requires first { (i : ℕ) → i < length events.now → 1 ≤ slice_index ticks.now i }
    requires ordered { IsOrder events.now ticks.now order.now }
    ensures { IfOk result (λ w. IsWalkedTo events.now ticks.now order.now limit
        (length order.now) w.lasts.items w.idles.items) }
{
    let briefs = walk_briefs_of(alloc, events)?;
    let mut lasts = vec![in alloc; 0; MAX_PROCESSORS as usize]?;
    let mut idles = Vec::new(alloc);
    for k in 0..order.len() {
        let place = order[k] as usize;
        let processor = processor_of(events, &briefs, place);
        let tick = ticks[place];
        note_silence(&mut idles, processor, lasts[processor], tick - 1, limit)?;
        lasts[processor] = tick;
    }
    Ok(Walk { idles, lasts })
}

/// Notes the tick `last` for each of `n` processors of which a short silence ends in it, by the last tick of each.
///
/// `events` and `ticks` are read by the clauses alone.
fn idle_at_end(
    n: u64,
    events: &[Event],
    ticks: &[u32],
    lasts: &[u32],
    last: u32,
    limit: u128,
    idles: &mut Vec<IdleTick>,
) -> Result<(), AllocError>
    requires most { n ≤ MAX_PROCESSORS }
    requires wide { length lasts.now ≡ MAX_PROCESSORS }
    requires begun { HaveEnded n events.now ticks.now lasts.now last limit 0 idles.old.items }
    ensures { OnOk result
        (HaveEnded n events.now ticks.now lasts.now last limit n idles.new.items) }
{
    for processor in 0..n as usize {
        note_silence(idles, processor, lasts[processor], last, limit)?;
    }
    Ok(())
}

/// Notes the tick `end` if the silence of a processor, counted from 0, that began after `since` is short.
fn note_silence(
    idles: &mut Vec<IdleTick>,
    processor: usize,
    since: u32,
    end: u32,
    limit: u128,
) -> Result<(), AllocError>
    requires { processor < MAX_PROCESSORS }
    ensures { OnOk result (idles.new.items ≡ noted idles.old.items processor since end limit) }
{
    if end <= since || limit < u128::from(end - since) {
        return Ok(());
    }
    idles.push(IdleTick {
        processor: processor as u64 + 1,
        tick: end,
    })?;
    Ok(())
}
