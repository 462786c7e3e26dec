//! Evidence: silences with the late messages that they explain, and the other late messages.

ghost use Rattle.std.specs.Prelude.{◌≡◌, ◌++◌, ◌<◌, ◌≤◌, ◌||◌, ℕ, IfOk, OnOk, Some, length, slice_get};
ghost use Rattle.std.specs.List.{list_any};
ghost use Rattle.run_story.specs.Delays.{AreInOrder};
ghost use Rattle.run_story.specs.Stalls.{AreStalls};
ghost use Rattle.run_story.specs.Messages.{flag_at};
ghost use Rattle.run_story.specs.Evidence.{AreEvidence, alone, explained, explains, has_delay, other_evidence};
ghost use Rattle.run_story.specs.Evidence.{shared_ticks, stall_evidence, with_delay};

use crate::delays::{Delay, delays_of};
use crate::messages::flag_at;
use crate::stalls::{Stall, stalls_of};
use std::alloc::{AllocError, Global};
use step_trace::{MAX_TICKS, Row, Trace};

/// A stall, or a delay, or both: then the stall explains the delay. Its rows are those from place `first` to place
/// `last`.
#[derive(Clone, Copy, Debug, PartialEq, Eq)]
pub struct Evidence {
    pub stall: Option<Stall>,
    pub delay: Option<Delay>,
    pub first: usize,
    pub last: usize,
}

impl Evidence {
    ghost use Rattle.std.specs.Prelude.{◌≡◌, ◌≤◌};
    ghost use Rattle.step_trace.specs.declared.traces.TheConstants.{MAX_TICKS};
    ghost use Rattle.run_story.specs.Evidence.{ticks_of};

    /// The length of its gap or of its miss, the longer of the two, in ticks: at most `MAX_TICKS`.
    pub fn ticks(&self) -> u64
        ensures value { result ≡ ticks_of self.now }
        ensures limit { result ≤ MAX_TICKS }
    {
        let gap = match self.stall {
            Some(stall) => stall
                .gap
                .to
                .saturating_sub(stall.gap.from.saturating_sub(1)),
            None => 0,
        };
        let miss = match self.delay {
            Some(delay) => delay.ticks,
            None => 0,
        };
        gap.max(miss).min(MAX_TICKS)
    }
}

/// The evidence of rows of a trace: each stall, with the first delay that it explains, and each other delay.
///
/// A stall explains a delay if some row names both, the silent processor is the receiver, and at least half of the miss
/// is in the silence. Evidence with an earlier first row comes first, then the longer evidence.
///
/// Time grows with the trace and the rows, apart from the sorting of the evidence. Fails only if out of memory.
pub fn evidence_of(alloc: Global, trace: &Trace, rows: &[Row]) -> Result<Vec<Evidence>, AllocError>
    ensures { IfOk result (λ list. AreEvidence trace.now rows.now list.items) }
{
    let stalls = stalls_of(alloc, rows)?;
    let delays = delays_of(alloc, trace, rows)?;
    let mut list = stall_evidence(alloc, trace, rows, &stalls, &delays)?;
    push_others(alloc, rows, &delays, &mut list)?;
    list.sort_unstable_by_key(|e| (e.first, MAX_TICKS - e.ticks()));
    Ok(list)
}

/// The evidence of all stalls, in their order.
fn stall_evidence(
    alloc: Global,
    trace: &Trace,
    rows: &[Row],
    stalls: &[Stall],
    delays: &[Delay],
) -> Result<Vec<Evidence>, AllocError>
    requires stalls { AreStalls rows.now stalls.now }
    requires delays { AreInOrder delays.now }
    ensures { IfOk result (λ list. list.items ≡ stall_evidence trace.now stalls.now delays.now) }
{
    let mut list = Vec::new(alloc);
    let mut from = 0;
    for i in 0..stalls.len() {
        let stall = stalls[i];
        from = first_from(delays, from, stall.first);
        let delay = explained(trace, delays, from, stall);
        list.push(with_delay(stall, delay))?;
    }
    Ok(list)
}

/// The first place from `from` on of a delay that doesn't end before this row.
fn first_from(delays: &[Delay], from: usize, row: usize) -> usize
    requires { from ≤ length delays.now }
    ensures low { from ≤ result }
    ensures high { result ≤ length delays.now }
    ensures before { (k : ℕ) (d : Delay) → from ≤ k → k < result → slice_get delays.now k ≡ Some d
        → d.last < row }
{
    for k in from..delays.len() {
        if delays[k].last >= row {
            return k;
        }
    }
    delays.len()
}

/// The first delay that the stall explains. Those before place `from` end before its first row.
fn explained(trace: &Trace, delays: &[Delay], from: usize, stall: Stall) -> Option<Delay>
    requires from { from ≤ length delays.now }
    requires before { (k : ℕ) (d : Delay) → k < from → slice_get delays.now k ≡ Some d
        → d.last < stall.first }
    requires order { AreInOrder delays.now }
    ensures { result ≡ explained trace.now delays.now stall }
{
    for k in from..delays.len() {
        let delay = delays[k];
        if delay.first > stall.last {
            return None;
        }
        if explains(trace, stall, delay) {
            return Some(delay);
        }
    }
    None
}

/// Whether some row names both, the silent processor is the receiver, and half of the miss at least is in the silence.
fn explains(trace: &Trace, stall: Stall, delay: Delay) -> bool
    ensures { result ≡ explains trace.now stall delay }
{
    delay.first <= stall.last
        && stall.first <= delay.last
        && (stall.gap.proc == delay.to
            && u128::from(delay.ticks) <= 2 * u128::from(shared_ticks(trace, stall, delay)))
}

/// How many ticks of the miss are in the gap.
fn shared_ticks(trace: &Trace, stall: Stall, delay: Delay) -> u64
    ensures { result ≡ shared_ticks trace.now stall delay }
{
    let from = stall.gap.from.max(trace.tick_at(delay.miss.sent));
    let to = stall.gap.to.min(trace.tick_at(delay.miss.missed));
    to.saturating_sub(from.saturating_sub(1))
}

/// The evidence of a stall, with the delay that it explains.
fn with_delay(stall: Stall, delay: Option<Delay>) -> Evidence
    ensures { result ≡ with_delay stall delay }
{
    match delay {
        Some(delay) => Evidence {
            stall: Some(stall),
            delay: Some(delay),
            first: stall.first.min(delay.first),
            last: stall.last.max(delay.last),
        },
        None => Evidence {
            stall: Some(stall),
            delay: None,
            first: stall.first,
            last: stall.last,
        },
    }
}

/// Pushes the evidence of each delay that the list hasn't.
fn push_others(
    alloc: Global,
    rows: &[Row],
    delays: &[Delay],
    list: &mut Vec<Evidence>,
) -> Result<(), AllocError>
    requires { (k : ℕ) (d : Delay) → slice_get delays.now k ≡ Some d → d.first < length rows.now }
    ensures { OnOk result (list.new.items ≡ list.old.items
        ++ other_evidence list.old.items delays.now) }
{
    let has_delay = delay_flags(alloc, rows.len(), list)?;
    for i in 0..delays.len() {
        let delay = delays[i];
        if !flag_at(&has_delay, delay.first as u64) {
            list.push(alone(delay))?;
        }
    }
    Ok(())
}

/// For each of so many rows whether the list has the delay whose first row it is.
fn delay_flags(alloc: Global, rows: usize, list: &[Evidence]) -> Result<Vec<bool>, AllocError>
    ensures { IfOk result (λ flags. (k : ℕ) → k < rows
        → flag_at flags.items k ≡ list_any (has_delay k) list.now) }
{
    let mut flags = vec![in alloc; false; rows]?;
    for i in 0..list.len() {
        mark_delay(&mut flags, &list[i]);
    }
    Ok(flags)
}

/// Sets the flag of the first row of the evidence's delay.
fn mark_delay(flags: &mut Vec<bool>, evidence: &Evidence)
    ensures len { length flags.new.items ≡ length flags.old.items }
    ensures flags { (k : ℕ) → k < length flags.old.items
        → flag_at flags.new.items k ≡ (flag_at flags.old.items k || has_delay k evidence.now) }
{
    if let Some(delay) = evidence.delay {
        if delay.first < flags.len() {
            flags[delay.first] = true;
        }
    }
}

/// The evidence of a delay that no stall explains.
fn alone(delay: Delay) -> Evidence
    ensures { result ≡ alone delay }
{
    Evidence {
        stall: None,
        delay: Some(delay),
        first: delay.first,
        last: delay.last,
    }
}
