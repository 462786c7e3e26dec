//! Which evidence each row names.

ghost use Rattle.std.specs.Prelude.{◌≡◌, ◌+◌, ◌<◌, ℕ, IfOk, OnErr, Some, length, if◌then◌else◌};
ghost use Rattle.run_story.specs.Named.{AreNamed, AreNamedBelow, begins, brief_to, is_from_to};
ghost use Rattle.run_story.specs.Named.{named_at, same_place, with_gap, with_miss};

use crate::delays::Delay;
use crate::evidence::Evidence;
use crate::stalls::Stall;
use std::alloc::{AllocError, Global};

/// The places, in a list of evidence, of those with the miss and with the gap that a row names.
#[derive(Clone, Copy, Debug, PartialEq, Eq)]
pub struct Named {
    pub miss: Option<usize>,
    pub gap: Option<usize>,
}

/// For each of so many rows the evidence that it names: of several pieces with its miss, or with its gap, the last.
///
/// Time grows with the rows if each is in one stall and in one delay at most. Fails only if out of memory.
pub fn named_evidence(
    alloc: Global,
    rows: usize,
    list: &[Evidence],
) -> Result<Vec<Named>, AllocError>
    ensures { IfOk result (λ named. AreNamed rows list.now named.items) }
{
    let none = Named {
        miss: None,
        gap: None,
    };
    let mut named = vec![in alloc; none; rows]?;
    for e in 0..list.len() {
        mark(&mut named, list, e);
    }
    Ok(named)
}

/// Notes the evidence at this place.
fn mark(named: &mut Vec<Named>, list: &[Evidence], place: usize)
    requires place { place < length list.now }
    requires before { AreNamedBelow (length named.old.items) list.now place named.old.items }
    ensures { AreNamedBelow (length named.old.items) list.now (place + 1) named.new.items }
{
    let evidence = list[place];
    mark_gap(named, evidence.stall, place);
    mark_miss(named, evidence.delay, place);
}

/// Notes evidence for the gap of each row of its stall, if it has one.
fn mark_gap(named: &mut Vec<Named>, stall: Option<Stall>, place: usize)
    ensures len { length named.new.items ≡ length named.old.items }
    ensures each { (k : ℕ) → k < length named.old.items
        → named_at named.new.items k ≡ with_gap (named_at named.old.items k) stall k place }
{
    if let Some(stall) = stall {
        mark_gaps(named, stall, place);
    }
}

/// Notes evidence for the miss of each row of its delay, if it has one.
fn mark_miss(named: &mut Vec<Named>, delay: Option<Delay>, place: usize)
    ensures len { length named.new.items ≡ length named.old.items }
    ensures each { (k : ℕ) → k < length named.old.items
        → named_at named.new.items k ≡ with_miss (named_at named.old.items k) delay k place }
{
    if let Some(delay) = delay {
        mark_misses(named, delay, place);
    }
}

/// Notes evidence for the gap of each row of its stall.
fn mark_gaps(named: &mut Vec<Named>, stall: Stall, place: usize)
    ensures len { length named.new.items ≡ length named.old.items }
    ensures each { (k : ℕ) → k < length named.old.items → named_at named.new.items k
        ≡ (if is_from_to stall.first stall.last k
        then record { miss = (named_at named.old.items k).miss; gap = Some place } else named_at
        named.old.items k) }
{
    for k in stall.first..named.len() {
        if k > stall.last {
            return;
        }
        named[k].gap = Some(place);
    }
}

/// Notes evidence for the miss of each row of its delay.
fn mark_misses(named: &mut Vec<Named>, delay: Delay, place: usize)
    ensures len { length named.new.items ≡ length named.old.items }
    ensures each { (k : ℕ) → k < length named.old.items → named_at named.new.items k
        ≡ (if is_from_to delay.first delay.last k
        then record { miss = Some place; gap = (named_at named.old.items k).gap } else named_at
        named.old.items k) }
{
    for k in delay.first..named.len() {
        if k > delay.last {
            return;
        }
        named[k].miss = Some(place);
    }
}

/// The places of the first row, and of each row that names other evidence than the row before.
///
/// Fails only if out of memory, and only if there is a row.
pub fn brief_rows(alloc: Global, named: &[Named]) -> Result<Vec<usize>, AllocError>
    ensures rows { IfOk result (λ rows. rows.items ≡ brief_to named.now (length named.now)) }
    ensures more { OnErr result (0 < length named.now) }
{
    let mut rows = Vec::new(alloc);
    for k in 0..named.len() {
        if begins(named, k) {
            rows.push(k)?;
        }
    }
    Ok(rows)
}

/// Whether the row at this place is the first, or names other evidence than the row before.
fn begins(named: &[Named], place: usize) -> bool
    requires { place < length named.now }
    ensures { result ≡ begins named.now place }
{
    if place == 0 {
        return true;
    }
    let (before, row) = (named[place - 1], named[place]);
    !(same_place(before.miss, row.miss) && same_place(before.gap, row.gap))
}

/// Whether two places are the same, or there is none twice.
fn same_place(one: Option<usize>, other: Option<usize>) -> bool
    ensures { result ≡ same_place one other }
{
    match (one, other) {
        (Some(one), Some(other)) => one == other,
        (None, None) => true,
        _ => false,
    }
}
