//! Lanes of processors, as a command line lists them.

ghost use Rattle.std.specs.Prelude.{◌≤◌, ◌<◌, ℕ, IfErr, IfNone, IfOk, IfSome, map};
ghost use Rattle.run_words.specs.LaneLists.{AreLanes, IsLane, IsLaneRefusal, IsLanesRefusal, IsNamed};
ghost use Rattle.run_words.specs.Names.{parts_of};

use crate::names::parts_of;
use std::alloc::Global;
use step_trace::{MAX_MEMBER, ProcSet, read_number};

/// Why a text lists no lanes.
#[derive(Clone, Copy, Debug, PartialEq, Eq)]
pub enum LanesError {
    /// The part at this place, from 1, is neither a name nor a number from 1 to `MAX_MEMBER`.
    NoLane(u64),
    /// It denotes this processor, which is above the number of processors.
    Above(u64),
    /// Out of memory for its parts.
    Memory,
}

/// The processors that a text lists, with one comma between each two: each by one of these names, or else by its
/// number, from 1 to `count`; in any order, repeats allowed.
///
/// Refuses the first part that denotes none of them. Memory may come before.
pub fn lanes_of(
    alloc: Global,
    list: &str,
    names: &[&str],
    count: u64,
) -> Result<ProcSet, LanesError>
    requires { count ≤ MAX_MEMBER }
    ensures listed { IfOk result (AreLanes (map (λ x. x.now) names.now) (parts_of list.now) count) }
    ensures refused { IfErr result
        (IsLanesRefusal (map (λ x. x.now) names.now) (parts_of list.now) count) }
{
    let Ok(parts) = parts_of(alloc, list) else {
        return Err(LanesError::Memory);
    };
    set_of(&parts, names, count)
}

/// The processors that these parts denote.
fn set_of(parts: &[&str], names: &[&str], count: u64) -> Result<ProcSet, LanesError>
    requires { count ≤ MAX_MEMBER }
    ensures listed { IfOk result
        (AreLanes (map (λ x. x.now) names.now) (map (λ x. x.now) parts.now) count) }
    ensures refused { IfErr result
        (IsLanesRefusal (map (λ x. x.now) names.now) (map (λ x. x.now) parts.now) count) }
{
    let mut set = ProcSet::empty();
    for i in 0..parts.len() {
        let p = lane_in(parts[i], names, count, i as u64 + 1)?;
        set = set.with(p);
    }
    Ok(set)
}

/// The processor that the part at this place denotes.
fn lane_in(part: &str, names: &[&str], count: u64, place: u64) -> Result<u64, LanesError>
    ensures lane { IfOk result (IsLane (map (λ x. x.now) names.now) part.now) }
    ensures low { IfOk result (λ p. 1 ≤ p) }
    ensures high { IfOk result (λ p. p ≤ count) }
    ensures refused { IfErr result
        (IsLaneRefusal (map (λ x. x.now) names.now) part.now count place) }
{
    let Some(p) = lane_of(part, names) else {
        return Err(LanesError::NoLane(place));
    };
    if p > count {
        return Err(LanesError::Above(p));
    }
    Ok(p)
}

/// The processor that a part denotes: that of this name, or else that of this number.
fn lane_of(part: &str, names: &[&str]) -> Option<u64>
    ensures lane { IfSome result (IsLane (map (λ x. x.now) names.now) part.now) }
    ensures low { IfSome result (λ p. 1 ≤ p) }
    ensures refused { IfNone result ((p : ℕ) → ¬ IsLane (map (λ x. x.now) names.now) part.now p) }
{
    if let Some(p) = named(part, names) {
        return Some(p);
    }
    let p = read_number(part.as_bytes())?;
    if p < 1 || p > MAX_MEMBER {
        return None;
    }
    Some(p)
}

/// The processor of this name, the first of them. None has an empty name.
fn named(part: &str, names: &[&str]) -> Option<u64>
    ensures named { IfSome result (IsNamed (map (λ x. x.now) names.now) part.now) }
    ensures refused { IfNone result ((p : ℕ) → ¬ IsNamed (map (λ x. x.now) names.now) part.now p) }
{
    if part.len() == 0 {
        return None;
    }
    for i in 0..names.len() {
        if names[i] == part {
            return Some(i as u64 + 1);
        }
    }
    None
}
