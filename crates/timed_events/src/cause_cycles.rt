//! A cycle of causes, of events that no order can keep behind their causes.

ghost use Rattle.std.specs.Prelude.{◌≡◌, ◌<◌, ◌≤◌, ◌++◌, ℕ, List, drop, take, get_or, length, None, IfOk, slice_index};
ghost use Rattle.timed_events.specs.declared.cause_cycles.Hop.{Hop};
ghost use Rattle.timed_events.specs.Checks.{first_fault, AreOfProcessors};
ghost use Rattle.timed_events.specs.Causes.{IsCausalOrder, IsTimeOrder};
ghost use Rattle.timed_events.specs.CausalWalks.{AreRightlyReceived, AreWaiting, IsWalked};
ghost use Rattle.timed_events.specs.CauseCycles.{BeginsAtLeast, IsCauseCycle};

use crate::causal_orders::{Walk, first_unplaced, walked};
use crate::events::Event;
use crate::spread_ticks::processor_index;
use crate::time_orders::time_order_of;
use std::alloc::{AllocError, Global};
use step_trace::{MAX_PROCESSORS, MAX_STEPS};

/// An event that received a message, and the one that sent it.
#[derive(Clone, Copy, Debug, PartialEq, Eq)]
pub struct Hop {
    /// The place of the event that received the message.
    pub event: u32,
    /// The place of the event that sent it.
    pub message: u32,
}

/// A cycle of causes. Each of its events received a message that is sent, by that message's sender, no earlier than the
/// next of its events; the last one's, no earlier than the first. So none of them can come after all its causes. It
/// begins at the least of their places.
///
/// It shows why events that may be spread make no trace, if they are refused by `Cycle`. It has no hops exactly if some
/// order of the events keeps their causes.
///
/// Asks for events of 1 to 64 processors, at most `MAX_STEPS`, against whose messages there is nothing
/// (`check_messages`).
pub fn cycle_of_causes(alloc: Global, events: &[Event]) -> Result<Vec<Hop>, AllocError>
    requires few { length events.now ≤ MAX_STEPS }
    requires processors { AreOfProcessors events.now }
    requires passed { first_fault events.now ≡ None }
    ensures cycle { IfOk result (λ v. 0 < length v.items → IsCauseCycle events.now v.items) }
    ensures first { IfOk result (λ v. BeginsAtLeast v.items) }
    ensures none { IfOk result (λ v. length v.items ≡ 0
        → (order : List ℕ) × IsCausalOrder events.now order) }
{
    let times = time_order_of(alloc, events)?;
    let cycle = cause_cycle(alloc, events, times)?;
    begun_at_least(alloc, &cycle)
}

/// A cycle of causes, begun anywhere; no hops if some order of the events keeps their causes.
///
/// Asks for the same as `causal_order`.
fn cause_cycle(
    alloc: Global,
    events: &[Event],
    time_order: Vec<u32>,
) -> Result<Vec<Hop>, AllocError>
    requires few { length events.now ≤ MAX_STEPS }
    requires processors { AreOfProcessors events.now }
    requires ordered { IsTimeOrder events.now time_order.items }
    requires received { AreRightlyReceived events.now }
    ensures cycle { IfOk result (λ v. 0 < length v.items → IsCauseCycle events.now v.items) }
    ensures none { IfOk result (λ v. length v.items ≡ 0
        → (order : List ℕ) × IsCausalOrder events.now order) }
{
    let walk = walked(alloc, events, time_order)?;
    match first_unplaced(&walk.ranks) {
        Some(event) => cycle_from(alloc, events, &walk, processor_index(events, event)),
        None => Ok(Vec::new(alloc)),
    }
}

/// The cycle to which the waiting of this processor leads.
fn cycle_from(
    alloc: Global,
    events: &[Event],
    walk: &Walk,
    processor: usize,
) -> Result<Vec<Hop>, AllocError>
    requires processors { AreOfProcessors events.now }
    requires walked { IsWalked events.now walk.now.heads.items walk.now.met.items
        walk.now.waits.items walk.now.ranks.items walk.now.order.items walk.now.awake.items }
    requires waiting { AreWaiting events.now walk.now.heads.items walk.now.waits.items
        walk.now.ranks.items }
    requires inside { processor < MAX_PROCESSORS }
    requires left { slice_index walk.now.heads.items processor < length events.now }
    ensures { IfOk result (λ v. IsCauseCycle events.now v.items) }
{
    let mut path = Vec::new(alloc);
    // Of each processor its place on the path, counted from 1; 0 if it has none.
    let mut seen = vec![in alloc; 0; MAX_PROCESSORS as usize]?;
    let mut at = processor;
    while seen[at] == 0 {
        let event = walk.heads[at];
        let message = walk.waits[at];
        path.push(Hop { event, message })?;
        seen[at] = path.len();
        at = processor_index(events, message as usize);
    }
    rest_of(alloc, &path, seen[at] - 1)
}

/// The hops from this one on.
fn rest_of(alloc: Global, hops: &[Hop], from: usize) -> Result<Vec<Hop>, AllocError>
    requires { from ≤ length hops.now }
    ensures { IfOk result (λ v. v.items ≡ drop from hops.now) }
{
    Vec::from_slice(alloc, &hops[from..])
}

/// The same cycle, begun at the least of its events.
fn begun_at_least(alloc: Global, hops: &[Hop]) -> Result<Vec<Hop>, AllocError>
    ensures turned { IfOk result (λ v. (at : ℕ) × (at ≤ length hops.now)
        × (v.items ≡ drop at hops.now ++ take at hops.now)) }
    ensures first { IfOk result (λ v. BeginsAtLeast v.items) }
{
    let at = least_hop(hops);
    let mut turned = Vec::from_slice(alloc, &hops[at..])?;
    turned.extend_from_slice(&hops[..at])?;
    Ok(turned)
}

/// The hop of the least event; 0 if there are none.
fn least_hop(hops: &[Hop]) -> usize
    ensures inside { result ≤ length hops.now }
    ensures least { (k : ℕ) (d : Hop) → k < length hops.now → (result < length hops.now)
        × ((get_or hops.now result d).event ≤ (get_or hops.now k d).event) }
{
    let mut least = 0;
    for k in 0..hops.len() {
        if hops[k].event < hops[least].event {
            least = k;
        }
    }
    least
}
