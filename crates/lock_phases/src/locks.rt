//! Locks: which values are acceptable with them, and how they are put and released.

ghost use Rattle.std.specs.Prelude.{◌≡◌, ◌≤◌, ◌<◌, ℕ, OnOk, OnErr, IfOk, IfErr, filter, length, insert, slice_set};
ghost use Rattle.std.specs.List.{list_any};
ghost use Rattle.lock_phases.specs.Locks.{is_acceptable, heard_lock, put_lock, releases, is_released, kept_locks};

use crate::bodies::Body;
use std::alloc::AllocError;

/// Whether a node with these locks has none on another value.
pub(crate) fn is_acceptable(locks: &[(u64, u64)], v: u64) -> bool
    ensures { result ≡ is_acceptable locks.now v }
{
    locks.iter().all(|(locked, _)| *locked == v)
}

/// Keeps those of these values that are acceptable with these locks.
pub(crate) fn keep_acceptable(values: &mut Vec<u64>, locks: &[(u64, u64)])
    ensures { values.new.items ≡ filter (is_acceptable locks.now) values.old.items }
{
    values.retain(|v| is_acceptable(locks, *v));
}

/// The value that the owner's Lock asks to lock, if it is heard.
pub(crate) fn heard_lock(owner: u64, heard: &[(u64, Body)]) -> Option<u64>
    ensures { result ≡ heard_lock owner heard.now }
{
    for (sender, body) in heard {
        if *sender == owner {
            return body.locked_value();
        }
    }
    None
}

/// Locks `v` at this phase, in place of the lock on it if there is one.
pub(crate) fn put_lock(locks: &mut Vec<(u64, u64)>, v: u64, phase: u64) -> Result<(), AllocError>
    ensures ok { OnOk result (locks.new.items ≡ put_lock v phase locks.old.items) }
    ensures err { OnErr result (locks.new.items ≡ locks.old.items) }
    ensures more { OnErr result
        (length locks.old.items < length (put_lock v phase locks.old.items)) }
{
    match find_lock(locks, v) {
        Ok(place) => locks[place] = (v, phase),
        Err(place) => locks.insert(place, (v, phase))?,
    }
    Ok(())
}

/// The place of the lock on `v`, or where it belongs among locks that rise by value.
fn find_lock(locks: &[(u64, u64)], v: u64) -> Result<usize, usize>
    ensures held { IfOk result (λ place. place < length locks.now) }
    ensures replaced { IfOk result
        (λ place. (phase : ℕ) → put_lock v phase locks.now ≡ slice_set locks.now place (v, phase)) }
    ensures within { IfErr result (λ place. place ≤ length locks.now) }
    ensures fresh { IfErr result
        (λ place. (phase : ℕ) → put_lock v phase locks.now ≡ insert locks.now place (v, phase)) }
{
    for (i, (value, _)) in locks.iter().enumerate() {
        if v == *value {
            return Ok(i);
        }
        if v < *value {
            return Err(i);
        }
    }
    Err(locks.len())
}

/// Releases each lock that a heard lock releases, judged on the locks at the call.
pub(crate) fn release(locks: &mut Vec<(u64, u64)>, heard: &[(u64, Body)])
    ensures { locks.new.items ≡ kept_locks heard.now locks.old.items }
{
    locks.retain(|lock| !is_released(heard, *lock));
}

fn is_released(heard: &[(u64, Body)], lock: (u64, u64)) -> bool
    ensures { result ≡ is_released heard.now lock }
{
    heard
        .iter()
        .any(|(_, body)| is_released_by(body.told_locks(), lock))
}

fn is_released_by(told: &[(u64, u64)], lock: (u64, u64)) -> bool
    ensures { result ≡ list_any (λ t. releases t lock) told.now }
{
    told.iter()
        .any(|(value, phase)| *value != lock.0 && lock.1 <= *phase)
}
