//! Taking ids out of a list of rising ids. It costs what is taken, and to move the shorter side if something
//! else waits before the ids and after them.

ghost use Rattle.std.specs.Prelude.{ℕ, ◌≡◌, ◌≢◌, ◌<◌, ◌≤◌, ◌++◌, ◌-◌, drop, get_or, length, take};
ghost use Rattle.std.specs.List.Sorted.{IsStrictlyIncreasing};
ghost use Rattle.step_buffers.specs.Moves.{without};

use crate::takes::is_in;
use std::alloc::Global;

/// Takes ids out of those that a list has from `start` on, and gives where those that are left begin.
pub(crate) fn take_out(list: &mut Vec<u64>, start: usize, ids: &[u64]) -> usize
    requires rising { IsStrictlyIncreasing ids.now }
    requires waiting { IsStrictlyIncreasing (drop start list.old.items) }
    requires within { start ≤ length list.old.items }
    ensures left { drop result list.new.items ≡ without ids.now (drop start list.old.items) }
    ensures within { result ≤ length list.new.items }
{
    let front = shared_front(&list[start..], ids);
    let first = start + front;
    let others = &ids[front..];
    let back = shared_back(&list[first..], others);
    list.truncate(list.len() - back);
    take_out_between(list, first, &others[..others.len() - back])
}

/// How many ids are the first ones of both lists.
fn shared_front(waiting: &[u64], ids: &[u64]) -> usize
    requires { IsStrictlyIncreasing waiting.now }
    ensures waiting { result ≤ length waiting.now }
    ensures ids { result ≤ length ids.now }
    ensures all { result < length waiting.now → result < length ids.now
        → get_or waiting.now result 0 ≢ get_or ids.now result 0 }
    ensures left { without ids.now waiting.now
        ≡ without (drop result ids.now) (drop result waiting.now) }
{
    let most = waiting.len().min(ids.len());
    for at in 0..most {
        if waiting[at] != ids[at] {
            return at;
        }
    }
    most
}

/// How many ids are the last ones of both lists.
fn shared_back(waiting: &[u64], ids: &[u64]) -> usize
    requires { IsStrictlyIncreasing waiting.now }
    ensures waiting { result ≤ length waiting.now }
    ensures ids { result ≤ length ids.now }
    ensures all { result < length waiting.now → result < length ids.now
        → get_or waiting.now (length waiting.now - 1 - result) 0
        ≢ get_or ids.now (length ids.now - 1 - result) 0 }
    ensures left { without ids.now waiting.now
        ≡ without (take (length ids.now - result) ids.now)
        (take (length waiting.now - result) waiting.now) }
{
    let most = waiting.len().min(ids.len());
    for at in 0..most {
        if waiting[waiting.len() - 1 - at] != ids[ids.len() - 1 - at] {
            return at;
        }
    }
    most
}

/// Takes ids out of those that a list has from `start` on, if something else waits before the ids and after
/// them. Scans what is between the first of them and the last, and moves what is on its shorter side.
fn take_out_between(list: &mut Vec<u64>, start: usize, ids: &[u64]) -> usize
    requires rising { IsStrictlyIncreasing ids.now }
    requires waiting { IsStrictlyIncreasing (drop start list.old.items) }
    requires within { start ≤ length list.old.items }
    ensures left { drop result list.new.items ≡ without ids.now (drop start list.old.items) }
    ensures within { result ≤ length list.new.items }
{
    if ids.len() == 0 {
        return start;
    }
    let from = start + count_below(&list[start..], ids[0]);
    let until = from + count_up_to(&list[from..], ids[ids.len() - 1]);
    let kept = from + keep_others(&mut list[from..until], ids);
    close_gap(list, start, kept, until)
}

/// How many of these ids are less than a bound.
fn count_below(ids: &[u64], bound: u64) -> usize
    requires { IsStrictlyIncreasing ids.now }
    ensures within { result ≤ length ids.now }
    ensures below { (k : ℕ) → k < result → get_or ids.now k 0 < bound }
{
    ids.partition_point(|s| *s < bound)
}

/// How many of these ids are at most a bound.
fn count_up_to(ids: &[u64], bound: u64) -> usize
    requires { IsStrictlyIncreasing ids.now }
    ensures within { result ≤ length ids.now }
    ensures above { (k : ℕ) → result ≤ k → k < length ids.now → bound < get_or ids.now k 0 }
{
    ids.partition_point(|s| *s <= bound)
}

/// Moves what a part of a list has besides these ids to the front of the part, and gives how many there are.
fn keep_others(part: &mut [u64], ids: &[u64]) -> usize
    requires { IsStrictlyIncreasing ids.now }
    ensures within { result ≤ length part.new }
    ensures length { length part.new ≡ length part.old }
    ensures kept { take result part.new ≡ without ids.now part.old }
{
    let mut kept = 0;
    for at in 0..part.len() {
        let id = part[at];
        if !is_in(ids, id) {
            part[kept] = id;
            kept += 1;
        }
    }
    kept
}

/// Closes the gap from `kept` to `until` in what a list has from `start` on, by moving its shorter side, and gives
/// where it then begins.
fn close_gap(list: &mut Vec<u64>, start: usize, kept: usize, until: usize) -> usize
    requires first { start ≤ kept }
    requires gap { kept ≤ until }
    requires within { until ≤ length list.old.items }
    ensures left { drop result list.new.items
        ≡ drop start (take kept list.old.items) ++ drop until list.old.items }
    ensures within { result ≤ length list.new.items }
{
    if kept - start < list.len() - until {
        let first = start + (until - kept);
        list.copy_within(start..kept, first);
        return first;
    }
    cut(list, kept, until);
    start
}

/// Cuts a part out of a list, by moving what comes after it.
pub(crate) fn cut(list: &mut Vec<u64>, from: usize, until: usize)
    requires order { from ≤ until }
    requires within { until ≤ length list.old.items }
    ensures left { list.new.items ≡ take from list.old.items ++ drop until list.old.items }
{
    let size = list.len() - (until - from);
    list.copy_within(until.., from);
    list.truncate(size);
}
