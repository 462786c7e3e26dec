//! The least offsets of clocks, from what messages need of them.

ghost use Rattle.std.specs.Prelude.{◌≡◌, ◌<◌, ◌≤◌, None, Some, IsTrue, length, pos, IfErr, IfOk};
ghost use Rattle.std.proofs.Common.{ℤ, ◌≤ℤ◌, ◌<ℤ◌};
ghost use Rattle.clock_offsets.specs.declared.refusals.OffsetError.TheVariants as refused;
ghost use Rattle.clock_offsets.specs.ClockOffsets.{best_of, best_with, greater, plus};
ghost use Rattle.clock_offsets.specs.Matrices.{needs_at, AreGreatest, AreNext};
ghost use Rattle.clock_offsets.specs.Matrices.{AreOffsetsOf, IsOffsetRefusal, IsWant};

use crate::refusals::OffsetError;
use std::alloc::Global;

/// How many clocks there are, with or without messages.
pub const CLOCKS: usize = 64;

/// The least offsets of `n` clocks, by the needs of 64, row after row: what the second needs of the first.
///
/// Refuses Cycle exactly if no offsets are right, unless a need that follows is beyond the numbers that are held.
pub fn least_offsets(
    alloc: Global,
    n: usize,
    needs: &[Option<i128>],
) -> Result<Vec<i128>, OffsetError>
    requires long { length needs.now ≡ 4096 }
    requires most { n ≤ 64 }
    ensures offsets { IfOk result (λ v. AreOffsetsOf n needs.now v.items) }
    ensures refused { IfErr result (λ why. IsOffsetRefusal n needs.now why) }
{
    let mut through = Vec::from_slice(alloc, needs)?;
    for clock in 0..n {
        if is_ahead(through[clock * CLOCKS + clock]) {
            return Err(OffsetError::Cycle { clock });
        }
        through = by_way_of(alloc, &through, clock)?;
    }
    greatest_needs(alloc, n, &through)
}

/// Whether a clock would have to be ahead of itself.
pub(crate) fn is_ahead(need: Option<i128>) -> bool
    ensures ahead { IsTrue result → (by : ℤ) × (need ≡ Some by) × (pos 0 <ℤ by) }
    ensures not { ¬ IsTrue result → (by : ℤ) → need ≡ Some by → by ≤ℤ pos 0 }
{
    match need {
        Some(by) => by > 0,
        None => false,
    }
}

/// Of each clock the greatest need that any has of it, no less than 0.
fn greatest_needs(alloc: Global, n: usize, needs: &[Option<i128>]) -> Result<Vec<i128>, OffsetError>
    requires long { length needs.now ≡ 4096 }
    requires most { n ≤ 64 }
    ensures greatest { IfOk result (λ v. AreGreatest n needs.now v.items) }
    ensures refused { IfErr result (λ why. why ≡ refused.Memory) }
{
    let mut offsets = Vec::with_capacity(alloc, CLOCKS)?;
    for clock in 0..n {
        let Ok(()) = offsets.push(greatest_need(n, needs, clock)) else {
            return Err(OffsetError::Memory);
        };
    }
    Ok(offsets)
}

/// The greatest need that any clock has of this one, no less than 0.
fn greatest_need(n: usize, needs: &[Option<i128>], clock: usize) -> i128
    requires long { length needs.now ≡ 4096 }
    requires most { n ≤ 64 }
    requires inside { clock < 64 }
    ensures { result ≡ best_of (λ i. needs_at needs.now i clock) n }
{
    let mut best = 0;
    for from in 0..n {
        best = with(best, needs[from * CLOCKS + clock]);
    }
    best
}

/// The greater of a number and a need.
fn with(best: i128, need: Option<i128>) -> i128
    ensures { result ≡ best_with best need }
{
    match need {
        Some(by) => best.max(by),
        None => best,
    }
}

/// The greater of a need and of one by way of a clock, which is the sum of two.
fn later(
    old: Option<i128>,
    to: Option<i128>,
    from: Option<i128>,
) -> Result<Option<i128>, OffsetError>
    ensures need { IfOk result (λ need. need ≡ greater old (plus to from)) }
    ensures refused { IfErr result (λ why. IsWant why) }
{
    let Some(to) = to else {
        return Ok(old);
    };
    let Some(from) = from else {
        return Ok(old);
    };
    let Some(sum) = to.checked_add(from) else {
        return Err(OffsetError::TooFar);
    };
    let Some(old) = old else {
        return Ok(Some(sum));
    };
    Ok(Some(old.max(sum)))
}

/// The needs that follow by way of one clock more.
pub(crate) fn by_way_of(
    alloc: Global,
    needs: &[Option<i128>],
    clock: usize,
) -> Result<Vec<Option<i128>>, OffsetError>
    requires long { length needs.now ≡ 4096 }
    requires inside { clock < 64 }
    ensures long { IfOk result (λ v. length v.items ≡ 4096) }
    ensures next { IfOk result (λ v. AreNext needs.now clock v.items) }
    ensures refused { IfErr result (λ why. IsWant why) }
{
    let mut next = Vec::with_capacity(alloc, CLOCKS * CLOCKS)?;
    for x in 0..CLOCKS * CLOCKS {
        let to = needs[x / CLOCKS * CLOCKS + clock];
        let from = needs[clock * CLOCKS + x % CLOCKS];
        let need = later(needs[x], to, from)?;
        let Ok(()) = next.push(need) else {
            return Err(OffsetError::Memory);
        };
    }
    Ok(next)
}
