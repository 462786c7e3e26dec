//! Levels kept as stretches of equal bounds, in the order in which they are built: from the last
//! level to the first.

ghost use Rattle.std.specs.Prelude.{◌≡◌, ◌∷◌, [], ◌+◌, ◌-◌, ◌<◌, ◌≤◌, length, reverse};
ghost use Rattle.std.specs.Prelude.{Some, slice_get, OnOk, OnErr, IsTrue};
ghost use Rattle.step_trace.specs.declared.traces.TheConstants.{MAX_TICKS};
ghost use Rattle.suffix_staircase.specs.Levels.{CanStandBefore, begins, repeated, rows_of};
ghost use Rattle.suffix_staircase.specs.Stretches.{levels_of, AreStretches};

use crate::levels::Level;
use std::alloc::AllocError;
use step_trace::Row;

/// A stretch of equal levels.
#[derive(Clone, Copy, Debug)]
pub(crate) struct Stretch {
    pub(crate) level: Level,
    // How many levels there are from the stretch's first to the last of all.
    pub(crate) reach: u64,
}

/// How many levels there are.
pub(crate) fn height(stretches: &[Stretch]) -> u64
    requires { AreStretches stretches.now }
    ensures { result ≡ length (levels_of stretches.now) }
{
    match top(stretches) {
        Some(top) => top.reach,
        None => 0,
    }
}

/// The stretch that was put before all others.
fn top(stretches: &[Stretch]) -> Option<Stretch>
    ensures { result ≡ slice_get (reverse stretches.now) 0 }
{
    stretches.last().copied()
}

/// The level of number `g`, counted from 1.
pub(crate) fn level_at(stretches: &[Stretch], g: u64) -> Level
    requires stretches { AreStretches stretches.now }
    requires low { 1 ≤ g }
    requires high { g ≤ length (levels_of stretches.now) }
    ensures { slice_get (levels_of stretches.now) (g - 1) ≡ Some result }
{
    let depth = height(stretches) - g + 1;
    let holder = stretches.partition_point(|stretch| stretch.reach < depth);
    stretches[holder].level
}

/// The row of the stretch of number `i` from 0, in rising order.
pub(crate) fn row_at(stretches: &[Stretch], i: usize) -> Option<Row>
    requires { AreStretches stretches.now }
    ensures { result ≡ slice_get (rows_of (levels_of stretches.now)) i }
{
    if i >= stretches.len() {
        return None;
    }
    let Stretch { level, reach } = stretches[stretches.len() - 1 - i];
    Some(Row {
        gst: height(stretches) - reach + 1,
        delta: level.delta,
        phi: level.phi,
        miss: level.miss,
        gap: level.gap,
    })
}

/// Puts a level before the others.
pub(crate) fn put_before(stretches: &mut Vec<Stretch>, level: Level) -> Result<(), AllocError>
    requires room { length (levels_of stretches.old.items) < MAX_TICKS }
    requires stretches { AreStretches stretches.old.items }
    requires falling { CanStandBefore level (levels_of stretches.old.items) }
    ensures ok { OnOk result
        (levels_of stretches.new.items ≡ level ∷ levels_of stretches.old.items) }
    ensures err { OnErr result (stretches.new.items ≡ stretches.old.items) }
    ensures more { OnErr result (IsTrue (begins level (levels_of stretches.old.items))) }
    ensures stretches { AreStretches stretches.new.items }
{
    let reach = height(stretches) + 1;
    if begins(stretches, &level) {
        stretches.push(Stretch { level, reach })?;
    } else {
        // An equal bound has the same witness, so the levels are equal too.
        let last = stretches.len() - 1;
        stretches[last].reach = reach;
    }
    Ok(())
}

/// Puts the first level before the others so many times more; if there is none, it changes nothing.
pub(crate) fn repeat_first(stretches: &mut Vec<Stretch>, count: u64)
    requires room { length (levels_of stretches.old.items) + count ≤ MAX_TICKS }
    requires stretches { AreStretches stretches.old.items }
    ensures levels { levels_of stretches.new.items ≡ repeated count
        (levels_of stretches.old.items) }
    ensures stretches { AreStretches stretches.new.items }
{
    if stretches.len() == 0 {
        return;
    }
    let reach = height(stretches) + count;
    let last = stretches.len() - 1;
    stretches[last].reach = reach;
}

/// Whether a level that is put before the others has another bound than the first of them.
fn begins(stretches: &[Stretch], level: &Level) -> bool
    requires { AreStretches stretches.now }
    ensures { result ≡ begins level.now (levels_of stretches.now) }
{
    match top(stretches) {
        Some(top) => !top.level.has_bounds_of(level),
        None => true,
    }
}
