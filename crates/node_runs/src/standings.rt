//! The bounds of a trace at its last tick: the least ones from its first tick on, and from a recent one on.

ghost use Rattle.std.specs.Prelude.{◌≡◌, ◌≤◌, ◌↔◌, IsNone, ℕ, length};
ghost use Rattle.step_trace.specs.Traces.{Recorded};
ghost use Rattle.suffix_staircase.specs.Analysis.{AreLevels};
ghost use Rattle.node_runs.specs.Standings.{AreLeastBounds, IsStanding, NamesSilent, recent_tick};

use suffix_staircase::Stairs;

/// How many ticks before the last one the recent bounds begin.
pub const RECENT_TICKS: u64 = 5_000;

/// The least communication bound and the least processor bound that hold from one tick on, in ticks.
#[derive(Clone, Copy, Debug, PartialEq, Eq)]
pub struct LeastBounds {
    pub delta: u64,
    pub phi: u64,
    /// The tick from which they hold.
    pub from: u64,
}

/// The least bounds of a trace at its last tick.
#[derive(Clone, Copy, Debug, PartialEq, Eq)]
pub struct Standing {
    /// The last tick.
    pub tick: u64,
    /// The bounds from tick 1 on.
    pub whole: LeastBounds,
    /// The bounds from `RECENT_TICKS` before the last tick on, or from tick 1 if there are no more.
    pub recent: LeastBounds,
    /// The least processor of the set that makes no step from the recent tick on, if there is one. Φ there then only
    /// says how long it is silent.
    pub silent: Option<u64>,
}

/// The bounds of the trace that has these levels; none if it has no tick.
pub fn standing_of(stairs: &Stairs) -> Option<Standing>
    ensures standing { (set : ℕ) (trace : Recorded) → AreLevels set trace stairs.now
        → IsStanding set trace result }
    ensures none { IsNone result ↔ (length stairs.now ≡ 0) }
{
    let last = stairs.len() as u64;
    if last == 0 {
        return None;
    }
    let since = recent_tick(last);
    Some(Standing {
        tick: last,
        whole: bounds_from(stairs, 1),
        recent: bounds_from(stairs, since),
        silent: silent_since(stairs, since),
    })
}

/// The tick from which the recent bounds of a trace hold that ends at tick `last`.
fn recent_tick(last: u64) -> u64
    ensures value { result ≡ recent_tick last }
    ensures low { 1 ≤ result }
    ensures high { 1 ≤ last → result ≤ last }
{
    if last <= RECENT_TICKS {
        1
    } else {
        last - RECENT_TICKS
    }
}

/// The least bounds from a tick on.
fn bounds_from(stairs: &Stairs, from: u64) -> LeastBounds
    requires low { 1 ≤ from }
    requires high { from ≤ length stairs.now }
    ensures from { result.from ≡ from }
    ensures least { (set : ℕ) (trace : Recorded) → AreLevels set trace stairs.now
        → AreLeastBounds set trace result }
{
    let level = stairs.at(from);
    LeastBounds {
        delta: level.delta,
        phi: level.phi,
        from,
    }
}

/// The least member that makes no step from a tick on, if there is one. The named gap then goes from there to the end,
/// since none is longer.
fn silent_since(stairs: &Stairs, from: u64) -> Option<u64>
    requires low { 1 ≤ from }
    requires high { from ≤ length stairs.now }
    ensures { (set : ℕ) (trace : Recorded) → AreLevels set trace stairs.now
        → NamesSilent set trace from result }
{
    let level = stairs.at(from);
    let Some(gap) = level.gap else {
        return None;
    };
    if gap.from != from {
        return None;
    }
    if gap.to != stairs.len() as u64 {
        return None;
    }
    Some(gap.proc)
}
