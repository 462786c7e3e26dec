//! Round times, and round lengths of a tick.

ghost use Rattle.std.specs.Prelude.{◌≤◌};

use run_words::{Clock, power_within};

/// How many ticks a run has at most by the shorter tick that the page names. A trace may have `step_trace::MAX_TICKS`;
/// the rest is room for events that move.
const MOST_TICKS: u64 = 990_000;

/// Where a run has so many ticks, the least round length of a tick that is short enough for it, in nanoseconds, if it
/// is shorter than that of the clock: then the run has `MOST_TICKS` at most.
pub(crate) fn finer(clock: Clock, ticks: u64) -> Option<u64> {
    let width = round_from(clock.time_of(ticks).div_ceil(MOST_TICKS));
    if width < clock.width {
        Some(width)
    } else {
        None
    }
}

/// The least of 1, 2 and 5 times the powers of ten that isn't below a number; from the longest time that is told on it
/// may be.
pub(crate) fn round_from(number: u64) -> u64
    ensures { 1 ≤ result }
{
    let power = power_within(number).max(1);
    if number <= power {
        power
    } else if number <= power.saturating_mul(2) {
        power.saturating_mul(2)
    } else if number <= power.saturating_mul(5) {
        power.saturating_mul(5)
    } else {
        power.saturating_mul(10)
    }
}

/// The power of ten of this exponent, but at most that of 18.
pub(crate) fn power_of_ten(exponent: u64) -> u64 {
    let mut power = 1_u64;
    for _more in 0..exponent.min(18) {
        power = power.saturating_mul(10);
    }
    power
}
