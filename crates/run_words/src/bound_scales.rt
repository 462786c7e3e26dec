//! How high bounds are drawn: in proportion, or by their logarithms if the greatest is large.

ghost use Rattle.std.specs.Prelude.{◌≡◌, ◌≤◌, ◌*◌, ◌/◌, ◌+◌, min, max};
ghost use Rattle.step_trace.specs.declared.traces.TheConstants.{MAX_TICKS};
ghost use Rattle.run_words.specs.BoundScales.{is_log, line, log_of, measure, power_of_ten, rise};

use crate::round_numbers::round_step;
use step_trace::MAX_TICKS;

/// A greatest bound above this one makes the scale logarithmic.
pub const MOST_LINEAR: u64 = 20;

/// The scale of bounds up to the greatest one.
#[derive(Clone, Copy)]
pub struct BoundScale {
    most: u64,
}

impl BoundScale {
    /// The scale up to this bound, which in a trace is from 1 to `MAX_TICKS + 1`.
    pub fn up_to(bound: u64) -> Self
        ensures { result.most ≡ min (max bound 1) (MAX_TICKS + 1) }
    {
        BoundScale {
            most: bound.clamp(1, MAX_TICKS + 1),
        }
    }

    /// Whether bounds are drawn by their logarithms.
    pub fn is_log(self) -> bool
        ensures { result ≡ is_log self }
    {
        self.most > MOST_LINEAR
    }

    /// What the height of a bound is in proportion to.
    fn measure(self, bound: u64) -> u64
        ensures { result ≡ measure self bound }
    {
        if self.is_log() { log_of(bound) } else { bound }
    }

    /// How high a bound is drawn, of so much for the greatest.
    pub fn rise(self, bound: u64, whole: u64) -> u64
        requires { whole ≤ 100_000 }
        ensures value { result ≡ rise self bound whole }
        ensures limit { result ≤ whole }
    {
        let all = self.measure(self.most).clamp(1, MAX_TICKS + 1);
        self.measure(bound).min(all) * whole / all
    }

    /// The bound of the line of this number from 0 on, if the scale reaches it: a power of ten. If the scale isn't
    /// logarithmic, it is a round number such that there are at most `lines` above 0.
    pub fn line(self, number: u64, lines: u64) -> Option<u64>
        ensures { result ≡ line self number lines }
    {
        let bound = if self.is_log() {
            power_of_ten(number)?
        } else {
            round_step(self.most, lines).checked_mul(number)?
        };
        if bound <= self.most {
            Some(bound)
        } else {
            None
        }
    }
}

/// The power of ten of this exponent, if it is at most 1,000,000.
fn power_of_ten(exponent: u64) -> Option<u64>
    ensures { result ≡ power_of_ten exponent }
{
    match exponent {
        0 => Some(1),
        1 => Some(10),
        2 => Some(100),
        3 => Some(1_000),
        4 => Some(10_000),
        5 => Some(100_000),
        6 => Some(1_000_000),
        _ => None,
    }
}

/// The greatest number whose logarithm is computed, and what power of two it is.
const MOST_LOGGED: u64 = 1_048_576;

const MOST_EXPONENT: u64 = 20;

/// The logarithm of a number to base 2, in thousandths, straight between powers of two; 0 for 0. Numbers above
/// `MOST_LOGGED` count as that.
pub fn log_of(number: u64) -> u64
    ensures value { result ≡ log_of number }
    ensures limit { result ≤ 21_000 }
{
    let number = number.min(MOST_LOGGED);
    let mut exponent = MOST_EXPONENT + 1;
    let mut power = MOST_LOGGED * 2;
    while exponent > 0 {
        exponent -= 1;
        power /= 2;
        if power <= number {
            return exponent * 1_000 + (number - power) * 1_000 / power;
        }
    }
    0
}
