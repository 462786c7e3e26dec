//! So long a time in words, by the unit of a log's times.

ghost use Rattle.std.specs.Prelude.{◌≡◌, ◌++◌, decimal};
ghost use Rattle.text_commands.specs.TimeWords.{are_nanoseconds, scaled_words};

use event_log::{Options, Width};
use std::fmt;

/// Whether the options say that the times of a log are counted in nanoseconds: by their unit, or since a tick's length
/// is a duration. If not, the log itself may say it.
pub(crate) fn are_nanoseconds(options: &Options) -> bool
    ensures { result ≡ are_nanoseconds options.now }
{
    match options.width {
        Width::Nanoseconds(_) => true,
        Width::Units(_) => options.unit.is_some(),
    }
}

/// So long a time: with its unit if times are counted in nanoseconds, and else the number alone.
#[derive(Clone, Copy)]
pub(crate) struct TimeWords {
    pub(crate) time: u128,
    pub(crate) is_nanoseconds: bool,
}

impl fmt::Display for TimeWords {
    ghost use Rattle.std.specs.Prelude.{Some};
    ghost use Rattle.text_commands.specs.TimeWords.{time_words};

    ghost output = { λ words. Some (time_words words.is_nanoseconds words.time) };

    fn fmt<W: fmt::Write>(&self, f: &mut fmt::Formatter<W>) -> fmt::Result {
        if self.is_nanoseconds {
            let (count, unit) = scaled(self.time);
            write!(f, "{count}{unit}")
        } else {
            write!(f, "{}", self.time)
        }
    }
}

/// So many nanoseconds, in the greatest unit of which they are a whole number.
#[tactic(auto, unfolding(crate::specs::TimeWords::scaled_words))]
pub(crate) fn scaled(nanoseconds: u128) -> (u128, &'static str)
    ensures { decimal result.0 ++ result.1.now ≡ scaled_words nanoseconds }
{
    if nanoseconds % 1_000_000_000 == 0 {
        return (nanoseconds / 1_000_000_000, "s");
    }
    if nanoseconds % 1_000_000 == 0 {
        return (nanoseconds / 1_000_000, "ms");
    }
    if nanoseconds % 1_000 == 0 {
        return (nanoseconds / 1_000, "us");
    }
    (nanoseconds, "ns")
}
