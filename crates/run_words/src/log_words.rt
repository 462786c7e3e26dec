//! What a log calls things, and how it tells time.

ghost use Rattle.std.specs.Prelude.{◌≡◌, ◌<◌, ◌*◌, IfSome, None, length};
ghost use Rattle.step_tables.specs.TickBegins.{ticks_before};
ghost use Rattle.run_words.specs.LogWords.{IsClockOf, IsUnclocked, clock_by, clock_within, unit_for};

use crate::clocks::{Clock, LONGEST};
use step_tables::{StepRow, TickTimes, tick_times};
use step_trace::Trace;

/// So many nanoseconds had passed from the start of 1970 on in September 2001.
const STAMPS: u64 = 1_000_000_000_000_000_000;

/// What a log calls things, as far as that is known.
#[derive(Clone, Copy)]
pub struct LogWords<'a> {
    /// The names of the processors, in their order; one without a name has its number.
    pub names: &'a [&'a str],
    /// What a table says about the steps; nothing without one.
    pub said: &'a [StepRow],
    /// How many nanoseconds the unit of the table's times has. If it isn't given, they are nanoseconds if the first
    /// tick begins at `STAMPS` or later, and else no time is told.
    pub unit: Option<u64>,
}

/// The clock of a trace, by what a table says about its steps, whose times have units of so many nanoseconds. None if
/// the table doesn't give the length of a tick, or the unit isn't known.
pub fn clock_of(trace: &Trace, said: &[StepRow], unit: Option<u64>) -> Option<Clock>
    ensures known { IfSome result (IsClockOf trace.now said.now unit) }
    ensures told { IfSome result (λ _. ticks_before trace.now 1
        < ticks_before trace.now (length said.now)) }
    ensures unknown { result ≡ None → IsUnclocked trace.now said.now unit }
{
    let times = tick_times(trace, said)?;
    clock_by(unit, trace.last_tick(), times)
}

/// The clock of so many ticks that begin at these times.
fn clock_by(unit: Option<u64>, ticks: u64, times: TickTimes) -> Option<Clock>
    ensures { result ≡ clock_by unit ticks times }
{
    let unit = unit_for(unit, times.first)?;
    clock_within(times.width, unit, ticks)
}

/// The clock of so many ticks, each of so many units of so many nanoseconds.
fn clock_within(width: u64, unit: u64, ticks: u64) -> Option<Clock>
    ensures { result ≡ clock_within (width * unit) ticks }
{
    let width = width.checked_mul(unit)?;
    if width > LONGEST {
        return None;
    }
    Clock::of(width, ticks)
}

/// How many nanoseconds the unit of times has, which begin here.
pub fn unit_for(unit: Option<u64>, first: u64) -> Option<u64>
    ensures { result ≡ unit_for unit first }
{
    match unit {
        Some(unit) => Some(unit),
        None if first >= STAMPS => Some(1),
        None => None,
    }
}
