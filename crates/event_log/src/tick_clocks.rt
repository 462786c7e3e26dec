//! How the times of a log become ticks.

ghost use Rattle.std.specs.Prelude.{◌≡◌, ◌*◌, ◌^◌, ◌<◌, IfOk};
ghost use Rattle.event_log.specs.TickClocks.{above_zero, clock_in, end_in, units_in, until_in, width_in};
ghost use Rattle.event_log.specs.Times.{nanoseconds_in, nanoseconds_of};

use crate::options::Options;
use crate::refusals::LogError;
use crate::times::{LogEnd, TimeKind, TimeUnit, Width, nanoseconds_in};
use timed_events::Clock;

/// How the times of this kind become ticks.
///
/// Refuses TickUnfit and UntilUnfit, in this order.
pub(crate) fn clock_for(options: &Options, kind: TimeKind) -> Result<Clock, LogError>
    ensures clock { result ≡ clock_in options.now kind }
    ensures width { IfOk result (λ clock. 0 < clock.width) }
    ensures short { IfOk result (λ clock. clock.width < 2 ^ 94) }
{
    let width = width_for(kind, options.width)?;
    let until = until_for(kind, options.until)?;
    Ok(Clock { width, until })
}

/// The length of a tick in the unit of times of this kind.
fn width_for(kind: TimeKind, width: Width) -> Result<u128, LogError>
    requires { nanoseconds_of width < 2 ^ 94 }
    ensures width { result ≡ width_in kind width }
    ensures above { IfOk result (λ units. 0 < units) }
    ensures short { IfOk result (λ units. units < 2 ^ 94) }
{
    match width {
        Width::Units(units) => above_zero(units_in(kind, units)),
        Width::Nanoseconds(nanoseconds) => match kind {
            TimeKind::Number => Err(LogError::TickUnfit),
            _ => above_zero(nanoseconds),
        },
    }
}

/// So many units of times of this kind, as these are counted.
pub(crate) fn units_in(kind: TimeKind, units: u64) -> u128
    ensures is { result ≡ units_in kind units }
    ensures short { result < 2 ^ 94 }
{
    match kind {
        TimeKind::Whole(unit) => whole_in(unit, units),
        _ => u128::from(units),
    }
}

/// So many of a unit in nanoseconds.
fn whole_in(unit: TimeUnit, units: u64) -> u128
    ensures is { result ≡ units * nanoseconds_in unit }
    ensures small { result < 2 ^ 94 }
{
    u128::from(units) * u128::from(nanoseconds_in(unit))
}

/// A length, which has to be above 0.
fn above_zero(units: u128) -> Result<u128, LogError>
    ensures is { result ≡ above_zero units }
    ensures above { IfOk result (λ units. 0 < units) }
    ensures same { IfOk result (λ length. length ≡ units) }
{
    if units == 0 {
        return Err(LogError::TickUnfit);
    }
    Ok(units)
}

/// When a log with times of this kind ends, if that is given.
pub fn until_for(kind: TimeKind, until: Option<LogEnd>) -> Result<Option<i128>, LogError>
    ensures { result ≡ until_in kind until }
{
    let Some(end) = until else {
        return Ok(None);
    };
    Ok(Some(end_in(kind, end)?))
}

/// The end of a log with times of this kind, as these are counted.
pub fn end_in(kind: TimeKind, end: LogEnd) -> Result<i128, LogError>
    ensures { result ≡ end_in kind end }
{
    match (kind, end) {
        (TimeKind::Number, LogEnd::Number(n)) => Ok(i128::from(n)),
        (TimeKind::Whole(unit), LogEnd::Number(n)) => Ok(whole_in(unit, n) as i128),
        (TimeKind::Whole(_), LogEnd::Nanoseconds(x)) => Ok(x),
        (TimeKind::Decimal, LogEnd::Number(n)) => Ok(whole_in(TimeUnit::Second, n) as i128),
        (TimeKind::Decimal, LogEnd::Nanoseconds(x)) => Ok(x),
        (TimeKind::Stamp, LogEnd::Stamp(x)) => Ok(x),
        (TimeKind::Local, LogEnd::Local(x)) => Ok(x),
        _ => Err(LogError::UntilUnfit),
    }
}
