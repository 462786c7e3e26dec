//! How many ticks the silences that get a receive of nothing have at most.

ghost use Rattle.std.specs.Prelude.{◌≡◌, ◌<◌};
ghost use Rattle.event_log.specs.IdleLimits.{idle_in, limit_in};

use crate::options::Options;
use crate::refusals::LogError;
use crate::tick_clocks::units_in;
use crate::times::{TimeKind, Width};
use timed_events::Clock;

/// How many ticks of this clock a silence that gets a receive of nothing has at most, if its longest time is given.
///
/// Asks for ticks that have a length. Refuses IdleUnfit.
pub(crate) fn limit_for(
    options: &Options,
    kind: TimeKind,
    clock: &Clock,
) -> Result<Option<u128>, LogError>
    requires { 0 < clock.now.width }
    ensures { result ≡ limit_in options.now kind clock.now }
{
    let Some(idle) = options.idle else {
        return Ok(None);
    };
    let longest = idle_in(kind, idle)?;
    Ok(Some(longest / clock.width))
}

/// The longest time without an event, in the unit of times of this kind.
fn idle_in(kind: TimeKind, idle: Width) -> Result<u128, LogError>
    ensures { result ≡ idle_in kind idle }
{
    match idle {
        Width::Units(units) => Ok(units_in(kind, units)),
        Width::Nanoseconds(nanoseconds) => match kind {
            TimeKind::Number => Err(LogError::IdleUnfit),
            _ => Ok(nanoseconds),
        },
    }
}
