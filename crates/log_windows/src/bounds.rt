//! A window of a log, as its times are counted.

ghost use Rattle.std.specs.Prelude.{◌≡◌};
ghost use Rattle.log_windows.specs.Bounds.{bounds_in, bounds_of, first_in, is_within, kind_of, settled_by, times_by};

use event_log::{LogEnd, LogError, TimeKind, end_in, until_for};

/// A window, as the times of a log are counted.
#[derive(Clone, Copy)]
pub(crate) struct Bounds {
    /// Its first time.
    pub(crate) first: i128,
    /// Its last time, if it has one.
    pub(crate) last: Option<i128>,
}

/// What the times of a log are, and the window by them.
#[derive(Clone, Copy)]
pub(crate) struct Times {
    pub(crate) kind: TimeKind,
    pub(crate) bounds: Bounds,
}

/// The kind of the times, once it is settled.
pub(crate) fn kind_of(times: Option<Times>) -> Option<TimeKind>
    ensures { result ≡ kind_of times }
{
    match times {
        Some(times) => Some(times.kind),
        None => None,
    }
}

/// What the times are, and the window by them: what was settled, or else what times of this kind settle.
///
/// Refuses FromUnfit and UntilUnfit.
pub(crate) fn times_by(
    times: Option<Times>,
    from: LogEnd,
    until: Option<LogEnd>,
    kind: TimeKind,
) -> Result<Times, LogError>
    ensures { result ≡ times_by times from until kind }
{
    match times {
        Some(times) => Ok(times),
        None => settled_by(from, until, kind),
    }
}

/// The window by times of this kind.
fn settled_by(from: LogEnd, until: Option<LogEnd>, kind: TimeKind) -> Result<Times, LogError>
    ensures { result ≡ settled_by from until kind }
{
    let bounds = bounds_in(kind, from, until)?;
    Ok(Times { kind, bounds })
}

/// A window as times of this kind are counted.
///
/// Refuses FromUnfit for a start that doesn't fit, UntilUnfit for an end that doesn't, and FromUnfit for a start after
/// the end, in this order.
fn bounds_in(kind: TimeKind, from: LogEnd, until: Option<LogEnd>) -> Result<Bounds, LogError>
    ensures { result ≡ bounds_in kind from until }
{
    let first = first_in(kind, from)?;
    let last = until_for(kind, until)?;
    bounds_of(first, last)
}

/// The first time of a window.
fn first_in(kind: TimeKind, from: LogEnd) -> Result<i128, LogError>
    ensures { result ≡ first_in kind from }
{
    match end_in(kind, from) {
        Ok(first) => Ok(first),
        Err(_) => Err(LogError::FromUnfit),
    }
}

/// The window from a time on, to another if that isn't before it.
fn bounds_of(first: i128, last: Option<i128>) -> Result<Bounds, LogError>
    ensures { result ≡ bounds_of first last }
{
    if let Some(last) = last {
        if last < first {
            return Err(LogError::FromUnfit);
        }
    }
    Ok(Bounds { first, last })
}

/// Whether a time is in a window.
pub(crate) fn is_within(bounds: Bounds, time: i128) -> bool
    ensures { result ≡ is_within bounds time }
{
    if time < bounds.first {
        return false;
    }
    match bounds.last {
        None => true,
        Some(last) => time <= last,
    }
}
