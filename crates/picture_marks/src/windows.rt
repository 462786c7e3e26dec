//! The ticks that are drawn.

ghost use Rattle.std.specs.Prelude.{◌≡◌, ◌<◌, ◌≤◌, ◌+◌, IfErr, IfOk};
ghost use Rattle.picture_marks.specs.Windows.{IsUnfitWindow, touches, window_of};

/// How many ticks are drawn if no last one is asked for.
pub const USUAL_TICKS: u64 = 100;

/// How many ticks may be drawn.
pub const MAX_WINDOW: u64 = 1_000;

/// The ticks from `first` to `to`.
#[derive(Clone, Copy, Debug, PartialEq, Eq)]
pub struct Window {
    pub first: u64,
    pub to: u64,
}

/// Why there is no such window, in the order in which the reasons are tested.
#[derive(Clone, Copy, Debug, PartialEq, Eq)]
pub enum WindowError {
    /// The first tick is none of the trace: the one that was asked for, and the last tick of the trace.
    BadFrom(u64, u64),
    /// The last tick is before the first, or `MAX_WINDOW` ticks or more after it: the one that was asked for, and the
    /// first tick.
    BadTo(u64, u64),
}

impl Window {
    /// Whether what lasts from tick `a` to tick `b` touches the window.
    pub fn touches(self, a: u64, b: u64) -> bool
        ensures { result ≡ touches self a b }
    {
        a <= self.to && self.first <= b
    }
}

/// The ticks that are asked for, of a trace with this last tick. They begin at tick 1 if no first one is given, and
/// are `USUAL_TICKS` if no last one is. A last tick after that of the trace counts as that one. For a trace with no
/// tick there is the empty window before tick 1, for any last tick.
pub fn window_of(last: u64, from: Option<u64>, to: Option<u64>) -> Result<Window, WindowError>
    ensures exact { result ≡ window_of last from to }
    ensures refused { IfErr result (IsUnfitWindow last from to) }
    ensures end { IfOk result (λ w. w.to ≤ last) }
    ensures length { IfOk result (λ w. w.to < w.first + MAX_WINDOW) }
{
    let first = from.unwrap_or(1);
    if first < 1 || last.max(1) < first {
        return Err(WindowError::BadFrom(first, last));
    }
    if last == 0 {
        return Ok(Window { first, to: 0 });
    }
    let drawn = match to {
        Some(to) => to.min(last),
        None => last.min(first.saturating_add(USUAL_TICKS - 1)),
    };
    if drawn < first || drawn - first >= MAX_WINDOW {
        return Err(WindowError::BadTo(to.unwrap_or(drawn), first));
    }
    Ok(Window { first, to: drawn })
}
