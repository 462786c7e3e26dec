//! Where ticks and bounds are drawn. A picture is `WIDE` units wide, and its height is in pixels.

ghost use Rattle.std.specs.Prelude.{◌≤◌, ◌+◌};
ghost use Rattle.step_trace.specs.declared.traces.TheConstants.{MAX_TICKS};

use step_trace::MAX_TICKS;

/// How wide a picture is.
pub(crate) const WIDE: u64 = 10_000;

/// Some ticks side by side, from the left edge of a picture to its right one.
#[derive(Clone, Copy)]
pub(crate) struct Span {
    pub first: u64,
    pub to: u64,
}

impl Span {
    /// How many ticks there are, at least one.
    pub(crate) fn count(self) -> u64
        ensures low { 1 ≤ result }
        ensures high { result ≤ MAX_TICKS + 1 }
    {
        self.to.saturating_sub(self.first).min(MAX_TICKS) + 1
    }

    /// The left edge of a tick; the picture's own for a tick outside it.
    pub(crate) fn edge(self, tick: u64) -> u64
        ensures { result ≤ WIDE }
    {
        let count = self.count();
        tick.saturating_sub(self.first).min(count) * WIDE / count
    }

    /// The middle of a tick, which may lie outside the picture.
    pub(crate) fn middle(self, tick: u64) -> Place {
        let double = self.count() * 2;
        let (tick, first) = (tick.min(MAX_TICKS), self.first.min(MAX_TICKS));
        if first <= tick {
            let halves = (tick - first) * 2 + 1;
            return Place {
                is_before: false,
                far: halves * WIDE / double,
            };
        }
        let halves = (first - tick) * 2 - 1;
        Place {
            is_before: true,
            far: halves * WIDE / double,
        }
    }

    pub(crate) fn shows(self, tick: u64) -> bool {
        self.first <= tick && tick <= self.to
    }
}

/// A place in a picture, or before its left edge.
#[derive(Clone, Copy)]
pub(crate) struct Place {
    pub is_before: bool,
    pub far: u64,
}

impl Place {
    /// The place if it isn't before the picture, and else its left edge.
    pub(crate) fn inside(self) -> u64
        ensures { result ≤ WIDE }
    {
        if self.is_before {
            0
        } else {
            self.far.min(WIDE)
        }
    }
}
