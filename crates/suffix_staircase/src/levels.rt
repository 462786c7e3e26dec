//! The bounds from one tick on, with their witnesses.

ghost use Rattle.std.specs.Prelude.{◌≡◌};
ghost use Rattle.suffix_staircase.specs.Levels.{same_bounds};

use step_trace::{Gap, Miss};

/// The least communication bound and the least processor bound (section 2 of the 1988 paper) that hold
/// from one tick to the end, counted in ticks, each with its named witness: none for a bound of 1.
#[derive(Clone, Copy, Debug, PartialEq, Eq)]
pub struct Level {
    pub delta: u64,
    pub miss: Option<Miss>,
    pub phi: u64,
    pub gap: Option<Gap>,
}

impl Level {
    /// Whether both bounds are equal.
    pub(crate) fn has_bounds_of(&self, other: &Level) -> bool
        ensures { result ≡ same_bounds self.now other.now }
    {
        self.delta == other.delta && self.phi == other.phi
    }
}
