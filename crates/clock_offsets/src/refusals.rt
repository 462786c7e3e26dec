//! Why clocks aren't aligned.

use std::alloc::AllocError;

/// Why no offsets of clocks are right, or none was found.
#[derive(Clone, Copy, Debug, PartialEq, Eq)]
pub enum OffsetError {
    /// By way of this clock and those before it, a clock would have to be ahead of itself.
    Cycle { clock: usize },
    /// A need is beyond the numbers that are held.
    TooFar,
    /// Out of memory.
    Memory,
}

impl From<AllocError> for OffsetError {
    ghost use Rattle.std.specs.Prelude.{◌≡◌};
    ghost use Rattle.clock_offsets.specs.declared.refusals.OffsetError.TheVariants as refused;

    ghost from_gives = { λ _ made. made ≡ refused.Memory };

    fn from(_: AllocError) -> Self {
        OffsetError::Memory
    }
}
