//! What a table says about times: how long ticks are, and how far events were moved to later ones.

use run_words::unit_for;
use step_tables::{Moves, StepRow, count_moves, tick_times};
use step_trace::Trace;

/// What a table says about times.
#[derive(Clone, Copy)]
pub(crate) struct Timing {
    /// When tick 1 begins, in the unit of the table's times.
    pub first: u64,
    /// The length of a tick, in the unit of the table's times.
    pub width: u64,
    /// How many nanoseconds that unit has, if it is known.
    pub unit: Option<u64>,
    pub moves: Moves,
}

impl Timing {
    /// What these rows say; None if they leave the length of a tick open.
    pub(crate) fn of(trace: &Trace, said: &[StepRow], unit: Option<u64>) -> Option<Self> {
        let times = tick_times(trace, said)?;
        Some(Timing {
            first: times.first,
            width: times.width,
            unit: unit_for(unit, times.first),
            moves: count_moves(said, times.width),
        })
    }

    /// So much time in nanoseconds, if the unit is known.
    pub(crate) fn nanoseconds(self, time: u64) -> Option<u64> {
        Some(time.saturating_mul(self.unit?))
    }
}
