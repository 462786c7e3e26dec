//! The rows for the bounds of processors and links.

use crate::bounds::LeastBound;
use step_trace::{Gap, Miss};

/// Who keeps which bound.
#[derive(Clone, Copy, Debug, PartialEq, Eq)]
pub enum BoundRow {
    /// The processor bound of one processor, with its named gap.
    Phi {
        proc: u64,
        bound: LeastBound<Gap>,
    },
    /// The communication bound of the messages of one processor to another, or to itself, with its named miss.
    Delta {
        from: u64,
        to: u64,
        bound: LeastBound<Miss>,
    },
}
