//! Why a report text is refused.

use thiserror::Error;

/// Why a report text is refused, in the order in which the reasons are tested. A number is that of the
/// row, from 1. The first record that is refused decides.
#[derive(Debug, Drop, Error)]
pub enum ReportError {
    /// The text has more than 67,108,864 bytes.
    TooLarge,
    /// The reader answered a fault.
    Read,
    /// The first record isn't the names of the eight fields.
    BadHeader,
    /// The record hasn't eight fields.
    BadFields(u64),
    /// A bound or the stabilization time isn't a number, or a field of a witness is neither empty nor
    /// a number.
    BadNumber(u64),
    /// Some fields of a witness are empty and some aren't.
    HalfWitness(u64),
    /// Out of memory.
    Memory,
}
