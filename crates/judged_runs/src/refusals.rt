//! Why a text of decisions is refused, and a list of runs.

use thiserror::Error;

/// Why a text of decisions is refused, in the order in which the reasons are tested. A number is that of the record
/// after the header, from 1. The first record that is refused decides.
#[derive(Debug, Drop, Error)]
pub enum DecisionsError {
    /// The text has more than 67,108,864 bytes.
    TooLarge,
    /// The first record isn't `proc,tick,value`.
    BadHeader,
    /// There are more than 1,000,000 records after the header.
    TooMany,
    /// The record hasn't three fields.
    BadFields(u64),
    /// A field isn't a number.
    BadNumber(u64),
    /// The processor is 0, or above the number of processors.
    BadProcessor(u64),
    /// The tick is 0, or above the last tick.
    BadTick(u64),
    /// Out of memory.
    Memory,
}

/// Why a list of runs is refused, in the order in which the reasons are tested. A number is that of the record after
/// the header, from 1. The first record that is refused decides.
#[derive(Debug, Drop, Error)]
pub enum RunListError {
    /// The text has more than 67,108,864 bytes.
    TooLarge,
    /// The first record isn't `trace,decisions,correct,start`.
    BadHeader,
    /// There are more than 1,000,000 records after the header.
    TooMany,
    /// The record hasn't four fields.
    BadFields(u64),
    /// There is no record after the header.
    NoRuns,
    /// Out of memory.
    Memory,
}
