//! What is concluded about a list of rows.

use step_trace::{Gap, Miss};

/// Why rows are no certificate of a trace and a set of correct processors (own). Rows count from 1; bounds and
/// stabilization times are in real-time steps, which are ticks. The stretch of a row goes from its stabilization
/// time to the tick before the next row's. That of the last row goes to the last tick.
#[derive(Clone, Copy, Debug, PartialEq, Eq)]
pub enum Reason {
    /// There are no rows, though there are ticks.
    NoRows,
    /// The first stabilization time isn't 1.
    FirstNotOne,
    /// The stabilization time of this row isn't above that of the row before.
    NotRising(u64),
    /// The stabilization time of this row is above the last tick.
    BeyondEnd(u64),
    /// A bound of this row is above that of the row before.
    NotNonIncreasing(u64),
    /// Both bounds of this row are those of the row before.
    SameAsBefore(u64),
    /// The miss of this row doesn't show, all over its stretch, that no smaller positive communication bound holds.
    BadMiss(u64),
    /// The gap of this row doesn't show, all over its stretch, that no smaller positive processor bound holds.
    BadGap(u64),
    /// The communication bound of this row doesn't hold from its stabilization time: the longest miss from there
    /// on, of the message that was sent last.
    DeltaFails(u64, Miss),
    /// The processor bound of this row doesn't hold from its stabilization time: the longest gap from there on,
    /// the one that begins last, of the least processor.
    PhiFails(u64, Gap),
}

/// The result of a check of rows: they are a certificate, or the first reason against them.
#[derive(Clone, Copy, Debug, PartialEq, Eq)]
pub enum Verdict {
    Yes,
    No(Reason),
}
