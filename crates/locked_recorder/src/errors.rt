//! Why a recorder refuses.

use step_buffers::StepError;
use step_trace::Step;

/// Why no step was recorded, in the order in which the reasons are tested.
#[derive(Clone, Copy, Debug, PartialEq, Eq)]
pub enum RecordError {
    /// The seat is of a recorder with another tag; or the World isn't of the recorder's configuration and limit.
    ForeignSeat,
    /// The World refused the step, or was out of memory for it.
    Step(StepError),
}

/// Why no prefix was shown to a view, in the order in which the reasons are tested.
#[derive(Debug, Drop)]
pub enum PrefixError {
    /// The trace doesn't extend what the view has seen. At number `at`, the least such, it has `found`, a step
    /// with its tick, which isn't the view's. If it has all steps of the view, `at` is the number after them. At
    /// 0 it is of another configuration, or the World isn't of the recorder's configuration and limit.
    NotAnExtension { at: u64, found: Option<(u64, Step)> },
    /// Out of memory for the copies.
    Memory,
}

/// Why no prefix was shown to a seat, in the order in which the reasons are tested.
#[derive(Clone, Copy, Debug, PartialEq, Eq)]
pub enum MineError {
    /// The seat is of a recorder with another tag; or the World isn't of the recorder's configuration and limit.
    ForeignSeat,
    /// The trace hasn't the step of this number that the seat did. It is the least such number.
    NotMine(u64),
    /// Out of memory for the copy.
    Memory,
}

/// Why an audit refuses, in the order in which the reasons are tested.
#[derive(Clone, Copy, Debug, PartialEq, Eq)]
pub enum AuditError {
    /// There isn't one seat for each processor, in order.
    SeatCount,
    /// A seat is of a recorder with another tag; or the World isn't of the recorder's configuration and limit.
    ForeignSeat,
    /// The seat of this processor, the least such, isn't what the trace makes of it.
    SeatDiffers(u64),
    /// The trace doesn't extend the view of this index, which counts from 0 and is the least such.
    ViewDiffers(u64),
    /// Out of memory for the copy of the World, or for comparing the seats with it.
    Memory,
}

/// Why a drive stopped, in the order in which the reasons are tested.
#[derive(Clone, Copy, Debug, PartialEq, Eq)]
pub enum DriveStop {
    /// The gate held the processor back.
    Held,
    /// A step was refused.
    Record(RecordError),
}

/// A drive that stopped before its last step.
#[derive(Clone, Copy, Debug, PartialEq, Eq)]
pub struct DriveError {
    /// How many steps it made.
    pub made: u64,
    /// Why it made no more.
    pub why: DriveStop,
}
