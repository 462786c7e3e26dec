//! Why a text is refused, and how far a text was written.

use step_trace::PushError;
use thiserror::Error;

/// Why a trace text is refused, in the order in which the reasons are tested. A `no` is one more than
/// the number of steps accepted before. The first record that is refused decides.
#[derive(Debug, Drop, Error)]
pub enum TextError {
    /// The text has more than 67,108,864 bytes.
    TooLarge,
    /// The reader answered a fault.
    Read,
    /// The first record isn't four fields, the first of them `dls-trace`.
    BadHeader,
    /// The version is neither `1` nor `2`.
    BadVersion,
    /// The number of processors or that of faulty ones isn't a number, or is outside its limit.
    BadSize,
    /// The second record isn't `init` and a number for each processor.
    BadInit,
    /// A record that begins with `end` hasn't two fields, or another one hasn't four, in version 2 five.
    BadFields(u64),
    /// The first field isn't the text of the step's number.
    WrongNumber(u64),
    /// The operation isn't `S`, `R` or `E`.
    BadOp(u64),
    /// The tick or the processor isn't a number, or the argument isn't what the operation asks for.
    BadNumber(u64),
    /// The trace refuses the step.
    BadStep(u64, PushError),
    /// There is no `end` record.
    NoEnd,
    /// The field of the `end` record isn't the text of the number of steps; in version 2, it isn't a number,
    /// or the trace can't end in that tick.
    WrongEnd,
    /// A record comes after the `end` record.
    AfterEnd,
    /// Out of memory.
    Memory,
}

/// Why a text wasn't written whole.
#[derive(Debug, Drop, Error)]
pub enum WriteError {
    /// The writer failed or took nothing; so many bytes of the text went out before.
    Write(u64),
    /// Out of memory, and nothing was written.
    Memory,
}
