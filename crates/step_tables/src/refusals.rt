//! Why a text is no table of a trace.

use thiserror::Error;

/// Why a text is no table of a trace, in the order in which the reasons are tested. The first record that is refused
/// decides. A number is that of the record; the header is record 1.
#[derive(Debug, Drop, Error)]
pub enum TableError {
    /// The text has more than 67,108,864 bytes.
    TooLarge,
    /// The first record isn't `step,tick,begins,record,time,node,event,to,message`.
    BadHeader,
    /// The record doesn't say what the trace has at its place.
    Unfit(u64),
    /// The record is missing: the trace has more steps.
    Missing(u64),
    /// Out of memory.
    Memory,
}
