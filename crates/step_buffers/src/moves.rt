//! What a processor is to do in a step, and what came of it.

use step_trace::Step;

/// Which of the messages that wait for a processor a Receive takes.
#[derive(Clone, Copy, Debug)]
pub enum Take<'a> {
    /// All of them.
    All,
    /// None of them.
    Nothing,
    /// So many, those with the least ids; or all of them, if there are fewer.
    Oldest(u64),
    /// Those with these ids, which rise.
    These(&'a [u64]),
}

/// What a processor does in a step.
#[derive(Clone, Copy, Debug)]
pub enum Move<'a> {
    /// It sends to the next processor, in rising order, to which it has something to send in its round.
    Send,
    /// It takes messages out of its buffer; `ends` says that its round ends here.
    Receive { take: Take<'a>, ends: bool },
}

/// A step that was made.
#[derive(Debug, Drop)]
pub struct Done {
    /// The number of the step, which is also its tick, since a World makes one step in each tick.
    pub no: u64,
    /// The step.
    pub step: Step,
    /// The round of its processor after the step.
    pub round: u64,
    /// The decision of its processor after the step.
    pub decision: Option<u64>,
}

/// Why a move is refused, in the order in which the reasons are tested.
#[derive(Clone, Copy, Debug, PartialEq, Eq)]
pub enum StepError {
    /// As many steps were made as may be.
    Full,
    /// There is no such processor.
    BadProc,
    /// All messages of the processor's round are out, or it has none.
    NothingToSend,
    /// The round can't end: not all its messages are out.
    StillSending,
    /// The ids to be taken don't rise.
    IdsNotRising,
    /// The message of this id doesn't wait for the processor. It is the least such id.
    NotInBuffer(u64),
    /// Out of memory for the step.
    Memory,
}
