//! One refused allocation, and the sweep over all of a call.

use std::alloc::{AllocError, Global};

/// The size that begins the messages to the refusing library, in bytes. `tests/refusing.c` has the same number.
const MESSAGE: usize = 7_700_000;

/// The most allocations of one call. `tests/refusing.c` has the same number.
const MOST: usize = 100_000;

/// What came of a call.
#[derive(Clone, Copy, Debug, PartialEq, Eq)]
pub enum Outcome {
    /// Nothing was refused, and it answered what it answers with ample memory.
    Right,
    /// An allocation was refused; the call answered out of memory, all that it was lent is unchanged, and made again
    /// it answers right.
    Refused,
    /// It did anything else.
    Wrong,
}

/// A call that is made with each of its allocations refused, one at a time.
pub trait Call {
    /// Makes what the call is lent, lets `refusal` begin, makes the call, lets the refusal end, and judges the answer.
    /// What it is lent is made anew each time: a call that was refused may keep the room that it got.
    fn attempt(&mut self, alloc: Global, refusal: Refusal) -> Outcome;
}

/// Whose allocations are counted.
#[derive(Clone, Copy, Debug)]
pub enum Whose {
    /// Those of all threads.
    All,
    /// Those of the thread that asks for the refusal.
    Own,
    /// Those of all other threads.
    Others,
}

/// One allocation to refuse, by its number from 1 among those that are counted.
#[derive(Clone, Copy)]
pub struct Refusal {
    growth: usize,
    whose: Whose,
}

impl Refusal {
    /// The refusal of the allocation of this number among those of all threads.
    pub fn of(growth: usize) -> Self {
        Refusal::among(growth, Whose::All)
    }

    /// The refusal of the allocation of this number among these.
    pub fn among(growth: usize, whose: Whose) -> Self {
        Refusal { growth, whose }
    }

    /// From here on allocations are counted, and the one of this number is refused.
    pub fn begin(self, alloc: Global) {
        let first: usize = match self.whose {
            Whose::All => 0,
            Whose::Own => MOST,
            Whose::Others => 2 * MOST,
        };
        let _ = is_refused(alloc, first.saturating_add(self.growth));
    }

    /// From here on none is refused. Says whether one was.
    pub fn end(self, alloc: Global) -> bool {
        is_refused(alloc, 0)
    }
}

/// Whether a message is refused.
pub(crate) fn is_refused(alloc: Global, message: usize) -> bool {
    let asked: Result<Vec<u8>, AllocError> = Vec::with_capacity(
        alloc,
        MESSAGE.saturating_add(message),
    );
    asked.is_err()
}

/// Judges an answer: `right` says that it is the one that ample memory gives; `refused` that it is out of memory, that
/// nothing has changed, and that the call made again is right.
pub fn judged(was_refused: bool, right: bool, refused: bool) -> Outcome {
    if was_refused && refused && !right {
        Outcome::Refused
    } else if right && !was_refused {
        Outcome::Right
    } else {
        Outcome::Wrong
    }
}

/// Makes the call with each allocation refused, one at a time, until none is. Gives the number of the first allocation
/// with a wrong outcome, if there was one.
pub fn first_wrong<C: Call>(alloc: Global, call: &mut C) -> Option<usize> {
    for growth in 1..MOST {
        match call.attempt(alloc, Refusal::of(growth)) {
            Outcome::Right => return None,
            Outcome::Refused => {}
            Outcome::Wrong => return Some(growth),
        }
    }
    Some(MOST)
}
