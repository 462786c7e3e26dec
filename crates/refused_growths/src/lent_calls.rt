//! Calls that change nothing that they are lent.

use crate::refusals::{Call, Outcome, Refusal, first_wrong, is_refused, judged};
use std::alloc::{AllocError, Global};

/// A call that changes nothing that it is lent, so that it can be made again and again. It needs some memory.
pub trait LentCall: Drop {
    /// Makes the call, and says whether its answer is the right one. Fails if the answer is out of memory.
    fn is_right(&self, alloc: Global) -> Result<bool, AllocError>;

    /// Whether what it is lent is unchanged since before any call.
    fn is_as_before(&self) -> bool;
}

/// A call that is swept, and how many of its allocations were refused.
#[derive(Drop)]
struct Swept<'a, C> {
    call: &'a C,
    refused: usize,
}

impl<C: LentCall> Call for Swept<'_, C> {
    fn attempt(&mut self, alloc: Global, refusal: Refusal) -> Outcome {
        refusal.begin(alloc);
        let answer = self.call.is_right(alloc);
        let was_refused = refusal.end(alloc);
        self.refused = self.refused.saturating_add(usize::from(was_refused));
        let again = self.call.is_as_before() && matches!(self.call.is_right(alloc), Ok(true));
        let right = matches!(answer, Ok(true));
        judged(was_refused, right && again, answer.is_err() && again)
    }
}

/// Makes the call with each allocation refused, one at a time, until none is. Gives the number of the first
/// allocation with a wrong outcome, if there was one. 0 if allocations are refused, and none of the call was.
pub fn first_wrong_lent<C: LentCall>(alloc: Global, call: &C) -> Option<usize> {
    let mut swept = Swept { call, refused: 0 };
    let wrong = first_wrong(alloc, &mut swept);
    let is_swept = swept.refused > 0 || !is_refusing(alloc);
    if is_swept { wrong } else { wrong.or(Some(0)) }
}

/// Whether the refusing library is loaded: it refuses the message that the next allocation is to be refused.
fn is_refusing(alloc: Global) -> bool {
    let refuses = is_refused(alloc, 1);
    let _ = is_refused(alloc, 0);
    refuses
}
