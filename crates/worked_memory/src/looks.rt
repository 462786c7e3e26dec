//! Calls that are lent a trace, swept one after the other.

use refused_growths::{LentCall, first_wrong_lent};
use std::alloc::{AllocError, Global};
use step_trace::Trace;
use test_support::traces::are_equal;

/// A call that is lent a trace.
pub(crate) trait TraceCall: Copy {
    /// Whether its answer is the right one. Fails if the answer is out of memory.
    fn is_right(self, alloc: Global, trace: &Trace) -> Result<bool, AllocError>;
}

/// A call, the trace that it is lent, and a copy of that from before.
#[derive(Drop)]
struct Lent<'a, C> {
    call: C,
    trace: &'a Trace,
    before: &'a Trace,
}

impl<C: TraceCall> LentCall for Lent<'_, C> {
    fn is_right(&self, alloc: Global) -> Result<bool, AllocError> {
        self.call.is_right(alloc, self.trace)
    }

    fn is_as_before(&self) -> bool {
        are_equal(self.trace, self.before)
    }
}

/// The first of these calls and of its allocations with a wrong outcome, if there was one.
pub(crate) fn first_wrong_of<C: TraceCall>(
    alloc: Global,
    trace: &Trace,
    calls: &[(&'static str, C)],
) -> Option<(&'static str, usize)> {
    match trace.copy(alloc) {
        Ok(before) => first_wrong_beside(alloc, trace, &before, calls),
        Err(_) => Some(("before all", 0)),
    }
}

fn first_wrong_beside<C: TraceCall>(
    alloc: Global,
    trace: &Trace,
    before: &Trace,
    calls: &[(&'static str, C)],
) -> Option<(&'static str, usize)> {
    for &(name, call) in calls {
        let lent = Lent {
            call,
            trace,
            before,
        };
        if let Some(growth) = first_wrong_lent(alloc, &lent) {
            return Some((name, growth));
        }
    }
    None
}
