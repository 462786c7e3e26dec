//! The steps of a tick, which follow one another by number.

ghost use Rattle.std.specs.Prelude.{◌≡◌, ◌↔◌, ℕ, Some};
ghost use Rattle.run_page.specs.TickSteps.{IsStepIn};

use step_trace::{Trace, is_step_of, steps_before};

/// The number of the step that a processor makes in a tick, if it makes one.
pub(crate) fn step_in(trace: &Trace, proc: u64, tick: u64) -> Option<u64>
    ensures { (k : ℕ) → IsStepIn trace.now proc tick k ↔ (result ≡ Some k) }
{
    if trace.last_tick() < tick {
        return None;
    }
    let before = steps_before(trace, tick);
    let end = steps_before(trace, tick + 1);
    for no in before..end {
        if is_step_of(trace, no + 1, proc) {
            return Some(no + 1);
        }
    }
    None
}
