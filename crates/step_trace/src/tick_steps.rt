//! How many steps come before a tick.

ghost use Rattle.step_trace.specs.TickSteps.{AreStepsBefore};

use crate::traces::Trace;

/// How many steps come before a tick, by bisection.
pub fn steps_before(trace: &Trace, tick: u64) -> u64
    ensures { AreStepsBefore trace.now tick result }
{
    let mut low = 0;
    let mut high = trace.len() as u64;
    while low < high {
        let middle = low + (high - low) / 2;
        if trace.tick(middle + 1) < tick {
            low = middle + 1;
        } else {
            high = middle;
        }
    }
    low
}
