//! Which of the steps that a seat did a trace hasn't.

ghost use Rattle.std.specs.Prelude.{◌↔◌, ◌<◌, IsTrue, IfSome};
ghost use Rattle.locked_recorder.specs.Prefixes.{Stands, Misses};

use step_buffers::Done;
use step_trace::Trace;

/// The least number of these that the trace hasn't with its step, if there is one.
pub(crate) fn least_missing(trace: &Trace, done: &[Done]) -> Option<u64>
    ensures { Misses trace.now.steps done.now result }
{
    let mut least = None;
    for one in done {
        if is_below(one.no, least) && !stands(trace, one) {
            least = Some(one.no);
        }
    }
    least
}

/// Whether the trace has this at its number.
fn stands(trace: &Trace, done: &Done) -> bool
    ensures { IsTrue result ↔ Stands trace.now.steps done.now }
{
    match trace.step(done.no) {
        Some(step) => step.is_same(&done.step),
        None => false,
    }
}

/// Whether a number is below another one, if there is one.
fn is_below(no: u64, least: Option<u64>) -> bool
    ensures { IsTrue result ↔ IfSome least (λ n. no < n) }
{
    match least {
        Some(least) => no < least,
        None => true,
    }
}
