//! For each message the Receive that takes it.

ghost use Rattle.std.specs.Prelude.{◌≡◌, ℕ, ◌+◌, ◌<◌, ◌==◌, length, All, IfOk, Some, if◌then◌else◌};
ghost use Rattle.std.specs.List.{list_any};
ghost use Rattle.picture_marks.specs.Messages.{taker, taker_in};

use std::alloc::{AllocError, Global};
use step_trace::{Trace, ids_at};

/// For each number up to that of the last step, the step that takes the message of this number, in time
/// that grows with the steps and the ids that they take.
pub fn takers(alloc: Global, trace: &Trace) -> Result<Vec<Option<u64>>, AllocError>
    ensures long { IfOk result (λ takers. length takers.items ≡ length trace.now.steps + 1) }
    ensures each { IfOk result (λ takers. (s : ℕ)
        → taker_in takers.items s ≡ taker trace.now.steps (length trace.now.steps) s) }
{
    let mut takers = vec![in alloc; None; trace.len() + 1]?;
    for i in 0..trace.len() {
        let no = i as u64 + 1;
        mark(&mut takers, ids_at(trace, no), no);
    }
    Ok(takers)
}

/// What a list of takers has for the message of this number.
pub fn taker_in(takers: &[Option<u64>], no: u64) -> Option<u64>
    ensures { result ≡ taker_in takers.now no }
{
    match takers.get(no as usize) {
        Some(taker) => *taker,
        None => None,
    }
}

/// Notes that step `no` takes these messages.
fn mark(takers: &mut [Option<u64>], ids: &[u64], no: u64)
    requires { All (λ s. s < length takers.old) ids.now }
    ensures { (s : ℕ) → taker_in takers.new s
        ≡ (if list_any (λ i. i == s) ids.now then Some no else taker_in takers.old s) }
{
    for s in ids {
        takers[*s as usize] = Some(no);
    }
}
