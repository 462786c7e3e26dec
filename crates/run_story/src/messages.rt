//! Facts of the messages of a trace, by their numbers.

ghost use Rattle.std.specs.Prelude.{◌≡◌, ◌+◌, ◌<◌, ◌||◌, ◌==◌, ℕ, All, IfOk, length};
ghost use Rattle.std.specs.List.{list_any};
ghost use Rattle.step_trace.specs.PushRefusals.{is_taken};
ghost use Rattle.run_story.specs.Messages.{flag_at, receiver_of, sender_of};

use std::alloc::{AllocError, Global};
use step_trace::{Act, Trace, ids_at};

/// For each number up to that of the last step, whether a step takes the message of this number.
pub(crate) fn taken_messages(alloc: Global, trace: &Trace) -> Result<Vec<bool>, AllocError>
    ensures { IfOk result (λ taken. (s : ℕ) → flag_at taken.items s ≡ is_taken trace.now.steps s) }
{
    let mut taken = vec![in alloc; false; trace.len() + 1]?;
    for i in 0..trace.len() {
        mark(&mut taken, ids_at(trace, i as u64 + 1));
    }
    Ok(taken)
}

/// Sets the flags of these messages.
fn mark(taken: &mut Vec<bool>, ids: &[u64])
    requires { All (λ s. s < length taken.old.items) ids.now }
    ensures len { length taken.new.items ≡ length taken.old.items }
    ensures flags { (s : ℕ) → flag_at taken.new.items s
        ≡ (flag_at taken.old.items s || list_any (λ i. i == s) ids.now) }
{
    for s in ids {
        taken[*s as usize] = true;
    }
}

/// The flag of this number; false if there is none.
pub(crate) fn flag_at(flags: &[bool], no: u64) -> bool
    ensures { result ≡ flag_at flags.now no }
{
    match flags.get(no as usize) {
        Some(flag) => *flag,
        None => false,
    }
}

/// The sender of the message of this number: 0 if there is none.
pub(crate) fn sender_of(trace: &Trace, no: u64) -> u64
    ensures { result ≡ sender_of trace.now.steps no }
{
    match trace.step(no) {
        Some(step) => match &step.act {
            Act::Send { .. } => step.proc,
            Act::Receive { .. } => 0,
        },
        None => 0,
    }
}

/// The receiver of the message of this number: 0 if there is none.
pub(crate) fn receiver_of(trace: &Trace, no: u64) -> u64
    ensures { result ≡ receiver_of trace.now.steps no }
{
    match trace.step(no) {
        Some(step) => match &step.act {
            Act::Send { to } => *to,
            Act::Receive { .. } => 0,
        },
        None => 0,
    }
}
