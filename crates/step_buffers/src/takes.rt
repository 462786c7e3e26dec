//! Which messages a Receive takes.

ghost use Rattle.std.specs.Prelude.{◌≡◌, IfOk, find, not};
ghost use Rattle.std.specs.List.Sorted.{IsStrictlyIncreasing};
ghost use Rattle.step_buffers.specs.Moves.{is_in, taken_ids, take_refusal};

use crate::moves::{StepError, Take};
use std::alloc::{AllocError, Global};
use step_trace::{MessageIds, is_rising};

/// The first reason against taking these messages of a buffer; out of memory aside.
pub(crate) fn take_refusal(buffer: &[u64], take: Take) -> Option<StepError>
    requires { IsStrictlyIncreasing buffer.now }
    ensures { result ≡ take_refusal take.entry buffer.now }
{
    match take {
        Take::These(ids) => {
            if !is_rising(ids) {
                return Some(StepError::IdsNotRising);
            }
            first_missing(buffer, ids).map(StepError::NotInBuffer)
        }
        _ => None,
    }
}

/// The ids that a Take names of a buffer.
pub(crate) fn taken_ids(alloc: Global, buffer: &[u64], take: Take) -> Result<MessageIds, AllocError>
    ensures { IfOk result (λ ids. ids ≡ taken_ids take.entry buffer.now) }
{
    MessageIds::new(alloc, taken_list(alloc, buffer, take)?)
}

fn taken_list(alloc: Global, buffer: &[u64], take: Take) -> Result<Vec<u64>, AllocError>
    ensures { IfOk result (λ ids. ids.items ≡ taken_ids take.entry buffer.now) }
{
    match take {
        Take::All => Vec::from_slice(alloc, buffer),
        Take::Nothing => Ok(Vec::new(alloc)),
        Take::Oldest(n) => {
            if n < buffer.len() as u64 {
                Vec::from_slice(alloc, &buffer[..n as usize])
            } else {
                Vec::from_slice(alloc, buffer)
            }
        }
        Take::These(ids) => Vec::from_slice(alloc, ids),
    }
}

/// The first of these ids that isn't in a buffer.
fn first_missing(buffer: &[u64], ids: &[u64]) -> Option<u64>
    requires { IsStrictlyIncreasing buffer.now }
    ensures { result ≡ find (λ s. not (is_in buffer.now s)) ids.now }
{
    ids.iter().copied().find(|s| !is_in(buffer, *s))
}

/// Whether an id is one of these.
pub(crate) fn is_in(ids: &[u64], id: u64) -> bool
    requires { IsStrictlyIncreasing ids.now }
    ensures { result ≡ is_in ids.now id }
{
    ids.binary_search(&id).is_ok()
}
