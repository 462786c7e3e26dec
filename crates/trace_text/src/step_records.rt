//! The fields of the records of a trace: initial values, operations and lists of ids.

ghost use Rattle.std.specs.Prelude.{◌≡◌, ◌∷◌, [], ◌++◌, ℕ, List, IfOk, IsErr, IsTrue, option_map, drop};
ghost use Rattle.csv.specs.Records.{fields_of};
ghost use Rattle.trace_text.specs.TextRefusals.{numbers_of, ids_of, operation_of, begins_with_number, parts_of};
ghost use Rattle.trace_text.specs.JudgedIds.{AreKept, is_above_last, judged};

use crate::records::{field, number};
use csv::ByteRecord;
use std::alloc::{AllocError, Global};

/// What a step's record says that the processor does.
#[derive(Clone, Copy)]
pub(crate) enum Operation {
    /// `S`
    Send,
    /// `R`
    Receive,
    /// `E`
    EndRound,
}

/// The numbers of all fields but the first, unless one isn't a number. Memory is taken for the first
/// number and those after it.
pub(crate) fn values(alloc: Global, fields: &ByteRecord) -> Result<Option<Vec<u64>>, AllocError>
    ensures numbers { IfOk result
        (λ o. option_map (λ v. v.items) o ≡ numbers_of (drop 1 (fields_of fields.now))) }
    ensures more { IsErr result → IsTrue (begins_with_number (drop 1 (fields_of fields.now))) }
{
    let mut values = Vec::new(alloc);
    for i in 1..fields.len() {
        let Some(value) = number(field(fields, i)) else {
            return Ok(None);
        };
        values.push(value)?;
    }
    Ok(Some(values))
}

/// The numbers of a field that have one space between them, as far as they rise, and the first that doesn't; unless
/// a part isn't a number. An empty field has none. Memory is taken for the first number and those after it.
pub(crate) fn judged_ids(alloc: Global, field: &[u8]) -> Result<Option<Vec<u64>>, AllocError>
    ensures numbers { IfOk result
        (λ o. option_map (λ v. v.items) o ≡ option_map judged (ids_of field.now)) }
    ensures more { IsErr result → IsTrue (begins_with_number (parts_of field.now)) }
{
    let mut ids = Vec::new(alloc);
    if field.len() == 0 {
        return Ok(Some(ids));
    }
    let mut rising = true;
    for part in field.split(|byte| *byte == b' ') {
        let Some(id) = number(part) else {
            return Ok(None);
        };
        rising = keep_id(&mut ids, rising, id)?;
    }
    Ok(Some(ids))
}

/// Keeps one more id if those before it rise, and answers whether they rise with it.
fn keep_id(ids: &mut Vec<u64>, rising: bool, id: u64) -> Result<bool, AllocError>
    ensures { IfOk result
        (λ rises. (all : List ℕ) → AreKept all ids.old.items rising
        → AreKept (all ++ id ∷ []) ids.new.items rises) }
{
    if !rising {
        return Ok(false);
    }
    let rises = is_above_last(ids, id);
    ids.push(id)?;
    Ok(rises)
}

/// Whether an id is above the last one.
fn is_above_last(ids: &[u64], id: u64) -> bool
    ensures { result ≡ is_above_last ids.now id }
{
    match ids.last() {
        Some(last) => *last < id,
        None => true,
    }
}

/// The operation that a field names.
pub(crate) fn operation_of(field: &[u8]) -> Option<Operation>
    ensures { result ≡ operation_of field.now }
{
    match field {
        b"S" => Some(Operation::Send),
        b"R" => Some(Operation::Receive),
        b"E" => Some(Operation::EndRound),
        _ => None,
    }
}
