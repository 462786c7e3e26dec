//! The records of a text, taken in one after the other, and their fields. A reader of texts says by
//! `TakeRecords` what it makes of a record, and `read_records` gives it the records of a text.

ghost use Rattle.std.specs.Prelude.{◌≡◌, ℕ, List, Bool, Result, IsTrue, decimal};
ghost use Rattle.std.specs.Str.{bytes_eq};
ghost use Rattle.csv.specs.Records.{fields_of};
ghost use Rattle.trace_text.specs.Records.{ReachesUnless, WantsOnlyWhere, after_records};
ghost use Rattle.trace_text.specs.Records.{field_of, number_of, records_of_text};
ghost use Rattle.trace_text.specs.RecordLimits.{RefusesLong};

use crate::record_limits::readable_len;
use csv::{ByteRecord, ErrorKind, ReaderBuilder};
use std::alloc::Global;
use step_trace::read_number;

/// What takes in the records of a text.
pub trait TakeRecords {
    /// Why a record is refused.
    type Error: Drop;

    // what one more record makes of it, or why the record is refused
    ghost next: { Self → List (List ℕ) → Result Self Self.Error };

    // whether a refusal is out of memory
    ghost is_memory: { Self.Error → Bool };

    // whether something has to be kept for a record
    ghost keeps: { Self → List (List ℕ) → Bool };

    /// Takes in one more record. If it is refused, what it was taken into is of no more use.
    fn take(&mut self, alloc: Global, fields: &ByteRecord) -> Result<(), Self::Error>
        ensures next { ReachesUnless is_memory result self.new
            (next self.old (fields_of fields.now)) }
        ensures more { WantsOnlyWhere is_memory result (keeps self.old (fields_of fields.now)) };

    /// The refusal if out of memory.
    fn out_of_memory() -> Self::Error
        ensures { IsTrue (is_memory result) };

    // a record of too many fields is refused as soon as it has them
    ghost long: { RefusesLong next };
}

/// Takes in all records that csv reads from a text: those of its default reader, without a header row,
/// of any length. The first record that is refused decides. If a record may have far more fields than
/// `MAX_FIELDS`, the text is read no further than one field above these. So the fields of a record take
/// some megabytes at most, besides their text.
pub fn read_records<T: TakeRecords>(
    alloc: Global,
    text: &[u8],
    taker: &mut T,
) -> Result<(), T::Error>
    ensures { ReachesUnless T.is_memory result taker.new
        (after_records T.next taker.old (records_of_text text.now)) }
{
    read_front(alloc, &text[..readable_len(text)], taker)
}

/// Takes in all records of the front of a text that is read.
fn read_front<T: TakeRecords>(alloc: Global, text: &[u8], taker: &mut T) -> Result<(), T::Error>
    ensures { ReachesUnless T.is_memory result taker.new
        (after_records T.next taker.old (records_of_text text.now)) }
{
    let mut reader = ReaderBuilder::new()
        .has_headers(false)
        .flexible(true)
        .from_reader(alloc, text);
    let mut record = ByteRecord::new(alloc);
    loop {
        match reader.read_byte_record(&mut record) {
            Ok(true) => taker.take(alloc, &record)?,
            Ok(false) => return Ok(()),
            Err(why) => match why.kind() {
                ErrorKind::OutOfMemory | ErrorKind::Io(_) => return Err(T::out_of_memory()),
                _ => unreachable!(),
            },
        }
    }
}

/// The field at a place, or nothing.
pub fn field(fields: &ByteRecord, i: usize) -> &[u8]
    ensures { result.now ≡ field_of (fields_of fields.now) i }
{
    fields.get(i).unwrap_or(&[])
}

/// Whether the field at a place is this word.
pub fn field_is(fields: &ByteRecord, i: usize, word: &[u8]) -> bool
    ensures { result ≡ bytes_eq (field_of (fields_of fields.now) i) word.now }
{
    field(fields, i) == word
}

/// The number that a field writes: decimal digits of 64 bits, without a leading zero.
pub fn number(field: &[u8]) -> Option<u64>
    ensures { result ≡ number_of field.now }
{
    read_number(field)
}

/// Whether the field at a place is the text of this number.
pub fn field_is_number(fields: &ByteRecord, i: usize, n: u64) -> bool
    ensures { result ≡ bytes_eq (field_of (fields_of fields.now) i) (decimal n) }
{
    match number(field(fields, i)) {
        Some(value) => value == n,
        None => false,
    }
}
