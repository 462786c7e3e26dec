//! The records of a log, taken in one after the other: `TakeRows` says what is made of a record, and `take_rows` gives
//! it all records of a text.

ghost use Rattle.std.specs.Prelude.{ℕ, List, Result};
ghost use Rattle.csv.specs.Records.{fields_of};
ghost use Rattle.trace_text.specs.Records.{ReachesUnless, after_records, records_of_text};
ghost use Rattle.event_log.specs.Naming.{is_memory};
ghost use Rattle.event_log.specs.declared.refusals.LogError.{LogError};

use crate::refusals::LogError;
use csv::{ByteRecord, ErrorKind, ReaderBuilder};
use std::alloc::Global;

/// What takes in the records of a text: here the reader of a log's events. In `log_windows` it is what keeps the
/// records of a window, what spreads lists of nodes, what keeps the names that are sent, and what renumbers a table of
/// steps.
pub trait TakeRows {
    // what one more record makes of it, or why the record is refused
    ghost next: { Self → List (List ℕ) → Result Self LogError };

    /// Takes in one more record. If it is refused, what it was taken into is of no more use.
    fn take(&mut self, alloc: Global, fields: &ByteRecord) -> Result<(), LogError>
        ensures { ReachesUnless is_memory result self.new (next self.old (fields_of fields.now)) };
}

/// Takes in all records that csv reads from a text: those of its default reader, without a header row, of any length.
/// The first record that is refused decides. A header may have any number of columns, so no record is too long.
pub fn take_rows<T: TakeRows>(alloc: Global, text: &[u8], taker: &mut T) -> Result<(), LogError>
    ensures { ReachesUnless is_memory result taker.new
        (after_records T.next taker.old (records_of_text text.now)) }
{
    let mut reader = ReaderBuilder::new()
        .has_headers(false)
        .flexible(true)
        .from_reader(alloc, text);
    let mut record = ByteRecord::new(alloc);
    loop {
        match reader.read_byte_record(&mut record) {
            Ok(true) => taker.take(alloc, &record)?,
            Ok(false) => return Ok(()),
            Err(why) => match why.kind() {
                ErrorKind::OutOfMemory | ErrorKind::Io(_) => return Err(LogError::Memory),
                _ => unreachable!(),
            },
        }
    }
}
