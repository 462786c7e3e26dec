//! What the records of a log have in the column of messages, for tables of all of them.

ghost use Rattle.std.specs.Prelude.{◌≡◌, IfOk, map};
ghost use Rattle.event_log.specs.StepTables.{message_fields};
ghost use Rattle.event_log.specs.ToldNames.{message_place};
ghost use Rattle.trace_text.specs.Records.{field_of, records_of_text};

use crate::message_names::message_place;
use crate::names::Name;
use csv::{ByteRecord, ErrorKind, ReaderBuilder};
use std::alloc::{AllocError, Global};
use trace_text::records::field;

/// What the records of a text have in the column of messages, from the header on.
pub(crate) fn message_fields(alloc: Global, text: &[u8]) -> Result<Vec<Name>, AllocError>
    ensures { IfOk result (λ fields. fields.items ≡ message_fields text.now) }
{
    let column = message_place(alloc, text)?;
    fields_at(alloc, text, column)
}

/// The fields at a place of all records that csv reads from a text; empty ones if there are fewer.
fn fields_at(alloc: Global, text: &[u8], column: usize) -> Result<Vec<Name>, AllocError>
    ensures { IfOk result (λ fields. fields.items ≡ map (λ fields. field_of fields column)
        (records_of_text text.now)) }
{
    let mut reader = ReaderBuilder::new()
        .has_headers(false)
        .flexible(true)
        .from_reader(alloc, text);
    let mut row = ByteRecord::new(alloc);
    let mut fields = Vec::new(alloc);
    loop {
        match reader.read_byte_record(&mut row) {
            Ok(true) => fields.push(Name::new(alloc, field(&row, column))?)?,
            Ok(false) => return Ok(fields),
            Err(why) => match why.kind() {
                ErrorKind::OutOfMemory | ErrorKind::Io(_) => return Err(AllocError),
                _ => unreachable!(),
            },
        }
    }
}
