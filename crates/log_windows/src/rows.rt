//! The text of a record, and a record with another field.

ghost use Rattle.std.specs.Prelude.{◌≡◌, ◌++◌, IfOk, OnOk};
ghost use Rattle.csv.specs.Records.{fields_of};
ghost use Rattle.csv.specs.Writing.{row_text};
ghost use Rattle.trace_text.specs.RecordWriting.{our_writer};
ghost use Rattle.log_windows.specs.Rows.{field_or, with_field};

use csv::ByteRecord;
use std::alloc::{AllocError, Global};
use trace_text::record_writing::{record_writer, text_written};
use trace_text::records::field;

/// Puts a record last in a text, with quotes where they are needed.
pub(crate) fn push_row(
    alloc: Global,
    text: &mut Vec<u8>,
    fields: &ByteRecord,
) -> Result<(), AllocError>
    ensures { OnOk result (text.new.items ≡ text.old.items
        ++ row_text our_writer (fields_of fields.now)) }
{
    let row = row_of(alloc, fields)?;
    text.extend_from_slice(&row)?;
    Ok(())
}

/// The text of a record.
fn row_of(alloc: Global, fields: &ByteRecord) -> Result<Vec<u8>, AllocError>
    ensures { IfOk result (λ row. row.items ≡ row_text our_writer (fields_of fields.now)) }
{
    let mut writer = record_writer(alloc);
    let Ok(()) = writer.write_byte_record(fields) else {
        return Err(AllocError);
    };
    text_written(writer)
}

/// A record with another field at a place.
pub(crate) fn with_field(
    alloc: Global,
    fields: &ByteRecord,
    at: usize,
    value: &[u8],
) -> Result<ByteRecord, AllocError>
    ensures { IfOk result (λ row. fields_of row ≡ with_field (fields_of fields.now) at value.now) }
{
    let mut row = ByteRecord::new(alloc);
    for i in 0..fields.len() {
        row.push_field(field_or(fields, at, value, i))?;
    }
    Ok(row)
}

/// The field at a place, if another is put at one.
fn field_or<'a>(fields: &'a ByteRecord, at: usize, value: &'a [u8], i: usize) -> &'a [u8]
    ensures { result.now ≡ field_or (fields_of fields.now) at value.now i }
{
    if i == at {
        return value;
    }
    field(fields, i)
}
