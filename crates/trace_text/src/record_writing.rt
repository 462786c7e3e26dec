//! Records written one after the other by csv's writer, none of whose fields calls for quotes.

ghost use Rattle.std.specs.Prelude.{◌≡◌, ◌≤◌, [], ◌++◌, IfOk, OnOk, length, map, decimal, string_bytes};
ghost use Rattle.csv.specs.Records.{fields_of};
ghost use Rattle.trace_text.specs.Records.{record_line};
ghost use Rattle.trace_text.specs.RecordWriting.{IsReady, IsPlain, ArePlain, written};

use csv::{ByteRecord, Writer, WriterBuilder};
use std::alloc::{AllocError, Global};

/// A writer of records into memory, which has none yet. Takes no memory.
pub fn record_writer(alloc: Global) -> Writer<Vec<u8>>
    ensures ready { IsReady result }
    ensures text { written result ≡ [] }
{
    WriterBuilder::new()
        .flexible(true)
        .from_writer(Vec::new(alloc))
}

/// What was written, all of it.
pub fn text_written(writer: Writer<Vec<u8>>) -> Result<Vec<u8>, AllocError>
    ensures { IfOk result (λ text. text.items ≡ written writer) }
{
    match writer.into_inner() {
        Ok(text) => Ok(text),
        Err(_) => Err(AllocError),
    }
}

/// Writes a record of more than one field, none of which calls for quotes.
pub fn write_record(writer: &mut Writer<Vec<u8>>, fields: &[&[u8]]) -> Result<(), AllocError>
    requires ready { IsReady writer.old }
    requires two { 2 ≤ length fields.now }
    requires plain { ArePlain (map (λ f. f.now) fields.now) }
    ensures ready { OnOk result (IsReady writer.new) }
    ensures text { OnOk result
        (written writer.new ≡ written writer.old ++ record_line (map (λ f. f.now) fields.now)) }
{
    let Ok(()) = writer.write_fields(fields) else {
        return Err(AllocError);
    };
    Ok(())
}

/// The same of a record that csv keeps.
pub fn write_byte_record(
    writer: &mut Writer<Vec<u8>>,
    fields: &ByteRecord,
) -> Result<(), AllocError>
    requires ready { IsReady writer.old }
    requires two { 2 ≤ length (fields_of fields.now) }
    requires plain { ArePlain (fields_of fields.now) }
    ensures ready { OnOk result (IsReady writer.new) }
    ensures text { OnOk result
        (written writer.new ≡ written writer.old ++ record_line (fields_of fields.now)) }
{
    let Ok(()) = writer.write_byte_record(fields) else {
        return Err(AllocError);
    };
    Ok(())
}

/// The field of a number: its decimal digits.
pub fn number_text(alloc: Global, n: u64) -> Result<String, AllocError>
    ensures digits { IfOk result (λ text. string_bytes text ≡ decimal n) }
    ensures plain { IfOk result (λ text. IsPlain (string_bytes text)) }
{
    n.to_string(alloc)
}
