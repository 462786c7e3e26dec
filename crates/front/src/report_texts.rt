//! The text of a report: a header and a record for each row, as csv writes them.

ghost use Rattle.std.specs.Prelude.{◌≡◌, ◌<◌, ℕ, ◌∷◌, [], ◌++◌, IfOk, OnOk, OnErr, IfErr, IsTrue, All, length};
ghost use Rattle.csv.specs.Records.{fields_of, partial_of};
ghost use Rattle.trace_text.specs.ByteLoops.{WasFaultless};
ghost use Rattle.trace_text.specs.Faults.{is_flushed};
ghost use Rattle.step_trace.specs.Traces.{Recorded};
ghost use Rattle.step_trace.specs.Ticks.{IsTrace};
ghost use Rattle.step_trace.specs.Fronts.{IsReport};
ghost use Rattle.trace_text.specs.TextWriting.{Wrote, WrotePart, IsWriteCause};
ghost use Rattle.trace_text.specs.RecordWriting.{IsReady, IsPlain, written};
ghost use Rattle.trace_text.specs.Records.{record_line};
ghost use Rattle.front.specs.Columns.{report_header, entry_text};
ghost use Rattle.front.specs.ReportTexts.{report_text, row_record, IsRow64, StandsFor};

use crate::columns::{NAMES, entries_of};
use csv::{ByteRecord, Writer};
use std::alloc::{AllocError, Global};
use std::io::Write;
use step_trace::Row;
use trace_text::record_writing::{
    number_text, record_writer, text_written, write_byte_record, write_record,
};
use trace_text::{Counting, MAX_TEXT_BYTES, WriteError, write_text};

/// Writes the text of a report of these rows, and flushes.
///
/// Refusals: Write with the number of bytes that went out before, the text's first, only if the writer
/// answered a fault or took no byte. Memory, and then nothing was written.
pub fn write_report<W: Write>(
    alloc: Global,
    rows: &[Row],
    writer: &mut Counting<W>,
) -> Result<(), WriteError>
    ensures whole { OnOk result (Wrote W.contents writer.old writer.new (report_text rows.now)) }
    ensures flushed { OnOk result (IsTrue (is_flushed writer.new)) }
    ensures faultless { OnOk result (WasFaultless writer.old writer.new) }
    ensures part { IfErr result
        (WrotePart W.contents writer.old writer.new (report_text rows.now)) }
    ensures cause { IfErr result (λ e. IsWriteCause e writer.old writer.new) }
    ensures stands { All IsRow64 rows.now → StandsFor (report_text rows.now) rows.now }
    ensures short { (set : ℕ) (trace : Recorded) → IsTrace trace → IsReport set trace rows.now
        → length (report_text rows.now) < MAX_TEXT_BYTES }
{
    let Ok(text) = report_text_of(alloc, rows) else {
        return Err(WriteError::Memory);
    };
    write_text(&text, writer)
}

/// The text of a report of these rows.
pub fn report_text_of(alloc: Global, rows: &[Row]) -> Result<Vec<u8>, AllocError>
    ensures { IfOk result (λ v. v.items ≡ report_text rows.now) }
{
    let mut writer = record_writer(alloc);
    write_header(&mut writer)?;
    for row in rows {
        write_row(alloc, &mut writer, row)?;
    }
    text_written(writer)
}

fn write_header(writer: &mut Writer<Vec<u8>>) -> Result<(), AllocError>
    requires { IsReady writer.old }
    ensures ready { OnOk result (IsReady writer.new) }
    ensures text { OnOk result
        (written writer.new ≡ written writer.old ++ record_line report_header) }
{
    write_record(writer, &NAMES)
}

#[tactic(auto, using(trace_text::proofs::PlainFields::push_plain, crate::proofs::TextsRead::entries_more))]
fn write_row(alloc: Global, writer: &mut Writer<Vec<u8>>, row: &Row) -> Result<(), AllocError>
    requires { IsReady writer.old }
    ensures ready { OnOk result (IsReady writer.new) }
    ensures text { OnOk result
        (written writer.new ≡ written writer.old ++ record_line (row_record row.now)) }
{
    let mut fields = ByteRecord::new(alloc);
    for entry in entries_of(row) {
        push_entry(alloc, &mut fields, entry)?;
    }
    write_byte_record(writer, &fields)
}

/// One more field: a number, or none. Fails only if out of memory, and then the fields stay.
pub fn push_entry(
    alloc: Global,
    fields: &mut ByteRecord,
    entry: Option<u64>,
) -> Result<(), AllocError>
    requires { partial_of fields.old ≡ [] }
    ensures whole { OnOk result (partial_of fields.new ≡ []) }
    ensures text { OnOk result
        (fields_of fields.new ≡ fields_of fields.old ++ entry_text entry ∷ []) }
    ensures plain { OnOk result (IsPlain (entry_text entry)) }
    ensures kept { OnErr result (fields_of fields.new ≡ fields_of fields.old) }
{
    match entry {
        Some(n) => fields.push_field(number_text(alloc, n)?.as_bytes()),
        None => fields.push_field(b""),
    }
}
