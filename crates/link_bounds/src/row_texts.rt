//! The text of rows: a header and a record for each row, as csv writes them.

ghost use Rattle.std.specs.Prelude.{◌≡◌, ◌++◌, IfOk, OnOk};
ghost use Rattle.trace_text.specs.RecordWriting.{IsPlain, IsReady, written};
ghost use Rattle.trace_text.specs.Records.{record_line};
ghost use Rattle.link_bounds.specs.RowTexts.{bound_name, bound_record, bounds_text, entries_of};

use crate::rows::BoundRow;
use csv::{ByteRecord, Writer};
use front::push_entry;
use std::alloc::{AllocError, Global};
use trace_text::record_writing::{record_writer, text_written, write_byte_record, write_record};

/// How many columns there are besides the name of the bound.
const ENTRIES: usize = 5;

/// The names of all columns, in their order.
const NAMES: [&[u8]; ENTRIES + 1] = [b"bound", b"proc", b"to", b"value", b"first", b"last"];

/// The text of these rows.
pub fn bounds_text_of(alloc: Global, rows: &[BoundRow]) -> Result<Vec<u8>, AllocError>
    ensures { IfOk result (λ text. text.items ≡ bounds_text rows.now) }
{
    let mut writer = record_writer(alloc);
    write_record(&mut writer, &NAMES)?;
    for row in rows {
        write_row(alloc, &mut writer, row)?;
    }
    text_written(writer)
}

#[tactic(auto, using(trace_text::proofs::PlainFields::push_plain, front::proofs::TextsRead::entries_more))]
fn write_row(alloc: Global, writer: &mut Writer<Vec<u8>>, row: &BoundRow) -> Result<(), AllocError>
    requires { IsReady writer.old }
    ensures ready { OnOk result (IsReady writer.new) }
    ensures text { OnOk result
        (written writer.new ≡ written writer.old ++ record_line (bound_record row.now)) }
{
    let mut fields = ByteRecord::new(alloc);
    fields.push_field(name_of(row))?;
    for entry in entries_of(row) {
        push_entry(alloc, &mut fields, entry)?;
    }
    write_byte_record(writer, &fields)
}

/// The name of the bound that a row has.
fn name_of<'a>(row: &BoundRow) -> &'a [u8]
    ensures name { result.now ≡ bound_name row.now }
    ensures plain { IsPlain result.now }
{
    match row {
        BoundRow::Phi { .. } => b"phi",
        BoundRow::Delta { .. } => b"delta",
    }
}

/// The entry of a row in each column after that: a number, or nothing if the row has none.
fn entries_of(row: &BoundRow) -> [Option<u64>; ENTRIES]
    ensures { result ≡ entries_of row.now }
{
    match row {
        BoundRow::Phi { proc, bound } => [
            Some(*proc),
            None,
            Some(bound.least),
            bound.witness.map(|gap| gap.from),
            bound.witness.map(|gap| gap.to),
        ],
        BoundRow::Delta { from, to, bound } => [
            Some(*from),
            Some(*to),
            Some(bound.least),
            bound.witness.map(|miss| miss.sent),
            bound.witness.map(|miss| miss.missed),
        ],
    }
}
