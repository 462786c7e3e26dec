//! The records of a report: the header, and the row of a record.

ghost use Rattle.std.specs.Prelude.{◌≡◌, false, length, map};
ghost use Rattle.csv.specs.Records.{fields_of};
ghost use Rattle.trace_text.specs.Records.{WantsOnlyWhere};
ghost use Rattle.front.specs.declared.columns.TheConstants.{COLUMNS};
ghost use Rattle.front.specs.ReportRefusals.{is_header, is_memory, entry_of, row_of};

use crate::columns::{COLUMNS, name, row_of_entries};
use crate::refusals::ReportError;
use csv::ByteRecord;
use step_trace::Row;
use trace_text::records::{field, field_is, number};

/// Whether the record has the names of the columns.
pub fn is_header(fields: &ByteRecord) -> bool
    ensures { result ≡ is_header (fields_of fields.now) }
{
    if fields.len() != COLUMNS {
        return false;
    }
    for i in 0..COLUMNS {
        if !field_is(fields, i, name(i)) {
            return false;
        }
    }
    true
}

/// The row of this number, from 1, that a record says.
///
/// Refuses BadFields, BadNumber and HalfWitness with the number, in this order.
pub fn row_of(no: u64, fields: &ByteRecord) -> Result<Row, ReportError>
    ensures row { result ≡ row_of no (fields_of fields.now) }
    ensures more { WantsOnlyWhere is_memory result false }
{
    if fields.len() != COLUMNS {
        return Err(ReportError::BadFields(no));
    }
    row_of_entries(no, entries_in(fields))
}

/// What the fields say.
fn entries_in(fields: &ByteRecord) -> [Option<Option<u64>>; COLUMNS]
    requires { length (fields_of fields.now) ≡ COLUMNS }
    ensures { result ≡ map entry_of (fields_of fields.now) }
{
    let mut entries = [None; COLUMNS];
    for i in 0..COLUMNS {
        entries[i] = entry_of(field(fields, i));
    }
    entries
}

/// The number of a field, or that it is empty.
fn entry_of(field: &[u8]) -> Option<Option<u64>>
    ensures { result ≡ entry_of field.now }
{
    if field.len() == 0 {
        return Some(None);
    }
    let n = number(field)?;
    Some(Some(n))
}
