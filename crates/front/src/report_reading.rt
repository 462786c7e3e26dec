//! Reading of report text, record by record. The first record that is refused decides.

ghost use Rattle.std.specs.Prelude.{◌≡◌, ◌+◌, ◌≤◌, ◌∷◌, [], ℕ, All, List, IfOk, IfErr, IfSome};
ghost use Rattle.std.specs.Prelude.{IsErrOf, MatchResult, OnOk, Some, Ok, Err, length, is_ok};
ghost use Rattle.std.specs.Io.KnownBytes.{IsAtEnd};
ghost use Rattle.csv.specs.Records.{fields_of};
ghost use Rattle.trace_text.specs.ByteLoops.{bytes_read};
ghost use Rattle.trace_text.specs.Records.{ReachesUnless, WantsOnlyWhere, records_of_text};
ghost use Rattle.trace_text.specs.Faults.{inner_of, faults_of};
ghost use Rattle.front.specs.ReportTexts.{StandsFor, IsRow64};
ghost use Rattle.front.specs.ReportReading.{RefusedFor, IsDeviceRefusal, faults_after_report};
ghost use Rattle.front.specs.ReportRefusals.{Gives, is_memory, next_rows, record_keeps, row_of};
ghost use Rattle.front.specs.ReportRefusals.{rows_at_end, rows_of_records, with_row};
ghost use Rattle.front.specs.LongRefusals.{refuses_long};

use crate::refusals::ReportError;
use crate::row_records::{is_header, row_of};
use csv::ByteRecord;
use std::alloc::Global;
use std::io::Read;
use std::marker::Model;
use step_trace::Row;
use trace_text::records::{TakeRecords, read_records};
use trace_text::{Counting, MAX_TEXT_BYTES, TextError, read_all};

/// What the records of a report give so far.
#[derive(Drop)]
struct ReportRows {
    // None before the header.
    rows: Option<Vec<Row>>,
}

impl Model for ReportRows {
    ghost use Rattle.std.specs.Prelude.{List, Option, option_map};
    ghost use Rattle.step_trace.specs.declared.rows.Row.{Row};

    ghost Value = { Option (List Row) };

    ghost view = { λ a. option_map (λ v. v.items) a.rows };
}

/// The rows of the report text that the reader has left.
///
/// Refuses in the order of `ReportError`; the first record that is refused decides. A refusal doesn't
/// say how much was read before it.
pub fn read_report<R: Read>(
    alloc: Global,
    reader: &mut Counting<R>,
) -> Result<Vec<Row>, ReportError>
    ensures stands { IfOk result
        (λ v. IfSome (R.remaining (inner_of reader.old)) (λ text. StandsFor text v.items)) }
    ensures complete { IfSome (R.remaining (inner_of reader.old))
        (λ text. (rows : List Row) → All IsRow64 rows → StandsFor text rows
        → MatchResult result (λ v. v.items ≡ rows) IsDeviceRefusal) }
    ensures size { OnOk result
        (IfSome (R.remaining (inner_of reader.old)) (λ text. length text ≤ MAX_TEXT_BYTES)) }
    ensures end { OnOk result (IsAtEnd (R.remaining (inner_of reader.new))) }
    ensures faults { faults_of reader.new ≡ faults_after_report result (faults_of reader.old) }
    ensures refused { IfErr result
        (λ e. RefusedFor e (faults_of reader.old) (faults_of reader.new)
        (R.remaining (inner_of reader.old))) }
    ensures within { IsErrOf result ReportError.Memory
        → IfSome (bytes_read (R.remaining (inner_of reader.old))
        (R.remaining (inner_of reader.new))) (λ n. n ≤ MAX_TEXT_BYTES) }
    ensures unique { (text : List ℕ) (xs ys : List Row) → All IsRow64 xs → All IsRow64 ys
        → StandsFor text xs → StandsFor text ys → xs ≡ ys }
{
    match read_all(alloc, reader) {
        Ok(text) => rows_of_text(alloc, &text),
        Err(TextError::TooLarge) => Err(ReportError::TooLarge),
        Err(TextError::Read) => Err(ReportError::Read),
        Err(TextError::Memory) => Err(ReportError::Memory),
        Err(_) => unreachable!(),
    }
}

/// The rows of a text.
fn rows_of_text(alloc: Global, text: &[u8]) -> Result<Vec<Row>, ReportError>
    ensures { Gives (λ v. v.items) result (rows_of_records (records_of_text text.now)) }
{
    let mut rows = ReportRows { rows: None };
    read_records(alloc, text, &mut rows)?;
    rows_at_end(rows)
}

/// What the end of the text says.
fn rows_at_end(taken: ReportRows) -> Result<Vec<Row>, ReportError>
    ensures rows { MatchResult result (λ v. rows_at_end taken ≡ Ok v.items)
        (λ e. rows_at_end taken ≡ Err e) }
{
    match taken.rows {
        Some(rows) => Ok(rows),
        None => Err(ReportError::BadHeader),
    }
}

impl TakeRecords for ReportRows {
    type Error = ReportError;

    ghost next = { next_rows };

    ghost is_memory = { is_memory };

    ghost keeps = { record_keeps };

    fn take(&mut self, alloc: Global, fields: &ByteRecord) -> Result<(), ReportError> {
        match &mut self.rows {
            Some(rows) => take_row(rows, fields),
            None => {
                if !is_header(fields) {
                    return Err(ReportError::BadHeader);
                }
                self.rows = Some(Vec::new(alloc));
                Ok(())
            }
        }
    }

    fn out_of_memory() -> ReportError {
        ReportError::Memory
    }

    ghost long = { refuses_long };
}

/// Takes in the row of one more record.
fn take_row(rows: &mut Vec<Row>, fields: &ByteRecord) -> Result<(), ReportError>
    ensures row { ReachesUnless is_memory result (Some rows.new.items)
        (with_row rows.old.items (row_of (length rows.old.items + 1) (fields_of fields.now))) }
    ensures more { WantsOnlyWhere is_memory result
        (is_ok (row_of (length rows.old.items + 1) (fields_of fields.now))) }
{
    let row = row_of(rows.len() as u64 + 1, fields)?;
    match rows.push(row) {
        Ok(()) => Ok(()),
        Err(_) => Err(ReportError::Memory),
    }
}
