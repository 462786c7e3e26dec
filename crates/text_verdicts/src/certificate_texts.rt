//! Reading of the text of a certificate, of which no more rows are kept than its trace has ticks.

ghost use Rattle.std.specs.Prelude.{◌≡◌, ◌≤◌, IfOk, IfErr, MatchResult, ◌+◌, Some, Ok, Err, length};
ghost use Rattle.csv.specs.Records.{fields_of};
ghost use Rattle.certificate_checker.specs.Claims.{count_of};
ghost use Rattle.trace_text.specs.Records.{WantsOnlyWhere, records_of_text};
ghost use Rattle.front.specs.ReportRefusals.{Gives, is_memory, row_of, rows_of_records};
ghost use Rattle.text_verdicts.specs.CertificateTexts.{IsKeptOf, IsRefusalOf, keeps_claimed, kept_at_end, kept_of};
ghost use Rattle.text_verdicts.specs.CertificateTexts.{kept_with, next_claimed, refuses_long, row_keeps};

use certificate_checker::ClaimedRows;
use csv::ByteRecord;
use front::ReportError;
use front::row_records::{is_header, row_of};
use std::alloc::Global;
use trace_text::MAX_TEXT_BYTES;
use trace_text::records::{TakeRecords, read_records};

/// What the records of a certificate give so far.
#[derive(Drop)]
struct Certificate {
    // The last tick of the trace of which it is claimed.
    last: u64,
    // None before the header.
    rows: Option<ClaimedRows>,
}

/// What is kept of the rows of a certificate's text, claimed of a trace with this last tick.
///
/// Refuses in the order of `ReportError`; `Read` is never answered. Memory may come instead of any refusal but
/// TooLarge.
pub fn certificate_of_text(
    alloc: Global,
    text: &[u8],
    last: u64,
) -> Result<ClaimedRows, ReportError>
    ensures kept { IfOk result (IsKeptOf last text.now) }
    ensures refused { IfErr result (IsRefusalOf text.now) }
    ensures within { result ≡ Err ReportError.Memory → length text.now ≤ MAX_TEXT_BYTES }
{
    if text.len() > MAX_TEXT_BYTES {
        return Err(ReportError::TooLarge);
    }
    claimed_in(alloc, text, last)
}

/// What is kept of the rows of a text.
fn claimed_in(alloc: Global, text: &[u8], last: u64) -> Result<ClaimedRows, ReportError>
    ensures { Gives (λ kept. kept) result
        (kept_of last (rows_of_records (records_of_text text.now))) }
{
    let mut certificate = Certificate { last, rows: None };
    read_records(alloc, text, &mut certificate)?;
    rows_at_end(certificate)
}

/// What the end of the text says.
fn rows_at_end(certificate: Certificate) -> Result<ClaimedRows, ReportError>
    ensures { MatchResult result (λ kept. kept_at_end certificate.rows ≡ Ok kept)
        (λ e. kept_at_end certificate.rows ≡ Err e) }
{
    match certificate.rows {
        Some(rows) => Ok(rows),
        None => Err(ReportError::BadHeader),
    }
}

impl TakeRecords for Certificate {
    type Error = ReportError;

    ghost next = { next_claimed };

    ghost is_memory = { is_memory };

    ghost keeps = { keeps_claimed };

    fn take(&mut self, alloc: Global, fields: &ByteRecord) -> Result<(), ReportError> {
        let rows = match self.rows.take() {
            Some(rows) => with_record(rows, self.last, fields)?,
            None => {
                if !is_header(fields) {
                    return Err(ReportError::BadHeader);
                }
                ClaimedRows::new(alloc)
            }
        };
        self.rows = Some(rows);
        Ok(())
    }

    fn out_of_memory() -> ReportError {
        ReportError::Memory
    }

    ghost long = { refuses_long };
}

/// What is kept with the row of one more record.
fn with_record(
    rows: ClaimedRows,
    last: u64,
    fields: &ByteRecord,
) -> Result<ClaimedRows, ReportError>
    ensures row { Gives (λ more. more) result
        (kept_with last rows (row_of (count_of rows + 1) (fields_of fields.now))) }
    ensures more { WantsOnlyWhere is_memory result (row_keeps (Some rows) (fields_of fields.now)) }
{
    let Some(no) = rows.count().checked_add(1) else {
        return Err(ReportError::Memory);
    };
    let row = row_of(no, fields)?;
    rows.with(last, row).map_err(|_| ReportError::Memory)
}
