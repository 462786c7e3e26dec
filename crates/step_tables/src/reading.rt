//! Reading of a table, record by record. The first record that is refused decides.

ghost use Rattle.std.specs.Prelude.{◌≡◌, ◌≤◌, Err, IfOk, IsTrue, MatchResult, Ok, [], length};
ghost use Rattle.csv.specs.Records.{fields_of};
ghost use Rattle.step_tables.specs.Tables.{Gives, at_end, is_header, is_memory, next_told, nothing, record_keeps};
ghost use Rattle.step_tables.specs.Tables.{refuses_long, told_of_records, told_of_text};
ghost use Rattle.trace_text.specs.Records.{ReachesUnless, WantsOnlyWhere, records_of_text};

use crate::records::take_record;
use crate::refusals::TableError;
use crate::tables::StepTable;
use csv::ByteRecord;
use std::alloc::{AllocError, Global};
use std::marker::Model;
use step_trace::Trace;
use trace_text::MAX_TEXT_BYTES;
use trace_text::records::{TakeRecords, field_is, read_records};

/// The trace that a table is read for, and what its records say so far.
#[derive(Drop)]
struct Reading<'a> {
    trace: &'a Trace,
    // None before the header.
    table: Option<StepTable>,
}

impl<'a> Model for Reading<'a> {
    ghost use Rattle.step_tables.specs.Told.{SoFar};

    ghost Value = { SoFar };

    ghost view = { λ a. record { trace = a.trace.now; told = a.table } };
}

/// What the table in a text says about a trace.
///
/// Refuses in the order of `TableError`; the first record that is refused decides. Memory may come instead of any
/// refusal but TooLarge.
pub fn table_of_text(alloc: Global, trace: &Trace, text: &[u8]) -> Result<StepTable, TableError>
    ensures table { Gives (λ t. t) result (told_of_text trace.now text.now) }
    ensures within { result ≡ Err TableError.Memory → length text.now ≤ MAX_TEXT_BYTES }
{
    if text.len() > MAX_TEXT_BYTES {
        return Err(TableError::TooLarge);
    }
    table_in(alloc, trace, text)
}

/// What the table in a text of any length says.
fn table_in(alloc: Global, trace: &Trace, text: &[u8]) -> Result<StepTable, TableError>
    ensures { Gives (λ t. t) result (told_of_records trace.now (records_of_text text.now)) }
{
    let mut reading = Reading { trace, table: None };
    read_records(alloc, text, &mut reading)?;
    let steps = reading.trace.len();
    table_at_end(steps, reading.table)
}

/// The table at the end of the text, if the trace has so many steps.
fn table_at_end(steps: usize, table: Option<StepTable>) -> Result<StepTable, TableError>
    ensures { MatchResult result (λ t. at_end steps table ≡ Ok t)
        (λ e. at_end steps table ≡ Err e) }
{
    let Some(table) = table else {
        return Err(TableError::BadHeader);
    };
    if table.rows.len() < steps {
        return Err(TableError::Missing(table.rows.len() as u64 + 2));
    }
    Ok(table)
}

impl<'a> TakeRecords for Reading<'a> {
    type Error = TableError;

    ghost next = { next_told };

    ghost is_memory = { is_memory };

    ghost keeps = { record_keeps };

    fn take(&mut self, alloc: Global, fields: &ByteRecord) -> Result<(), TableError>
        ensures next { ReachesUnless is_memory result self.new
            (next_told self.old (fields_of fields.now)) }
        ensures more { WantsOnlyWhere is_memory result
            (record_keeps self.old (fields_of fields.now)) }
    {
        match &mut self.table {
            Some(table) => take_record(alloc, self.trace, table, fields),
            None => {
                if !is_header(fields) {
                    return Err(TableError::BadHeader);
                }
                let Ok(table) = empty_table(alloc, self.trace) else {
                    return Err(TableError::Memory);
                };
                self.table = Some(table);
                Ok(())
            }
        }
    }

    fn out_of_memory() -> TableError
        ensures { IsTrue (is_memory result) }
    {
        TableError::Memory
    }

    ghost long = { refuses_long };
}

/// A table that says nothing about a trace yet.
fn empty_table(alloc: Global, trace: &Trace) -> Result<StepTable, AllocError>
    ensures { IfOk result (λ t. t ≡ nothing trace.now) }
{
    let mut nodes = Vec::new(alloc);
    for _node in 0..trace.config().n() {
        nodes.push(String::new(alloc))?;
    }
    let rows = Vec::new(alloc);
    Ok(StepTable { nodes, rows })
}

/// Whether the record has the names of the columns.
fn is_header(fields: &ByteRecord) -> bool
    ensures { result ≡ is_header (fields_of fields.now) }
{
    fields.len() == 9
        && field_is(fields, 0, b"step")
        && field_is(fields, 1, b"tick")
        && field_is(fields, 2, b"begins")
        && field_is(fields, 3, b"record")
        && field_is(fields, 4, b"time")
        && field_is(fields, 5, b"node")
        && field_is(fields, 6, b"event")
        && field_is(fields, 7, b"to")
        && field_is(fields, 8, b"message")
}
