//! Reading of a list of runs, record by record. The first record that is refused decides.

ghost use Rattle.std.specs.Prelude.{◌≡◌, ◌≤◌, ◌+◌, IfOk, MatchResult, Some, Ok, Err, length, is_ok};
ghost use Rattle.csv.specs.Records.{fields_of};
ghost use Rattle.trace_text.specs.Records.{ReachesUnless, WantsOnlyWhere, records_of_text};
ghost use Rattle.judged_runs.specs.RunLists.{Gives, is_header, is_memory, listed, next_runs, record_keeps};
ghost use Rattle.judged_runs.specs.RunLists.{refuses_long, run_of, runs_at_end, runs_of_records, runs_of_text};
ghost use Rattle.judged_runs.specs.RunLists.{some_runs, with_run};

use crate::refusals::RunListError;
use csv::ByteRecord;
use std::alloc::{AllocError, Global};
use std::marker::Model;
use trace_text::MAX_TEXT_BYTES;
use trace_text::records::{TakeRecords, field, field_is, read_records};

/// How many runs a list may have.
pub const MAX_RUNS: usize = 1_000_000;

/// A run to judge, in the words of its record in a list.
#[derive(Debug, Drop)]
pub struct ListedRun {
    /// The path of the trace's file.
    pub trace: Vec<u8>,
    /// The path of the decisions' file; nothing if the decisions are those of the replay.
    pub decisions: Vec<u8>,
    /// The list of the correct processors, or nothing.
    pub correct: Vec<u8>,
    /// The tick in which the instance of agreement started, or nothing.
    pub start: Vec<u8>,
}

impl Model for ListedRun {
    ghost use Rattle.judged_runs.specs.Listed.{Listed};

    ghost Value = { Listed };

    ghost view = { λ r.
        record {
          trace = r.trace.items;
          decisions = r.decisions.items;
          correct = r.correct.items;
          start = r.start.items;
        } };
}

/// What the records of a list give so far.
#[derive(Drop)]
struct Reading {
    // None before the header.
    runs: Option<Vec<ListedRun>>,
}

impl Model for Reading {
    ghost use Rattle.std.specs.Prelude.{option_map};
    ghost use Rattle.judged_runs.specs.Listed.{SoFar};

    ghost Value = { SoFar };

    ghost view = { λ a. record { runs = option_map (λ v. v.items) a.runs } };
}

/// The runs that a text lists, in its order.
///
/// Refuses in the order of `RunListError`; the first record that is refused decides. Memory may come instead of any
/// refusal but TooLarge.
pub fn runs_of_text(alloc: Global, text: &[u8]) -> Result<Vec<ListedRun>, RunListError>
    ensures runs { Gives (λ v. v.items) result (runs_of_text text.now) }
    ensures within { result ≡ Err RunListError.Memory → length text.now ≤ MAX_TEXT_BYTES }
{
    if text.len() > MAX_TEXT_BYTES {
        return Err(RunListError::TooLarge);
    }
    runs_in(alloc, text)
}

/// The runs of a text of any length.
fn runs_in(alloc: Global, text: &[u8]) -> Result<Vec<ListedRun>, RunListError>
    ensures { Gives (λ v. v.items) result (runs_of_records (records_of_text text.now)) }
{
    let mut reading = Reading { runs: None };
    read_records(alloc, text, &mut reading)?;
    runs_at_end(reading)
}

/// What the end of the text says.
fn runs_at_end(reading: Reading) -> Result<Vec<ListedRun>, RunListError>
    ensures { MatchResult result (λ v. runs_at_end reading ≡ Ok v.items)
        (λ e. runs_at_end reading ≡ Err e) }
{
    match reading.runs {
        Some(runs) => some_runs(runs),
        None => Err(RunListError::BadHeader),
    }
}

/// These runs, unless there are none.
fn some_runs(runs: Vec<ListedRun>) -> Result<Vec<ListedRun>, RunListError>
    ensures { MatchResult result (λ v. some_runs runs.items ≡ Ok v.items)
        (λ e. some_runs runs.items ≡ Err e) }
{
    if runs.len() == 0 {
        return Err(RunListError::NoRuns);
    }
    Ok(runs)
}

impl TakeRecords for Reading {
    type Error = RunListError;

    ghost next = { next_runs };

    ghost is_memory = { is_memory };

    ghost keeps = { record_keeps };

    fn take(&mut self, alloc: Global, fields: &ByteRecord) -> Result<(), RunListError> {
        match &mut self.runs {
            Some(runs) => take_run(alloc, runs, fields),
            None => {
                if !is_header(fields) {
                    return Err(RunListError::BadHeader);
                }
                self.runs = Some(Vec::new(alloc));
                Ok(())
            }
        }
    }

    fn out_of_memory() -> RunListError {
        RunListError::Memory
    }

    ghost long = { refuses_long };
}

/// Takes in the run of one more record.
fn take_run(
    alloc: Global,
    runs: &mut Vec<ListedRun>,
    fields: &ByteRecord,
) -> Result<(), RunListError>
    ensures run { ReachesUnless is_memory result (Some runs.new.items)
        (with_run runs.old.items (run_of (length runs.old.items + 1) (fields_of fields.now))) }
    ensures more { WantsOnlyWhere is_memory result
        (is_ok (run_of (length runs.old.items + 1) (fields_of fields.now))) }
{
    test_record(runs.len() as u64 + 1, fields)?;
    let Ok(run) = ListedRun::of(alloc, fields) else {
        return Err(RunListError::Memory);
    };
    match runs.push(run) {
        Ok(()) => Ok(()),
        Err(_) => Err(RunListError::Memory),
    }
}

/// Whether the record has the names of the columns.
fn is_header(fields: &ByteRecord) -> bool
    ensures { result ≡ is_header (fields_of fields.now) }
{
    fields.len() == 4
        && field_is(fields, 0, b"trace")
        && field_is(fields, 1, b"decisions")
        && field_is(fields, 2, b"correct")
        && field_is(fields, 3, b"start")
}

/// Refuses TooMany and then BadFields for a record that is to be the run of this number, from 1.
fn test_record(no: u64, fields: &ByteRecord) -> Result<(), RunListError>
    ensures { MatchResult result
        (λ _. run_of no (fields_of fields.now) ≡ Ok (listed (fields_of fields.now)))
        (λ e. run_of no (fields_of fields.now) ≡ Err e) }
{
    if no > MAX_RUNS as u64 {
        return Err(RunListError::TooMany);
    }
    if fields.len() != 4 {
        return Err(RunListError::BadFields(no));
    }
    Ok(())
}

impl ListedRun {
    /// The run of a record of four fields.
    fn of(alloc: Global, fields: &ByteRecord) -> Result<ListedRun, AllocError>
        ensures { IfOk result (λ run. run ≡ listed (fields_of fields.now)) }
    {
        Ok(ListedRun {
            trace: Vec::from_slice(alloc, field(fields, 0))?,
            decisions: Vec::from_slice(alloc, field(fields, 1))?,
            correct: Vec::from_slice(alloc, field(fields, 2))?,
            start: Vec::from_slice(alloc, field(fields, 3))?,
        })
    }
}
