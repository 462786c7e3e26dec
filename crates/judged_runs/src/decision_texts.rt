//! Reading of decisions' text, record by record. The first record that is refused decides.

ghost use Rattle.std.specs.Prelude.{◌≡◌, ◌≤◌, ◌+◌, false, MatchResult, Some, Ok, Err, length, is_ok};
ghost use Rattle.csv.specs.Records.{fields_of};
ghost use Rattle.trace_text.specs.Records.{ReachesUnless, WantsOnlyWhere, records_of_text};
ghost use Rattle.judged_runs.specs.DecisionTexts.{Gives, decision_of, decisions_at_end, decisions_of_records};
ghost use Rattle.judged_runs.specs.DecisionTexts.{decisions_of_text, is_header, is_memory, next_decisions, of_numbers};
ghost use Rattle.judged_runs.specs.DecisionTexts.{record_keeps, refuses_long, with_decision};

use crate::refusals::DecisionsError;
use csv::ByteRecord;
use decision_claims::Decision;
use std::alloc::Global;
use std::marker::Model;
use trace_text::MAX_TEXT_BYTES;
use trace_text::records::{TakeRecords, field, field_is, number, read_records};

/// How many decisions a text may have.
pub const MAX_DECISIONS: usize = 1_000_000;

/// What the decisions of a text have to fit, and what its records give so far.
#[derive(Drop)]
struct Reading {
    n: u64,
    last: u64,
    // None before the header.
    decisions: Option<Vec<Decision>>,
}

impl Model for Reading {
    ghost use Rattle.std.specs.Prelude.{option_map};
    ghost use Rattle.judged_runs.specs.DecisionLists.{SoFar};

    ghost Value = { SoFar };

    ghost view = { λ a.
        record { n = a.n; last = a.last; decisions = option_map (λ v. v.items) a.decisions } };
}

/// The decisions that a text has, in its order, of a run with so many processors and with this last tick.
///
/// Refuses in the order of `DecisionsError`; the first record that is refused decides. Memory may come instead of any
/// refusal but TooLarge.
pub fn decisions_of_text(
    alloc: Global,
    text: &[u8],
    n: u64,
    last: u64,
) -> Result<Vec<Decision>, DecisionsError>
    ensures decisions { Gives (λ v. v.items) result (decisions_of_text n last text.now) }
    ensures within { result ≡ Err DecisionsError.Memory → length text.now ≤ MAX_TEXT_BYTES }
{
    if text.len() > MAX_TEXT_BYTES {
        return Err(DecisionsError::TooLarge);
    }
    decisions_in(alloc, text, n, last)
}

/// The decisions of a text of any length.
fn decisions_in(
    alloc: Global,
    text: &[u8],
    n: u64,
    last: u64,
) -> Result<Vec<Decision>, DecisionsError>
    ensures { Gives (λ v. v.items) result (decisions_of_records n last (records_of_text text.now)) }
{
    let mut reading = Reading {
        n,
        last,
        decisions: None,
    };
    read_records(alloc, text, &mut reading)?;
    decisions_at_end(reading)
}

/// What the end of the text says.
fn decisions_at_end(reading: Reading) -> Result<Vec<Decision>, DecisionsError>
    ensures { MatchResult result (λ v. decisions_at_end reading ≡ Ok v.items)
        (λ e. decisions_at_end reading ≡ Err e) }
{
    match reading.decisions {
        Some(decisions) => Ok(decisions),
        None => Err(DecisionsError::BadHeader),
    }
}

impl TakeRecords for Reading {
    type Error = DecisionsError;

    ghost next = { next_decisions };

    ghost is_memory = { is_memory };

    ghost keeps = { record_keeps };

    fn take(&mut self, alloc: Global, fields: &ByteRecord) -> Result<(), DecisionsError> {
        let (n, last) = (self.n, self.last);
        match &mut self.decisions {
            Some(decisions) => take_decision(n, last, decisions, fields),
            None => {
                if !is_header(fields) {
                    return Err(DecisionsError::BadHeader);
                }
                self.decisions = Some(Vec::new(alloc));
                Ok(())
            }
        }
    }

    fn out_of_memory() -> DecisionsError {
        DecisionsError::Memory
    }

    ghost long = { refuses_long };
}

/// Takes in the decision of one more record.
fn take_decision(
    n: u64,
    last: u64,
    decisions: &mut Vec<Decision>,
    fields: &ByteRecord,
) -> Result<(), DecisionsError>
    ensures decision { ReachesUnless is_memory result (Some decisions.new.items)
        (with_decision decisions.old.items
        (decision_of n last (length decisions.old.items + 1) (fields_of fields.now))) }
    ensures more { WantsOnlyWhere is_memory result
        (is_ok (decision_of n last (length decisions.old.items + 1) (fields_of fields.now))) }
{
    let decision = decision_of(n, last, decisions.len() as u64 + 1, fields)?;
    match decisions.push(decision) {
        Ok(()) => Ok(()),
        Err(_) => Err(DecisionsError::Memory),
    }
}

/// Whether the record has the names of the columns.
fn is_header(fields: &ByteRecord) -> bool
    ensures { result ≡ is_header (fields_of fields.now) }
{
    fields.len() == 3
        && field_is(fields, 0, b"proc")
        && field_is(fields, 1, b"tick")
        && field_is(fields, 2, b"value")
}

/// The decision that a record says, which is to have this number, from 1.
///
/// Refuses in the order of `DecisionsError`.
fn decision_of(n: u64, last: u64, no: u64, fields: &ByteRecord) -> Result<Decision, DecisionsError>
    ensures decision { result ≡ decision_of n last no (fields_of fields.now) }
    ensures more { WantsOnlyWhere is_memory result false }
{
    if no > MAX_DECISIONS as u64 {
        return Err(DecisionsError::TooMany);
    }
    if fields.len() != 3 {
        return Err(DecisionsError::BadFields(no));
    }
    of_numbers(
        n,
        last,
        no,
        number(field(fields, 0)),
        number(field(fields, 1)),
        number(field(fields, 2)),
    )
}

/// The decision of these numbers; None denotes a field that is no number.
fn of_numbers(
    n: u64,
    last: u64,
    no: u64,
    proc: Option<u64>,
    tick: Option<u64>,
    value: Option<u64>,
) -> Result<Decision, DecisionsError>
    ensures { result ≡ of_numbers n last no proc tick value }
{
    let (Some(proc), Some(tick), Some(value)) = (proc, tick, value) else {
        return Err(DecisionsError::BadNumber(no));
    };
    if proc == 0 || proc > n {
        return Err(DecisionsError::BadProcessor(no));
    }
    if tick == 0 || tick > last {
        return Err(DecisionsError::BadTick(no));
    }
    Ok(Decision { proc, tick, value })
}
