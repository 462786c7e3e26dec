//! The records of a log, taken in one after the other.

ghost use Rattle.std.specs.Prelude.{◌≡◌, ◌<◌, ◌≤◌, false, Err, IfErr, IfOk, IfSome, IsTrue, Ok, OnOk, length, map};
ghost use Rattle.csv.specs.Records.{fields_of};
ghost use Rattle.trace_text.specs.Records.{GivesUnless, ReachesUnless, after_records, records_of_text};
ghost use Rattle.event_log.specs.LogRecords.{said};
ghost use Rattle.event_log.specs.Naming.{is_memory};
ghost use Rattle.event_log.specs.Reading.{after_told, named_at_end, named_of, next_reading, rules_of, with_event};
ghost use Rattle.event_log.specs.Results.{both};
ghost use Rattle.event_log.specs.ToldLines.{AreRulesOf, after_rows};

use crate::columns::{Column, Columns, columns_of};
use crate::fields::Fields;
use crate::names::NameSet;
use crate::naming::Naming;
use crate::records::{Rules, Told, told_of};
use crate::refusals::LogError;
use crate::results::{both, put_error};
use crate::rows::{TakeRows, take_rows};
use crate::times::{TimeKind, TimeUnit, settled};
use crate::workers::Workers;
use csv::ByteRecord;
use std::alloc::Global;
use trace_text::MAX_TEXT_BYTES;

/// The greatest number of events.
pub const MAX_EVENTS: u32 = 1_000_000;

/// How far a log was read.
#[derive(Drop)]
pub struct Reading<'a> {
    /// Where the columns are, once the header was read.
    columns: Option<Columns>,
    /// The unit of the times, if they are to be whole numbers of one.
    unit: Option<TimeUnit>,
    /// The kind of the times, once a record has settled it.
    kind: Option<TimeKind>,
    /// The nodes that may be named, if they are listed.
    listed: Option<&'a NameSet>,
    /// How many events were read.
    count: u32,
    /// What the events name, or why their names are refused. The refusal is reported only if no later record is
    /// refused.
    names: Result<Naming, LogError>,
}

/// The kind of a log's times, and its events with its nodes and messages. If there are `listed` nodes, no others may be
/// named; `nodes` are numbered before all others. If a unit is given, the times are whole numbers of it.
///
/// Refuses in the order of `LogError`. If a record is refused for itself, the first such record decides; else the first
/// whose names are refused.
pub(crate) fn read_names<W: Workers>(
    alloc: Global,
    workers: &W,
    text: &[u8],
    unit: Option<TimeUnit>,
    listed: Option<&NameSet>,
    nodes: NameSet,
) -> Result<(TimeKind, Naming), LogError>
    ensures names { GivesUnless is_memory (λ x. x) result
        (named_of unit listed.entry nodes text.now) }
    ensures more { result ≡ Err LogError.Memory → length text.now ≤ MAX_TEXT_BYTES }
{
    if text.len() > MAX_TEXT_BYTES {
        return Err(LogError::TooLarge);
    }
    let reading = Reading {
        columns: None,
        unit,
        kind: None,
        listed,
        count: 0,
        names: Ok(Naming::new(alloc, nodes)),
    };
    let reading = read_records(alloc, workers, text, reading)?;
    both(kind_at_end(&reading), reading.names)
}

/// Takes in all records of a text.
fn read_records<'a, W: Workers>(
    alloc: Global,
    workers: &W,
    text: &[u8],
    begun: Reading<'a>,
) -> Result<Reading<'a>, LogError>
    ensures { GivesUnless is_memory (λ r. r) result
        (after_records next_reading begun.entry (records_of_text text.now)) }
{
    let (mut reading, at) = workers.read_lines(alloc, text, begun)?;
    take_rows(alloc, &text[at..], &mut reading)?;
    Ok(reading)
}

/// The kind of the times at the end of the text, unless something else than the names is missing.
fn kind_at_end(reading: &Reading<'_>) -> Result<TimeKind, LogError>
    ensures kind { IfOk result
        (λ kind. named_at_end reading.now ≡ both (Ok kind) reading.now.names) }
    ensures refused { IfErr result (λ why. named_at_end reading.now ≡ Err why) }
{
    if reading.columns.is_none() {
        return Err(LogError::NoColumn(Column::Time));
    }
    let Some(kind) = reading.kind else {
        return Err(LogError::NoEvents);
    };
    match &reading.names {
        Ok(names) if names.node_count() < 2 => Err(LogError::TooFewNodes),
        _ => Ok(kind),
    }
}

impl<'a> TakeRows for Reading<'a> {
    ghost next = { next_reading };

    fn take(&mut self, alloc: Global, fields: &ByteRecord) -> Result<(), LogError>
        ensures { ReachesUnless is_memory result self.new
            (next_reading self.old (fields_of fields.now)) }
    {
        self.take_fields(alloc, fields)
    }
}

impl<'a> Reading<'a> {
    /// Takes in one more record: the header, or an event.
    pub(crate) fn take_fields<F: Fields>(
        &mut self,
        alloc: Global,
        fields: &F,
    ) -> Result<(), LogError>
        ensures { ReachesUnless is_memory result self.new
            (next_reading self.old (F.fields fields.now)) }
    {
        let Some(columns) = self.columns else {
            self.columns = Some(columns_of(fields)?);
            return Ok(());
        };
        if self.count >= MAX_EVENTS {
            return Err(LogError::TooManyEvents);
        }
        let rules = self.rules_by(columns);
        let told = told_of(alloc, &rules, u64::from(self.count) + 2, fields)?;
        self.take_event(alloc, &told)
    }

    /// By what the next record is judged, once it is known where the columns are.
    fn rules_by(&self, columns: Columns) -> Rules<'a>
        ensures { result ≡ rules_of columns self.now }
    {
        Rules {
            columns,
            kind: settled(self.unit, self.kind),
            listed: self.listed,
        }
    }

    /// By what all further records are judged, once a first one was.
    pub(crate) fn rules(&self) -> Option<Rules<'a>>
        ensures { IfSome result (λ rules. AreRulesOf rules self.now) }
    {
        let rules = self.rules_by(self.columns?);
        match rules.kind {
            Some(_) => Some(rules),
            None => None,
        }
    }

    /// Takes in one more event.
    fn take_event(&mut self, alloc: Global, told: &Told<'_>) -> Result<(), LogError>
        requires { self.old.count < MAX_EVENTS }
        ensures ok { OnOk result (self.new ≡ with_event self.old (said told.now)) }
        ensures memory { IfErr result (λ e. IsTrue (is_memory e)) }
    {
        let place = self.count;
        self.kind = Some(told.moment.kind);
        self.count += 1;
        take_names(alloc, &mut self.names, place, told)
    }

    /// Takes in events that were told ahead.
    pub(crate) fn take_told(&mut self, alloc: Global, rows: &[Told<'_>]) -> Result<(), LogError>
        ensures { ReachesUnless is_memory result self.new
            (after_rows self.old (map said rows.now)) }
    {
        for told in rows {
            if self.count >= MAX_EVENTS {
                return Err(LogError::TooManyEvents);
            }
            self.take_event(alloc, told)?;
        }
        Ok(())
    }
}

/// Takes in the names of the event at a place, unless those of an earlier one were refused.
fn take_names(
    alloc: Global,
    names: &mut Result<Naming, LogError>,
    place: u32,
    told: &Told<'_>,
) -> Result<(), LogError>
    ensures names { OnOk result (names.new ≡ after_told place names.old (said told.now)) }
    ensures memory { IfErr result (λ e. IsTrue (is_memory e)) }
{
    let Ok(naming) = names else {
        return Ok(());
    };
    match naming.take(alloc, place, told) {
        Ok(()) => Ok(()),
        Err(why) => refuse_names(names, why),
    }
}

/// Keeps why names are refused, if it isn't out of memory.
fn refuse_names(names: &mut Result<Naming, LogError>, why: LogError) -> Result<(), LogError>
    ensures names { OnOk result (names.new ≡ Err why) }
    ensures kept { OnOk result (is_memory why ≡ false) }
    ensures memory { IfErr result (λ e. IsTrue (is_memory e)) }
{
    if matches!(why, LogError::Memory) {
        return Err(LogError::Memory);
    }
    put_error(names, why);
    Ok(())
}
