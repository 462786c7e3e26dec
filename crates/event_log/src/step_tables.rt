//! The table of the steps of a log's trace: a record for each step, with the record of the log that it is.

ghost use Rattle.std.specs.Prelude.{◌≡◌, ◌+◌, ◌-◌, ◌*◌, ◌^◌, ◌<◌, ◌≤◌, ◌++◌, ◌∷◌, [], Err, IfErr, IfOk};
ghost use Rattle.std.specs.Prelude.{OnOk, decimal, length, slice_index, slice_index_or, string_bytes};
ghost use Rattle.std.specs.Fmt.{signed_decimal};
ghost use Rattle.csv.specs.Records.{fields_of, partial_of};
ghost use Rattle.csv.specs.Writing.{row_text};
ghost use Rattle.timed_events.specs.Checks.{processor_at, time_at};
ghost use Rattle.trace_text.specs.RecordWriting.{IsReady, our_writer, written};
ghost use Rattle.event_log.specs.Imports.{IsLogRefusal};
ghost use Rattle.event_log.specs.LogPlaces.{log_place};
ghost use Rattle.event_log.specs.StepTables.{IsTableOf, begin_of, field_at, if_logged, joined_fields, message_fields};
ghost use Rattle.event_log.specs.StepTables.{receiver_name_at, record_of_step, table_header, table_text};
ghost use Rattle.event_log.specs.StepTables.{with_field, word_at};
ghost use Rattle.event_log.specs.ToldNames.{node_name};

use crate::event_refusals::processor_at;
use crate::imports::{Import, PlacedImport, placed_import};
use crate::message_fields::message_fields;
use crate::names::{Name, NameSet};
use crate::options::Options;
use crate::refusals::LogError;
use crate::workers::OneThread;
use csv::{ByteRecord, Writer};
use std::alloc::{AllocError, Global};
use std::borrow::CowSlice;
use step_trace::{MAX_STEPS, MAX_TICKS, Trace};
use timed_events::{Event, EventAct, time_at};
use trace_text::MAX_TEXT_BYTES;
use trace_text::record_writing::{record_writer, text_written};

/// The names of the columns, in their order.
const NAMES: [&[u8]; 9] = [
    b"step", b"tick", b"begins", b"record", b"time", b"node", b"event", b"to", b"message",
];

/// A log read as a trace, and the table of its steps.
#[derive(Drop)]
pub struct LogTable {
    pub import: Import,
    /// The text of the table: a header, and a record for each step.
    pub table: Vec<u8>,
}

/// Reads a log as `read_log` does, and makes the table of its steps. Times are in the units in which they are counted,
/// and by the moved clocks if these were to be aligned. A receive of nothing that was added has no record, no time and
/// no messages.
///
/// Refuses the same.
pub fn read_table(alloc: Global, text: &[u8], options: &Options) -> Result<LogTable, LogError>
    ensures table { IfOk result (λ t. IsTableOf options.now text.now t.import t.table.items) }
    ensures refused { IfErr result (λ why. IsLogRefusal options.now text.now why) }
    ensures more { result ≡ Err LogError.Memory → length text.now ≤ MAX_TEXT_BYTES }
{
    let placed = placed_import(alloc, &OneThread, CowSlice::Borrowed(text), options, true)?;
    match table_of(alloc, text, &placed) {
        Ok(table) => Ok(LogTable {
            import: placed.import,
            table,
        }),
        Err(_) => Err(LogError::Memory),
    }
}

/// The text of the table of the steps of an import.
fn table_of(alloc: Global, text: &[u8], placed: &PlacedImport) -> Result<Vec<u8>, AllocError>
    requires long { length placed.now.places.items ≡ length placed.now.import.trace.steps }
    requires short { placed.now.clock.width < 2 ^ 94 }
    ensures { IfOk result
        (λ table. table.items ≡ table_text text.now placed.now.import.nodes placed.now.events.items
        placed.now.logged placed.now.left_at placed.now.parts placed.now.first
        placed.now.clock.width placed.now.import.trace.ticks placed.now.places.items) }
{
    let messages = message_fields(alloc, text)?;
    let mut writer = record_writer(alloc);
    write_names(&mut writer)?;
    for k in 0..placed.import.trace.len() {
        write_step(alloc, &mut writer, placed, messages.as_slice(), k)?;
    }
    text_written(writer)
}

/// Writes the names of the columns.
fn write_names(writer: &mut Writer<Vec<u8>>) -> Result<(), AllocError>
    requires { IsReady writer.old }
    ensures ready { OnOk result (IsReady writer.new) }
    ensures text { OnOk result
        (written writer.new ≡ written writer.old ++ row_text our_writer table_header) }
{
    let Ok(()) = writer.write_fields(&NAMES) else {
        return Err(AllocError);
    };
    Ok(())
}

/// Writes the record of step `k`, counted from 0, by what the records of the log have as messages.
fn write_step(
    alloc: Global,
    writer: &mut Writer<Vec<u8>>,
    placed: &PlacedImport,
    messages: &[Name],
    k: usize,
) -> Result<(), AllocError>
    requires ready { IsReady writer.old }
    requires inside { k < length placed.now.places.items }
    requires few { k < MAX_STEPS }
    requires long { length placed.now.places.items ≡ length placed.now.import.trace.steps }
    requires short { placed.now.clock.width < 2 ^ 94 }
    ensures ready { OnOk result (IsReady writer.new) }
    ensures text { OnOk result (written writer.new ≡ written writer.old ++ row_text our_writer
        (record_of_step messages.now placed.now.import.nodes placed.now.events.items
        placed.now.logged placed.now.left_at placed.now.parts placed.now.first
        placed.now.clock.width placed.now.import.trace.ticks placed.now.places.items k)) }
{
    let place = placed.places[k] as usize;
    let tick = tick_of(&placed.import.trace, k);
    let mut fields = ByteRecord::new(alloc);
    push_number(alloc, &mut fields, k as u64 + 1)?;
    push_number(alloc, &mut fields, tick)?;
    push_begin(alloc, &mut fields, placed.first, placed.clock.width, tick)?;
    push_source(alloc, &mut fields, placed, place)?;
    push_event(&mut fields, &placed.import.nodes, &placed.events, place)?;
    push_message(alloc, &mut fields, messages, placed, place)?;
    write_fields(writer, &fields)
}

/// The tick of step `k`, counted from 0.
pub(crate) fn tick_of(trace: &Trace, k: usize) -> u64
    requires inside { k < length trace.now.steps }
    requires few { k < MAX_STEPS }
    ensures tick { result ≡ slice_index trace.now.ticks k }
    ensures limit { result ≤ MAX_TICKS }
{
    trace.tick(k as u64 + 1)
}

/// Puts a number last.
fn push_number(alloc: Global, fields: &mut ByteRecord, n: u64) -> Result<(), AllocError>
    requires { partial_of fields.old ≡ [] }
    ensures whole { OnOk result (partial_of fields.new ≡ []) }
    ensures fields { OnOk result (fields_of fields.new ≡ fields_of fields.old ++ decimal n ∷ []) }
{
    let text = n.to_string(alloc)?;
    fields.push_field(text.as_bytes())
}

/// Puts a time last.
fn push_time(alloc: Global, fields: &mut ByteRecord, time: i128) -> Result<(), AllocError>
    requires { partial_of fields.old ≡ [] }
    ensures whole { OnOk result (partial_of fields.new ≡ []) }
    ensures fields { OnOk result
        (fields_of fields.new ≡ fields_of fields.old ++ signed_decimal time ∷ []) }
{
    let text = time.to_string(alloc)?;
    fields.push_field(text.as_bytes())
}

/// Puts last the number of the record of the event at a place, and its time: two empty fields for a receive that was
/// added, behind the log's events.
fn push_source(
    alloc: Global,
    fields: &mut ByteRecord,
    placed: &PlacedImport,
    place: usize,
) -> Result<(), AllocError>
    requires whole { partial_of fields.old ≡ [] }
    requires small { place < 2 ^ 32 }
    ensures whole { OnOk result (partial_of fields.new ≡ []) }
    ensures fields { OnOk result (fields_of fields.new ≡ fields_of fields.old
        ++ if_logged placed.now.logged place (decimal (log_place placed.now.left_at place + 2))
        ∷ if_logged placed.now.logged place
        (signed_decimal (time_at placed.now.events.items place)) ∷ []) }
{
    if place < placed.logged {
        push_number(alloc, fields, placed.left_at.at(place) as u64 + 2)?;
        return push_time(alloc, fields, time_at(&placed.events, place));
    }
    fields.push_field(&[])?;
    fields.push_field(&[])
}

/// Puts last when a tick begins.
fn push_begin(
    alloc: Global,
    fields: &mut ByteRecord,
    first: i128,
    width: u128,
    tick: u64,
) -> Result<(), AllocError>
    requires whole { partial_of fields.old ≡ [] }
    requires short { width < 2 ^ 94 }
    requires tick { tick ≤ MAX_TICKS }
    ensures whole { OnOk result (partial_of fields.new ≡ []) }
    ensures fields { OnOk result (fields_of fields.new ≡ fields_of fields.old
        ++ signed_decimal (begin_of first width tick) ∷ []) }
{
    let text = begin_text(alloc, first, width, tick)?;
    fields.push_field(text.as_bytes())
}

/// The text of when a tick begins, if tick 1 begins at `first`.
fn begin_text(alloc: Global, first: i128, width: u128, tick: u64) -> Result<String, AllocError>
    requires short { width < 2 ^ 94 }
    requires tick { tick ≤ MAX_TICKS }
    ensures { IfOk result (λ text. string_bytes text ≡ signed_decimal (begin_of first width tick)) }
{
    let later = u128::from(tick.saturating_sub(1)) * width;
    match first.checked_add(later as i128) {
        Some(begin) => begin.to_string(alloc),
        None => (first.unsigned_abs() + later).to_string(alloc),
    }
}

/// Puts last the node of the event at a place, what it did, and the node that a send is for.
fn push_event(
    fields: &mut ByteRecord,
    nodes: &NameSet,
    events: &[Event],
    place: usize,
) -> Result<(), AllocError>
    requires { partial_of fields.old ≡ [] }
    ensures whole { OnOk result (partial_of fields.new ≡ []) }
    ensures fields { OnOk result (fields_of fields.new ≡ fields_of fields.old
        ++ node_name nodes.now (processor_at events.now place) ∷ word_at events.now place
        ∷ receiver_name_at nodes.now events.now place ∷ []) }
{
    fields.push_field(name_of(nodes, processor_at(events, place)))?;
    fields.push_field(word_at(events, place))?;
    fields.push_field(receiver_name_at(nodes, events, place))
}

/// The name of a node, by its number.
fn name_of(nodes: &NameSet, number: u64) -> &[u8]
    ensures { result.now ≡ node_name nodes.now number }
{
    match nodes.name_at(number.saturating_sub(1) as usize) {
        Some(name) => name,
        None => &[],
    }
}

/// What the event at a place did.
fn word_at<'a>(events: &[Event], place: usize) -> &'a [u8]
    ensures { result.now ≡ word_at events.now place }
{
    match events.get(place) {
        Some(event) => match event.act {
            EventAct::Send { .. } => b"send",
            EventAct::Receive { .. } => b"receive",
        },
        None => &[],
    }
}

/// The name of the node that a send is for; nothing in a receive.
fn receiver_name_at<'a>(nodes: &'a NameSet, events: &[Event], place: usize) -> &'a [u8]
    ensures { result.now ≡ receiver_name_at nodes.now events.now place }
{
    match events.get(place) {
        Some(event) => match event.act {
            EventAct::Send { to } => name_of(nodes, to),
            EventAct::Receive { .. } => &[],
        },
        None => &[],
    }
}

/// Puts last what the record of the event at a place has as messages, or the records of which it is made: nothing for a
/// receive that was added, behind the log's events.
fn push_message(
    alloc: Global,
    fields: &mut ByteRecord,
    messages: &[Name],
    placed: &PlacedImport,
    place: usize,
) -> Result<(), AllocError>
    requires whole { partial_of fields.old ≡ [] }
    requires small { place < 2 ^ 32 }
    ensures whole { OnOk result (partial_of fields.new ≡ []) }
    ensures fields { OnOk result (fields_of fields.new ≡ fields_of fields.old
        ++ if_logged placed.now.logged place
        (field_at messages.now placed.now.left_at placed.now.parts place) ∷ []) }
{
    if place >= placed.logged {
        return fields.push_field(&[]);
    }
    match &placed.parts {
        None => fields.push_field(message_at(messages, placed.left_at.at(place) + 1)),
        Some(parts) => {
            let text = joined_fields(alloc, messages, parts.part(place))?;
            fields.push_field(&text)
        }
    }
}

/// What a record has as messages; nothing if there is no such record.
fn message_at(messages: &[Name], row: usize) -> &[u8]
    ensures { result.now ≡ slice_index_or messages.now row [] }
{
    match messages.get(row) {
        Some(name) => name.as_bytes(),
        None => &[],
    }
}

/// What the records of these events have as messages, with a space between them.
fn joined_fields(alloc: Global, messages: &[Name], part: &[u32]) -> Result<Vec<u8>, AllocError>
    ensures { IfOk result (λ text. text.items ≡ joined_fields messages.now part.now) }
{
    let mut text = Vec::new(alloc);
    for place in part {
        push_words(&mut text, message_at(messages, *place as usize + 1))?;
    }
    Ok(text)
}

/// Puts words last, with a space before them if there are any on both sides.
fn push_words(text: &mut Vec<u8>, words: &[u8]) -> Result<(), AllocError>
    ensures { OnOk result (text.new.items ≡ with_field text.old.items words.now) }
{
    if words.len() == 0 {
        return Ok(());
    }
    if text.len() == 0 {
        text.extend_from_slice(words)?;
        return Ok(());
    }
    text.push(b' ')?;
    text.extend_from_slice(words)?;
    Ok(())
}

/// Writes a record, with quotes if they are needed.
fn write_fields(writer: &mut Writer<Vec<u8>>, fields: &ByteRecord) -> Result<(), AllocError>
    requires { IsReady writer.old }
    ensures ready { OnOk result (IsReady writer.new) }
    ensures text { OnOk result
        (written writer.new ≡ written writer.old ++ row_text our_writer (fields_of fields.now)) }
{
    let Ok(()) = writer.write_byte_record(fields) else {
        return Err(AllocError);
    };
    Ok(())
}
