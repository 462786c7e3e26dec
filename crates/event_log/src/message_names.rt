//! The names of messages, read again from a log if one of them has to be reported.

ghost use Rattle.std.specs.Prelude.{◌≡◌, ◌<◌, [], IfOk, slice_index_or};
ghost use Rattle.csv.specs.Records.{fields_of};
ghost use Rattle.event_log.specs.ToldNames.{message_name, message_place, record_at};
ghost use Rattle.trace_text.specs.Names.{words_of};

use crate::columns::{Column, place_in};
use crate::names::Name;
use crate::reading::MAX_EVENTS;
use csv::{ByteRecord, ErrorKind, ReaderBuilder};
use std::alloc::{AllocError, Global};
use trace_text::records::field;

/// The name of the message at place `k` among those of an event, as the event's record has it. Nothing if there is
/// none.
///
/// Asks for the place of one of `MAX_EVENTS` events.
pub(crate) fn message_name(
    alloc: Global,
    text: &[u8],
    event: usize,
    k: usize,
) -> Result<Name, AllocError>
    requires { event < MAX_EVENTS }
    ensures { IfOk result (λ name. name ≡ message_name text.now event k) }
{
    let column = message_place(alloc, text)?;
    let record = record_at(alloc, text, event + 1)?;
    word_of(alloc, field(&record, column), k)
}

/// The place of the column of messages, or 0 if there is none.
pub(crate) fn message_place(alloc: Global, text: &[u8]) -> Result<usize, AllocError>
    ensures { IfOk result (λ place. place ≡ message_place text.now) }
{
    let header = record_at(alloc, text, 0)?;
    Ok(place_in(&header, Column::Message).unwrap_or(0))
}

/// The record at a place among those that csv reads from a text, from 0 on; one without fields if there are fewer.
fn record_at(alloc: Global, text: &[u8], place: usize) -> Result<ByteRecord, AllocError>
    ensures { IfOk result (λ fields. fields_of fields ≡ record_at text.now place) }
{
    let mut reader = ReaderBuilder::new()
        .has_headers(false)
        .flexible(true)
        .from_reader(alloc, text);
    let mut fields = ByteRecord::new(alloc);
    let mut before = place;
    loop {
        match reader.read_byte_record(&mut fields) {
            Ok(true) => {
                if before == 0 {
                    return Ok(fields);
                }
                before -= 1;
            }
            Ok(false) => return Ok(ByteRecord::new(alloc)),
            Err(why) => match why.kind() {
                ErrorKind::OutOfMemory | ErrorKind::Io(_) => return Err(AllocError),
                _ => unreachable!(),
            },
        }
    }
}

/// The word at place `k` of a field whose words have one space between them, or nothing.
fn word_of(alloc: Global, field: &[u8], k: usize) -> Result<Name, AllocError>
    ensures { IfOk result (λ name. name ≡ slice_index_or (words_of field.now) k []) }
{
    if field.len() == 0 {
        return Name::new(alloc, &[]);
    }
    match field.split(|byte| *byte == b' ').nth(k) {
        Some(word) => Name::new(alloc, word),
        None => Name::new(alloc, &[]),
    }
}
