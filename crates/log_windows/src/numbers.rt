//! What is told about a window, by the records of the whole log.

ghost use Rattle.std.specs.Prelude.{◌≡◌, ◌++◌, IfOk, IfErr, Ok, OnOk};
ghost use Rattle.csv.specs.Records.{fields_of};
ghost use Rattle.csv.specs.Writing.{row_text};
ghost use Rattle.event_log.specs.Naming.{is_memory};
ghost use Rattle.trace_text.specs.Records.{ReachesUnless};
ghost use Rattle.trace_text.specs.RecordWriting.{our_writer};
ghost use Rattle.log_windows.specs.Numbers.{import_in, late_in, lateness_in, line_in, lines_in};
ghost use Rattle.log_windows.specs.Numbers.{number_in, refusal_in};
ghost use Rattle.log_windows.specs.NumberedRows.{numbered_row, table_in};

use crate::rows::{push_row, with_field};
use csv::ByteRecord;
use event_log::{CycleLine, CycleLines, Import, LogError, TakeRows, moved_in, place_in, take_rows};
use std::alloc::{AllocError, Global};
use std::marker::Model;
use timed_events::{LateMessage, Lateness};
use trace_text::records::{field, number};

/// Where the table of steps has the number of a record.
const RECORD_COLUMN: usize = 3;

/// The number in the log of the record of the window that has this number.
fn number_in(places: &[u32], number: u64) -> u64
    ensures { result ≡ number_in places.now number }
{
    u64::from(place_in(places, number.saturating_sub(2) as usize)) + 2
}

/// A refusal of the window by the records of the log.
pub(crate) fn refusal_in(places: &[u32], why: LogError) -> LogError
    ensures { result ≡ refusal_in places.now why }
{
    match why {
        LogError::BadFields(no) => LogError::BadFields(number_in(places, no)),
        LogError::BadTime(no) => LogError::BadTime(number_in(places, no)),
        LogError::BadEvent(no) => LogError::BadEvent(number_in(places, no)),
        LogError::BadNode(no, name) => LogError::BadNode(number_in(places, no), name),
        LogError::BadMessage(no) => LogError::BadMessage(number_in(places, no)),
        LogError::TooManyNodes(no) => LogError::TooManyNodes(number_in(places, no)),
        LogError::SentBefore(no, name) => LogError::SentBefore(number_in(places, no), name),
        LogError::NeverSent(no, name) => LogError::NeverSent(number_in(places, no), name),
        LogError::WrongReceiver(no, name, node) => {
            LogError::WrongReceiver(number_in(places, no), name, node)
        }
        LogError::ReceivedBefore(no, name) => {
            LogError::ReceivedBefore(number_in(places, no), name)
        }
        LogError::NotLater(no, name, hint) => {
            LogError::NotLater(number_in(places, no), name, hint)
        }
        LogError::SecondEvent(no, node, tick, hint) => {
            LogError::SecondEvent(number_in(places, no), node, tick, hint)
        }
        LogError::Cycle(no, lines) => {
            LogError::Cycle(number_in(places, no), lines_in(places, lines))
        }
        LogError::NoOffsets(lines) => LogError::NoOffsets(lines_in(places, lines)),
        why => why,
    }
}

/// The lines of a cycle by the records of the log.
fn lines_in(places: &[u32], lines: CycleLines) -> CycleLines
    ensures { result ≡ lines_in places.now lines }
{
    let mut numbered = lines.into_lines();
    for line in numbered.iter_mut() {
        number_line(places, line);
    }
    CycleLines::new(numbered)
}

/// Puts numbers of the log in place of the window's.
fn number_line(places: &[u32], line: &mut CycleLine)
    ensures { line.new ≡ line_in places.now line.old }
{
    match line {
        CycleLine::Hop {
            number,
            sent,
            after,
            ..
        } => {
            *number = number_in(places, *number);
            *sent = number_in(places, *sent);
            *after = number_in(places, *after);
        }
        CycleLine::Clock { number, .. } => {
            *number = number_in(places, *number);
        }
        CycleLine::More(_) | CycleLine::Together(_) => {}
    }
    if let CycleLine::Clock { sent, .. } = line {
        *sent = number_in(places, *sent);
    }
}

/// An import of the window by the records of the log.
pub(crate) fn import_in(places: &[u32], import: Import) -> Import
    ensures { result ≡ import_in places.now import }
{
    let Import {
        trace,
        nodes,
        moved,
        lateness,
        offsets,
        idle,
        lost,
        merged,
    } = import;
    Import {
        trace,
        nodes,
        moved: moved_in(places, moved),
        lateness: lateness_in(places, lateness),
        offsets,
        idle,
        lost,
        merged,
    }
}

/// How many messages are late, with the worst by its places in the log.
fn lateness_in(places: &[u32], lateness: Lateness) -> Lateness
    ensures { result ≡ lateness_in places.now lateness }
{
    let worst = match lateness.worst {
        Some(worst) => Some(late_in(places, worst)),
        None => None,
    };
    Lateness {
        messages: lateness.messages,
        worst,
    }
}

fn late_in(places: &[u32], late: LateMessage) -> LateMessage
    ensures { result ≡ late_in places.now late }
{
    LateMessage {
        event: place_in(places, late.event as usize),
        message: place_in(places, late.message as usize),
        by: late.by,
    }
}

/// The records of a table of steps, with the numbers of the log.
#[derive(Drop)]
struct Numbered<'a> {
    places: &'a [u32],
    text: Vec<u8>,
}

impl<'a> Model for Numbered<'a> {
    ghost use Rattle.log_windows.specs.NumberedRows.{NumberedRows};

    ghost Value = { NumberedRows };

    ghost view = { λ n. record { places = n.places.now; text = n.text.items } };
}

impl<'a> TakeRows for Numbered<'a> {
    ghost use Rattle.log_windows.specs.NumberedRows.{next_numbered};

    ghost next = { next_numbered };

    /// Takes in one more record.
    fn take(&mut self, alloc: Global, fields: &ByteRecord) -> Result<(), LogError>
        ensures { ReachesUnless is_memory result self.new
            (next_numbered self.old (fields_of fields.now)) }
    {
        match push_numbered(alloc, &mut self.text, self.places, fields) {
            Ok(()) => Ok(()),
            Err(_) => Err(LogError::Memory),
        }
    }
}

/// Puts a record of a table last, with the number of the log.
fn push_numbered(
    alloc: Global,
    text: &mut Vec<u8>,
    places: &[u32],
    fields: &ByteRecord,
) -> Result<(), AllocError>
    ensures { OnOk result (text.new.items ≡ text.old.items
        ++ row_text our_writer (numbered_row places.now (fields_of fields.now))) }
{
    let Some(of_window) = number(field(fields, RECORD_COLUMN)) else {
        return push_row(alloc, text, fields);
    };
    let of_log = number_in(places, of_window).to_string(alloc)?;
    let row = with_field(alloc, fields, RECORD_COLUMN, of_log.as_bytes())?;
    push_row(alloc, text, &row)
}

/// A table of steps of the window, with the numbers of the log.
pub(crate) fn table_in(alloc: Global, places: &[u32], table: &[u8]) -> Result<Vec<u8>, LogError>
    ensures table { IfOk result (λ text. table_in places.now table.now ≡ Ok text.items) }
    ensures refused { IfErr result (λ why. why ≡ LogError.Memory) }
{
    let mut numbered = Numbered {
        places,
        text: Vec::new(alloc),
    };
    take_rows(alloc, table, &mut numbered)?;
    Ok(numbered.text)
}
