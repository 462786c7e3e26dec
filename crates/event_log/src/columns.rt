//! The header of a log: which column is where.

ghost use Rattle.std.specs.Prelude.{◌≡◌, ◌<◌, ◌≤◌, ◌+◌, ◌^◌, IfSome, find, length};
ghost use Rattle.event_log.specs.Columns.{all_columns, columns_of, has_twice, lacks, name_of, place_from, place_in};

use crate::fields::{Fields, field_is};
use crate::refusals::LogError;
use std::fmt;

/// A column that a log has.
#[derive(Clone, Copy, Debug)]
pub enum Column {
    Time,
    Node,
    Event,
    To,
    Message,
}

/// The columns in the order in which they are looked for.
const COLUMNS: [Column; 5] = [
    Column::Time,
    Column::Node,
    Column::Event,
    Column::To,
    Column::Message,
];

/// The places of the columns in a record, and how many fields a record has.
#[derive(Clone, Copy, Debug)]
pub struct Columns {
    pub time: usize,
    pub node: usize,
    pub event: usize,
    pub to: usize,
    pub message: usize,
    pub fields: usize,
}

impl Column {
    /// The column's name in the header.
    pub fn name(self) -> &'static str
        ensures { result.now ≡ name_of self }
    {
        match self {
            Column::Time => "time",
            Column::Node => "node",
            Column::Event => "event",
            Column::To => "to",
            Column::Message => "message",
        }
    }
}

impl fmt::Display for Column {
    ghost use Rattle.std.specs.Prelude.{Some};
    ghost use Rattle.event_log.specs.Columns.{name_of};

    ghost output = { λ column. Some (name_of column) };

    fn fmt<W: fmt::Write>(&self, f: &mut fmt::Formatter<W>) -> fmt::Result {
        f.write_str(self.name())
    }
}

/// The columns of a header.
///
/// Refuses NoColumn with the first column that is missing, and TwoColumns with the first that occurs twice, in this
/// order.
pub fn columns_of<F: Fields>(header: &F) -> Result<Columns, LogError>
    ensures { result ≡ columns_of (F.fields header.now) }
{
    if let Some(column) = first_lacking(header) {
        return Err(LogError::NoColumn(column));
    }
    if let Some(column) = first_twice(header) {
        return Err(LogError::TwoColumns(column));
    }
    Ok(Columns {
        time: place_in(header, Column::Time).unwrap_or(0),
        node: place_in(header, Column::Node).unwrap_or(0),
        event: place_in(header, Column::Event).unwrap_or(0),
        to: place_in(header, Column::To).unwrap_or(0),
        message: place_in(header, Column::Message).unwrap_or(0),
        fields: header.count(),
    })
}

fn first_lacking<F: Fields>(header: &F) -> Option<Column>
    ensures { result ≡ find (lacks (F.fields header.now)) all_columns }
{
    for column in COLUMNS {
        if place_in(header, column).is_none() {
            return Some(column);
        }
    }
    None
}

fn first_twice<F: Fields>(header: &F) -> Option<Column>
    ensures { result ≡ find (has_twice (F.fields header.now)) all_columns }
{
    for column in COLUMNS {
        if stands_twice(header, column) {
            return Some(column);
        }
    }
    None
}

fn stands_twice<F: Fields>(header: &F, column: Column) -> bool
    ensures { result ≡ has_twice (F.fields header.now) column }
{
    match place_in(header, column) {
        Some(place) => place_from(header, column, place + 1).is_some(),
        None => false,
    }
}

/// The first place of a column.
pub(crate) fn place_in<F: Fields>(header: &F, column: Column) -> Option<usize>
    ensures place { result ≡ place_in (F.fields header.now) column }
    ensures within { IfSome result (λ i. i < length (F.fields header.now)) }
    ensures fits { IfSome result (λ i. i + 1 < 2 ^ 64) }
{
    place_from(header, column, 0)
}

/// The first place of a column from a place on.
fn place_from<F: Fields>(header: &F, column: Column, start: usize) -> Option<usize>
    requires { start ≤ length (F.fields header.now) }
    ensures place { result ≡ place_from start (F.fields header.now) column }
    ensures within { IfSome result (λ i. i < length (F.fields header.now)) }
    ensures fits { IfSome result (λ i. i + 1 < 2 ^ 64) }
{
    for i in start..header.count() {
        if field_is(header, i, column.name().as_bytes()) {
            return Some(i);
        }
    }
    None
}
