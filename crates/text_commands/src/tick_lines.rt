//! The table of the lengths of a tick for a log, as text, and the note on it.

ghost use Rattle.std.specs.Prelude.{◌≡◌, IfOk, string_bytes};
ghost use Rattle.text_commands.specs.TickLines.{is_near, later_near, length_words, near_line, nearest, row_length};
ghost use Rattle.text_commands.specs.TickLines.{row_text, tick_notes, ticks_text};

use crate::time_words::scaled;
use event_log::{Placing, TickRow, TickTable, TimeKind};
use std::alloc::{AllocError, Global};
use std::fmt;

/// The text of the table: a header, and a record for each length with which the trace has no more ticks than it may.
pub fn ticks_text(alloc: Global, table: &TickTable) -> Result<Vec<u8>, AllocError>
    ensures { IfOk result (λ out. out.items ≡ ticks_text table.now.kind table.now.rows.items) }
{
    let mut text = String::from_str(alloc, "tick,last,moved,most\n")?;
    for row in &table.rows {
        let line = row_text(alloc, table.kind, row)?;
        text.push_str(line.as_str())?;
    }
    Ok(text.into_bytes())
}

/// The record of a row; nothing if the trace would have too many ticks.
fn row_text(alloc: Global, kind: TimeKind, row: &TickRow) -> Result<String, AllocError>
    ensures { IfOk result (λ text. string_bytes text ≡ row_text kind row.now) }
{
    match row.placing {
        None => Ok(String::new(alloc)),
        Some(placing) => {
            let length = length_in(kind, row);
            PlacingLine { length, placing }.to_string(alloc)
        }
    }
}

/// The length of a tick of a row.
fn length_in(kind: TimeKind, row: &TickRow) -> Length
    ensures { length_words result.width result.nanoseconds ≡ row_length kind row.now }
{
    Length {
        width: row.width,
        nanoseconds: row.nanoseconds(kind),
    }
}

/// The note on the table: which length is the longest with which at most one in a hundred events moves by more than one
/// tick.
pub(crate) fn tick_notes(alloc: Global, table: &TickTable) -> Result<String, AllocError>
    ensures { IfOk result
        (λ text. string_bytes text ≡ tick_notes table.now.kind table.now.rows.items) }
{
    near_line(alloc, table.kind, nearest(&table.rows))
}

/// The row with the longest ticks with which at most one in a hundred events moves by more than one tick.
fn nearest(rows: &[TickRow]) -> Option<TickRow>
    ensures { result ≡ nearest rows.now }
{
    let mut found = None;
    for row in rows {
        found = later_near(found, *row);
    }
    found
}

/// The row, if at most one in a hundred events moves by more than one tick, or else the one found before.
fn later_near(found: Option<TickRow>, row: TickRow) -> Option<TickRow>
    ensures { result ≡ later_near found row }
{
    match row.placing {
        None => found,
        Some(placing) => {
            if is_near(placing) {
                return Some(row);
            }
            found
        }
    }
}

/// Whether at most one in a hundred events moves by more than one tick.
fn is_near(placing: Placing) -> bool
    ensures { result ≡ is_near placing }
{
    u128::from(placing.far) * 100 <= u128::from(placing.events)
}

/// The line that names this row, or says that there is none.
fn near_line(alloc: Global, kind: TimeKind, row: Option<TickRow>) -> Result<String, AllocError>
    ensures { IfOk result (λ text. string_bytes text ≡ near_line kind row) }
{
    match row {
        None => String::from_str(
            alloc,
            "synchrony: each of these moves more than 1 in 100 events by more than one tick\n",
        ),
        Some(row) => NearLine(length_in(kind, &row)).to_string(alloc),
    }
}

/// A length of a tick, as `--tick` takes it.
#[derive(Clone, Copy)]
struct Length {
    /// In the unit of the times.
    width: u64,
    /// In nanoseconds, unless the times are whole numbers of no unit.
    nanoseconds: Option<u128>,
}

impl fmt::Display for Length {
    ghost use Rattle.std.specs.Prelude.{Some};
    ghost use Rattle.text_commands.specs.TickLines.{length_words};

    ghost output = { λ length. Some (length_words length.width length.nanoseconds) };

    fn fmt<W: fmt::Write>(&self, f: &mut fmt::Formatter<W>) -> fmt::Result {
        match self.nanoseconds {
            None => write!(f, "{}", self.width),
            Some(nanoseconds) => {
                let (count, unit) = scaled(nanoseconds);
                write!(f, "{count}{unit}")
            }
        }
    }
}

/// The record of a length of a tick.
#[derive(Clone, Copy)]
struct PlacingLine {
    length: Length,
    placing: Placing,
}

impl fmt::Display for PlacingLine {
    ghost use Rattle.std.specs.Prelude.{Some};
    ghost use Rattle.text_commands.specs.TickLines.{length_words, placing_line};

    ghost output = { λ line.
        Some (placing_line (length_words line.length.width line.length.nanoseconds) line.placing) };

    fn fmt<W: fmt::Write>(&self, f: &mut fmt::Formatter<W>) -> fmt::Result {
        writeln!(
            f,
            "{},{},{},{}",
            self.length, self.placing.last, self.placing.moved, self.placing.most
        )
    }
}

/// Which length is the longest with which few events move far, on a line of its own.
#[derive(Clone, Copy)]
struct NearLine(Length);

impl fmt::Display for NearLine {
    ghost use Rattle.std.specs.Prelude.{Some, ◌++◌, ◌∷◌, [], codes};
    ghost use Rattle.text_commands.specs.TickLines.{length_words};

    ghost output = { λ line. Some (codes "synchrony: --tick "
        ++ (length_words line.0.width line.0.nanoseconds
        ++ (codes " is the longest that moves at most 1 in 100 events by more than one tick"
        ++ 10 ∷ []))) };

    fn fmt<W: fmt::Write>(&self, f: &mut fmt::Formatter<W>) -> fmt::Result {
        writeln!(
            f,
            "synchrony: --tick {} is the longest that moves at most 1 in 100 events by more than one tick",
            self.0
        )
    }
}
