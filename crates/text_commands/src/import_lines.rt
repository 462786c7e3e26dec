//! The lines that say how a log was read.

ghost use Rattle.std.specs.Prelude.{◌≡◌, [], IfOk, Some, length, slice_index_or, string_bytes};
ghost use Rattle.text_commands.specs.ImportLines.{clock_line_at, clock_lines, clock_notes, event_count};
ghost use Rattle.text_commands.specs.ImportLines.{late_lines, moved_notes, node_lines, notes_of};
ghost use Rattle.text_commands.specs.TimeWords.{are_nanoseconds};

use crate::idle_lines::{event_count, idle_notes};
use crate::lost_lines::lost_notes;
use crate::merged_lines::merged_notes;
use crate::tick_words::Ticks;
use crate::time_words::{TimeWords, are_nanoseconds};
use clock_offsets::Offsets;
use event_log::{Import, NameSet, Options, printed};
use std::alloc::{AllocError, Global};
use std::fmt;
use timed_events::{LateMessage, Lateness, Moved};

/// The notes on a log that was read as a trace:
/// - which processor each node is, if the nodes weren't listed;
/// - by how much clocks moved, how many lost sends are left out and how many receives are merged, if that was asked
///   for;
/// - how far events moved, if they might;
/// - how many receives of nothing were added, if they might be.
pub(crate) fn notes_text(
    alloc: Global,
    options: &Options,
    import: &Import,
) -> Result<String, AllocError>
    ensures { IfOk result (λ text. string_bytes text ≡ notes_of options.now import.now) }
{
    let mut notes = match &options.nodes {
        Some(_) => String::new(alloc),
        None => node_lines(alloc, &import.nodes)?,
    };
    let is_nanoseconds = are_nanoseconds(options);
    let clocks = clock_notes(alloc, is_nanoseconds, &import.nodes, &import.offsets)?;
    notes.push_str(clocks.as_str())?;
    let lost = lost_notes(alloc, import.lost)?;
    notes.push_str(lost.as_str())?;
    let merged = merged_notes(alloc, import.merged)?;
    notes.push_str(merged.as_str())?;
    let moved = moved_notes(alloc, is_nanoseconds, options.spread, import)?;
    notes.push_str(moved.as_str())?;
    let idle = idle_notes(alloc, import.idle)?;
    notes.push_str(idle.as_str())?;
    Ok(notes)
}

/// How far events moved, if they might, and then which messages are late.
fn moved_notes(
    alloc: Global,
    is_nanoseconds: bool,
    spread: bool,
    import: &Import,
) -> Result<String, AllocError>
    ensures { IfOk result
        (λ text. string_bytes text ≡ moved_notes is_nanoseconds spread
        (event_count (length import.now.trace.steps) import.now.idle) import.now.moved
        import.now.lateness) }
{
    let mut notes = String::new(alloc);
    if spread {
        let line = MovedLine {
            moved: import.moved,
            count: event_count(import.trace.len(), import.idle),
        }
        .to_string(alloc)?;
        notes.push_str(line.as_str())?;
        let late = late_lines(alloc, is_nanoseconds, import.lateness)?;
        notes.push_str(late.as_str())?;
    }
    Ok(notes)
}

/// By how much clocks moved, if they were to be aligned.
fn clock_notes(
    alloc: Global,
    is_nanoseconds: bool,
    nodes: &NameSet,
    offsets: &Option<Offsets>,
) -> Result<String, AllocError>
    ensures { IfOk result
        (λ text. string_bytes text ≡ clock_notes is_nanoseconds nodes.now offsets.now) }
{
    match offsets {
        None => Ok(String::new(alloc)),
        Some(offsets) => clock_lines(alloc, is_nanoseconds, nodes, offsets),
    }
}

/// A line for each node whose clock moved.
fn clock_lines(
    alloc: Global,
    is_nanoseconds: bool,
    nodes: &NameSet,
    offsets: &Offsets,
) -> Result<String, AllocError>
    ensures { IfOk result
        (λ text. string_bytes text ≡ clock_lines is_nanoseconds nodes.now offsets.now
        (length nodes.now)) }
{
    let mut lines = String::new(alloc);
    for place in 0..nodes.len() {
        let line = clock_line_at(alloc, is_nanoseconds, nodes, offsets, place)?;
        lines.push_str(line.as_str())?;
    }
    Ok(lines)
}

/// The line of the node at a place, if its clock moved.
fn clock_line_at(
    alloc: Global,
    is_nanoseconds: bool,
    nodes: &NameSet,
    offsets: &Offsets,
    place: usize,
) -> Result<String, AllocError>
    ensures { IfOk result
        (λ text. string_bytes text ≡ clock_line_at is_nanoseconds nodes.now offsets.now place) }
{
    let offset = offsets.at(place);
    if offset <= 0 {
        return Ok(String::new(alloc));
    }
    let name = name_in(nodes, place);
    let line = ClockLine {
        name,
        offset: TimeWords {
            time: offset.unsigned_abs(),
            is_nanoseconds,
        },
    }
    .to_string(alloc)?;
    Ok(line)
}

/// The name of the node at a place; an empty one if there is none.
fn name_in(nodes: &NameSet, place: usize) -> &[u8]
    ensures { result.now ≡ slice_index_or nodes.now place [] }
{
    match nodes.name_at(place) {
        Some(name) => name,
        None => &[],
    }
}

/// By how much the clock of a node moved, on a line of its own.
#[derive(Clone, Copy)]
struct ClockLine<'a> {
    name: &'a [u8],
    offset: TimeWords,
}

impl fmt::Display for ClockLine<'_> {
    ghost use Rattle.std.specs.Prelude.{Some};
    ghost use Rattle.text_commands.specs.ImportLines.{clock_line};

    ghost output = { λ line.
        Some (clock_line line.offset.is_nanoseconds line.name.now line.offset.time) };

    fn fmt<W: fmt::Write>(&self, f: &mut fmt::Formatter<W>) -> fmt::Result {
        writeln!(
            f,
            "synchrony: the clock of {} moved by {}",
            printed(self.name),
            self.offset
        )
    }
}

/// How many messages are received no later than they are sent, the worst of them, and what may help; nothing if there
/// are none.
fn late_lines(alloc: Global, is_nanoseconds: bool, lateness: Lateness) -> Result<String, AllocError>
    ensures { IfOk result
        (λ text. string_bytes text ≡ late_lines is_nanoseconds lateness.messages lateness.worst) }
{
    match lateness.worst {
        None => Ok(String::new(alloc)),
        Some(worst) => worst_lines(alloc, is_nanoseconds, lateness.messages, worst),
    }
}

/// The same, if this is the worst of so many.
fn worst_lines(
    alloc: Global,
    is_nanoseconds: bool,
    messages: u64,
    worst: LateMessage,
) -> Result<String, AllocError>
    ensures { IfOk result
        (λ text. string_bytes text ≡ late_lines is_nanoseconds messages (Some worst)) }
{
    let lines = LateLines {
        messages,
        by: TimeWords {
            time: worst.by,
            is_nanoseconds,
        },
        number: u64::from(worst.event) + 2,
        sent: u64::from(worst.message) + 2,
    }
    .to_string(alloc)?;
    Ok(lines)
}

/// A line for each node: which processor it is.
fn node_lines(alloc: Global, nodes: &NameSet) -> Result<String, AllocError>
    ensures { IfOk result (λ text. string_bytes text ≡ node_lines nodes.now (length nodes.now)) }
{
    let mut lines = String::new(alloc);
    for place in 0..nodes.len() {
        let name = nodes.name_at(place).unwrap_or(&[]);
        let line = NodeLine {
            number: place + 1,
            name,
        }
        .to_string(alloc)?;
        lines.push_str(line.as_str())?;
    }
    Ok(lines)
}

/// Which node a processor is, on a line of its own.
#[derive(Clone, Copy)]
struct NodeLine<'a> {
    number: usize,
    name: &'a [u8],
}

impl fmt::Display for NodeLine<'_> {
    ghost use Rattle.std.specs.Prelude.{Some};
    ghost use Rattle.text_commands.specs.ImportLines.{node_line};

    ghost output = { λ line. Some (node_line line.number line.name.now) };

    fn fmt<W: fmt::Write>(&self, f: &mut fmt::Formatter<W>) -> fmt::Result {
        writeln!(
            f,
            "synchrony: processor {} is {}",
            self.number,
            printed(self.name)
        )
    }
}

/// How many events moved and how far at most, on a line of its own.
#[derive(Clone, Copy)]
struct MovedLine {
    moved: Moved,
    /// How many events there are.
    count: usize,
}

impl fmt::Display for MovedLine {
    ghost use Rattle.std.specs.Prelude.{Some};
    ghost use Rattle.text_commands.specs.ImportLines.{moved_line};

    ghost output = { λ line. Some (moved_line line.count line.moved) };

    fn fmt<W: fmt::Write>(&self, f: &mut fmt::Formatter<W>) -> fmt::Result {
        writeln!(
            f,
            "synchrony: {} of {} events moved{}",
            self.moved.events,
            self.count,
            Distance(self.moved)
        )
    }
}

/// How many ticks events moved at most, and the record of the first that did; nothing if none moved.
#[derive(Clone, Copy)]
struct Distance(Moved);

impl fmt::Display for Distance {
    ghost use Rattle.std.specs.Prelude.{Some};
    ghost use Rattle.text_commands.specs.ImportLines.{distance_words};

    ghost output = { λ distance. Some (distance_words distance.0.ticks distance.0.farthest) };

    fn fmt<W: fmt::Write>(&self, f: &mut fmt::Formatter<W>) -> fmt::Result {
        match self.0.farthest {
            None => f.write_str(""),
            Some(place) => write!(
                f,
                ", by at most {} (record {})",
                Ticks(u128::from(self.0.ticks)),
                place as u128 + 2
            ),
        }
    }
}

/// The lines of late messages, with how late the worst is and its records.
#[derive(Clone, Copy)]
struct LateLines {
    messages: u64,
    by: TimeWords,
    number: u64,
    sent: u64,
}

impl fmt::Display for LateLines {
    ghost use Rattle.std.specs.Prelude.{Some};
    ghost use Rattle.text_commands.specs.ImportLines.{named_late_lines};

    ghost output = { λ lines.
        Some (named_late_lines lines.by.is_nanoseconds lines.messages lines.by.time lines.number
        lines.sent) };

    fn fmt<W: fmt::Write>(&self, f: &mut fmt::Formatter<W>) -> fmt::Result {
        write!(
            f,
            "synchrony: {}, by the clocks; most by {} in record {}, which record {} sends\nsynchrony: --align moves the clocks of nodes, and may bring most of them into order\n",
            LateCount(self.messages),
            self.by,
            self.number,
            self.sent
        )
    }
}

/// So many messages that are received no later than they are sent.
#[derive(Clone, Copy)]
struct LateCount(u64);

impl fmt::Display for LateCount {
    ghost use Rattle.std.specs.Prelude.{Some};
    ghost use Rattle.text_commands.specs.ImportLines.{late_count_words};

    ghost output = { λ count. Some (late_count_words count.0) };

    fn fmt<W: fmt::Write>(&self, f: &mut fmt::Formatter<W>) -> fmt::Result {
        match self.0 {
            1 => f.write_str("1 message is received no later than it is sent"),
            messages => write!(
                f,
                "{messages} messages are received no later than they are sent"
            ),
        }
    }
}
