//! The pieces of a phrase, and how each of them is written.

ghost use Rattle.std.specs.Prelude.{◌≡◌, ◌<◌, ◌++◌, OnOk, codes, map};
ghost use Rattle.run_page.specs.Pieces.{aside_text, begins_text, both_aside_text, bound_text, from_tick_text};
ghost use Rattle.run_page.specs.Pieces.{in_tick_text, known_text, made_text, many_text, percent_text, piece_text};
ghost use Rattle.run_page.specs.Pieces.{pieces_text, place_text, short_ticks_text, step_at_text, stepped_text};
ghost use Rattle.run_page.specs.Pieces.{tick_aside_text, tick_text, ticks_text, told_tick_text};

use crate::scales::Place;
use run_words::{
    Clock, push_count, push_digits, push_label, push_message, push_nanoseconds, push_node,
    push_number, push_step,
};
use std::alloc::AllocError;
use step_tables::{StepRow, source_at};

/// A piece of a phrase.
#[derive(Clone, Copy)]
pub(crate) enum Piece {
    /// HTML, unchanged.
    Text(&'static str),
    /// A number in digits alone: a tick, a step, or a length in a picture.
    Number(u64),
    /// A number below 100 in two digits.
    TwoDigits(u64),
    /// A number with a comma before each three digits.
    Count(u64),
    /// So many of something, as `2,012 ticks`.
    Many(u64, &'static str),
    /// So many ticks: as time, with the ticks in parentheses; or the ticks alone if their length isn't known.
    Ticks(u64),
    /// A communication bound, or a time that refutes a smaller one, of so many ticks.
    Late(u64),
    /// A processor bound, or a silence that refutes a smaller one, of so many ticks.
    Silent(u64),
    /// So many ticks where there is little room: as time, or else the ticks.
    Short(u64),
    /// A time of so many nanoseconds; of a longer one as many as are told.
    Time(u64),
    /// A point of time of so many nanoseconds, in parts of so many, which are a power of ten.
    Moment { clock: Clock, time: u64, part: u64 },
    /// When a tick begins, or else the tick.
    Begin(u64),
    /// When a tick begins, with the tick in parentheses; or else the tick alone.
    Tick(u64),
    /// The same as an answer to when: `at` a time, or else `in` the tick.
    In(u64),
    /// The same with a time that is rounded up, for a look at the whole run.
    From(u64),
    /// When a step was made: in which tick, and by its number which step. If neither the length of a tick nor the
    /// record of the step is known, the tick alone.
    Made { tick: u64, no: u64 },
    /// The same, but always with the step.
    Stepped { tick: u64, no: u64 },
    /// What a processor is called: its name, or `processor` and its number.
    Node(u64),
    /// What a message is called: its name, or its number.
    Message(u64),
    /// A step, by its number, with that of its record in the log, if it is known.
    Step(u64),
    /// What a processor is called beside its lane: its name, shortened, or its number.
    Label(u64),
    /// A part of the width of a picture, in hundredths of a per cent.
    Percent(u64),
    /// A place in a picture.
    At(Place),
}

/// Appends these pieces, one after the other. `names` has the names of the processors in their order, `said` is what a
/// table says about the steps, and `clock` how long ticks are, if that is known.
///
/// Fails only if out of memory.
pub(crate) fn push_pieces(
    out: &mut Vec<u8>,
    names: &[&str],
    said: &[StepRow],
    clock: Option<Clock>,
    pieces: &[Piece],
) -> Result<(), AllocError>
    ensures { OnOk result (out.new.items ≡ out.old.items
        ++ pieces_text (map (λ x. x.now) names.now) said.now clock pieces.now) }
{
    for piece in pieces {
        push_piece(out, names, said, clock, *piece)?;
    }
    Ok(())
}

fn push_piece(
    out: &mut Vec<u8>,
    names: &[&str],
    said: &[StepRow],
    clock: Option<Clock>,
    piece: Piece,
) -> Result<(), AllocError>
    ensures { OnOk result (out.new.items ≡ out.old.items
        ++ piece_text (map (λ x. x.now) names.now) said.now clock piece) }
{
    match piece {
        Piece::Text(text) => out.extend_from_slice(text.as_bytes()),
        Piece::Number(number) => push_number(out, number),
        Piece::TwoDigits(number) => push_digits(out, number),
        Piece::Count(number) => push_count(out, number),
        Piece::Many(count, what) => push_many(out, count, what.as_bytes()),
        Piece::Ticks(count) => push_ticks(out, clock, count),
        Piece::Late(count) => push_bound(out, clock, b"<b class=\"dl\">", count),
        Piece::Silent(count) => push_bound(out, clock, b"<b class=\"phi\">", count),
        Piece::Short(count) => push_short_ticks(out, clock, count),
        Piece::Time(time) => push_nanoseconds(out, time),
        Piece::Moment { clock, time, part } => clock.push_time(out, time, part),
        Piece::Begin(tick) => push_begins(out, clock, tick),
        Piece::Tick(tick) => push_told_tick(out, clock, tick),
        Piece::In(tick) => push_in_tick(out, clock, tick),
        Piece::From(tick) => push_from_tick(out, clock, tick),
        Piece::Made { tick, no } => push_made(out, said, clock, tick, no),
        Piece::Stepped { tick, no } => push_stepped(out, said, clock, tick, no),
        Piece::Node(processor) => push_node(out, names, processor),
        Piece::Message(number) => push_message(out, said, number),
        Piece::Step(number) => push_step(out, said, number),
        Piece::Label(processor) => push_label(out, names, processor),
        Piece::Percent(parts) => push_percent(out, parts),
        Piece::At(place) => push_place(out, place),
    }
}

/// Appends so many of something.
fn push_many(out: &mut Vec<u8>, count: u64, what: &[u8]) -> Result<(), AllocError>
    ensures { OnOk result (out.new.items ≡ out.old.items ++ many_text count what.now) }
{
    push_count(out, count)?;
    out.extend_from_slice(b" ")?;
    out.extend_from_slice(what)?;
    if count == 1 {
        return Ok(());
    }
    out.extend_from_slice(b"s")
}

/// Appends so many ticks.
fn push_plain(out: &mut Vec<u8>, count: u64) -> Result<(), AllocError>
    ensures { OnOk result (out.new.items ≡ out.old.items ++ many_text count (codes "tick")) }
{
    push_many(out, count, b"tick")
}

/// Appends so many ticks as time and as ticks.
fn push_ticks(out: &mut Vec<u8>, clock: Option<Clock>, count: u64) -> Result<(), AllocError>
    ensures { OnOk result (out.new.items ≡ out.old.items ++ ticks_text clock count) }
{
    let Some(clock) = clock else {
        return push_plain(out, count);
    };
    clock.push_ticks(out, count)?;
    out.extend_from_slice(b" (")?;
    push_plain(out, count)?;
    out.extend_from_slice(b")")
}

/// Appends so many ticks in bold, with a mark for which bound they are of.
fn push_bound(
    out: &mut Vec<u8>,
    clock: Option<Clock>,
    mark: &[u8],
    count: u64,
) -> Result<(), AllocError>
    ensures { OnOk result (out.new.items ≡ out.old.items ++ bound_text clock mark.now count) }
{
    out.extend_from_slice(mark)?;
    let Some(clock) = clock else {
        push_plain(out, count)?;
        return out.extend_from_slice(b"</b>");
    };
    clock.push_ticks(out, count)?;
    out.extend_from_slice(b"</b> (")?;
    push_plain(out, count)?;
    out.extend_from_slice(b")")
}

/// Appends so many ticks as time, or else as ticks.
fn push_short_ticks(out: &mut Vec<u8>, clock: Option<Clock>, count: u64) -> Result<(), AllocError>
    ensures { OnOk result (out.new.items ≡ out.old.items ++ short_ticks_text clock count) }
{
    match clock {
        Some(clock) => clock.push_ticks(out, count),
        None => push_plain(out, count),
    }
}

/// Appends a tick by its number.
fn push_tick(out: &mut Vec<u8>, tick: u64) -> Result<(), AllocError>
    ensures { OnOk result (out.new.items ≡ out.old.items ++ tick_text tick) }
{
    out.extend_from_slice(b"tick ")?;
    push_number(out, tick)
}

/// Appends a space, and a tick by its number in parentheses.
fn push_tick_aside(out: &mut Vec<u8>, tick: u64) -> Result<(), AllocError>
    ensures { OnOk result (out.new.items ≡ out.old.items ++ tick_aside_text tick) }
{
    out.extend_from_slice(b" (")?;
    push_tick(out, tick)?;
    out.extend_from_slice(b")")
}

/// Appends when a tick begins, or else the tick.
fn push_begins(out: &mut Vec<u8>, clock: Option<Clock>, tick: u64) -> Result<(), AllocError>
    ensures { OnOk result (out.new.items ≡ out.old.items ++ begins_text clock tick) }
{
    match clock {
        Some(clock) => clock.push_begin(out, tick),
        None => push_tick(out, tick),
    }
}

/// Appends when a tick begins, and the tick.
fn push_told_tick(out: &mut Vec<u8>, clock: Option<Clock>, tick: u64) -> Result<(), AllocError>
    ensures { OnOk result (out.new.items ≡ out.old.items ++ told_tick_text clock tick) }
{
    let Some(clock) = clock else {
        return push_tick(out, tick);
    };
    clock.push_begin(out, tick)?;
    push_tick_aside(out, tick)
}

/// Appends when something happens in a tick.
fn push_in_tick(out: &mut Vec<u8>, clock: Option<Clock>, tick: u64) -> Result<(), AllocError>
    ensures { OnOk result (out.new.items ≡ out.old.items ++ in_tick_text clock tick) }
{
    let Some(clock) = clock else {
        out.extend_from_slice(b"in ")?;
        return push_tick(out, tick);
    };
    out.extend_from_slice(b"at ")?;
    clock.push_begin(out, tick)?;
    push_tick_aside(out, tick)
}

/// Appends from when on something holds.
fn push_from_tick(out: &mut Vec<u8>, clock: Option<Clock>, tick: u64) -> Result<(), AllocError>
    ensures { OnOk result (out.new.items ≡ out.old.items ++ from_tick_text clock tick) }
{
    let Some(clock) = clock else {
        return push_tick(out, tick);
    };
    clock.push_from(out, tick)?;
    push_tick_aside(out, tick)
}

/// Appends when a step was made, and its record, if it is known.
fn push_made(
    out: &mut Vec<u8>,
    said: &[StepRow],
    clock: Option<Clock>,
    tick: u64,
    no: u64,
) -> Result<(), AllocError>
    ensures { OnOk result (out.new.items ≡ out.old.items ++ made_text said.now clock tick no) }
{
    let Some(clock) = clock else {
        push_in_tick(out, None, tick)?;
        return push_known(out, said, no);
    };
    push_step_at(out, said, clock, tick, no)
}

/// Appends when a step was made, and the step.
fn push_stepped(
    out: &mut Vec<u8>,
    said: &[StepRow],
    clock: Option<Clock>,
    tick: u64,
    no: u64,
) -> Result<(), AllocError>
    ensures { OnOk result (out.new.items ≡ out.old.items ++ stepped_text said.now clock tick no) }
{
    let Some(clock) = clock else {
        push_in_tick(out, None, tick)?;
        return push_aside(out, said, no);
    };
    push_step_at(out, said, clock, tick, no)
}

/// Appends at which time a step was made, and then its tick, its number and its record.
fn push_step_at(
    out: &mut Vec<u8>,
    said: &[StepRow],
    clock: Clock,
    tick: u64,
    no: u64,
) -> Result<(), AllocError>
    ensures { OnOk result (out.new.items ≡ out.old.items ++ step_at_text said.now clock tick no) }
{
    out.extend_from_slice(b"at ")?;
    clock.push_begin(out, tick)?;
    push_both_aside(out, said, tick, no)
}

/// Appends a space, and a tick and a step in parentheses.
fn push_both_aside(
    out: &mut Vec<u8>,
    said: &[StepRow],
    tick: u64,
    no: u64,
) -> Result<(), AllocError>
    ensures { OnOk result (out.new.items ≡ out.old.items ++ both_aside_text said.now tick no) }
{
    out.extend_from_slice(b" (")?;
    push_tick(out, tick)?;
    out.extend_from_slice(b", ")?;
    push_step(out, said, no)?;
    out.extend_from_slice(b")")
}

/// Appends a step with its record in the log, in parentheses; nothing if the record isn't known.
fn push_known(out: &mut Vec<u8>, said: &[StepRow], number: u64) -> Result<(), AllocError>
    ensures { OnOk result (out.new.items ≡ out.old.items ++ known_text said.now number) }
{
    if source_at(said, number).is_none() {
        return Ok(());
    }
    push_aside(out, said, number)
}

/// Appends a space, and a step in parentheses.
fn push_aside(out: &mut Vec<u8>, said: &[StepRow], number: u64) -> Result<(), AllocError>
    ensures { OnOk result (out.new.items ≡ out.old.items ++ aside_text said.now number) }
{
    out.extend_from_slice(b" (")?;
    push_step(out, said, number)?;
    out.extend_from_slice(b")")
}

fn push_percent(out: &mut Vec<u8>, parts: u64) -> Result<(), AllocError>
    ensures { OnOk result (out.new.items ≡ out.old.items ++ percent_text parts) }
{
    push_number(out, parts / 100)?;
    out.extend_from_slice(b".")?;
    push_digits(out, parts % 100)?;
    out.extend_from_slice(b"%")
}

fn push_place(out: &mut Vec<u8>, place: Place) -> Result<(), AllocError>
    ensures { OnOk result (out.new.items ≡ out.old.items ++ place_text place) }
{
    if place.is_before {
        out.extend_from_slice(b"-")?;
    }
    push_number(out, place.far)
}
