//! How marks name steps, messages and bounds, with their times.

ghost use Rattle.std.specs.Prelude.{◌≡◌, ◌++◌, OnOk};
ghost use Rattle.run_picture.specs.MarkWords.{bound_text, ids_text, kind_text, made_text, more_text};
ghost use Rattle.run_picture.specs.MarkWords.{named_text, step_at_text, time_text, timed_text};

use run_words::{Clock, push_message, push_number, push_step};
use std::alloc::AllocError;
use step_tables::StepRow;

/// How many ids the words of a Receive name.
const NAMED_IDS: usize = 8;

/// What a log calls things, and how it tells time, as far as that is known.
#[derive(Clone, Copy)]
pub(crate) struct Words<'a> {
    /// The names of the processors, in their order.
    pub names: &'a [&'a str],
    /// What a table says about the steps; nothing without one.
    pub said: &'a [StepRow],
    pub clock: Option<Clock>,
}

/// Appends when a tick begins, if a clock tells it.
fn push_time(out: &mut Vec<u8>, clock: Option<Clock>, tick: u64) -> Result<(), AllocError>
    ensures { OnOk result (out.new.items ≡ out.old.items ++ time_text clock tick) }
{
    let Some(clock) = clock else {
        return Ok(());
    };
    out.extend_from_slice(b", ")?;
    clock.push_begin(out, tick)
}

/// Appends a tick by its number, with its time.
pub(crate) fn push_timed(
    out: &mut Vec<u8>,
    clock: Option<Clock>,
    tick: u64,
) -> Result<(), AllocError>
    ensures { OnOk result (out.new.items ≡ out.old.items ++ timed_text clock tick) }
{
    out.extend_from_slice(b"tick ")?;
    push_number(out, tick)?;
    push_time(out, clock, tick)
}

/// Appends a step, with its record, its tick and its time.
pub(crate) fn push_made(
    out: &mut Vec<u8>,
    said: &[StepRow],
    clock: Option<Clock>,
    no: u64,
    tick: u64,
) -> Result<(), AllocError>
    ensures { OnOk result (out.new.items ≡ out.old.items ++ made_text said.now clock no tick) }
{
    push_step(out, said, no)?;
    out.extend_from_slice(b", ")?;
    push_timed(out, clock, tick)
}

/// Appends a step, with its record and the time of its tick.
pub(crate) fn push_step_at(
    out: &mut Vec<u8>,
    said: &[StepRow],
    clock: Option<Clock>,
    no: u64,
    tick: u64,
) -> Result<(), AllocError>
    ensures { OnOk result (out.new.items ≡ out.old.items ++ step_at_text said.now clock no tick) }
{
    push_step(out, said, no)?;
    push_time(out, clock, tick)
}

/// Appends a bound of so many ticks, with how long that is, if a clock tells it.
pub(crate) fn push_bound(
    out: &mut Vec<u8>,
    clock: Option<Clock>,
    ticks: u64,
) -> Result<(), AllocError>
    ensures { OnOk result (out.new.items ≡ out.old.items ++ bound_text clock ticks) }
{
    push_number(out, ticks)?;
    let Some(clock) = clock else {
        return Ok(());
    };
    out.extend_from_slice(b" (")?;
    clock.push_ticks(out, ticks)?;
    out.extend_from_slice(b")")
}

/// Appends what the messages with these ids are called: the first ones, and how many more there are.
pub(crate) fn push_ids(out: &mut Vec<u8>, said: &[StepRow], ids: &[u64]) -> Result<(), AllocError>
    ensures { OnOk result (out.new.items ≡ out.old.items ++ ids_text said.now ids.now) }
{
    if ids.len() == 0 {
        return out.extend_from_slice(b"nothing");
    }
    push_kind(out, ids.len())?;
    push_named(out, said, &ids[..ids.len().min(NAMED_IDS)])?;
    push_more(out, ids.len().saturating_sub(NAMED_IDS))
}

/// Appends that so many messages are named next.
fn push_kind(out: &mut Vec<u8>, count: usize) -> Result<(), AllocError>
    ensures { OnOk result (out.new.items ≡ out.old.items ++ kind_text count) }
{
    if count == 1 {
        return out.extend_from_slice(b"message");
    }
    out.extend_from_slice(b"messages")
}

/// Appends what the messages with these ids are called, each after a space.
fn push_named(out: &mut Vec<u8>, said: &[StepRow], ids: &[u64]) -> Result<(), AllocError>
    ensures { OnOk result (out.new.items ≡ out.old.items ++ named_text said.now ids.now) }
{
    for id in ids {
        out.extend_from_slice(b" ")?;
        push_message(out, said, *id)?;
    }
    Ok(())
}

/// Appends how many more messages there are, if any.
fn push_more(out: &mut Vec<u8>, more: usize) -> Result<(), AllocError>
    ensures { OnOk result (out.new.items ≡ out.old.items ++ more_text more) }
{
    if more == 0 {
        return Ok(());
    }
    out.extend_from_slice(b" and ")?;
    push_number(out, more as u64)?;
    out.extend_from_slice(b" more")
}
