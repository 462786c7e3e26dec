//! What pictures and pages call messages and steps.

ghost use Rattle.std.specs.Prelude.{◌≡◌, ◌++◌, OnOk};
ghost use Rattle.run_words.specs.Words.{message_text, source_text, step_text};

use crate::digits::push_number;
use crate::long_names::push_long;
use std::alloc::AllocError;
use step_tables::{StepRow, message_at, source_at};

/// How many characters of a message's name are shown in words.
const MESSAGE_CHARACTERS: usize = 48;

/// Appends what a message is called: its name, shortened if it is long, or its number.
pub fn push_message(out: &mut Vec<u8>, said: &[StepRow], number: u64) -> Result<(), AllocError>
    ensures { OnOk result (out.new.items ≡ out.old.items ++ message_text said.now number) }
{
    let name = message_at(said, number);
    if name.len() > 0 {
        return push_long(out, name, MESSAGE_CHARACTERS);
    }
    push_number(out, number)
}

/// Appends a step by its number, with that of its record in the log, if it is known.
pub fn push_step(out: &mut Vec<u8>, said: &[StepRow], number: u64) -> Result<(), AllocError>
    ensures { OnOk result (out.new.items ≡ out.old.items ++ step_text said.now number) }
{
    out.extend_from_slice(b"step ")?;
    push_number(out, number)?;
    match source_at(said, number) {
        Some(source) => push_source(out, source),
        None => Ok(()),
    }
}

/// Appends the number of a record of the log.
fn push_source(out: &mut Vec<u8>, source: u64) -> Result<(), AllocError>
    ensures { OnOk result (out.new.items ≡ out.old.items ++ source_text source) }
{
    out.extend_from_slice(b", record ")?;
    push_number(out, source)
}
