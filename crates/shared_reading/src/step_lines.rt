//! Lines of a text that encode a step in canonical form. They need no reader of csv's, which looks up what to do at
//! each byte, and copies each field.

ghost use Rattle.std.specs.Prelude.{◌≡◌, ◌≤◌, length, Ok, Some, IfOk, IfErr, IfSome, IsTrue};
ghost use Rattle.trace_text.specs.TextRefusals.{is_memory};
ghost use Rattle.trace_text.specs.Records.{number_of};
ghost use Rattle.trace_text.specs.JudgedIds.{judged_of};
ghost use Rattle.shared_reading.specs.Lines.{line_of, narrow_line};
ghost use Rattle.shared_reading.specs.StepFields.{AreNumbersOf, record_of};
ghost use Rattle.shared_reading.specs.StepLines.{IsStepLine, act_with};

use crate::lines::{Line, narrow_line};
use crate::pieces::{may_be_marked, tail};
use crate::step_fields::{StepFields, step_fields};
use std::alloc::Global;
use step_trace::{Act, MessageIds, Step};
use trace_text::TextError;
use trace_text::reading::step_of_fields;
use trace_text::versions::Version;

/// A step that a line encodes, and the place behind the line.
#[derive(Drop)]
pub(crate) struct StepLine {
    pub(crate) line: Line,
    pub(crate) end: usize,
}

/// The step that the line at a place encodes, unless it has to be read by csv's reader, or not at all.
///
/// Fails only if out of memory.
pub(crate) fn step_line(
    alloc: Global,
    version: Version,
    text: &[u8],
    at: usize,
) -> Result<Option<StepLine>, TextError>
    requires { at ≤ length text.now }
    ensures told { IfOk result (λ told. IfSome told (IsStepLine version text.now at)) }
    ensures refused { IfErr result (λ why. IsTrue (is_memory why)) }
{
    let Some(fields) = step_fields(version, text, at) else {
        return Ok(None);
    };
    let end = fields.arg.field.end;
    if may_be_marked(tail(text, at)) || may_be_marked(tail(text, end)) {
        return Ok(None);
    }
    match told_line(alloc, version, fields) {
        Ok(line) => Ok(Some(StepLine { line, end })),
        Err(TextError::Memory) => Err(TextError::Memory),
        Err(_) => Ok(None),
    }
}

/// The step that these fields encode.
fn told_line(alloc: Global, version: Version, fields: StepFields<'_>) -> Result<Line, TextError>
    requires { AreNumbersOf version fields }
    ensures { IfOk result (λ line. line_of version (record_of version fields.entry) ≡ Ok line) }
{
    let (tick, step) = told_step(alloc, fields)?;
    narrow_line(fields.no.number, tick, step)
}

/// The step of these fields, with its tick.
fn told_step(alloc: Global, fields: StepFields<'_>) -> Result<(u64, Step), TextError>
    requires proc { number_of fields.proc.field.bytes.now ≡ Some fields.proc.number }
    requires arg { IfSome fields.arg.number (λ n. number_of fields.arg.field.bytes.now ≡ Some n) }
    ensures { IfOk result
        (λ step. judged_of fields.entry.no.number (Some fields.entry.tick.number)
        fields.entry.operation.bytes.now fields.entry.proc.field.bytes.now
        fields.entry.arg.field.bytes.now ≡ Ok step) }
{
    let operation = fields.operation.bytes;
    let tick = fields.tick.number;
    if let Some(number) = fields.arg.number {
        if let Some(act) = act_with(operation, number) {
            let proc = fields.proc.number;
            return Ok((tick, Step { proc, act }));
        }
    }
    let proc = fields.proc.field.bytes;
    let arg = fields.arg.field.bytes;
    step_of_fields(alloc, fields.no.number, Some(tick), operation, proc, arg)
}

/// What a processor does by this operation with a number, which is the destination or the one id.
fn act_with(operation: &[u8], number: u64) -> Option<Act>
    ensures { result ≡ act_with operation.now number }
{
    match operation {
        b"S" => Some(Act::Send { to: number }),
        b"R" => Some(Act::Receive {
            ends: false,
            ids: MessageIds::one(number),
        }),
        b"E" => Some(Act::Receive {
            ends: true,
            ids: MessageIds::one(number),
        }),
        _ => None,
    }
}
