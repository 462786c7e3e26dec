//! The fields of lines that encode a step in canonical form, cut at commas and without quotes. Each number is read
//! while its digits are scanned.

ghost use Rattle.std.specs.Prelude.{◌≡◌, ◌<◌, ◌≤◌, ◌++◌, length, drop, take, IfSome};
ghost use Rattle.trace_text.specs.Records.{record_line};
ghost use Rattle.shared_reading.specs.StepFields.{AreNumbersOf, IsArgumentAt, IsFieldAt, IsFirstNumber};
ghost use Rattle.shared_reading.specs.StepFields.{IsNumberAt, IsTickAt, record_of};

use crate::pieces::tail;
use memchr::memchr;
use trace_text::versions::Version;

/// A field of a text, and the place behind the byte that ends it.
#[derive(Clone, Copy)]
pub(crate) struct Field<'a> {
    pub(crate) bytes: &'a [u8],
    pub(crate) end: usize,
}

/// A field that is the text of a number.
#[derive(Clone, Copy)]
pub(crate) struct NumberField<'a> {
    pub(crate) field: Field<'a>,
    pub(crate) number: u64,
}

/// The last field of a step: mostly the text of a number.
#[derive(Clone, Copy)]
pub(crate) struct Argument<'a> {
    pub(crate) field: Field<'a>,
    pub(crate) number: Option<u64>,
}

/// The fields of a step's line. In version 1 it has no tick: that is the number of the step.
#[derive(Clone, Copy)]
pub(crate) struct StepFields<'a> {
    pub(crate) no: NumberField<'a>,
    pub(crate) tick: NumberField<'a>,
    pub(crate) proc: NumberField<'a>,
    pub(crate) operation: Field<'a>,
    pub(crate) arg: Argument<'a>,
}

/// The number that the first bytes write, and how many they are.
#[derive(Clone, Copy)]
struct FirstNumber {
    number: u64,
    digits: usize,
}

/// The fields of the line at a place, if it has those of a step.
pub(crate) fn step_fields(version: Version, text: &[u8], at: usize) -> Option<StepFields<'_>>
    requires { at ≤ length text.now }
    ensures end { IfSome result (λ fields. fields.arg.field.end ≤ length text.now) }
    ensures some { IfSome result (λ fields. at < fields.arg.field.end) }
    ensures line { IfSome result
        (λ fields. drop at text.now ≡ record_line (record_of version fields)
        ++ drop fields.arg.field.end text.now) }
    ensures numbers { IfSome result (AreNumbersOf version) }
{
    let no = number_at(text, at, b',')?;
    let tick = tick_at(version, text, no)?;
    let proc = number_at(text, tick.field.end, b',')?;
    let operation = field_at(text, proc.field.end, 1, b',')?;
    let arg = argument_at(text, operation.end)?;
    Some(StepFields {
        no,
        tick,
        proc,
        operation,
        arg,
    })
}

/// The tick of the step of this number: in version 2 it is behind that.
fn tick_at<'a>(version: Version, text: &'a [u8], no: NumberField<'a>) -> Option<NumberField<'a>>
    requires { no.field.end ≤ length text.now }
    ensures { IfSome result (IsTickAt version text.now no.entry) }
{
    match version {
        Version::One => Some(no),
        Version::Two => number_at(text, no.field.end, b','),
    }
}

/// The number at a place, if this byte is behind it.
fn number_at(text: &[u8], at: usize, last: u8) -> Option<NumberField<'_>>
    requires { at ≤ length text.now }
    ensures { IfSome result (IsNumberAt text.now at last) }
{
    let first = first_number(tail(text, at))?;
    let field = field_at(text, at, first.digits, last)?;
    Some(NumberField {
        field,
        number: first.number,
    })
}

/// The rest of the line at a place.
fn argument_at(text: &[u8], at: usize) -> Option<Argument<'_>>
    requires { at ≤ length text.now }
    ensures { IfSome result (IsArgumentAt text.now at) }
{
    if let Some(found) = number_at(text, at, b'\n') {
        return Some(Argument {
            field: found.field,
            number: Some(found.number),
        });
    }
    let len = memchr(b'\n', tail(text, at))?;
    Some(Argument {
        field: field_at(text, at, len, b'\n')?,
        number: None,
    })
}

/// So many bytes from a place on, if this one is behind them.
fn field_at(text: &[u8], at: usize, len: usize, last: u8) -> Option<Field<'_>>
    requires { at ≤ length text.now }
    ensures bytes { IfSome result (λ field. field.bytes.now ≡ take len (drop at text.now)) }
    ensures field { IfSome result (IsFieldAt text.now at last) }
{
    let rest = tail(text, at);
    if *rest.get(len)? != last {
        return None;
    }
    Some(Field {
        bytes: &rest[..len],
        end: at + len + 1,
    })
}

/// The number that the first digits write. None if there are no digits, or if these are not the text of a `u64`:
/// it has no leading zero but in `0` itself.
fn first_number(bytes: &[u8]) -> Option<FirstNumber>
    ensures { IfSome result (IsFirstNumber bytes.now) }
{
    let mut number = 0u64;
    let mut digits = 0;
    while let Some(byte) = bytes.get(digits) {
        if !byte.is_ascii_digit() {
            break;
        }
        number = number
            .checked_mul(10)?
            .checked_add(u64::from(*byte - b'0'))?;
        digits += 1;
    }
    if digits == 0 {
        return None;
    }
    if digits > 1 && bytes[0] == b'0' {
        return None;
    }
    Some(FirstNumber { number, digits })
}
