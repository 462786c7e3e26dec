//! Lines that are records without quotes. They need no reader of csv's, which looks up what to do at each byte, and
//! copies each field.

ghost use Rattle.std.specs.Prelude.{◌≡◌, ◌<◌, ◌≤◌, ◌-◌, ℕ, List, [], IfSome, drop, length, map, take};
ghost use Rattle.csv.specs.Writing.{needs_byte};
ghost use Rattle.trace_text.specs.RecordWriting.{IsPlain, our_writer};
ghost use Rattle.trace_text.specs.Records.{field_of};
ghost use Rattle.event_log.specs.PlainLines.{EndsLine, IsPlainField, IsPlainLine};

use crate::fields::Fields;
use arrayvec::ArrayVec;
use shared_reading::may_be_marked;
use std::marker::Model;

/// The greatest number of fields of a line that is read without csv's reader.
const MAX_FIELDS: usize = 16;

/// The fields of a line without quotes.
#[derive(Drop)]
pub(crate) struct PlainLine<'a> {
    fields: ArrayVec<&'a [u8], MAX_FIELDS>,
}

impl<'a> Model for PlainLine<'a> {
    ghost use Rattle.std.specs.Prelude.{List, map, ℕ};

    ghost Value = { List (List ℕ) };

    ghost view = { λ line. map (λ field. field.now) line.fields.items };
}

impl<'a> Fields for PlainLine<'a> {
    ghost use Rattle.std.specs.Prelude.{List, ℕ};

    ghost fields = { λ line. line };

    fn count(&self) -> usize
        ensures { result ≡ length self.now }
    {
        self.fields.len()
    }

    fn field(&self, place: usize) -> &[u8]
        ensures { result.now ≡ field_of self.now place }
    {
        self.bytes(place)
    }
}

impl<'a> PlainLine<'a> {
    /// No fields.
    pub(crate) fn new() -> PlainLine<'a>
        ensures { result ≡ [] }
    {
        PlainLine {
            fields: ArrayVec::new(),
        }
    }

    /// The field at a place, as the text has it; nothing if there are fewer.
    pub(crate) fn bytes(&self, place: usize) -> &'a [u8]
        ensures { result.now ≡ field_of self.now place }
    {
        match self.fields.get(place) {
            Some(field) => *field,
            None => &[],
        }
    }

    /// Reads the line at a place, if it is a record of two fields or more without quotes. Gives the place behind it.
    pub(crate) fn read(&mut self, text: &'a [u8], at: usize) -> Option<usize>
        requires { at ≤ length text.now }
        ensures { IfSome result (IsPlainLine text.now at self.new) }
    {
        let end = read_fields(text, at, &mut self.fields)?;
        if self.fields.len() < 2 {
            return None;
        }
        if may_be_marked(&text[at..]) || may_be_marked(&text[end..]) {
            return None;
        }
        Some(end)
    }
}

/// Reads the fields of the line at a place, if none needs quotes. Gives the place behind it.
fn read_fields<'a>(
    text: &'a [u8],
    at: usize,
    fields: &mut ArrayVec<&'a [u8], MAX_FIELDS>,
) -> Option<usize>
    requires { at ≤ length text.now }
    ensures { IfSome result
        (EndsLine text.now at (map (λ field. field.now) fields.new.items)) }
{
    fields.clear();
    let mut from = at;
    while let Some(found) = plain_field(text, from) {
        let Ok(()) = fields.try_push(found.bytes) else {
            return None;
        };
        from = found.end;
        if found.is_last {
            return Some(from);
        }
    }
    None
}

/// A field, whether a line feed ends it and not a comma, and the place behind that.
#[derive(Clone, Copy)]
pub(crate) struct PlainField<'a> {
    pub(crate) bytes: &'a [u8],
    pub(crate) is_last: bool,
    pub(crate) end: usize,
}

/// The field at a place, if it needs no quotes and has a comma or a line feed behind it.
fn plain_field(text: &[u8], at: usize) -> Option<PlainField<'_>>
    requires { at ≤ length text.now }
    ensures { IfSome result (IsPlainField text.now at) }
{
    let mut end = at;
    while let Some(byte) = text.get(end) {
        if calls_for_quotes(*byte) {
            return field_between(text, at, end);
        }
        end += 1;
    }
    None
}

/// Whether a field with this byte is written in quotes.
fn calls_for_quotes(byte: u8) -> bool
    ensures { result ≡ needs_byte our_writer byte }
{
    byte == b',' || byte == b'\n' || byte == b'"' || byte == b'\r'
}

/// The field between two places, if it needs no quotes, and has a comma or a line feed behind it.
fn field_between(text: &[u8], at: usize, end: usize) -> Option<PlainField<'_>>
    requires order { at ≤ end }
    requires within { end < length text.now }
    requires plain { IsPlain (take (end - at) (drop at text.now)) }
    ensures { IfSome result (IsPlainField text.now at) }
{
    let is_last = text[end] == b'\n';
    if !is_last && text[end] != b',' {
        return None;
    }
    Some(PlainField {
        bytes: &text[at..end],
        is_last,
        end: end + 1,
    })
}
