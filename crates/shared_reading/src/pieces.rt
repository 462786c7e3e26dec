//! Pieces of a trace text that are read without what comes before them.

ghost use Rattle.std.specs.Prelude.{◌≡◌, ◌≤◌, ◌∷◌, ℕ, List, length, drop, true, false};
ghost use Rattle.csv.specs.Reading.{strip_bom};
ghost use Rattle.trace_text.specs.Records.{ReachesUnless, after_records, records_of_text};
ghost use Rattle.trace_text.specs.TextRefusals.{is_memory};
ghost use Rattle.shared_reading.specs.Lines.{next_read};
ghost use Rattle.shared_reading.specs.Seams.{has_quote, ends_line};
ghost use Rattle.shared_reading.specs.Pieces.{IsFound, IsUnmarked, TakesFound};

use crate::lines::{Lines, push_lines};
use memchr::memchr;
use std::alloc::Global;
use std::mem;
use trace_text::TextError;
use trace_text::reading::Stage;
use trace_text::records::read_records;
use trace_text::versions::Version;

/// What a piece of a text encodes by itself.
#[derive(Drop)]
pub(crate) enum Found {
    /// Its records are these steps.
    Steps(Lines),
    /// It isn't steps alone, or its records depend on what comes before or after it.
    Unusual,
    /// Out of memory.
    NoMemory,
}

/// What these bytes encode by themselves.
pub(crate) fn found_in(alloc: Global, version: Version, bytes: &[u8]) -> Found
    ensures { IsFound version bytes.now result }
{
    if has_quote(bytes) || !ends_line(bytes) {
        return Found::Unusual;
    }
    let Ok(mut lines) = Lines::new(alloc, version) else {
        return Found::NoMemory;
    };
    match read_lines(alloc, bytes, &mut lines) {
        Ok(()) => Found::Steps(lines),
        Err(TextError::Memory) => Found::NoMemory,
        Err(_) => Found::Unusual,
    }
}

/// Adds the steps of all records of a text: those of plain lines, and from the first other line on those that csv's
/// reader finds.
fn read_lines(alloc: Global, bytes: &[u8], lines: &mut Lines) -> Result<(), TextError>
    ensures { ReachesUnless is_memory result lines.new
        (after_records next_read lines.old (records_of_text bytes.now)) }
{
    let at = lines.read_front(alloc, bytes)?;
    read_records(alloc, tail(bytes, at), lines)
}

/// Whether there may be a quote.
pub(crate) fn has_quote(bytes: &[u8]) -> bool
    ensures { result ≡ false → has_quote bytes.now ≡ false }
{
    memchr(b'"', bytes).is_some()
}

/// Whether the last byte is a line feed.
pub(crate) fn ends_line(bytes: &[u8]) -> bool
    ensures { result ≡ true → ends_line bytes.now ≡ true }
{
    if bytes.len() == 0 {
        return false;
    }
    bytes[bytes.len() - 1] == 10
}

/// Whether the bytes may begin with a byte order mark.
pub fn may_be_marked(bytes: &[u8]) -> bool
    ensures unmarked { result ≡ false → strip_bom bytes.now ≡ bytes.now }
    ensures marked { result ≡ true → (rest : List ℕ) × (bytes.now ≡ 239 ∷ rest) }
{
    if bytes.len() == 0 {
        return false;
    }
    bytes[0] == 0xEF
}

/// Whether there are bytes, and no byte order mark begins with them, for any bytes behind.
pub(crate) fn begins_unmarked(bytes: &[u8]) -> bool
    ensures { result ≡ true → IsUnmarked bytes.now }
{
    if bytes.len() == 0 {
        return false;
    }
    bytes[0] != 0xEF
}

/// The bytes from a place on.
pub(crate) fn tail(text: &[u8], at: usize) -> &[u8]
    requires { at ≤ length text.now }
    ensures { result.now ≡ drop at text.now }
{
    &text[at..]
}

/// The trace under way takes the steps that were found in a piece, if they are known and were read in its version.
/// Answers whether it has them. After a refusal the stage is of no more use.
pub(crate) fn take_found(
    version: Version,
    found: Found,
    stage: &mut Stage,
) -> Result<bool, TextError>
    ensures { TakesFound version found stage.old stage.new result }
{
    let lines = match found {
        Found::Steps(lines) => lines,
        Found::Unusual => return Ok(false),
        Found::NoMemory => return Err(TextError::Memory),
    };
    match (version, mem::replace(stage, Stage::Opening)) {
        (Version::One, Stage::Recording(Version::One, trace))
        | (Version::Two, Stage::Recording(Version::Two, trace)) => {
            // (a trace has no more steps than it may have)
            let _steps = trace.len();
            let longer = push_lines(version, trace, lines)?;
            *stage = Stage::Recording(version, longer);
            Ok(true)
        }
        (_, other) => {
            *stage = other;
            Ok(false)
        }
    }
}
