//! A trace text in memory that is read piece by piece, by one thread.

ghost use Rattle.std.specs.Prelude.{◌≡◌, ◌≢◌, ◌<◌, ◌≤◌, ◌↔◌, length, IfOk, OnOk, IfErr, IsErrOf, MatchResult};
ghost use Rattle.step_trace.specs.Traces.{Recorded};
ghost use Rattle.trace_text.specs.Records.{records_of_text};
ghost use Rattle.trace_text.specs.TraceTexts.{StandsFor, IsTextTrace};
ghost use Rattle.trace_text.specs.TextRefusals.{Gives, IsFirstRefusal, LeadsTo, trace_of_records};
ghost use Rattle.shared_reading.specs.Pieces.{GoesOn, read_on};

use crate::cuts::line_start;
use crate::pieces::{ends_line, found_in, has_quote, may_be_marked, tail, take_found};
use std::alloc::Global;
use step_trace::Trace;
use trace_text::reading::{Stage, trace_at_end};
use trace_text::records::read_records;
use trace_text::versions::Version;
use trace_text::{MAX_TEXT_BYTES, TextError};

/// The bytes at the front of a text that are read by csv's reader: the header and the initial values are among them.
const HEAD_BYTES: usize = 4096;

/// The number of bytes of a piece, but for the rest of its last line.
const PIECE_BYTES: usize = 1_048_576;

/// The trace that a text encodes. Answers as `trace_text::read_trace` does, and sooner: its plain lines are read
/// without csv's reader.
pub fn read_trace(alloc: Global, text: &[u8]) -> Result<Trace, TextError>
    ensures stands { IfOk result (λ t. StandsFor text.now t) }
    ensures size { OnOk result (length text.now ≤ MAX_TEXT_BYTES) }
    ensures sound { IfOk result (λ t. IsTextTrace t) }
    ensures complete { (t : Recorded) → IsTextTrace t → StandsFor text.now t
        → length text.now ≤ MAX_TEXT_BYTES
        → MatchResult result (λ u. u ≡ t) (λ e. e ≡ TextError.Memory) }
    ensures too_large { IsErrOf result TextError.TooLarge ↔ (MAX_TEXT_BYTES < length text.now) }
    ensures no_fault { IfErr result (λ e. e ≢ TextError.Read) }
    ensures refused { IfErr result (λ e. IsFirstRefusal text.now e) }
    ensures unique { (t u : Recorded) → IsTextTrace t → IsTextTrace u → StandsFor text.now t
        → StandsFor text.now u → t ≡ u }
{
    if text.len() > MAX_TEXT_BYTES {
        return Err(TextError::TooLarge);
    }
    read_whole(alloc, text)
}

/// The trace of all records.
fn read_whole(alloc: Global, text: &[u8]) -> Result<Trace, TextError>
    ensures { Gives result (trace_of_records (records_of_text text.now)) }
{
    let mut stage = Stage::Opening;
    read_alone(alloc, text, &mut stage)?;
    trace_at_end(stage)
}

/// Takes in all records of a text.
pub(crate) fn read_alone(alloc: Global, text: &[u8], stage: &mut Stage) -> Result<(), TextError>
    ensures { LeadsTo result stage.new (read_on stage.old text.now) }
{
    let at = read_pieces(alloc, text, stage)?;
    read_records(alloc, tail(text, at), stage)
}

/// Reads the steps piece by piece, and answers the place up to which the text was read.
fn read_pieces(alloc: Global, text: &[u8], stage: &mut Stage) -> Result<usize, TextError>
    ensures within { IfOk result (λ at. at ≤ length text.now) }
    ensures goes_on { GoesOn stage.old stage.new text.now 0 result }
{
    let at = read_head(alloc, text, stage)?;
    match stage {
        Stage::Recording(version, _) => read_pieces_from(alloc, text, at, *version, stage),
        _ => Ok(at),
    }
}

/// Reads the header, the initial values and some steps, if these are due, and answers the place up to which the text
/// was read.
fn read_head(alloc: Global, text: &[u8], stage: &mut Stage) -> Result<usize, TextError>
    ensures within { IfOk result (λ at. at ≤ length text.now) }
    ensures goes_on { GoesOn stage.old stage.new text.now 0 result }
{
    let end = match stage {
        Stage::Recording(..) => 0,
        _ => line_start(text, HEAD_BYTES),
    };
    read_part(alloc, text, 0, end, stage)
}

/// Reads from one place to another, if the text may be cut off there.
fn read_part(
    alloc: Global,
    text: &[u8],
    from: usize,
    end: usize,
    stage: &mut Stage,
) -> Result<usize, TextError>
    requires order { from ≤ end }
    requires within { end ≤ length text.now }
    ensures { GoesOn stage.old stage.new text.now from result }
{
    let part = &text[from..end];
    if has_quote(part) {
        return Ok(from);
    }
    if !ends_line(part) {
        return Ok(from);
    }
    if may_be_marked(tail(text, end)) {
        return Ok(from);
    }
    read_records(alloc, part, stage)?;
    Ok(end)
}

/// Reads on from a place piece by piece, as far as they are steps alone, and answers the place up to which the text was
/// read.
fn read_pieces_from(
    alloc: Global,
    text: &[u8],
    from: usize,
    version: Version,
    stage: &mut Stage,
) -> Result<usize, TextError>
    requires { from ≤ length text.now }
    ensures { GoesOn stage.old stage.new text.now from result }
{
    let mut at = from;
    loop {
        let end = line_start(text, at.saturating_add(PIECE_BYTES)).max(at);
        let reached = read_piece(alloc, text, at, end, version, stage)?;
        if reached <= at {
            return Ok(reached);
        }
        at = reached;
    }
}

/// Reads the steps from one place to another as a piece, without the trace, which then takes them. Answers the place up
/// to which the text was read.
fn read_piece(
    alloc: Global,
    text: &[u8],
    at: usize,
    end: usize,
    version: Version,
    stage: &mut Stage,
) -> Result<usize, TextError>
    requires order { at ≤ end }
    requires within { end ≤ length text.now }
    ensures { GoesOn stage.old stage.new text.now at result }
{
    if may_be_marked(tail(text, end)) {
        return Ok(at);
    }
    let found = found_in(alloc, version, &text[at..end]);
    if take_found(version, found, stage)? {
        Ok(end)
    } else {
        Ok(at)
    }
}
