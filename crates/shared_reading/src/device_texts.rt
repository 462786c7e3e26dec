//! A trace text that is read from a device part by part. What the trace has taken is dropped, so that memory never
//! holds a long text and its trace.

ghost use Rattle.std.specs.Prelude.{◌≡◌, ◌≤◌, ◌<◌, ◌+◌, ℕ, List, [], Option, drop};
ghost use Rattle.std.specs.Prelude.{length, vec_len, IfOk, OnOk, IfErr, IsErrOf, IfSome};
ghost use Rattle.std.specs.Io.KnownBytes.{IsAtEnd};
ghost use Rattle.trace_text.specs.Faults.{inner_of, faults_of};
ghost use Rattle.trace_text.specs.ByteLoops.{bytes_read, faults_after_reading};
ghost use Rattle.shared_reading.specs.DeviceTexts.{IsTraceRead, IsRefusalOf, IsReadTo, IsTaken, GoesOnTo, IsGiven};

use crate::cuts::cut_leaving;
use crate::pieces::{begins_unmarked, ends_line, has_quote, tail};
use crate::progress::{Progress, fill, skip_rest};
use crate::reading::read_alone;
use crate::shared_texts::read_shared;
use std::alloc::Global;
use std::io::Read;
use std::thread::Threads;
use step_trace::Trace;
use trace_text::reading::{Stage, trace_at_end};
use trace_text::{Counting, MAX_TEXT_BYTES, TextError};

/// The number of bytes that one read asks for.
const READ_BYTES: usize = 65_536;

/// How many bytes one thread takes at once.
const PART_BYTES: usize = 1_048_576;

/// Reads a trace text to its end, and gives the trace that it encodes. With two workers and more, other threads read
/// pieces of the text. Of a long text only a part is held at once, unless it has quotes or lines that are longer than
/// that.
///
/// Refuses Read at the first fault, TooLarge once more than `MAX_TEXT_BYTES` were read, and then, with the whole text
/// read, what `read_trace` refuses. Memory may come at any step, but not once more than `MAX_TEXT_BYTES` were read.
pub fn read_trace_from<T: Threads + Sync, R: Read>(
    rt: &T,
    alloc: Global,
    reader: &mut Counting<R>,
    workers: u64,
) -> Result<Trace, TextError>
    ensures read { IfOk result (IsTraceRead (R.remaining (inner_of reader.old))) }
    ensures end { OnOk result (IsAtEnd (R.remaining (inner_of reader.new))) }
    ensures refused { IfErr result
        (λ e. IfSome (R.remaining (inner_of reader.old)) (IsRefusalOf e)) }
    ensures within { IsErrOf result TextError.Memory
        → IfSome (bytes_read (R.remaining (inner_of reader.old))
        (R.remaining (inner_of reader.new))) (λ n. n ≤ MAX_TEXT_BYTES) }
    ensures faults { faults_of reader.new ≡ faults_after_reading result (faults_of reader.old) }
{
    let Ok(mut piece) = vec![in alloc; 0u8; READ_BYTES] else {
        return Err(TextError::Memory);
    };
    read_whole_from(rt, alloc, reader, &mut piece, workers)
}

/// The same without other threads.
pub fn read_trace_by_parts<R: Read>(
    alloc: Global,
    reader: &mut Counting<R>,
) -> Result<Trace, TextError>
    ensures read { IfOk result (IsTraceRead (R.remaining (inner_of reader.old))) }
    ensures end { OnOk result (IsAtEnd (R.remaining (inner_of reader.new))) }
    ensures refused { IfErr result
        (λ e. IfSome (R.remaining (inner_of reader.old)) (IsRefusalOf e)) }
    ensures within { IsErrOf result TextError.Memory
        → IfSome (bytes_read (R.remaining (inner_of reader.old))
        (R.remaining (inner_of reader.new))) (λ n. n ≤ MAX_TEXT_BYTES) }
    ensures faults { faults_of reader.new ≡ faults_after_reading result (faults_of reader.old) }
{
    let Ok(mut piece) = vec![in alloc; 0u8; READ_BYTES] else {
        return Err(TextError::Memory);
    };
    read_parts_from(alloc, reader, &mut piece)
}

/// The same, by reads of so many bytes as the piece has.
fn read_parts_from<R: Read>(
    alloc: Global,
    reader: &mut Counting<R>,
    piece: &mut [u8],
) -> Result<Trace, TextError>
    requires room { 0 < length piece.old }
    ensures read { IfOk result (IsTraceRead (R.remaining (inner_of reader.old))) }
    ensures end { OnOk result (IsAtEnd (R.remaining (inner_of reader.new))) }
    ensures refused { IfErr result
        (λ e. IfSome (R.remaining (inner_of reader.old)) (IsRefusalOf e)) }
    ensures within { IsErrOf result TextError.Memory
        → IfSome (bytes_read (R.remaining (inner_of reader.old))
        (R.remaining (inner_of reader.new))) (λ n. n ≤ MAX_TEXT_BYTES) }
    ensures faults { faults_of reader.new ≡ faults_after_reading result (faults_of reader.old) }
{
    let mut progress = Progress {
        stage: Stage::Opening,
        total: 0,
        rest: Vec::new(alloc),
    };
    read_parts(alloc, reader, piece, &mut progress)?;
    read_rest(alloc, progress)
}

/// The whole text, by reads of so many bytes as the piece has.
fn read_whole_from<T: Threads + Sync, R: Read>(
    rt: &T,
    alloc: Global,
    reader: &mut Counting<R>,
    piece: &mut [u8],
    workers: u64,
) -> Result<Trace, TextError>
    requires room { 0 < length piece.old }
    ensures read { IfOk result (IsTraceRead (R.remaining (inner_of reader.old))) }
    ensures end { OnOk result (IsAtEnd (R.remaining (inner_of reader.new))) }
    ensures refused { IfErr result
        (λ e. IfSome (R.remaining (inner_of reader.old)) (IsRefusalOf e)) }
    ensures within { IsErrOf result TextError.Memory
        → IfSome (bytes_read (R.remaining (inner_of reader.old))
        (R.remaining (inner_of reader.new))) (λ n. n ≤ MAX_TEXT_BYTES) }
    ensures faults { faults_of reader.new ≡ faults_after_reading result (faults_of reader.old) }
{
    let mut progress = Progress {
        stage: Stage::Opening,
        total: 0,
        rest: Vec::new(alloc),
    };
    read_to_end(rt, alloc, reader, piece, workers, &mut progress)?;
    read_rest(alloc, progress)
}

/// Reads to the end, and takes in what may be taken in before that was reached.
fn read_to_end<T: Threads + Sync, R: Read>(
    rt: &T,
    alloc: Global,
    reader: &mut Counting<R>,
    piece: &mut [u8],
    workers: u64,
    progress: &mut Progress,
) -> Result<(), TextError>
    requires room { 0 < length piece.old }
    requires limit { progress.old.total ≤ MAX_TEXT_BYTES }
    ensures limit { OnOk result (progress.new.total ≤ MAX_TEXT_BYTES) }
    ensures end { OnOk result (IsAtEnd (R.remaining (inner_of reader.new))) }
    ensures goes_on { (known : Option (List ℕ))
        → IsReadTo known (R.remaining (inner_of reader.old)) [] progress.old
        → GoesOnTo known (R.remaining (inner_of reader.new)) [] progress.new result }
    ensures faults { faults_of reader.new ≡ faults_after_reading result (faults_of reader.old) }
{
    if workers > 1 && read_shared(rt, alloc, reader, piece, workers, progress)? {
        return Ok(());
    }
    read_parts(alloc, reader, piece, progress)
}

/// Reads to the end, and takes part after part, as far as the text can be cut.
fn read_parts<R: Read>(
    alloc: Global,
    reader: &mut Counting<R>,
    piece: &mut [u8],
    progress: &mut Progress,
) -> Result<(), TextError>
    requires room { 0 < length piece.old }
    requires limit { progress.old.total ≤ MAX_TEXT_BYTES }
    ensures limit { OnOk result (progress.new.total ≤ MAX_TEXT_BYTES) }
    ensures end { OnOk result (IsAtEnd (R.remaining (inner_of reader.new))) }
    ensures goes_on { (known : Option (List ℕ))
        → IsReadTo known (R.remaining (inner_of reader.old)) [] progress.old
        → GoesOnTo known (R.remaining (inner_of reader.new)) [] progress.new result }
    ensures faults { faults_of reader.new ≡ faults_after_reading result (faults_of reader.old) }
{
    let mut room = PART_BYTES;
    while !fill(reader, piece, progress, room)? {
        if !take_part(alloc, reader, piece, progress)? {
            // (it can't be cut here, so it is read whole)
            room = MAX_TEXT_BYTES;
        }
    }
    Ok(())
}

/// Takes the lines of what was read, and drops them; answers whether there were any. If one is refused, the rest of the
/// text is still read, since it may be too large.
pub(crate) fn take_part<R: Read>(
    alloc: Global,
    reader: &mut Counting<R>,
    piece: &mut [u8],
    progress: &mut Progress,
) -> Result<bool, TextError>
    requires room { 0 < length piece.old }
    requires limit { progress.old.total ≤ MAX_TEXT_BYTES }
    ensures room { length piece.new ≡ length piece.old }
    ensures total { OnOk result (progress.new.total ≡ progress.old.total) }
    ensures goes_on { (known : Option (List ℕ))
        → IsReadTo known (R.remaining (inner_of reader.old)) [] progress.old
        → GoesOnTo known (R.remaining (inner_of reader.new)) [] progress.new result }
    ensures faults { faults_of reader.new ≡ faults_after_reading result (faults_of reader.old) }
{
    match take_front(alloc, &progress.rest, &mut progress.stage) {
        Ok(cut) => {
            remove_front(&mut progress.rest, cut);
            Ok(cut > 0)
        }
        Err(why) => {
            skip_rest(reader, piece, progress.total)?;
            Err(why)
        }
    }
}

/// Takes the front of the rest of a text, up to the end of a line, if the text may be cut off there; answers how many
/// bytes it has.
fn take_front(alloc: Global, rest: &[u8], stage: &mut Stage) -> Result<usize, TextError>
    ensures { IsTaken stage.old stage.new rest.now result }
{
    let cut = cut_leaving(rest, 1);
    let front = &rest[..cut];
    if has_quote(front) {
        return Ok(0);
    }
    if !ends_line(front) {
        return Ok(0);
    }
    if !begins_unmarked(tail(rest, cut)) {
        return Ok(0);
    }
    read_alone(alloc, front, stage)?;
    Ok(cut)
}

/// Drops the first bytes, and moves the others to the front.
fn remove_front(bytes: &mut Vec<u8>, count: usize)
    requires { count ≤ vec_len bytes.old }
    ensures items { bytes.new.items ≡ drop count bytes.old.items }
    ensures len { vec_len bytes.new + count ≡ vec_len bytes.old }
{
    let len = bytes.len();
    bytes.as_mut_slice().copy_within(count..len, 0);
    bytes.truncate(len - count);
}

/// The trace of a text that was read to its end.
fn read_rest(alloc: Global, progress: Progress) -> Result<Trace, TextError>
    requires limit { progress.total ≤ MAX_TEXT_BYTES }
    ensures { (known left : Option (List ℕ)) → IsReadTo known left [] progress → IsAtEnd left
        → IsGiven known result }
{
    let Progress {
        mut stage,
        rest,
        ..
    } = progress;
    read_alone(alloc, &rest, &mut stage)?;
    trace_at_end(stage)
}
