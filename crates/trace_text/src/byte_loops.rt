//! Reading to the end within a limit, and writing a whole text.

ghost use Rattle.std.specs.Prelude.{◌≡◌, ◌+◌, ◌≤◌, IfOk, OnOk, IfErr, OnErr, IsOk, IsErrOf, IfSome, is_ok, vec_len};
ghost use Rattle.std.specs.Io.KnownBytes.{Appends, IsAtEnd};
ghost use Rattle.trace_text.specs.Faults.{inner_of, faults_of, idle_writes_of, reads_of, is_flushed, Rose};
ghost use Rattle.trace_text.specs.ByteLoops.{IsReadRefusal, ReadRefusedFor, bytes_read, faults_after_reading};
ghost use Rattle.trace_text.specs.ByteLoops.{WroteFront, WasFaultless, MetOneFault};

use crate::counting::Counting;
use crate::refusals::{TextError, WriteError};
use std::alloc::Global;
use std::io::{Read, Write};

/// The greatest number of bytes of a text, 64 MiB.
pub const MAX_TEXT_BYTES: usize = 67_108_864;

/// The number of bytes that one read asks for.
const PIECE_BYTES: usize = 65_536;

/// All bytes that the reader has left, if they are at most `MAX_TEXT_BYTES`.
///
/// Each read before the last brings at least one byte, so at most `MAX_TEXT_BYTES + 2` reads are made.
/// A refusal doesn't say how much was read before it.
///
/// Refusals, in the order in which they occur: TooLarge once more than `MAX_TEXT_BYTES` bytes were
/// read; Read at the first fault, of any kind; Memory, which comes before both: no more than
/// `MAX_TEXT_BYTES` bytes were read then, no read failed, and none found the end.
pub fn read_all<R: Read>(alloc: Global, reader: &mut Counting<R>) -> Result<Vec<u8>, TextError>
    ensures text { IfOk result (λ text.
        IfSome (R.remaining (inner_of reader.old)) (λ xs. text.items ≡ xs)) }
    ensures end { OnOk result (IsAtEnd (R.remaining (inner_of reader.new))) }
    ensures limit { IfOk result (λ text. vec_len text ≤ MAX_TEXT_BYTES) }
    ensures refusals { IfErr result IsReadRefusal }
    ensures cause { IfErr result
        (λ e. ReadRefusedFor e (faults_of reader.old) (faults_of reader.new)
        (R.remaining (inner_of reader.old))) }
    ensures within { IsErrOf result TextError.Memory
        → IfSome (bytes_read (R.remaining (inner_of reader.old))
        (R.remaining (inner_of reader.new)))
        (λ n. n ≤ MAX_TEXT_BYTES) }
    ensures more { IsErrOf result TextError.Memory
        → IfSome (bytes_read (R.remaining (inner_of reader.old))
        (R.remaining (inner_of reader.new)))
        (λ n. reads_of reader.new ≤ reads_of reader.old + n) }
    ensures reads { reads_of reader.new ≤ reads_of reader.old + (MAX_TEXT_BYTES + 2) }
    ensures faults { faults_of reader.new ≡ faults_after_reading result (faults_of reader.old) }
{
    let Ok(mut piece) = vec![in alloc; 0u8; PIECE_BYTES] else {
        return Err(TextError::Memory);
    };
    let mut text = Vec::new(alloc);
    for _ in 0..MAX_TEXT_BYTES + 2 {
        let Ok(count) = reader.read(&mut piece) else {
            return Err(TextError::Read);
        };
        if count == 0 {
            return Ok(text);
        }
        if count > MAX_TEXT_BYTES - text.len() {
            return Err(TextError::TooLarge);
        }
        if text.extend_from_slice(&piece[..count]).is_err() {
            return Err(TextError::Memory);
        }
    }
    unreachable!()
}

/// Writes the whole text, and flushes. It stops at the first fault, of any kind, and at the first write
/// that takes no byte.
///
/// Refusal: Write with the number of bytes that went out before, the text's first; it is the length of
/// the text if the flush failed. Memory isn't answered.
pub fn write_text<W: Write>(text: &[u8], writer: &mut Counting<W>) -> Result<(), WriteError>
    ensures whole { OnOk result
        (Appends (W.contents (inner_of writer.old)) (W.contents (inner_of writer.new)) text.now) }
    ensures flushed { is_flushed writer.new ≡ is_ok result }
    ensures faultless { OnOk result (WasFaultless writer.old writer.new) }
    ensures part { IfErr result (λ e. WroteFront e text.now
        (W.contents (inner_of writer.old)) (W.contents (inner_of writer.new))) }
    ensures one_fault { OnErr result (MetOneFault writer.old writer.new) }
    ensures succeeds { ¬ Rose (faults_of writer.old) (faults_of writer.new)
        → ¬ Rose (idle_writes_of writer.old) (idle_writes_of writer.new) → IsOk result }
{
    let mut written = 0;
    while written < text.len() {
        let Ok(taken) = writer.write(&text[written..]) else {
            return Err(WriteError::Write(written as u64));
        };
        if taken == 0 {
            return Err(WriteError::Write(written as u64));
        }
        written += taken;
    }
    match writer.flush() {
        Ok(()) => Ok(()),
        Err(_) => Err(WriteError::Write(written as u64)),
    }
}
