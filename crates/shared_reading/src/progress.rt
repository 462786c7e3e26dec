//! How far a text was read from a device, and the reading of its bytes.

ghost use Rattle.std.specs.Prelude.{◌≡◌, ◌≤◌, ◌<◌, ◌+◌, ℕ, List, Option, take, length, true, false, IfOk, OnOk, IfErr};
ghost use Rattle.std.specs.Io.KnownBytes.{Consumes, IsAtEnd};
ghost use Rattle.trace_text.specs.Faults.{inner_of, faults_of};
ghost use Rattle.trace_text.specs.ByteLoops.{faults_after_reading};
ghost use Rattle.shared_reading.specs.DeviceTexts.{IsReadTo, GoesOnTo, IsUnread, IsReadOut};

use std::io::Read;
use trace_text::reading::Stage;
use trace_text::{Counting, MAX_TEXT_BYTES, TextError};

/// How far a text was read from a device.
#[derive(Drop)]
pub(crate) struct Progress {
    /// Where the records of the dropped bytes lead.
    pub(crate) stage: Stage,
    /// How many bytes were read.
    pub(crate) total: usize,
    /// The last bytes that were read: nobody has looked at them.
    pub(crate) rest: Vec<u8>,
}

/// Reads so many bytes more, or to the end, and answers whether that was reached.
pub(crate) fn fill<R: Read>(
    reader: &mut Counting<R>,
    piece: &mut [u8],
    progress: &mut Progress,
    room: usize,
) -> Result<bool, TextError>
    requires room { 0 < length piece.old }
    requires some { 0 < room }
    requires limit { progress.old.total ≤ MAX_TEXT_BYTES }
    ensures room { length piece.new ≡ length piece.old }
    ensures limit { OnOk result (progress.new.total ≤ MAX_TEXT_BYTES) }
    ensures end { IfOk result (λ ended. ended ≡ true
        → IsAtEnd (R.remaining (inner_of reader.new))) }
    ensures more { IfOk result (λ ended. ended ≡ false → progress.old.total < progress.new.total) }
    ensures goes_on { (known : Option (List ℕ)) (before : List ℕ)
        → IsReadTo known (R.remaining (inner_of reader.old)) before progress.old
        → GoesOnTo known (R.remaining (inner_of reader.new)) before progress.new result }
    ensures faults { faults_of reader.new ≡ faults_after_reading result (faults_of reader.old) }
{
    let until = progress.rest.len().saturating_add(room);
    while progress.rest.len() < until {
        let count = read_once(reader, piece, progress.total)?;
        if count == 0 {
            return Ok(true);
        }
        if progress.rest.extend_from_slice(&piece[..count]).is_err() {
            return Err(TextError::Memory);
        }
        progress.total += count;
    }
    Ok(false)
}

/// Reads once, after so many bytes.
fn read_once<R: Read>(
    reader: &mut Counting<R>,
    piece: &mut [u8],
    total: usize,
) -> Result<usize, TextError>
    requires room { 0 < length piece.old }
    requires limit { total ≤ MAX_TEXT_BYTES }
    ensures room { length piece.new ≡ length piece.old }
    ensures bound { IfOk result (λ count. count ≤ length piece.new) }
    ensures limit { IfOk result (λ count. total + count ≤ MAX_TEXT_BYTES) }
    ensures bytes { IfOk result
        (λ count. Consumes (R.remaining (inner_of reader.old)) (R.remaining (inner_of reader.new))
        (take count piece.new)) }
    ensures end { IfOk result (λ count. count ≡ 0 → IsAtEnd (R.remaining (inner_of reader.new))) }
    ensures refused { IfErr result
        (IsUnread total (R.remaining (inner_of reader.old)) (R.remaining (inner_of reader.new))) }
    ensures faults { faults_of reader.new ≡ faults_after_reading result (faults_of reader.old) }
{
    let Ok(count) = reader.read(piece) else {
        return Err(TextError::Read);
    };
    if count > MAX_TEXT_BYTES - total {
        return Err(TextError::TooLarge);
    }
    Ok(count)
}

/// Reads to the end, after so many bytes, and keeps nothing.
pub(crate) fn skip_rest<R: Read>(
    reader: &mut Counting<R>,
    piece: &mut [u8],
    total: usize,
) -> Result<(), TextError>
    requires room { 0 < length piece.old }
    requires limit { total ≤ MAX_TEXT_BYTES }
    ensures room { length piece.new ≡ length piece.old }
    ensures whole { OnOk result
        (IsReadOut total (R.remaining (inner_of reader.old)) (R.remaining (inner_of reader.new))) }
    ensures refused { IfErr result
        (IsUnread total (R.remaining (inner_of reader.old)) (R.remaining (inner_of reader.new))) }
    ensures faults { faults_of reader.new ≡ faults_after_reading result (faults_of reader.old) }
{
    let mut total = total;
    loop {
        let count = read_once(reader, piece, total)?;
        if count == 0 {
            return Ok(());
        }
        total += count;
    }
}
