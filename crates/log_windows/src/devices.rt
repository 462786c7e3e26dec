//! The records of a text of any length, read from a device part by part. What was taken in is dropped.

ghost use Rattle.std.specs.Prelude.{◌≡◌, ◌≤◌, ◌<◌, [], ◌∷◌, ◌++◌, ℕ, List, Option, drop, take};
ghost use Rattle.std.specs.Prelude.{length, true, false, IfOk, OnOk, IfErr, IfSome};
ghost use Rattle.std.specs.Io.KnownBytes.{IsAtEnd};
ghost use Rattle.csv.specs.Reading.{strip_bom};
ghost use Rattle.trace_text.specs.Faults.{inner_of, faults_of};
ghost use Rattle.log_windows.specs.Devices.{GoesOnTo, Grew, IsFrontTaken, IsReadTo, IsRowRefusal};
ghost use Rattle.log_windows.specs.Devices.{IsUnfilled, IsWholeRead, faults_after_rows};

use crate::seams::seam_len;
use event_log::{LogError, TakeRows, take_rows};
use std::alloc::Global;
use std::io::Read;
use trace_text::{Counting, MAX_TEXT_BYTES};

/// The number of bytes that one read asks for.
const READ_BYTES: usize = 65_536;

/// How many bytes are read before records are taken in.
const PART_BYTES: usize = 1_048_576;

/// csv's reader goes past it at the start of a text.
const BYTE_ORDER_MARK: [u8; 3] = [0xEF, 0xBB, 0xBF];

/// Why a window isn't read.
#[derive(Debug, Drop)]
pub enum WindowError {
    /// The device can't be read.
    Read,
    /// The log is refused, or out of memory.
    Log(LogError),
}

impl From<LogError> for WindowError {
    ghost use Rattle.log_windows.specs.declared.devices.WindowError.TheVariants as unread;

    ghost from_gives = { λ why made. made ≡ unread.Log why };

    fn from(why: LogError) -> WindowError {
        WindowError::Log(why)
    }
}

/// Takes in all records of the text that a device has left, of any length. The first record that is refused decides.
/// TooLarge decides if more than `MAX_TEXT_BYTES` were read of a record, and not its end.
///
/// Refuses Read at the first fault. Memory may come at any step.
pub(crate) fn take_rows_from<R: Read, T: TakeRows>(
    alloc: Global,
    reader: &mut Counting<R>,
    taker: &mut T,
) -> Result<(), WindowError>
    ensures read { OnOk result
        (IsWholeRead T.next taker.old taker.new (R.remaining (inner_of reader.old))) }
    ensures end { OnOk result (IsAtEnd (R.remaining (inner_of reader.new))) }
    ensures refused { IfErr result
        (λ e. IfSome (R.remaining (inner_of reader.old)) (IsRowRefusal T.next taker.old e)) }
    ensures faults { faults_of reader.new ≡ faults_after_rows result (faults_of reader.old) }
{
    let Ok(mut piece) = vec![in alloc; 0u8; READ_BYTES] else {
        return Err(WindowError::Log(LogError::Memory));
    };
    let Ok(mut rest) = Vec::from_slice(alloc, b"\n") else {
        return Err(WindowError::Log(LogError::Memory));
    };
    take_all(alloc, reader, &mut piece, &mut rest, taker)
}

/// The same, by reads of so many bytes as the piece has. The bytes that were read are kept after a line feed, so that
/// no byte order mark that begins a part is passed over.
fn take_all<R: Read, T: TakeRows>(
    alloc: Global,
    reader: &mut Counting<R>,
    piece: &mut [u8],
    rest: &mut Vec<u8>,
    taker: &mut T,
) -> Result<(), WindowError>
    requires room { 0 < length piece.old }
    requires none { rest.old.items ≡ 10 ∷ [] }
    ensures read { OnOk result
        (IsWholeRead T.next taker.old taker.new (R.remaining (inner_of reader.old))) }
    ensures end { OnOk result (IsAtEnd (R.remaining (inner_of reader.new))) }
    ensures refused { IfErr result
        (λ e. IfSome (R.remaining (inner_of reader.old)) (IsRowRefusal T.next taker.old e)) }
    ensures faults { faults_of reader.new ≡ faults_after_rows result (faults_of reader.old) }
{
    if fill(reader, piece, rest, PART_BYTES)? {
        take_rows(alloc, behind_line(rest), taker)?;
        return Ok(());
    }
    remove_mark(rest);
    take_parts(alloc, reader, piece, rest, taker)?;
    take_rows(alloc, rest, taker)?;
    Ok(())
}

/// The bytes after the line feed.
fn behind_line(rest: &[u8]) -> &[u8]
    ensures { result.now ≡ drop 1 rest.now }
{
    if rest.len() == 0 {
        return &[];
    }
    &rest[1..]
}

/// Reads to the end, and takes in part after part. Refuses TooLarge if a record has more than `MAX_TEXT_BYTES`.
fn take_parts<R: Read, T: TakeRows>(
    alloc: Global,
    reader: &mut Counting<R>,
    piece: &mut [u8],
    rest: &mut Vec<u8>,
    taker: &mut T,
) -> Result<(), WindowError>
    requires room { 0 < length piece.old }
    ensures end { OnOk result (IsAtEnd (R.remaining (inner_of reader.new))) }
    ensures goes_on { (start : T) (known : Option (List ℕ))
        → IsReadTo T.next start known (R.remaining (inner_of reader.old)) rest.old.items taker.old
        → GoesOnTo T.next start known (R.remaining (inner_of reader.new)) rest.new.items
        taker.new result }
    ensures faults { faults_of reader.new ≡ faults_after_rows result (faults_of reader.old) }
{
    for _ in 0..u64::MAX {
        take_front(alloc, rest, taker)?;
        if rest.len() > MAX_TEXT_BYTES + 1 {
            return Err(WindowError::Log(LogError::TooLarge));
        }
        let room = rest.len() + PART_BYTES;
        if fill(reader, piece, rest, room)? {
            return Ok(());
        }
    }
    Err(WindowError::Log(LogError::Memory))
}

/// Reads until there are so many bytes, or to the end, and answers whether that was reached.
fn fill<R: Read>(
    reader: &mut Counting<R>,
    piece: &mut [u8],
    rest: &mut Vec<u8>,
    room: usize,
) -> Result<bool, WindowError>
    requires { 0 < length piece.old }
    ensures room { length piece.new ≡ length piece.old }
    ensures bytes { OnOk result
        (Grew (R.remaining (inner_of reader.old)) (R.remaining (inner_of reader.new)) rest.old.items
        rest.new.items) }
    ensures end { IfOk result (λ ended. ended ≡ true
        → IsAtEnd (R.remaining (inner_of reader.new))) }
    ensures full { IfOk result (λ ended. ended ≡ false → room ≤ length rest.new.items) }
    ensures refused { IfErr result IsUnfilled }
    ensures faults { faults_of reader.new ≡ faults_after_rows result (faults_of reader.old) }
{
    while rest.len() < room {
        let Ok(count) = reader.read(piece) else {
            return Err(WindowError::Read);
        };
        if count == 0 {
            return Ok(true);
        }
        if rest.extend_from_slice(&piece[..count]).is_err() {
            return Err(WindowError::Log(LogError::Memory));
        }
    }
    Ok(false)
}

/// Takes in the whole records after the line feed, and drops them. The others are behind the line feed then.
fn take_front<T: TakeRows>(alloc: Global, rest: &mut Vec<u8>, taker: &mut T) -> Result<(), LogError>
    ensures { (bytes : List ℕ) → rest.old.items ≡ 10 ∷ bytes
        → IsFrontTaken T.next taker.old taker.new bytes rest.new.items result }
{
    let cut = seam_len(rest);
    if cut == 0 {
        return Ok(());
    }
    take_rows(alloc, &rest[..cut], taker)?;
    remove_after_first(rest, cut);
    Ok(())
}

/// Drops the byte order mark after the line feed, if there is one.
fn remove_mark(rest: &mut Vec<u8>)
    ensures { (bytes : List ℕ) → rest.old.items ≡ 10 ∷ bytes → 3 ≤ length bytes
        → rest.new.items ≡ 10 ∷ strip_bom bytes }
{
    if behind_line(rest).starts_with(&BYTE_ORDER_MARK) {
        remove_after_first(rest, 4);
    }
}

/// Drops the bytes before a place but the first one.
fn remove_after_first(bytes: &mut Vec<u8>, end: usize)
    requires some { 0 < end }
    requires within { end ≤ length bytes.old.items }
    ensures { bytes.new.items ≡ take 1 bytes.old.items ++ drop end bytes.old.items }
{
    let len = bytes.len();
    bytes.as_mut_slice().copy_within(end..len, 1);
    bytes.truncate(len - end + 1);
}
