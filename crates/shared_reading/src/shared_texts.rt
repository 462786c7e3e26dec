//! A trace text that is read from a device, of which other threads read pieces.
//!
//! One thread reads the bytes, cuts them behind the ends of lines, and gives each piece to a thread of its own. It
//! takes the steps of the oldest piece once they are read; besides that one, as many pieces are under way as there are
//! workers.

ghost use Rattle.std.specs.Prelude.{◌≡◌, ◌≤◌, ◌<◌, ◌++◌, ℕ, List, [], Option, take};
ghost use Rattle.std.specs.Prelude.{drop, length, vec_len, true, IfOk, OnOk, IfErr};
ghost use Rattle.std.specs.VecDeque.{deque_len};
ghost use Rattle.std.specs.Io.KnownBytes.{IsAtEnd};
ghost use Rattle.trace_text.specs.Faults.{inner_of, faults_of};
ghost use Rattle.trace_text.specs.ByteLoops.{faults_after_reading};
ghost use Rattle.shared_reading.specs.DeviceTexts.{IsReadTo, GoesOnTo};
ghost use Rattle.shared_reading.specs.UnderWay.{IsMoved, bytes_of};

use crate::cuts::{TAIL_BYTES, cut_leaving};
use crate::device_texts::take_part;
use crate::pieces::{begins_unmarked, take_found};
use crate::progress::{Progress, fill, skip_rest};
use crate::read_pieces::ReadPiece;
use crate::under_way::UnderWay;
use std::alloc::Global;
use std::collections::VecDeque;
use std::io::Read;
use std::mem;
use std::thread::Threads;
use trace_text::reading::Stage;
use trace_text::versions::Version;
use trace_text::{Counting, MAX_TEXT_BYTES, TextError};

/// How many bytes are read before the first piece: the header and the initial values are among them.
const HEAD_BYTES: usize = 65_536;

/// The least number of bytes of a piece. To start a thread takes as long as to read some thousand bytes.
const LEAST_PIECE_BYTES: usize = 131_072;

/// The greatest number of bytes of a piece. The last pieces of a text are waited for.
const GREATEST_PIECE_BYTES: usize = 1_048_576;

/// How many bytes the pieces under way have together at most, but for one.
const UNDER_WAY_BYTES: usize = 8_388_608;

/// Reads on by pieces that other threads read, and answers whether the end was reached. What can't be read so is left.
pub(crate) fn read_shared<T: Threads, R: Read>(
    rt: &T,
    alloc: Global,
    reader: &mut Counting<R>,
    piece: &mut [u8],
    workers: u64,
    progress: &mut Progress,
) -> Result<bool, TextError>
    requires room { 0 < length piece.old }
    requires limit { progress.old.total ≤ MAX_TEXT_BYTES }
    ensures room { length piece.new ≡ length piece.old }
    ensures limit { OnOk result (progress.new.total ≤ MAX_TEXT_BYTES) }
    ensures end { IfOk result (λ ended. ended ≡ true
        → IsAtEnd (R.remaining (inner_of reader.new))) }
    ensures goes_on { (known : Option (List ℕ))
        → IsReadTo known (R.remaining (inner_of reader.old)) [] progress.old
        → GoesOnTo known (R.remaining (inner_of reader.new)) [] progress.new result }
    ensures faults { faults_of reader.new ≡ faults_after_reading result (faults_of reader.old) }
{
    if fill(reader, piece, progress, HEAD_BYTES)? {
        return Ok(true);
    }
    if !take_part(alloc, reader, piece, progress)? {
        return Ok(false);
    }
    let version = match &progress.stage {
        Stage::Recording(version, _) => *version,
        _ => return Ok(false),
    };
    read_pieces(rt, alloc, reader, piece, workers, version, progress)
}

/// The same from where the steps of this version begin.
fn read_pieces<T: Threads, R: Read>(
    rt: &T,
    alloc: Global,
    reader: &mut Counting<R>,
    piece: &mut [u8],
    workers: u64,
    version: Version,
    progress: &mut Progress,
) -> Result<bool, TextError>
    requires room { 0 < length piece.old }
    requires limit { progress.old.total ≤ MAX_TEXT_BYTES }
    ensures room { length piece.new ≡ length piece.old }
    ensures limit { OnOk result (progress.new.total ≤ MAX_TEXT_BYTES) }
    ensures end { IfOk result (λ ended. ended ≡ true
        → IsAtEnd (R.remaining (inner_of reader.new))) }
    ensures goes_on { (known : Option (List ℕ))
        → IsReadTo known (R.remaining (inner_of reader.old)) [] progress.old
        → GoesOnTo known (R.remaining (inner_of reader.new)) [] progress.new result }
    ensures faults { faults_of reader.new ≡ faults_after_reading result (faults_of reader.old) }
{
    let mut under_way = VecDeque::new(alloc);
    let read = start_and_take(
        rt,
        alloc,
        reader,
        piece,
        workers,
        version,
        progress,
        &mut under_way,
    );
    wait_for(rt, under_way);
    read
}

/// Waits for the threads that are left if reading was refused.
fn wait_for<T: Threads>(rt: &T, under_way: VecDeque<UnderWay>) {
    for piece in under_way {
        let _read = piece.join(rt);
    }
}

/// Gives pieces to threads, and takes them all, in their order.
fn start_and_take<T: Threads, R: Read>(
    rt: &T,
    alloc: Global,
    reader: &mut Counting<R>,
    piece: &mut [u8],
    workers: u64,
    version: Version,
    progress: &mut Progress,
    under_way: &mut VecDeque<UnderWay>,
) -> Result<bool, TextError>
    requires room { 0 < length piece.old }
    requires limit { progress.old.total ≤ MAX_TEXT_BYTES }
    ensures room { length piece.new ≡ length piece.old }
    ensures limit { OnOk result (progress.new.total ≤ MAX_TEXT_BYTES) }
    ensures end { IfOk result (λ ended. ended ≡ true
        → IsAtEnd (R.remaining (inner_of reader.new))) }
    ensures goes_on { (known : Option (List ℕ))
        → IsReadTo known (R.remaining (inner_of reader.old)) (bytes_of under_way.old.items)
        progress.old → GoesOnTo known (R.remaining (inner_of reader.new)) [] progress.new result }
    ensures faults { faults_of reader.new ≡ faults_after_reading result (faults_of reader.old) }
{
    let ended = start_all(
        rt, alloc, reader, piece, workers, version, progress, under_way,
    )?;
    take_all(rt, reader, piece, progress, under_way)?;
    Ok(ended)
}

/// Gives pieces to threads up to the end of the text, or to where it can't be cut, and takes the oldest one if enough
/// are under way. Answers whether the end was reached.
fn start_all<T: Threads, R: Read>(
    rt: &T,
    alloc: Global,
    reader: &mut Counting<R>,
    piece: &mut [u8],
    workers: u64,
    version: Version,
    progress: &mut Progress,
    under_way: &mut VecDeque<UnderWay>,
) -> Result<bool, TextError>
    requires room { 0 < length piece.old }
    requires limit { progress.old.total ≤ MAX_TEXT_BYTES }
    ensures room { length piece.new ≡ length piece.old }
    ensures limit { OnOk result (progress.new.total ≤ MAX_TEXT_BYTES) }
    ensures end { IfOk result (λ ended. ended ≡ true
        → IsAtEnd (R.remaining (inner_of reader.new))) }
    ensures goes_on { (known : Option (List ℕ))
        → IsReadTo known (R.remaining (inner_of reader.old))
        (bytes_of under_way.old.items) progress.old → GoesOnTo known
        (R.remaining (inner_of reader.new)) (bytes_of under_way.new.items) progress.new result }
    ensures faults { faults_of reader.new ≡ faults_after_reading result (faults_of reader.old) }
{
    loop {
        let room = piece_bytes(workers, progress.total);
        let ended = fill(reader, piece, progress, room)?;
        if !start_piece(rt, alloc, version, room, progress, under_way)? {
            return Ok(ended);
        }
        if ended {
            return Ok(true);
        }
        if under_way.len() as u64 > workers {
            if !take_oldest(rt, reader, piece, progress, under_way)? {
                return Ok(false);
            }
        }
    }
}

/// The number of bytes of the next piece, with so many workers, once so many bytes were read. The first pieces are
/// short, so that the first steps are soon there to be taken.
fn piece_bytes(workers: u64, total: usize) -> usize
    ensures { 0 < result }
{
    let share = UNDER_WAY_BYTES / (workers as usize).max(1);
    let most = share.min(GREATEST_PIECE_BYTES).max(1);
    (total / 2).max(LEAST_PIECE_BYTES).min(most)
}

/// A thread reads the front of the rest, up to the end of a line, if it can be cut; answers whether one does.
fn start_piece<T: Threads>(
    rt: &T,
    alloc: Global,
    version: Version,
    room: usize,
    progress: &mut Progress,
    under_way: &mut VecDeque<UnderWay>,
) -> Result<bool, TextError>
    ensures moved { OnOk result
        (IsMoved progress.old (bytes_of under_way.old.items) progress.new
        (bytes_of under_way.new.items)) }
    ensures memory { IfErr result (λ e. e ≡ TextError.Memory) }
{
    let cut = cut_leaving(&progress.rest, TAIL_BYTES);
    if !begins_unmarked(&progress.rest[..cut]) {
        return Ok(false);
    }
    let Ok(()) = under_way.reserve(1) else {
        return Err(TextError::Memory);
    };
    let bytes = cut_off(alloc, &mut progress.rest, cut, room)?;
    match UnderWay::start(rt, alloc, version, bytes) {
        Ok(piece) => {
            under_way.push_back_reserved(piece);
            Ok(true)
        }
        Err(bytes) => {
            put_before(bytes, &mut progress.rest)?;
            Ok(false)
        }
    }
}

/// Cuts off the first bytes. Those behind them get room for so many more.
fn cut_off(
    alloc: Global,
    bytes: &mut Vec<u8>,
    cut: usize,
    room: usize,
) -> Result<Vec<u8>, TextError>
    requires { cut ≤ vec_len bytes.old }
    ensures front { IfOk result (λ front. front.items ≡ take cut bytes.old.items) }
    ensures rest { OnOk result (bytes.new.items ≡ drop cut bytes.old.items) }
    ensures memory { IfErr result (λ e. e ≡ TextError.Memory) }
{
    let left = bytes.len() - cut;
    let Ok(mut rest) = Vec::with_capacity(
        alloc,
        left.saturating_add(room).saturating_add(HEAD_BYTES),
    ) else {
        return Err(TextError::Memory);
    };
    if rest.extend_from_slice(&bytes[cut..]).is_err() {
        return Err(TextError::Memory);
    }
    bytes.truncate(cut);
    Ok(mem::replace(bytes, rest))
}

/// Puts these bytes before others.
fn put_before(front: Vec<u8>, bytes: &mut Vec<u8>) -> Result<(), TextError>
    ensures ok { OnOk result (bytes.new.items ≡ front.items ++ bytes.old.items) }
    ensures memory { IfErr result (λ e. e ≡ TextError.Memory) }
{
    let mut all = front;
    if all.extend_from_slice(bytes).is_err() {
        return Err(TextError::Memory);
    }
    *bytes = all;
    Ok(())
}

/// Takes all pieces under way, in their order. From the first on that can't be read alone they are put back.
fn take_all<T: Threads, R: Read>(
    rt: &T,
    reader: &mut Counting<R>,
    piece: &mut [u8],
    progress: &mut Progress,
    under_way: &mut VecDeque<UnderWay>,
) -> Result<(), TextError>
    requires room { 0 < length piece.old }
    requires limit { progress.old.total ≤ MAX_TEXT_BYTES }
    ensures room { length piece.new ≡ length piece.old }
    ensures total { OnOk result (progress.new.total ≡ progress.old.total) }
    ensures same { OnOk result
        (R.remaining (inner_of reader.new) ≡ R.remaining (inner_of reader.old)) }
    ensures goes_on { (known : Option (List ℕ))
        → IsReadTo known (R.remaining (inner_of reader.old)) (bytes_of under_way.old.items)
        progress.old → GoesOnTo known (R.remaining (inner_of reader.new)) [] progress.new result }
    ensures faults { faults_of reader.new ≡ faults_after_reading result (faults_of reader.old) }
{
    while under_way.len() > 0 {
        take_oldest(rt, reader, piece, progress, under_way)?;
    }
    Ok(())
}

/// Takes the steps of the oldest piece under way, once they are read; answers whether it did. If they depend on what
/// comes before or behind, all pieces are put back before the rest. If one is refused, the rest of the text is still
/// read, since it may be too large.
fn take_oldest<T: Threads, R: Read>(
    rt: &T,
    reader: &mut Counting<R>,
    piece: &mut [u8],
    progress: &mut Progress,
    under_way: &mut VecDeque<UnderWay>,
) -> Result<bool, TextError>
    requires room { 0 < length piece.old }
    requires limit { progress.old.total ≤ MAX_TEXT_BYTES }
    requires some { 0 < deque_len under_way.old }
    ensures room { length piece.new ≡ length piece.old }
    ensures total { OnOk result (progress.new.total ≡ progress.old.total) }
    ensures same { OnOk result
        (R.remaining (inner_of reader.new) ≡ R.remaining (inner_of reader.old)) }
    ensures fewer { OnOk result (deque_len under_way.new < deque_len under_way.old) }
    ensures goes_on { (known : Option (List ℕ))
        → IsReadTo known (R.remaining (inner_of reader.old))
        (bytes_of under_way.old.items) progress.old → GoesOnTo known
        (R.remaining (inner_of reader.new)) (bytes_of under_way.new.items) progress.new result }
    ensures faults { faults_of reader.new ≡ faults_after_reading result (faults_of reader.old) }
{
    let Some(oldest) = under_way.pop_front() else {
        unreachable!();
    };
    let ReadPiece {
        bytes,
        version,
        found,
    } = oldest.join(rt);
    if !begins_unmarked(&progress.rest) {
        put_back(rt, bytes, under_way, &mut progress.rest)?;
        return Ok(false);
    }
    match take_found(version, found, &mut progress.stage) {
        Ok(true) => Ok(true),
        Ok(false) => {
            put_back(rt, bytes, under_way, &mut progress.rest)?;
            Ok(false)
        }
        Err(why) => {
            skip_rest(reader, piece, progress.total)?;
            Err(why)
        }
    }
}

/// Puts these bytes, and behind them all pieces under way, before the rest.
fn put_back<T: Threads>(
    rt: &T,
    bytes: Vec<u8>,
    under_way: &mut VecDeque<UnderWay>,
    rest: &mut Vec<u8>,
) -> Result<(), TextError>
    ensures none { OnOk result (under_way.new.items ≡ []) }
    ensures rest { OnOk result
        (rest.new.items ≡ (bytes.items ++ bytes_of under_way.old.items) ++ rest.old.items) }
    ensures memory { IfErr result (λ e. e ≡ TextError.Memory) }
{
    let mut all = bytes;
    while let Some(next) = under_way.pop_front() {
        let read = next.join(rt);
        if all.extend_from_slice(&read.bytes).is_err() {
            return Err(TextError::Memory);
        }
    }
    put_before(all, rest)
}
