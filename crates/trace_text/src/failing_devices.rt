//! A reader and a writer for tests that fail at a chosen place, and count the calls that reach them.

ghost use Rattle.std.specs.Prelude.{◌≡◌, ◌<◌, [], length, take, drop, None, Some, unwrap_or};
ghost use Rattle.std.specs.Prelude.{IfOk, IfErr, OnOk, OnErr, MatchResult};
ghost use Rattle.std.specs.Io.{ReadsAtMost, WritesAtMost};
ghost use Rattle.std.specs.Io.KnownBytes.{ReadConsumes, WriteAppends, Keeps};
ghost use Rattle.std.specs.IoError.{error_kind};
ghost use Rattle.std.specs.declared.io.ErrorKind.TheVariants.{OutOfMemory};
ghost use Rattle.trace_text.specs.Faults.{one_more};
ghost use Rattle.trace_text.specs.FailingDevices.{known_bytes, held_by, left_in, read_piece_of, read_count, next_bytes};
ghost use Rattle.trace_text.specs.FailingDevices.{after_of, read_fault, reads_made, taken_by, piece_of, failure_of};
ghost use Rattle.trace_text.specs.FailingDevices.{room_in, write_count, write_fault, flush_fault, writes_made};
ghost use Rattle.trace_text.specs.FailingDevices.{flushes_made};

use crate::counting::raise;
use std::alloc::Global;
use std::io;
use std::io::{ErrorKind, Read, Write};

/// What a reader does once its bytes are read.
#[derive(Clone, Copy, Debug)]
pub enum AfterBytes {
    /// It is at its end.
    End,
    /// Each read answers a fault of this kind.
    Fail(ErrorKind),
    /// It gives this byte again and again, and never ends.
    Repeat(u8),
}

/// A reader of given bytes, in pieces of at most a stated size.
#[derive(Drop)]
pub struct FailingReader<'a> {
    bytes: &'a [u8],
    piece: usize,
    after: AfterBytes,
    reads: u64,
}

impl<'a> FailingReader<'a> {
    /// A reader of these bytes, of which one read gives at most `piece`; 0 is taken as 1.
    pub fn new(bytes: &'a [u8], piece: usize, after: AfterBytes) -> Self
        ensures bytes { left_in result ≡ known_bytes bytes.entry.now after }
        ensures held { held_by result ≡ bytes.entry.now }
        ensures piece { read_piece_of result ≡ piece }
        ensures after { after_of result ≡ after }
        ensures reads { reads_made result ≡ 0 }
    {
        FailingReader {
            bytes,
            piece,
            after,
            reads: 0,
        }
    }

    /// How many reads were made, up to `u64::MAX`.
    pub fn reads(&self) -> u64
        ensures { result ≡ reads_made self.now }
    {
        self.reads
    }
}

impl<'a> Read for FailingReader<'a> {
    ghost remaining = { λ r. left_in r };

    fn read(&mut self, buf: &mut [u8]) -> io::Result<usize>
        ensures bound { ReadsAtMost result buf.new }
        ensures bytes { ReadConsumes (left_in self.old) (left_in self.new) result buf.new }
        ensures count { IfOk result (λ n. n ≡ read_count self.old (length buf.new)) }
        ensures held { IfOk result (λ n. held_by self.new ≡ drop n (held_by self.old)) }
        ensures given { IfOk result (λ n.
            take n buf.new ≡ next_bytes (held_by self.old) (after_of self.old) n) }
        ensures fault { MatchResult result
            (λ _. read_fault (held_by self.old) (after_of self.old) ≡ None)
            (λ e. read_fault (held_by self.old) (after_of self.old) ≡ Some (error_kind e)) }
        ensures piece { read_piece_of self.new ≡ read_piece_of self.old }
        ensures after { after_of self.new ≡ after_of self.old }
        ensures reads { reads_made self.new ≡ one_more (reads_made self.old) }
    {
        raise(&mut self.reads);
        let count = self.piece.max(1).min(buf.len());
        let room = &mut buf[..count];
        if !self.bytes.is_empty() {
            return self.bytes.read(room);
        }
        match self.after {
            AfterBytes::End => Ok(0),
            AfterBytes::Fail(kind) => Err(io::Error::from(kind)),
            AfterBytes::Repeat(byte) => {
                room.fill(byte);
                Ok(count)
            }
        }
    }
}

/// Where a writer fails.
#[derive(Clone, Copy, Debug)]
pub enum WriteFailure {
    /// Nowhere.
    Never,
    /// Once it took so many bytes, each write of some bytes answers a fault of this kind.
    FailAfter(usize, ErrorKind),
    /// Once it took so many bytes, each write takes none.
    TakeNothingAfter(usize),
    /// Each flush answers a fault of this kind.
    FailFlush(ErrorKind),
}

/// A writer that keeps what it took, in pieces of at most a stated size.
#[derive(Drop)]
pub struct FailingWriter {
    taken: Vec<u8>,
    piece: usize,
    failure: WriteFailure,
    writes: u64,
    flushes: u64,
}

impl FailingWriter {
    /// A writer of which one write takes at most `piece` bytes; 0 is taken as 1. If memory is
    /// refused, a write answers a fault of kind OutOfMemory.
    pub fn new(alloc: Global, piece: usize, failure: WriteFailure) -> Self
        ensures taken { taken_by result ≡ [] }
        ensures piece { piece_of result ≡ piece }
        ensures failure { failure_of result ≡ failure }
        ensures writes { writes_made result ≡ 0 }
        ensures flushes { flushes_made result ≡ 0 }
    {
        FailingWriter {
            taken: Vec::new(alloc),
            piece,
            failure,
            writes: 0,
            flushes: 0,
        }
    }

    /// The bytes that it took.
    pub fn taken(&self) -> &[u8]
        ensures { result.now ≡ taken_by self.now }
    {
        &self.taken
    }

    /// How many writes were made, up to `u64::MAX`.
    pub fn writes(&self) -> u64
        ensures { result ≡ writes_made self.now }
    {
        self.writes
    }

    /// How many flushes were made, up to `u64::MAX`.
    pub fn flushes(&self) -> u64
        ensures { result ≡ flushes_made self.now }
    {
        self.flushes
    }

    /// How many more bytes it takes before its writes fail.
    fn room(&self) -> usize
        ensures { result ≡ room_in self.now }
    {
        let limit = match self.failure {
            WriteFailure::FailAfter(limit, _) => limit,
            WriteFailure::TakeNothingAfter(limit) => limit,
            WriteFailure::Never | WriteFailure::FailFlush(_) => usize::MAX,
        };
        limit.saturating_sub(self.taken.len())
    }
}

impl Write for FailingWriter {
    ghost contents = { λ w. Some (taken_by w) };

    fn write(&mut self, buf: &[u8]) -> io::Result<usize>
        ensures bound { WritesAtMost result buf.now }
        ensures bytes { WriteAppends (Some (taken_by self.old))
            (Some (taken_by self.new)) result buf.now }
        ensures count { IfOk result (λ n. n ≡ write_count self.old (length buf.now)) }
        ensures fails { OnOk result (write_fault self.old (length buf.now) ≡ None) }
        ensures fault { IfErr result (λ e.
            error_kind e ≡ unwrap_or (write_fault self.old (length buf.now)) OutOfMemory) }
        ensures more { OnErr result (write_fault self.old (length buf.now) ≡ None
            → 0 < write_count self.old (length buf.now)) }
        ensures piece { piece_of self.new ≡ piece_of self.old }
        ensures failure { failure_of self.new ≡ failure_of self.old }
        ensures writes { writes_made self.new ≡ one_more (writes_made self.old) }
        ensures flushes { flushes_made self.new ≡ flushes_made self.old }
    {
        raise(&mut self.writes);
        let room = self.room();
        if let WriteFailure::FailAfter(_, kind) = self.failure
            && room == 0
            && !buf.is_empty()
        {
            return Err(io::Error::from(kind));
        }
        let count = self.piece.max(1).min(room).min(buf.len());
        self.taken.extend_from_slice(&buf[..count])?;
        Ok(count)
    }

    fn flush(&mut self) -> io::Result<()>
        ensures bytes { Keeps (Some (taken_by self.old)) (Some (taken_by self.new)) }
        ensures fault { MatchResult result
            (λ _. flush_fault (failure_of self.old) ≡ None)
            (λ e. flush_fault (failure_of self.old) ≡ Some (error_kind e)) }
        ensures piece { piece_of self.new ≡ piece_of self.old }
        ensures failure { failure_of self.new ≡ failure_of self.old }
        ensures writes { writes_made self.new ≡ writes_made self.old }
        ensures flushes { flushes_made self.new ≡ one_more (flushes_made self.old) }
    {
        raise(&mut self.flushes);
        match self.failure {
            WriteFailure::FailFlush(kind) => Err(io::Error::from(kind)),
            _ => Ok(()),
        }
    }
}
