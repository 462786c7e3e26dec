//! A reader or a writer that counts its calls that answered a fault.

ghost use Rattle.std.specs.Prelude.{◌≡◌, false, is_ok};
ghost use Rattle.std.specs.Io.{ReadsAtMost, WritesAtMost};
ghost use Rattle.std.specs.Io.KnownBytes.{ReadConsumes, WriteAppends, Keeps};
ghost use Rattle.trace_text.specs.Faults.{inner_of, faults_of, idle_writes_of, is_flushed, reads_of};
ghost use Rattle.trace_text.specs.Faults.{one_more, faults_after, idle_writes_after};

use std::io;
use std::io::{Read, Write};

/// A reader or a writer, with a count of its calls to `read`, `write` and `flush` that answered a
/// fault, of any kind. At `u64::MAX` the count stays, and a later call counts as having raised it.
///
/// For contracts it also keeps how many reads were made, and how often a write took no byte of a buffer
/// that had some. And whether the last write or flush was a flush without a fault.
///
/// Each call is passed on once, unchanged. The contracts see the bytes of a device and not its calls,
/// so `failing_devices` count the calls that reach them, and tests compare.
#[derive(Drop)]
pub struct Counting<T> {
    inner: T,
    faults: u64,
    reads: u64,
    idle_writes: u64,
    is_flushed: bool,
}

impl<T> Counting<T> {
    /// Wraps a reader or a writer. No call has been made yet.
    pub fn new(inner: T) -> Self
        ensures inner { inner_of result ≡ inner }
        ensures no_faults { faults_of result ≡ 0 }
        ensures no_reads { reads_of result ≡ 0 }
        ensures no_idle_writes { idle_writes_of result ≡ 0 }
        ensures not_flushed { is_flushed result ≡ false }
    {
        Counting {
            inner,
            faults: 0,
            reads: 0,
            idle_writes: 0,
            is_flushed: false,
        }
    }

    /// How many calls answered a fault, up to `u64::MAX`.
    pub fn faults(&self) -> u64
        ensures { result ≡ faults_of self.now }
    {
        self.faults
    }
}

impl<R: Read> Read for Counting<R> {
    ghost remaining = { λ c. R.remaining c.inner };

    fn read(&mut self, buf: &mut [u8]) -> io::Result<usize>
        ensures bound { ReadsAtMost result buf.new }
        ensures bytes { ReadConsumes (R.remaining (inner_of self.old))
            (R.remaining (inner_of self.new))
            result buf.new }
        ensures faults { faults_of self.new ≡ faults_after result (faults_of self.old) }
        ensures reads { reads_of self.new ≡ one_more (reads_of self.old) }
        ensures idle_writes { idle_writes_of self.new ≡ idle_writes_of self.old }
        ensures flushed { is_flushed self.new ≡ is_flushed self.old }
    {
        raise(&mut self.reads);
        match self.inner.read(buf) {
            Ok(count) => Ok(count),
            Err(fault) => {
                raise(&mut self.faults);
                Err(fault)
            }
        }
    }
}

impl<W: Write> Write for Counting<W> {
    ghost contents = { λ c. W.contents c.inner };

    fn write(&mut self, buf: &[u8]) -> io::Result<usize>
        ensures bound { WritesAtMost result buf.now }
        ensures bytes { WriteAppends (W.contents (inner_of self.old))
            (W.contents (inner_of self.new))
            result buf.now }
        ensures faults { faults_of self.new ≡ faults_after result (faults_of self.old) }
        ensures reads { reads_of self.new ≡ reads_of self.old }
        ensures idle_writes { idle_writes_of self.new
            ≡ idle_writes_after result buf.now (idle_writes_of self.old) }
        ensures flushed { is_flushed self.new ≡ false }
    {
        self.is_flushed = false;
        match self.inner.write(buf) {
            Ok(count) => {
                if count == 0 && !buf.is_empty() {
                    raise(&mut self.idle_writes);
                }
                Ok(count)
            }
            Err(fault) => {
                raise(&mut self.faults);
                Err(fault)
            }
        }
    }

    fn flush(&mut self) -> io::Result<()>
        ensures bytes { Keeps (W.contents (inner_of self.old)) (W.contents (inner_of self.new)) }
        ensures faults { faults_of self.new ≡ faults_after result (faults_of self.old) }
        ensures reads { reads_of self.new ≡ reads_of self.old }
        ensures idle_writes { idle_writes_of self.new ≡ idle_writes_of self.old }
        ensures flushed { is_flushed self.new ≡ is_ok result }
    {
        match self.inner.flush() {
            Ok(()) => {
                self.is_flushed = true;
                Ok(())
            }
            Err(fault) => {
                raise(&mut self.faults);
                self.is_flushed = false;
                Err(fault)
            }
        }
    }
}

/// Adds one, up to `u64::MAX`.
pub(crate) fn raise(count: &mut u64)
    ensures { count.new ≡ one_more count.old }
{
    *count = count.saturating_add(1);
}
