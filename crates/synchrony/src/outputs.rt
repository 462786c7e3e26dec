//! What a command writes to. It may be a pipe that nobody reads any more, or a disk that is full.

ghost use Rattle.std.specs.Prelude.{◌≡◌};
ghost use Rattle.synchrony.specs.Stops.{stopped, stopped_write};

use command_faults::{Fault, unwritten};
use std::io;
use std::io::Write;

/// The exit status after a write to a pipe that nobody reads any more. A shell shows the same for a program that the
/// signal SIGPIPE ends.
pub const CLOSED_PIPE: u8 = 141;

/// Standard output or standard error.
#[derive(Drop)]
pub(crate) struct Output<W> {
    writer: W,
    /// The kind of the error that the last failed write or flush answered.
    failure: Option<io::ErrorKind>,
}

impl<W> Output<W> {
    /// Nothing was written to it.
    pub(crate) fn new(writer: W) -> Self {
        Output {
            writer,
            failure: None,
        }
    }

    /// The exit status of a job that wrote here.
    pub(crate) fn ended(&self, job: Result<(), Fault>) -> Result<u8, Fault> {
        match job {
            Ok(()) => Ok(0),
            Err(fault) => stopped(self.failure, fault),
        }
    }

    /// The kind of the error that the last failed write or flush answered.
    pub(crate) fn failure(&self) -> Option<io::ErrorKind> {
        self.failure
    }
}

/// How a job ends that stopped for a fault, if the last write that failed answered an error of this kind. A failed
/// write has the reason that the error gives; to a pipe that nobody reads any more it ends the job without a word.
pub fn stopped(failure: Option<io::ErrorKind>, fault: Fault) -> Result<u8, Fault>
    ensures { result ≡ stopped failure fault }
{
    match fault {
        Fault::Write(written) => stopped_write(failure, written),
        fault => Err(fault),
    }
}

/// The same for a failed write, before which so many bytes went out.
fn stopped_write(failure: Option<io::ErrorKind>, written: u64) -> Result<u8, Fault>
    ensures { result ≡ stopped_write failure written }
{
    match failure {
        None => Err(Fault::Write(written)),
        Some(io::ErrorKind::BrokenPipe) => Ok(CLOSED_PIPE),
        Some(kind) => Err(unwritten(Fault::Write(written), kind)),
    }
}

impl<W: Write> Write for Output<W> {
    fn write(&mut self, buf: &[u8]) -> io::Result<usize> {
        match self.writer.write(buf) {
            Ok(count) => Ok(count),
            Err(error) => {
                self.failure = Some(error.kind());
                Err(error)
            }
        }
    }

    fn flush(&mut self) -> io::Result<()> {
        match self.writer.flush() {
            Ok(()) => Ok(()),
            Err(error) => {
                self.failure = Some(error.kind());
                Err(error)
            }
        }
    }
}
