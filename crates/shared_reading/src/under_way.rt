//! Pieces of a text that other threads read, each with bytes of its own.

ghost use Rattle.std.specs.Prelude.{◌≡◌, IfOk, IfErr};
ghost use Rattle.shared_reading.specs.Pieces.{IsUnmarked};
ghost use Rattle.shared_reading.specs.ReadPieces.{IsReadPiece};

use crate::read_pieces::{PieceOf, ReadPiece};
use std::alloc::Global;
use std::snapshot::Snapshot;
use std::thread;
use std::thread::{PromisedHandle, Threads};
use trace_text::versions::Version;

/// A piece of a text that a thread reads. It can't begin with a byte order mark.
#[derive(Drop)]
pub(crate) struct UnderWay {
    thread: PromisedHandle<ReadPiece, PieceOf>,
    ghost unmarked: { IsUnmarked thread.promise.bytes.value.items },
}

impl UnderWay {
    /// A thread reads these bytes. Hands them back if no thread can be started.
    pub(crate) fn start<T: Threads>(
        rt: &T,
        alloc: Global,
        version: Version,
        bytes: Vec<u8>,
    ) -> Result<UnderWay, Vec<u8>>
        requires { IsUnmarked bytes.items }
        ensures ok { IfOk result (λ piece. piece.thread.promise.bytes.value.items ≡ bytes.items) }
        ensures err { IfErr result (λ back. back.items ≡ bytes.items) }
    {
        let promise = PieceOf {
            bytes: Snapshot::of(&bytes),
        };
        let work = move || -> ReadPiece
            ensures { IsReadPiece bytes.items result }
        { ReadPiece::of(alloc, version, bytes) };
        match thread::spawn_with(rt, promise, work) {
            Ok(thread) => Ok(UnderWay { thread }),
            Err(refused) => {
                // (the bytes come back from the work that they were given to)
                let ReadPiece { bytes, .. } = (refused.value)();
                Err(bytes)
            }
        }
    }

    /// Waits for its thread.
    pub(crate) fn join<T: Threads>(self, rt: &T) -> ReadPiece
        ensures { IsReadPiece self.thread.promise.bytes.value.items result }
    {
        self.thread.join(rt)
    }
}
