//! Pieces of a text that were read, with their bytes.

ghost use Rattle.shared_reading.specs.ReadPieces.{IsReadPiece};

use crate::pieces::{Found, found_in};
use std::alloc::Global;
use std::snapshot::Snapshot;
use std::thread::Promise;
use trace_text::versions::Version;

/// A piece of a text, and what was found in it.
#[derive(Drop)]
pub(crate) struct ReadPiece {
    pub(crate) bytes: Vec<u8>,
    pub(crate) version: Version,
    pub(crate) found: Found,
}

/// What a thread promises: the bytes that it was given, and what is found in them.
#[derive(Drop)]
pub(crate) struct PieceOf {
    pub(crate) bytes: Snapshot<Vec<u8>>,
}

impl Promise<ReadPiece> for PieceOf {
    ghost use Rattle.shared_reading.specs.ReadPieces.{IsReadPiece};

    ghost kept_by = { λ promise piece. IsReadPiece promise.bytes.value.items piece };
}

impl ReadPiece {
    /// The piece of these bytes.
    pub(crate) fn of(alloc: Global, version: Version, bytes: Vec<u8>) -> ReadPiece
        ensures { IsReadPiece bytes.items result }
    {
        let found = found_in(alloc, version, &bytes);
        ReadPiece {
            bytes,
            version,
            found,
        }
    }
}
