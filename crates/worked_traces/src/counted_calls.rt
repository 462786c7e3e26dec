//! `Counting`, `read_all` and `write_text` pass each call on to the device once, unchanged. A contract
//! over any `Read` or `Write` sees the bytes and not the calls, so the devices count them.

use std::alloc::Global;
use std::io::{ErrorKind, Read, Write};
use trace_text::failing_devices::{AfterBytes, FailingReader, FailingWriter, WriteFailure};
use trace_text::{Counting, read_all, write_text};

/// How many bytes a call took or gave, none if it failed; then the faults that were counted and the
/// calls that reached the device.
type Called = (Option<usize>, u64, u64);

/// One read of at most four bytes.
fn read_once(bytes: &[u8], after: AfterBytes) -> Called {
    let mut device = FailingReader::new(bytes, 4, after);
    let mut reader = Counting::new(&mut device);
    let count = reader.read(&mut [0u8; 4]).ok();
    let faults = reader.faults();
    (count, faults, device.reads())
}

/// One write of four bytes, to a writer that takes at most `piece`.
fn write_once(alloc: Global, piece: usize, failure: WriteFailure) -> Called {
    let mut device = FailingWriter::new(alloc, piece, failure);
    let mut writer = Counting::new(&mut device);
    let count = writer.write(b"init").ok();
    let faults = writer.faults();
    (count, faults, device.writes())
}

/// One flush, which takes no byte.
fn flush_once(alloc: Global, failure: WriteFailure) -> Called {
    let mut device = FailingWriter::new(alloc, 4, failure);
    let mut writer = Counting::new(&mut device);
    let count = writer.flush().ok().map(|()| 0);
    let faults = writer.faults();
    (count, faults, device.flushes())
}

/// The reads that reach the device while ten bytes are read, in pieces of at most `piece`.
fn reads_of_ten(alloc: Global, piece: usize, after: AfterBytes) -> u64 {
    let mut device = FailingReader::new(b"init,5,7,9", piece, after);
    let _ = read_all(alloc, &mut Counting::new(&mut device));
    device.reads()
}

/// The writes and the flushes that reach the device while ten bytes are written.
fn writes_of_ten(alloc: Global, piece: usize, failure: WriteFailure) -> (u64, u64) {
    let mut device = FailingWriter::new(alloc, piece, failure);
    let _ = write_text(b"init,5,7,9", &mut Counting::new(&mut device));
    (device.writes(), device.flushes())
}

const STOP: ErrorKind = ErrorKind::Interrupted;

const READS: &[(&[u8], AfterBytes, Option<usize>, u64)] = &[
    (b"7", AfterBytes::End, Some(1), 0),
    (b"", AfterBytes::End, Some(0), 0),
    (b"", AfterBytes::Repeat(7), Some(4), 0),
    (b"7", AfterBytes::Fail(STOP), Some(1), 0),
    (b"", AfterBytes::Fail(STOP), None, 1),
    (b"", AfterBytes::Fail(ErrorKind::Other), None, 1),
];

#[test]
fn one_read_is_one_call(rt: HostRuntime) {
    for &(bytes, after, count, faults) in READS {
        assert!(rt; read_once(bytes, after) == (count, faults, 1), "{after:?}");
    }
}

const WRITES: &[(usize, WriteFailure, Option<usize>, u64)] = &[
    (4, WriteFailure::Never, Some(4), 0),
    (3, WriteFailure::Never, Some(3), 0),
    (4, WriteFailure::FailAfter(2, STOP), Some(2), 0),
    (4, WriteFailure::FailAfter(0, STOP), None, 1),
    (4, WriteFailure::TakeNothingAfter(0), Some(0), 0),
    (4, WriteFailure::FailFlush(STOP), Some(4), 0),
];

#[test]
fn one_write_is_one_call(rt: HostRuntime) {
    for &(piece, failure, count, faults) in WRITES {
        assert!(rt;
            write_once(rt.alloc(), piece, failure) == (count, faults, 1),
            "{failure:?}"
        );
    }
}

const FLUSHES: &[(WriteFailure, Option<usize>, u64)] = &[
    (WriteFailure::Never, Some(0), 0),
    (WriteFailure::FailAfter(0, STOP), Some(0), 0),
    (WriteFailure::FailFlush(STOP), None, 1),
    (WriteFailure::FailFlush(ErrorKind::Other), None, 1),
];

#[test]
fn one_flush_is_one_call(rt: HostRuntime) {
    for &(failure, count, faults) in FLUSHES {
        assert!(rt;
            flush_once(rt.alloc(), failure) == (count, faults, 1),
            "{failure:?}"
        );
    }
}

const READS_OF_TEN: &[(usize, AfterBytes, u64)] = &[
    (10, AfterBytes::End, 2),
    (3, AfterBytes::End, 5),
    (1, AfterBytes::End, 11),
    (10, AfterBytes::Fail(STOP), 2),
    (3, AfterBytes::Fail(STOP), 5),
];

#[test]
fn a_text_is_read_by_so_many_calls(rt: HostRuntime) {
    for &(piece, after, reads) in READS_OF_TEN {
        assert!(rt; reads_of_ten(rt.alloc(), piece, after) == reads, "{piece}");
    }
}

const WRITES_OF_TEN: &[(usize, WriteFailure, (u64, u64))] = &[
    (10, WriteFailure::Never, (1, 1)),
    (9, WriteFailure::Never, (2, 1)),
    (1, WriteFailure::Never, (10, 1)),
    (10, WriteFailure::FailAfter(7, STOP), (2, 0)),
    (3, WriteFailure::TakeNothingAfter(7), (4, 0)),
    (10, WriteFailure::FailFlush(STOP), (1, 1)),
];

#[test]
fn a_text_is_written_by_so_many_calls(rt: HostRuntime) {
    for &(piece, failure, calls) in WRITES_OF_TEN {
        assert!(rt;
            writes_of_ten(rt.alloc(), piece, failure) == calls,
            "{failure:?}"
        );
    }
}
