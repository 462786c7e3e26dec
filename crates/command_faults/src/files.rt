//! Files that can't be opened or read, and standard output that can't be written.

ghost use Rattle.std.specs.Prelude.{◌≡◌};
ghost use Rattle.std.specs.IoError.{error_kind};
ghost use Rattle.command_faults.specs.Files.{fault_of_opening, fault_of_reading, opening_trouble, reading_trouble};
ghost use Rattle.command_faults.specs.Files.{fault_of_writing, writing_trouble};

use crate::faults::Fault;
use std::io;

/// Why a file can't be opened or read.
#[derive(Clone, Copy, Debug, PartialEq, Eq)]
pub enum FileTrouble {
    /// There is none of this name.
    NoSuchFile,
    /// It may not be read.
    PermissionDenied,
    /// It is a directory.
    IsADirectory,
    /// It can't be opened, for another reason.
    Unopened,
    /// It was opened, and can't be read, for another reason.
    Unread,
}

/// Why standard output can't be written.
#[derive(Clone, Copy, Debug, PartialEq, Eq)]
pub enum OutputTrouble {
    /// No space is left where it goes.
    NoSpace,
    /// The files of this user may have no more bytes.
    QuotaExceeded,
    /// The file may have no more bytes.
    FileTooLarge,
    /// It can't be written, for another reason.
    Unwritten,
}

/// The fault of a file that can't be opened.
pub fn unopened(file: String, error: io::Error) -> Fault
    ensures { result ≡ fault_of_opening file (error_kind error) }
{
    let kind = error.kind();
    if matches!(kind, io::ErrorKind::OutOfMemory) {
        return Fault::Memory;
    }
    Fault::Unread(file, opening_trouble(kind))
}

/// Why a file can't be opened, by the kind of the error.
fn opening_trouble(kind: io::ErrorKind) -> FileTrouble
    ensures { result ≡ opening_trouble kind }
{
    match kind {
        io::ErrorKind::NotFound => FileTrouble::NoSuchFile,
        io::ErrorKind::PermissionDenied => FileTrouble::PermissionDenied,
        io::ErrorKind::IsADirectory => FileTrouble::IsADirectory,
        _ => FileTrouble::Unopened,
    }
}

/// The same fault, with the name of the file if it is a failed read of that file: the read answered an error of this
/// kind.
pub fn unread(fault: Fault, file: String, kind: io::ErrorKind) -> Fault
    ensures { result ≡ fault_of_reading fault file kind }
{
    match fault {
        Fault::Read => Fault::Unread(file, reading_trouble(kind)),
        fault => fault,
    }
}

/// Why a file can't be read, by the kind of the error.
fn reading_trouble(kind: io::ErrorKind) -> FileTrouble
    ensures { result ≡ reading_trouble kind }
{
    match kind {
        io::ErrorKind::IsADirectory => FileTrouble::IsADirectory,
        _ => FileTrouble::Unread,
    }
}

/// The same fault, with its reason if it is a failed write to standard output: the write answered an error of this
/// kind.
pub fn unwritten(fault: Fault, kind: io::ErrorKind) -> Fault
    ensures { result ≡ fault_of_writing fault kind }
{
    match fault {
        Fault::Write(_) => Fault::Unwritten(writing_trouble(kind)),
        fault => fault,
    }
}

/// Why standard output can't be written, by the kind of the error.
fn writing_trouble(kind: io::ErrorKind) -> OutputTrouble
    ensures { result ≡ writing_trouble kind }
{
    match kind {
        io::ErrorKind::StorageFull => OutputTrouble::NoSpace,
        io::ErrorKind::QuotaExceeded => OutputTrouble::QuotaExceeded,
        io::ErrorKind::FileTooLarge => OutputTrouble::FileTooLarge,
        _ => OutputTrouble::Unwritten,
    }
}
