//! What a command reads: standard input, or a file.

use command_faults::{Fault, unopened, unread};
use command_line::names_standard_input;
use std::fs::File;
use std::io;
use std::io::{Read, Stdin};

/// Standard input, or an open file.
#[derive(Drop)]
enum Source {
    /// Standard input.
    Standard(Stdin),
    /// A file.
    File(File),
}

/// What is read, under the name that the command line has for it.
#[derive(Drop)]
pub(crate) struct Input {
    source: Source,
    name: String,
    /// The kind of the error that the last failed read answered.
    failure: Option<io::ErrorKind>,
}

impl Input {
    /// Opens what a command line names, to be read: the file `-` is standard input.
    pub(crate) fn open(rt: &HostRuntime, name: String) -> Result<Input, Fault> {
        let source = if names_standard_input(name.as_str()) {
            Source::Standard(rt.stdin())
        } else {
            match File::open(rt, name.as_str()) {
                Ok(file) => Source::File(file),
                Err(error) => return Err(unopened(name, error)),
            }
        };
        Ok(Input {
            source,
            name,
            failure: None,
        })
    }

    /// The fault of a command that read this, with the name of this if a read of it failed.
    pub(crate) fn named(self, fault: Fault) -> Fault {
        match self.failure {
            Some(kind) => unread(fault, self.name, kind),
            None => fault,
        }
    }
}

impl Read for Input {
    fn read(&mut self, buf: &mut [u8]) -> io::Result<usize> {
        let read = match &mut self.source {
            Source::Standard(stdin) => stdin.read(buf),
            Source::File(file) => file.read(buf),
        };
        match read {
            Ok(count) => Ok(count),
            Err(error) => {
                self.failure = Some(error.kind());
                Err(error)
            }
        }
    }
}
