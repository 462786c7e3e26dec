//! The words of a command line in a text, and the job that they ask for.

ghost use Rattle.std.specs.Prelude.{◌≡◌, IfOk, IfErr, map, string_bytes, MatchResult};
ghost use Rattle.command_line.specs.Jobs.{IsJobOf};
ghost use Rattle.c_report.specs.Commands.{IsRefusedLine, fault_of_line, words_in};

use command_faults::Fault;
use command_line::{Job, LineError, read_command, refuse_words};
use std::alloc::{AllocError, Global};
use std::io;

/// The job that words ask for, which have a line feed between each two.
pub(crate) fn job_of(alloc: Global, lines: &[u8]) -> Result<Job, Fault>
    ensures job { IfOk result (IsJobOf (words_in lines.now)) }
    ensures refused { IfErr result (IsRefusedLine lines.now) }
{
    let text = text_of(alloc, lines)?;
    let words = words_of(alloc, text)?;
    match read_command(alloc, words) {
        Ok(job) => Ok(job),
        Err(why) => Err(refused_line(why)),
    }
}

/// The same bytes as a text.
fn text_of(alloc: Global, lines: &[u8]) -> Result<&str, Fault>
    ensures { MatchResult result (λ text. text.now ≡ lines.now) (IsRefusedLine lines.now) }
{
    match str::from_utf8(lines) {
        Ok(text) => Ok(text),
        Err(_) => match refuse_words(alloc, io::ErrorKind::InvalidData) {
            Ok(why) => Err(refused_line(why)),
            Err(AllocError) => Err(Fault::Memory),
        },
    }
}

/// The words: the program's name, and then the lines.
fn words_of(alloc: Global, text: &str) -> Result<Vec<String>, AllocError>
    ensures { IfOk result (λ words. map string_bytes words.items ≡ words_in text.now) }
{
    let mut words = Vec::new(alloc);
    words.push(String::from_str(alloc, "synchrony")?)?;
    for line in text.split('\n') {
        words.push(String::from_str(alloc, line)?)?;
    }
    Ok(words)
}

/// The fault of a command line that gives no job.
fn refused_line(why: LineError) -> Fault
    ensures { result ≡ fault_of_line why }
{
    match why {
        LineError::Refused(words) => Fault::Command(words),
        LineError::Memory => Fault::Memory,
    }
}
