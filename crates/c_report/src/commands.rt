//! Every command from text to text, for a caller that brings the words of a command line, the texts of its files, and
//! room.

ghost use Rattle.std.specs.Prelude.{◌≡◌, ◌≢◌, ◌<◌, ◌⊎◌, IfOk, IfErr, length};
ghost use Rattle.c_report.specs.Commands.{HasPrinted, IsAnswered, IsAnswerFor, IsAnswerTooLong};
ghost use Rattle.c_report.specs.Commands.{IsRefusedLine, IsTold, IsUnprinted};

use crate::answers::{NO_MEMORY, NO_ROOM};
use crate::jobs::{Printed, printed_for};
use crate::rooms::put_whole;
use crate::words::job_of;
use command_faults::{Fault, status, told_line};
use std::alloc::{AllocError, Global};

/// Does what the words of a command line ask for, with texts in place of its files. Writes what the program prints over
/// the first bytes of `out`, and its length in bytes into `size`. `words` has the words after the program's name, with
/// a line feed between each two. `text` is the text of the file `-`; `second`, in a check alone, that of the
/// certificate, under any name.
///
/// Answers the exit status that the program has. With 0 and 1 its standard output is written, but not the notes of an
/// import; with another number its standard error. Two things are refused that the program does, both with status 2:
/// `run`, and a file of another name than `-`. `NO_ROOM` if the answer is longer than `out`, with its length in `size`;
/// `NO_MEMORY` may come instead of any. Nothing else is written: the rest of `out` is unchanged.
#[unsafe(no_mangle)]
pub extern "C" fn synchrony_answer(
    alloc: Global,
    words: &[u8],
    text: &[u8],
    second: &[u8],
    out: &mut [u8],
    size: &mut usize,
) -> u32
    ensures answered { result ≢ NO_ROOM → result ≢ NO_MEMORY
        → IsAnswered words.now text.now second.now out.old out.new size.new result }
    ensures no_room { result ≡ NO_ROOM
        → IsAnswerTooLong words.now text.now second.now (length out.old) size.new }
    ensures kept { result ≡ NO_ROOM → out.new ≡ out.old }
    ensures nothing { result ≡ NO_MEMORY → out.new ≡ out.old }
    ensures no_size { result ≡ NO_MEMORY → size.new ≡ size.old }
{
    match answer_for(alloc, words, text, second) {
        Ok(answer) => {
            if put_whole(&answer.text, out, size) {
                answer.status
            } else {
                NO_ROOM
            }
        }
        Err(AllocError) => NO_MEMORY,
    }
}

/// What the words are answered.
fn answer_for(
    alloc: Global,
    words: &[u8],
    text: &[u8],
    second: &[u8],
) -> Result<Printed, AllocError>
    ensures { IfOk result (λ p. IsAnswerFor words.now text.now second.now p.status p.text.items) }
{
    match printed(alloc, words, text, second) {
        Ok(printed) => Ok(printed),
        Err(fault) => told(alloc, &fault),
    }
}

/// What is printed for the words.
fn printed(alloc: Global, words: &[u8], text: &[u8], second: &[u8]) -> Result<Printed, Fault>
    ensures printed { IfOk result
        (λ p. HasPrinted words.now text.now second.now p.status p.text.items) }
    ensures refused { IfErr result
        (λ w. IsRefusedLine words.now w ⊎ IsUnprinted words.now text.now second.now w) }
{
    let job = job_of(alloc, words)?;
    printed_for(alloc, job, text, second)
}

/// The line of a fault, with its status. There is no line if the fault is out of memory.
fn told(alloc: Global, fault: &Fault) -> Result<Printed, AllocError>
    ensures { IfOk result (λ p. IsTold fault.now p.status p.text.items) }
{
    let status = u32::from(status(fault));
    if status == NO_MEMORY {
        return Err(AllocError);
    }
    let text = told_line(alloc, fault)?.into_bytes();
    Ok(Printed { status, text })
}
