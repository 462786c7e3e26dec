//! The report of a trace text, for a caller that brings the room.

ghost use Rattle.std.specs.Prelude.{◌≡◌, ◌≢◌, length};
ghost use Rattle.c_report.specs.Answers.{IsReported, IsSetOutside, IsToldOf, IsTooLong, IsTraceRefused};
ghost use Rattle.c_report.specs.CorrectMasks.{correct_of};
ghost use Rattle.trace_text.specs.RefusalTexts.{text_error_text};

use crate::answers::{BAD_SET, BAD_TRACE, DONE, NO_MEMORY, NO_ROOM, correct_of};
use crate::rooms::{put, put_whole};
use command_faults::Fault;
use command_options::ReportPart;
use std::alloc::{AllocError, Global};
use text_commands::answer_to;
use trace_text::TextError;

/// Writes the report of a trace text over the first bytes of `out`, and its length in bytes into `size`. Processor p
/// counts as correct if bit p - 1 of `correct` is set; all of the trace do if `correct` is `ALL`.
///
/// Refuses, in this order: `BAD_TRACE` for a text that encodes no trace, with the words for its first refusal in `out`
/// as far as they fit, and their whole length in `size`; `BAD_SET` if a member of the set is above the trace's number
/// of processors; `NO_ROOM` if the report is longer than `out`, with its length in `size`. `NO_MEMORY` may come instead
/// of any. Nothing else is written: the rest of `out` is unchanged.
#[unsafe(no_mangle)]
pub extern "C" fn synchrony_report(
    alloc: Global,
    correct: u64,
    text: &[u8],
    out: &mut [u8],
    size: &mut usize,
) -> u32
    ensures done { result ≡ DONE
        → IsReported (correct_of correct) text.now out.old out.new size.new }
    ensures no_room { result ≡ NO_ROOM
        → IsTooLong (correct_of correct) text.now (length out.old) size.new }
    ensures bad_set { result ≡ BAD_SET → IsSetOutside (correct_of correct) text.now }
    ensures bad_trace { result ≡ BAD_TRACE → IsTraceRefused text.now out.old out.new size.new }
    ensures memory { result ≢ DONE → result ≢ NO_ROOM → result ≢ BAD_SET → result ≢ BAD_TRACE
        → result ≡ NO_MEMORY }
    ensures kept { result ≢ DONE → result ≢ BAD_TRACE → out.new ≡ out.old }
    ensures no_size { result ≢ DONE → result ≢ NO_ROOM → result ≢ BAD_TRACE → size.new ≡ size.old }
{
    let whole = ReportPart {
        correct: correct_of(correct),
        until: None,
        at: None,
    };
    match answer_to(alloc, &whole, text) {
        Ok(report) => {
            if put_whole(&report, out, size) {
                DONE
            } else {
                NO_ROOM
            }
        }
        Err(Fault::Trace(why)) => tell_trace(alloc, &why, out, size),
        Err(Fault::Set(_, _)) => BAD_SET,
        Err(Fault::Memory) => NO_MEMORY,
        Err(_) => unreachable!(),
    }
}

/// Writes why a trace text is refused.
pub(crate) fn tell_trace(alloc: Global, why: &TextError, out: &mut [u8], size: &mut usize) -> u32
    ensures told { result ≡ BAD_TRACE
        → IsToldOf (text_error_text why.now) out.old out.new size.new }
    ensures memory { result ≢ BAD_TRACE → result ≡ NO_MEMORY }
    ensures kept { result ≢ BAD_TRACE → out.new ≡ out.old }
    ensures no_size { result ≢ BAD_TRACE → size.new ≡ size.old }
{
    match why.to_string(alloc) {
        Ok(words) => {
            put(words.as_bytes(), out, size);
            BAD_TRACE
        }
        Err(AllocError) => NO_MEMORY,
    }
}
