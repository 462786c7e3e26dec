//! The verdict on the text of a certificate, for a caller that brings the room.

ghost use Rattle.std.specs.Prelude.{◌≡◌, ◌≢◌, ◌<◌, ◌≤◌, length};
ghost use Rattle.c_report.specs.Answers.{IsCertificateRefused, IsJudged, IsLineTooLong};
ghost use Rattle.c_report.specs.Answers.{IsSetOutside, IsToldOf, IsTraceRefused};
ghost use Rattle.c_report.specs.CorrectMasks.{correct_of};
ghost use Rattle.front.specs.RefusalTexts.{report_error_text};
ghost use Rattle.text_verdicts.specs.VerdictLines.{status_of_verdict, told_verdict};

use crate::answers::{
    BAD_CERTIFICATE, BAD_SET, BAD_TRACE, NO, NO_MEMORY, NO_ROOM, YES, correct_of,
};
use crate::reports::tell_trace;
use crate::rooms::{put, put_whole};
use certificate_checker::Verdict;
use command_faults::Fault;
use command_options::Claim;
use front::ReportError;
use std::alloc::{AllocError, Global};
use text_commands::verdict_on;
use text_verdicts::{verdict_status, verdict_text};

/// Checks a certificate against a trace text: `YES` if its rows are the trace's report, `NO` if they aren't. The line
/// of the verdict, with its line feed, is written over the first bytes of `out`, its length in bytes into `size`.
/// Processor p counts as correct if bit p - 1 of `correct` is set; all of the trace do if `correct` is `ALL`.
///
/// Refuses, in this order: `BAD_TRACE` for a text that encodes no trace; `BAD_SET` if a member of the set is above the
/// trace's number of processors; `BAD_CERTIFICATE` for a certificate that encodes no rows; `NO_ROOM` if the line is
/// longer than `out`, with its length in `size`. For a refused text, `out` has the words for its first refusal as far
/// as they fit, `size` their whole length. `NO_MEMORY` may come instead of any. Nothing else is written: the rest of
/// `out` is unchanged.
#[unsafe(no_mangle)]
pub extern "C" fn synchrony_check(
    alloc: Global,
    correct: u64,
    text: &[u8],
    certificate: &[u8],
    out: &mut [u8],
    size: &mut usize,
) -> u32
    ensures yes { result ≡ YES
        → IsJudged (correct_of correct) text.now certificate.now out.old out.new size.new result }
    ensures no { result ≡ NO
        → IsJudged (correct_of correct) text.now certificate.now out.old out.new size.new result }
    ensures no_room { result ≡ NO_ROOM
        → IsLineTooLong (correct_of correct) text.now certificate.now (length out.old) size.new }
    ensures bad_set { result ≡ BAD_SET → IsSetOutside (correct_of correct) text.now }
    ensures bad_trace { result ≡ BAD_TRACE → IsTraceRefused text.now out.old out.new size.new }
    ensures bad_certificate { result ≡ BAD_CERTIFICATE
        → IsCertificateRefused (correct_of correct) text.now certificate.now out.old
        out.new size.new }
    ensures memory { result ≢ YES → result ≢ NO → result ≢ NO_ROOM → result ≢ BAD_SET
        → result ≢ BAD_TRACE → result ≢ BAD_CERTIFICATE → result ≡ NO_MEMORY }
    ensures kept { result ≢ YES → result ≢ NO → result ≢ BAD_TRACE → result ≢ BAD_CERTIFICATE
        → out.new ≡ out.old }
    ensures no_size { result ≢ YES → result ≢ NO → result ≢ NO_ROOM → result ≢ BAD_TRACE
        → result ≢ BAD_CERTIFICATE → size.new ≡ size.old }
{
    let claim = Claim {
        correct: correct_of(correct),
        until: None,
    };
    match verdict_on(alloc, &claim, text, certificate) {
        Ok(verdict) => tell_verdict(alloc, verdict, out, size),
        Err(Fault::Trace(why)) => tell_trace(alloc, &why, out, size),
        Err(Fault::Set(_, _)) => BAD_SET,
        Err(Fault::Certificate(why)) => tell_certificate(alloc, &why, out, size),
        Err(Fault::Memory) => NO_MEMORY,
        Err(_) => unreachable!(),
    }
}

/// Writes the line of a verdict.
fn tell_verdict(alloc: Global, verdict: Verdict, out: &mut [u8], size: &mut usize) -> u32
    ensures told { result ≢ NO_ROOM → result ≢ NO_MEMORY
        → IsToldOf (told_verdict verdict) out.old out.new size.new }
    ensures fits { result ≢ NO_ROOM → result ≢ NO_MEMORY
        → length (told_verdict verdict) ≤ length out.old }
    ensures status { result ≢ NO_ROOM → result ≢ NO_MEMORY → result ≡ status_of_verdict verdict }
    ensures more { result ≡ NO_ROOM → length out.old < length (told_verdict verdict) }
    ensures sized { result ≡ NO_ROOM → size.new ≡ length (told_verdict verdict) }
    ensures kept { result ≡ NO_ROOM → out.new ≡ out.old }
    ensures nothing { result ≡ NO_MEMORY → out.new ≡ out.old }
    ensures no_size { result ≡ NO_MEMORY → size.new ≡ size.old }
{
    match verdict_text(alloc, verdict) {
        Ok(line) => {
            if put_whole(line.as_bytes(), out, size) {
                u32::from(verdict_status(verdict))
            } else {
                NO_ROOM
            }
        }
        Err(AllocError) => NO_MEMORY,
    }
}

/// Writes why a certificate is refused.
fn tell_certificate(alloc: Global, why: &ReportError, out: &mut [u8], size: &mut usize) -> u32
    ensures told { result ≡ BAD_CERTIFICATE
        → IsToldOf (report_error_text why.now) out.old out.new size.new }
    ensures memory { result ≢ BAD_CERTIFICATE → result ≡ NO_MEMORY }
    ensures kept { result ≢ BAD_CERTIFICATE → out.new ≡ out.old }
    ensures no_size { result ≢ BAD_CERTIFICATE → size.new ≡ size.old }
{
    match why.to_string(alloc) {
        Ok(words) => {
            put(words.as_bytes(), out, size);
            BAD_CERTIFICATE
        }
        Err(AllocError) => NO_MEMORY,
    }
}
