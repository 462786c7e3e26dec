//! The check of a certificate by a trace: the command `check`.

ghost use Rattle.std.specs.Prelude.{◌≡◌, ◌<◌, ℕ, List, OnOk, IfOk, IfErr, IfSome, IsTrue};
ghost use Rattle.step_trace.specs.CorrectSets.{named};
ghost use Rattle.text_commands.specs.Answers.{IsAnswerTo, IsDeclined, IsUnanswered};
ghost use Rattle.text_commands.specs.Checks.{IsBadCertificate, IsClaimable, IsEitherReadFault, IsLineOn};
ghost use Rattle.text_commands.specs.Checks.{IsToldOfChecks, IsUncut, IsUnchecked};
ghost use Rattle.text_commands.specs.Serving.{Appends, IsAtEnd, IsFaultOf, IsServeFault, IsWriteFault};
ghost use Rattle.text_commands.specs.Serving.{WasFaultless, faults_of, inner_of, is_flushed};
ghost use Rattle.text_verdicts.specs.Checks.{IsJudged, IsVerdictOn};
ghost use Rattle.text_verdicts.specs.Cuts.{IsReportedTo};
ghost use Rattle.text_verdicts.specs.Texts.{HasCorrect, OfTrace};
ghost use Rattle.text_verdicts.specs.VerdictLines.{told_verdict};

use crate::report_parts::cut_to;
use crate::texts::read_whole;
use crate::traces::{set_of, trace_of};
use crate::verdict_lines::tell_verdict;
use certificate_checker::{Verdict, check_claimed};
use command_faults::Fault;
use command_options::Claim;
use front::ReportError;
use shared_reading::read_trace_by_parts;
use std::alloc::Global;
use std::io::{Read, Write};
use std::mem;
use step_trace::Trace;
use text_verdicts::certificate_of_text;
use trace_text::Counting;

/// Reads a trace text and then a certificate to their ends, and checks the rows of the certificate by the trace. Writes
/// the line of the verdict; nothing is written before the verdict is complete. The memory of the trace is left to the
/// end of the program.
///
/// Refuses, in this order:
/// - Read, or Trace for a trace text that is too large;
/// - Trace for any other refusal of it;
/// - Set if a correct processor is above the trace's number of processors;
/// - Report if the trace hasn't the tick;
/// - Read, or Certificate with the first refusal of the certificate;
/// - Write with the number of bytes that went out before.
///
/// Memory may come at any step before the first write.
pub fn run_check<R: Read, S: Read, W: Write>(
    alloc: Global,
    claim: &Claim,
    trace: &mut Counting<R>,
    certificate: &mut Counting<S>,
    writer: &mut Counting<W>,
) -> Result<Verdict, Fault>
    ensures end { OnOk result (IsAtEnd (R.remaining (inner_of trace.new))
        × IsAtEnd (S.remaining (inner_of certificate.new))) }
    ensures verdict { IfOk result (λ verdict. (text claimed : List ℕ)
        × IfSome (R.remaining (inner_of trace.old)) (λ known. text ≡ known)
        × IfSome (S.remaining (inner_of certificate.old)) (λ known. claimed ≡ known)
        × OfTrace (IsVerdictOn claim.now.correct claim.now.until claimed verdict) text
        × Appends (W.contents (inner_of writer.old)) (W.contents (inner_of writer.new))
        (told_verdict verdict)) }
    ensures flushed { OnOk result (IsTrue (is_flushed writer.new)) }
    ensures faultless { OnOk result ((faults_of trace.new ≡ faults_of trace.old)
        × (faults_of certificate.new ≡ faults_of certificate.old)
        × WasFaultless writer.old writer.new) }
    ensures refused { IfErr result
        (λ why. IfSome (R.remaining (inner_of trace.old))
        (λ text. IfSome (S.remaining (inner_of certificate.old)) (λ claimed.
        IsServeFault (IsAnswerTo (IsLineOn claim.now claimed))
        (IsUnanswered (IsUnchecked claim.now claimed)) text
        (W.contents (inner_of writer.old)) (W.contents (inner_of writer.new)) why))) }
    ensures own { IfErr result (IsFaultOf (IsToldOfChecks claim.now)) }
    ensures read { IfErr result
        (IsEitherReadFault (faults_of trace.old) (faults_of trace.new) (faults_of certificate.old)
        (faults_of certificate.new)) }
    ensures trace_first { faults_of certificate.old < faults_of certificate.new
        → IfSome (R.remaining (inner_of trace.old)) (OfTrace (IsClaimable claim.now)) }
    ensures unwritten { IfErr result (IsWriteFault writer.old writer.new) }
{
    let trace = read_trace_by_parts(alloc, trace)?;
    let reported = cut_for(alloc, claim, trace)?;
    let too_large = Fault::Certificate(ReportError::TooLarge);
    let rows = read_whole(alloc, certificate, too_large)?;
    let verdict = verdict_by(alloc, claim, &reported, &rows)?;
    mem::forget(reported);
    tell_verdict(alloc, verdict, writer)?;
    Ok(verdict)
}

/// The verdict on a certificate's text by a trace text, both in memory.
///
/// Refuses, in this order: Trace with the first refusal of the trace text; Set if a correct processor is above the
/// trace's number of processors; Report if the trace hasn't the tick; Certificate with the first refusal of the
/// certificate. Memory may come instead.
pub fn verdict_on(
    alloc: Global,
    claim: &Claim,
    text: &[u8],
    certificate: &[u8],
) -> Result<Verdict, Fault>
    ensures verdict { IfOk result
        (λ verdict. OfTrace
        (IsVerdictOn claim.now.correct claim.now.until certificate.now verdict) text.now) }
    ensures refused { IfErr result (IsUnanswered (IsUnchecked claim.now certificate.now) text.now) }
{
    let trace = trace_of(alloc, text)?;
    let reported = cut_for(alloc, claim, trace)?;
    verdict_by(alloc, claim, &reported, certificate)
}

/// The trace by which a certificate is checked: this one, or this one up to a tick.
fn cut_for(alloc: Global, claim: &Claim, trace: Trace) -> Result<Trace, Fault>
    ensures within { OnOk result (HasCorrect claim.now.correct trace) }
    ensures reported { IfOk result (λ reported. IsReportedTo claim.now.until trace reported) }
    ensures count { IfOk result (λ reported. reported.config.n ≡ trace.config.n) }
    ensures refused { IfErr result (IsDeclined (IsUncut claim.now trace)) }
{
    let _set = set_of(claim.correct, &trace)?;
    let mut reported = trace;
    cut_to(alloc, &mut reported, claim.until)?;
    Ok(reported)
}

/// The verdict on a certificate's text by the trace of which it is claimed.
fn verdict_by(
    alloc: Global,
    claim: &Claim,
    reported: &Trace,
    certificate: &[u8],
) -> Result<Verdict, Fault>
    requires { HasCorrect claim.now.correct reported.now }
    ensures verdict { IfOk result
        (λ verdict. IsJudged (named claim.now.correct reported.now.config.n) certificate.now verdict
        reported.now) }
    ensures refused { IfErr result (IsBadCertificate certificate.now) }
{
    let set = claim.correct.named(reported.config().n());
    let rows = certificate_of_text(alloc, certificate, reported.last_tick())?;
    Ok(check_claimed(alloc, reported, set, &rows)?)
}
