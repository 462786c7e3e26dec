//! The judgement of the decisions of a run: the command `judge`.

ghost use Rattle.std.specs.Prelude.{◌≡◌, ◌≤◌, ℕ, List, Err, OnOk, IfOk, IfErr, IfSome, length, string_bytes};
ghost use Rattle.decision_claims.specs.FormulaTexts.{NeedsMemory};
ghost use Rattle.trace_text.specs.declared.byte_loops.TheConstants.{MAX_TEXT_BYTES};
ghost use Rattle.text_commands.specs.Answers.{IsDeclined, IsUnanswered};
ghost use Rattle.text_commands.specs.Judgings.{AreDecisions, HasStart, IsFormulaFault, IsFormulaText, IsJudgedText};
ghost use Rattle.text_commands.specs.Judgings.{IsJudgementOn, IsStartFault, IsUndecided, IsUnjudged, demands_of};
ghost use Rattle.text_commands.specs.Judgings.{details_of};
ghost use Rattle.text_commands.specs.Serving.{Appends, IsAtEnd, IsReadFault, ServesTrace, faults_of, inner_of};
ghost use Rattle.text_commands.specs.Texts.{IsUnreadWhole};
ghost use Rattle.text_verdicts.specs.Texts.{OfTrace};

use crate::replayed_decisions::replayed_decisions;
use crate::report_parts::{has_tick, outside};
use crate::texts::read_whole;
use crate::traces::{set_of, trace_of};
use command_faults::{Fault, ReportOption};
use command_options::Judging;
use decision_claims::{Decision, parse_formula};
use judged_runs::{
    DecisionsError, Demands, Details, Judgement, Verdict, decisions_of_text, judgement_of,
};
use shared_reading::read_trace_by_parts;
use std::alloc::Global;
use std::io::{Read, Write};
use step_trace::Trace;
use trace_text::{Counting, write_text};

/// Refuses Within for a deadline that is no formula. Memory may come instead, if a second part of a sum has to be kept.
pub fn test_formula(alloc: Global, within: &str) -> Result<(), Fault>
    ensures formula { OnOk result (IsFormulaText within.now) }
    ensures refused { IfErr result (IsFormulaFault within.now) }
    ensures more { result ≡ Err Fault.Memory → NeedsMemory within.now }
{
    parse_formula(alloc, within.as_bytes())?;
    Ok(())
}

/// Reads a text of decisions to its end. It is parsed by `run_judge`.
///
/// Refuses Read at the first fault, and Decisions for a text that is too large. Memory may come instead.
pub fn read_decisions<R: Read>(alloc: Global, reader: &mut Counting<R>) -> Result<Vec<u8>, Fault>
    ensures text { IfOk result
        (λ text. IfSome (R.remaining (inner_of reader.old)) (λ known. text.items ≡ known)) }
    ensures limit { IfOk result (λ text. length text.items ≤ MAX_TEXT_BYTES) }
    ensures end { OnOk result (IsAtEnd (R.remaining (inner_of reader.new))) }
    ensures faultless { OnOk result (faults_of reader.new ≡ faults_of reader.old) }
    ensures refused { IfErr result
        (IsUnreadWhole (Fault.Decisions DecisionsError.TooLarge)
        (R.remaining (inner_of reader.old))) }
    ensures read { IfErr result (IsReadFault (faults_of reader.old) (faults_of reader.new)) }
{
    read_whole(alloc, reader, Fault::Decisions(DecisionsError::TooLarge))
}

/// Reads a trace text to its end, and judges by it the decisions of another text, or those that its replay finds.
/// Writes the line of the verdict and the details that are asked for. Nothing is written before all of it is complete.
///
/// Refuses, in this order:
/// - Read, or Trace for a trace text that is too large;
/// - Trace for any other refusal of it;
/// - Set if a correct processor is above the trace's number of processors;
/// - Within for a deadline that is no formula;
/// - Report if the trace hasn't the tick of the start;
/// - NotARun as `replay` does, or Decisions with the first refusal of the decisions;
/// - Write with the number of bytes that went out before.
///
/// Memory may come at any step before the first write.
pub fn run_judge<R: Read, W: Write>(
    alloc: Global,
    judging: &Judging,
    decisions: &[u8],
    reader: &mut Counting<R>,
    writer: &mut Counting<W>,
) -> Result<Verdict, Fault>
    ensures served { ServesTrace (IsJudgedText judging.now decisions.now)
        (IsUnjudged judging.now decisions.now) R.remaining W.contents reader.old reader.new
        writer.old writer.new result }
    ensures verdict { IfOk result (λ verdict. (text out : List ℕ)
        × IfSome (R.remaining (inner_of reader.old)) (λ known. text ≡ known)
        × OfTrace (IsJudgementOn judging.now decisions.now verdict out) text
        × Appends (W.contents (inner_of writer.old)) (W.contents (inner_of writer.new)) out) }
{
    let trace = read_trace_by_parts(alloc, reader)?;
    let told = judgement_for(alloc, judging, decisions, &trace)?;
    write_text(told.text.as_bytes(), writer)?;
    Ok(told.verdict)
}

/// The judgement of the decisions of a text by a trace text, both in memory, or of those that the trace's replay finds.
///
/// Refuses, in this order: Trace with the first refusal of the trace text; Set, Within, Report, NotARun and Decisions
/// as `run_judge` does. Memory may come instead.
pub fn judgement_on(
    alloc: Global,
    judging: &Judging,
    text: &[u8],
    decisions: &[u8],
) -> Result<Judgement, Fault>
    ensures verdict { IfOk result
        (λ told. OfTrace (IsJudgementOn judging.now decisions.now told.verdict
        (string_bytes told.text)) text.now) }
    ensures refused { IfErr result (IsUnanswered (IsUnjudged judging.now decisions.now) text.now) }
{
    let trace = trace_of(alloc, text)?;
    judgement_for(alloc, judging, decisions, &trace)
}

/// The judgement of the decisions of a text by a trace.
fn judgement_for(
    alloc: Global,
    judging: &Judging,
    decisions: &[u8],
    trace: &Trace,
) -> Result<Judgement, Fault>
    ensures verdict { IfOk result
        (λ told. IsJudgementOn judging.now decisions.now told.verdict
        (string_bytes told.text) trace.now) }
    ensures refused { IfErr result (IsDeclined (IsUnjudged judging.now decisions.now trace.now)) }
{
    let set = set_of(judging.correct, trace)?;
    let formula = parse_formula(alloc, judging.within.as_str().as_bytes())?;
    test_start(judging.start, trace)?;
    let decisions = decisions_for(alloc, judging, decisions, trace)?;
    let (demands, details) = (demands_of(judging), details_of(judging));
    Ok(judgement_of(alloc, trace, set, &decisions, &formula, demands, details)?)
}

/// The decisions that are judged: those of the replay, or those of the text.
fn decisions_for(
    alloc: Global,
    judging: &Judging,
    text: &[u8],
    trace: &Trace,
) -> Result<Vec<Decision>, Fault>
    ensures decisions { IfOk result
        (λ found. AreDecisions judging.now.replay text.now trace.now found.items) }
    ensures refused { IfErr result
        (IsDeclined (IsUndecided judging.now.replay text.now trace.now)) }
{
    if judging.replay {
        return replayed_decisions(alloc, trace);
    }
    let config = trace.config();
    Ok(decisions_of_text(alloc, text, config.n(), trace.last_tick())?)
}

/// What is demanded of the decisions.
fn demands_of(judging: &Judging) -> Demands
    ensures { result ≡ demands_of judging.now }
{
    Demands {
        start: judging.start.unwrap_or(1),
        valid: judging.valid,
        whole: judging.whole,
        due: judging.due.unwrap_or(0),
    }
}

/// What is asked for besides the verdict.
fn details_of(judging: &Judging) -> Details
    ensures { result ≡ details_of judging.now }
{
    Details {
        factor: judging.factor,
        rows: judging.rows,
    }
}

/// Refuses Report for a start that is none of the ticks of the trace.
fn test_start(start: Option<u64>, trace: &Trace) -> Result<(), Fault>
    ensures started { OnOk result (HasStart start trace.now) }
    ensures refused { IfErr result (IsStartFault start trace.now) }
{
    match start {
        Some(tick) => {
            if has_tick(trace, tick) {
                Ok(())
            } else {
                Err(outside(ReportOption::Start, trace, tick))
            }
        }
        None => Ok(()),
    }
}
