//! What is printed for the job of a command line, of the texts that a caller lends.

ghost use Rattle.std.specs.Prelude.{◌≡◌, ◌≢◌, ◌<◌, IfOk, IfErr, OnOk, option_map, string_bytes};
ghost use Rattle.c_report.specs.Commands.{IsImportFor, IsJudgementPrinted, IsLineOf, IsPrintedFor, IsPrintedOf, IsSaid};
ghost use Rattle.c_report.specs.Commands.{IsTextOfLog, IsUnimportedFor, IsUnprintedFor, IsUnprintedOf, lent};
ghost use Rattle.c_report.specs.Commands.{other_file_words, run_words, runs_words, second_if, simulation_words};
ghost use Rattle.c_report.specs.Commands.{window_words};
ghost use Rattle.c_report.specs.declared.answers.TheConstants.{NO_MEMORY, NO_ROOM};
ghost use Rattle.text_commands.specs.Answers.{IsAnswerTo, IsUnanswered};
ghost use Rattle.text_commands.specs.Checks.{IsUnchecked};
ghost use Rattle.text_commands.specs.Drawings.{IsDrawingBy, IsUndrawnBy};
ghost use Rattle.text_commands.specs.Imports.{IsUnimported};
ghost use Rattle.text_commands.specs.Judgings.{IsJudgementOn, IsUnjudged};
ghost use Rattle.text_commands.specs.Pages.{IsNoPageBy, IsPageBy};
ghost use Rattle.text_verdicts.specs.Checks.{IsVerdictOn};
ghost use Rattle.text_verdicts.specs.Texts.{OfTrace};

use command_faults::Fault;
use command_line::jobs::{CheckJob, DrawJob, ImportJob, JudgeJob, PageJob};
use command_line::{Job, names_standard_input};
use command_options::{ImportForm, ImportOptions};
use event_log::{OneThread, Options};
use log_windows::{log_import, log_table, log_ticks};
use std::alloc::{AllocError, Global};
use std::borrow::CowSlice;
use text_commands::{
    Answer, Replay, ToldDrawing, ToldPage, Upgrade, answer_to, import_options, judgement_on,
    judgement_status, ticks_text, verdict_on,
};
use text_verdicts::{verdict_status, verdict_text};

/// What the program prints, and the exit status that it has.
#[derive(Drop)]
pub(crate) struct Printed {
    pub(crate) status: u32,
    pub(crate) text: Vec<u8>,
    ghost known: { status < NO_ROOM },
    ghost there: { status ≢ NO_MEMORY },
}

/// What is printed for a job.
pub(crate) fn printed_for(
    alloc: Global,
    job: Job,
    text: &[u8],
    second: &[u8],
) -> Result<Printed, Fault>
    ensures printed { IfOk result
        (λ p. IsPrintedFor job text.now second.now p.status p.text.items) }
    ensures refused { IfErr result (IsUnprintedFor job text.now second.now) }
{
    match job {
        Job::Report(job) => answer(alloc, job.file.as_str(), &job.part, text),
        Job::Brief(job) => answer(alloc, job.file.as_str(), &job.brief, text),
        Job::Each(job) => answer(alloc, job.file.as_str(), &job.each, text),
        Job::Timeouts(job) => answer(alloc, job.file.as_str(), &job.table, text),
        Job::Replay(job) => answer(alloc, job.file.as_str(), &Replay, text),
        Job::Upgrade(job) => answer(alloc, job.file.as_str(), &Upgrade, text),
        Job::Draw(job) => draw(alloc, job, text, second),
        Job::Page(job) => page(alloc, job, text, second),
        Job::Import(job) => import(alloc, &job, text),
        Job::Check(job) => check(alloc, &job, text, second),
        Job::Judge(job) => judge(alloc, &job, text, second),
        Job::Help(help) => Ok(well(help.into_bytes())),
        Job::Run(_) => Err(refused_run(alloc)),
        Job::Simulate(_) => Err(refused_simulation(alloc)),
        Job::JudgeRuns(_) => Err(refused_runs(alloc)),
    }
}

/// What is printed if all went well.
fn well(text: Vec<u8>) -> Printed
    ensures status { result.status ≡ 0 }
    ensures text { result.text ≡ text }
{
    Printed { status: 0, text }
}

/// The answer of a command to the trace in a file.
fn answer<A: Answer>(alloc: Global, file: &str, command: &A, text: &[u8]) -> Result<Printed, Fault>
    ensures printed { IfOk result
        (λ p. IsPrintedOf file.now (IsAnswerTo (A.Gives command.now) text.now) p.status
        p.text.items) }
    ensures refused { IfErr result
        (IsUnprintedOf file.now (IsUnanswered (A.Declines command.now) text.now)) }
{
    test_file(alloc, file)?;
    Ok(well(answer_to(alloc, command, text)?))
}

/// The picture of the trace, by the table in the second text, if one is asked for.
fn draw(alloc: Global, job: DrawJob, text: &[u8], second: &[u8]) -> Result<Printed, Fault>
    ensures printed { IfOk result
        (λ p. IsPrintedOf (string_bytes job.file)
        (IsAnswerTo (IsDrawingBy job.drawing (second_if job.table second.now)) text.now)
        p.status p.text.items) }
    ensures refused { IfErr result
        (IsUnprintedOf (string_bytes job.file)
        (IsUnanswered (IsUndrawnBy job.drawing (second_if job.table second.now)) text.now)) }
{
    test_file(alloc, job.file.as_str())?;
    let table = second_if(alloc, &job.table, second)?;
    let drawing = job.drawing;
    Ok(well(answer_to(alloc, &ToldDrawing { drawing, table }, text)?))
}

/// The page about the trace, by the table in the second text, if one is asked for.
fn page(alloc: Global, job: PageJob, text: &[u8], second: &[u8]) -> Result<Printed, Fault>
    ensures printed { IfOk result
        (λ p. IsPrintedOf (string_bytes job.file)
        (IsAnswerTo (IsPageBy job.page (second_if job.table second.now)) text.now) p.status
        p.text.items) }
    ensures refused { IfErr result
        (IsUnprintedOf (string_bytes job.file)
        (IsUnanswered (IsNoPageBy job.page (second_if job.table second.now)) text.now)) }
{
    test_file(alloc, job.file.as_str())?;
    let table = second_if(alloc, &job.table, second)?;
    let page = job.page;
    Ok(well(answer_to(alloc, &ToldPage { page, table }, text)?))
}

/// The second text, if a file is named for it.
fn second_if(
    alloc: Global,
    file: &Option<String>,
    second: &[u8],
) -> Result<Option<Vec<u8>>, AllocError>
    ensures { IfOk result
        (λ text. option_map (λ text. text.items) text ≡ second_if file.now second.now) }
{
    match file {
        Some(_) => Ok(Some(Vec::from_slice(alloc, second)?)),
        None => Ok(None),
    }
}

/// The verdict on the second text.
fn check(alloc: Global, job: &CheckJob, text: &[u8], second: &[u8]) -> Result<Printed, Fault>
    ensures printed { IfOk result
        (λ p. IsLineOf (string_bytes job.now.file)
        (λ verdict.
        OfTrace (IsVerdictOn job.now.claim.correct job.now.claim.until second.now verdict)
        text.now) p.status p.text.items) }
    ensures refused { IfErr result
        (IsUnprintedOf (string_bytes job.now.file)
        (IsUnanswered (IsUnchecked job.now.claim second.now) text.now)) }
{
    test_file(alloc, job.file.as_str())?;
    let verdict = verdict_on(alloc, &job.claim, text, second)?;
    let text = verdict_text(alloc, verdict)?.into_bytes();
    let status = u32::from(verdict_status(verdict));
    Ok(Printed { status, text })
}

/// The judgement of the decisions of the second text.
fn judge(alloc: Global, job: &JudgeJob, text: &[u8], second: &[u8]) -> Result<Printed, Fault>
    ensures printed { IfOk result
        (λ p. IsJudgementPrinted (string_bytes job.now.file)
        (λ verdict out. OfTrace (IsJudgementOn job.now.judging second.now verdict out) text.now)
        p.status p.text.items) }
    ensures refused { IfErr result
        (IsUnprintedOf (string_bytes job.now.file)
        (IsUnanswered (IsUnjudged job.now.judging second.now) text.now)) }
{
    test_file(alloc, job.file.as_str())?;
    let told = judgement_on(alloc, &job.judging, text, second)?;
    let status = u32::from(judgement_status(told.verdict));
    Ok(Printed {
        status,
        text: told.text.into_bytes(),
    })
}

/// What is printed of the log in a file.
fn import(alloc: Global, job: &ImportJob, text: &[u8]) -> Result<Printed, Fault>
    ensures printed { IfOk result
        (λ p. IsPrintedOf (string_bytes job.now.file) (IsImportFor job.now.options text.now)
        p.status p.text.items) }
    ensures refused { IfErr result
        (IsUnprintedOf (string_bytes job.now.file) (IsUnimportedFor job.now.options text.now)) }
{
    test_file(alloc, job.file.as_str())?;
    Ok(well(imported(alloc, &job.options, text)?))
}

/// What is printed of a log, without notes on how it was read.
fn imported(alloc: Global, given: &ImportOptions, text: &[u8]) -> Result<Vec<u8>, Fault>
    ensures imported { IfOk result (λ out. IsImportFor given.now text.now out.items) }
    ensures refused { IfErr result (IsUnimportedFor given.now text.now) }
{
    if given.from.is_some() {
        return Err(refused_window(alloc));
    }
    let options = import_options(alloc, given)?;
    log_text(alloc, text, &options, given.form)
}

/// What is printed of a log, which is read so.
fn log_text(
    alloc: Global,
    text: &[u8],
    options: &Options,
    form: ImportForm,
) -> Result<Vec<u8>, Fault>
    ensures text { IfOk result (λ out. IsTextOfLog form options.now text.now out.items) }
    ensures refused { IfErr result (IsUnimported form options.now text.now) }
{
    match form {
        ImportForm::Trace => trace_text_of(alloc, text, options),
        ImportForm::Table => table_text_of(alloc, text, options),
        ImportForm::Ticks => ticks_text_of(alloc, text, options),
    }
}

/// The text of the trace of a log, which is read so.
fn trace_text_of(alloc: Global, text: &[u8], options: &Options) -> Result<Vec<u8>, Fault>
    ensures trace { IfOk result
        (λ out. IsTextOfLog ImportForm.Trace options.now text.now out.items) }
    ensures refused { IfErr result (IsUnimported ImportForm.Trace options.now text.now) }
{
    let mut import = log_import(alloc, &OneThread, CowSlice::Borrowed(text), options)?;
    Upgrade.answer(alloc, &mut import.trace)
}

/// The table of the steps of a log, which is read so.
fn table_text_of(alloc: Global, text: &[u8], options: &Options) -> Result<Vec<u8>, Fault>
    ensures table { IfOk result
        (λ out. IsTextOfLog ImportForm.Table options.now text.now out.items) }
    ensures refused { IfErr result (IsUnimported ImportForm.Table options.now text.now) }
{
    Ok(log_table(alloc, text, options)?.table)
}

/// The table of the lengths of a tick for a log.
fn ticks_text_of(alloc: Global, text: &[u8], options: &Options) -> Result<Vec<u8>, Fault>
    ensures ticks { IfOk result
        (λ out. IsTextOfLog ImportForm.Ticks options.now text.now out.items) }
    ensures refused { IfErr result (IsUnimported ImportForm.Ticks options.now text.now) }
{
    let table = log_ticks(alloc, text, options)?;
    Ok(ticks_text(alloc, &table)?)
}

/// Refuses a file of another name than that of the text which is lent.
fn test_file(alloc: Global, file: &str) -> Result<(), Fault>
    ensures lent { OnOk result (file.now ≡ lent) }
    ensures refused { IfErr result (λ w. (file.now ≢ lent) × IsSaid other_file_words w) }
{
    if names_standard_input(file) {
        return Ok(());
    }
    Err(refused(alloc, "synchrony: the library reads the file - alone"))
}

/// The refusal of a run.
fn refused_run(alloc: Global) -> Fault
    ensures { IsSaid run_words result }
{
    refused(
        alloc,
        "synchrony: run starts threads, which the library does not",
    )
}

/// The refusal of a window of a log.
fn refused_window(alloc: Global) -> Fault
    ensures { IsSaid window_words result }
{
    refused(
        alloc,
        "synchrony: the library imports whole logs, and takes no --from",
    )
}

/// The refusal of a simulation, which the library doesn't make.
fn refused_simulation(alloc: Global) -> Fault
    ensures { IsSaid simulation_words result }
{
    refused(alloc, "synchrony: the library simulates no runs")
}

/// The refusal of a list of runs, whose files the library doesn't read.
fn refused_runs(alloc: Global) -> Fault
    ensures { IsSaid runs_words result }
{
    refused(alloc, "synchrony: the library judges one run at a time")
}

/// A refusal in these words.
fn refused(alloc: Global, words: &str) -> Fault
    ensures { IsSaid words.now result }
{
    match String::from_str(alloc, words) {
        Ok(words) => Fault::Command(words),
        Err(AllocError) => Fault::Memory,
    }
}
