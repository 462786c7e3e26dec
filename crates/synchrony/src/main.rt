//! The program. It reads a trace of Send and Receive steps, or a log, or makes a run on threads or a simulated one. Of
//! a trace it prints the report for the processors that are named as correct, or what another command asks for: each is
//! a case of `Job`.
#![tactic(auto)]

mod inputs;
mod line_faults;
mod outputs;
mod run_lists;

use crate::inputs::Input;
use crate::line_faults::refused_line;
use crate::outputs::{Output, stopped};
use crate::run_lists::judge_runs;
use command_faults::{Fault, print, status, swapped, tell};
use command_line::jobs::{CheckJob, DrawJob, ImportJob, JudgeJob, PageJob, ReportJob};
use command_line::{Job, read_command, refuse_words};
use command_options::{RunOptions, SimulationOptions, Workers};
use node_runs::{Limits, follower_for, run_nodes, run_simulation};
use std::env;
use std::process::ExitCode;
use std::sync::Wait;
use std::thread::Threads;
use std::time::Clock;
use step_trace::{Correct, OpenGate};
use text_commands::{
    Answer, Replay, ToldDrawing, ToldPage, Upgrade, import_options, judgement_status,
    read_decisions, read_table, run_check, run_import, run_judge, run_report, run_window, serve,
    verdict_status, window_start,
};
use trace_text::Counting;

fn main(rt: HostRuntime) -> ExitCode {
    match run(&rt, &rt) {
        Ok(code) => ExitCode::from(code),
        Err(fault) => {
            // If it can't be printed, only the status is left.
            let _ = tell(rt.alloc(), &fault, &mut Counting::new(rt.stderr()));
            ExitCode::from(status(&fault))
        }
    }
}

/// Does what the words of the command line ask for, and gives the exit status. `threads` starts the threads of a
/// run and of the workers of a report.
fn run<R: Threads + Wait + Clock + Sync>(rt: &HostRuntime, threads: &R) -> Result<u8, Fault> {
    let job = read_command(rt.alloc(), words(rt)?).map_err(refused_line)?;
    // (each function takes what the job holds, and drops it)
    match job {
        Job::Report(job) => report(rt, threads, job),
        Job::Brief(job) => answer(rt, job.file, &job.brief),
        Job::Each(job) => answer(rt, job.file, &job.each),
        Job::Timeouts(job) => answer(rt, job.file, &job.table),
        Job::Replay(job) => answer(rt, job.file, &Replay),
        Job::Run(options) => run_of(rt, threads, options),
        Job::Simulate(options) => simulation_of(rt, options),
        Job::Upgrade(job) => answer(rt, job.file, &Upgrade),
        Job::Check(job) => check(rt, job),
        Job::Judge(job) => judge(rt, job),
        Job::JudgeRuns(job) => judge_runs(rt, job),
        Job::Draw(job) => draw(rt, job),
        Job::Page(job) => page(rt, job),
        Job::Import(job) => import(rt, threads, job),
        Job::Help(text) => help(rt, text),
    }
}

/// Prints a help text.
fn help(rt: &HostRuntime, text: String) -> Result<u8, Fault> {
    let mut output = Output::new(rt.stdout());
    let printed = print(text.as_str(), &mut Counting::new(&mut output));
    output.ended(printed)
}

/// The words of the command line.
fn words(rt: &HostRuntime) -> Result<Vec<String>, Fault> {
    let given = match env::args(rt) {
        Ok(given) => given,
        Err(error) => return Err(refused_line(refuse_words(rt.alloc(), error.kind())?)),
    };
    // (`collect` would ask again for less if its allocation fails)
    let mut words = Vec::new(rt.alloc());
    for word in given {
        if words.push(word).is_err() {
            return Err(Fault::Memory);
        }
    }
    Ok(words)
}

/// Prints the trace of a run of the nodes, and reports on standard error who decided. If it is followed, the run is
/// reported meanwhile.
fn run_of<T: Threads + Wait + Clock + Sync>(
    rt: &HostRuntime,
    threads: &T,
    options: RunOptions,
) -> Result<u8, Fault> {
    let RunOptions {
        config,
        pace,
        end,
        steps,
        follow,
    } = options;
    let all = config.n() * steps;
    let errors = Counting::new(rt.stderr());
    let mut follower = follower_for(rt.alloc(), &config, follow, all, errors)?;
    let mut output = Output::new(rt.stdout());
    let made = run_nodes(
        threads,
        rt.alloc(),
        &config,
        Limits { pace, end, steps },
        &OpenGate,
        &mut follower,
        &mut Counting::new(&mut output),
        &mut Counting::new(rt.stderr()),
    );
    output.ended(made)
}

/// Prints the trace of a simulated run, and reports on standard error what was decided.
fn simulation_of(rt: &HostRuntime, options: SimulationOptions) -> Result<u8, Fault> {
    let mut output = Output::new(rt.stdout());
    let mut notes = Counting::new(rt.stderr());
    let made = run_simulation(
        rt.alloc(),
        options,
        &mut Counting::new(&mut output),
        &mut notes,
    );
    output.ended(made)
}

/// Prints the report of the trace in a file, or the part of it that is asked for. `threads` starts the threads of the
/// workers of a whole one.
fn report<T: Threads + Wait + Sync>(
    rt: &HostRuntime,
    threads: &T,
    job: ReportJob,
) -> Result<u8, Fault> {
    match (job.part.until, job.part.at) {
        (None, None) => whole_report(rt, threads, job.file, job.part.correct, job.workers),
        _ => answer(rt, job.file, &job.part),
    }
}

/// Prints all of the report of the trace in a file.
fn whole_report<T: Threads + Wait + Sync>(
    rt: &HostRuntime,
    threads: &T,
    file: String,
    correct: Correct,
    workers: Workers,
) -> Result<u8, Fault> {
    let mut trace = Input::open(rt, file)?;
    let mut output = Output::new(rt.stdout());
    let told = run_report(
        threads,
        rt.alloc(),
        &mut Counting::new(&mut trace),
        &mut Counting::new(&mut output),
        correct,
        workers.count,
        &OpenGate,
    );
    output.ended(told.map_err(|fault| trace.named(fault)))
}

/// Prints the answer of a command to the trace in a file.
fn answer<A: Answer>(rt: &HostRuntime, file: String, command: &A) -> Result<u8, Fault> {
    answer_to_input(rt, Input::open(rt, file)?, command)
}

/// Prints the answer of a command to the trace of an input.
fn answer_to_input<A: Answer>(
    rt: &HostRuntime,
    mut trace: Input,
    command: &A,
) -> Result<u8, Fault> {
    let mut output = Output::new(rt.stdout());
    let served = serve(
        rt.alloc(),
        command,
        &mut Counting::new(&mut trace),
        &mut Counting::new(&mut output),
    );
    output.ended(served.map_err(|fault| trace.named(fault)))
}

/// Prints the picture of the trace in a file, by the table in another, if there is one. Both files are opened before
/// one is read; the table is read first.
fn draw(rt: &HostRuntime, job: DrawJob) -> Result<u8, Fault> {
    let DrawJob {
        file,
        table,
        drawing,
    } = job;
    let trace = Input::open(rt, file)?;
    let table = table_in(rt, table)?;
    answer_to_input(rt, trace, &ToldDrawing { drawing, table })
}

/// Prints the page about the trace in a file, by the table in another, if there is one. Both files are opened before
/// one is read; the table is read first.
fn page(rt: &HostRuntime, job: PageJob) -> Result<u8, Fault> {
    let PageJob { file, table, page } = job;
    let trace = Input::open(rt, file)?;
    let table = table_in(rt, table)?;
    answer_to_input(rt, trace, &ToldPage { page, table })
}

/// The text of the table in a file, if there is one.
fn table_in(rt: &HostRuntime, file: Option<String>) -> Result<Option<Vec<u8>>, Fault> {
    let Some(file) = file else {
        return Ok(None);
    };
    let mut table = Input::open(rt, file)?;
    let read = read_table(rt.alloc(), &mut Counting::new(&mut table));
    match read {
        Ok(text) => Ok(Some(text)),
        Err(fault) => Err(table.named(fault)),
    }
}

/// The text, where there is one.
fn text_in(text: &Option<String>) -> Option<&str> {
    match text {
        Some(text) => Some(text.as_str()),
        None => None,
    }
}

/// Prints the trace of the log in a file, or the table of its steps, and reports on standard error how it was read. The
/// options are read first. `threads` starts a thread that helps to read a whole log.
fn import<T: Threads + Sync>(rt: &HostRuntime, threads: &T, job: ImportJob) -> Result<u8, Fault> {
    let options = import_options(rt.alloc(), &job.options)?;
    let start = window_start(text_in(&job.options.from))?;
    let mut log = Input::open(rt, job.file)?;
    let mut output = Output::new(rt.stdout());
    let mut notes = Counting::new(rt.stderr());
    let told = match start {
        None => run_import(
            threads,
            rt.alloc(),
            &options,
            job.options.form,
            &mut Counting::new(&mut log),
            &mut Counting::new(&mut output),
            &mut notes,
        ),
        Some(from) => run_window(
            rt.alloc(),
            &options,
            from,
            job.options.form,
            &mut Counting::new(&mut log),
            &mut Counting::new(&mut output),
            &mut notes,
        ),
    };
    output.ended(told.map_err(|fault| log.named(fault)))
}

/// Prints the verdict on the certificate in a file, for the trace in another, and gives its exit status. Both files are
/// opened before one is read.
fn check(rt: &HostRuntime, job: CheckJob) -> Result<u8, Fault> {
    let mut trace = Input::open(rt, job.file)?;
    let mut claimed = Input::open(rt, job.certificate)?;
    let mut output = Output::new(rt.stdout());
    let judged = run_check(
        rt.alloc(),
        &job.claim,
        &mut Counting::new(&mut trace),
        &mut Counting::new(&mut claimed),
        &mut Counting::new(&mut output),
    );
    match judged {
        Ok(verdict) => Ok(verdict_status(verdict)),
        // (a fault that isn't a failed read of the one is unchanged, and is then looked at for the other)
        Err(fault) => stopped(output.failure(), claimed.named(trace.named(fault))),
    }
}

/// Prints the verdict on the decisions in a file, or on those of the replay, for the trace in another, and gives its
/// exit status. Both files are opened before one is read; the decisions are read first.
fn judge(rt: &HostRuntime, job: JudgeJob) -> Result<u8, Fault> {
    let mut trace = Input::open(rt, job.file)?;
    let decisions = decided(rt, job.decisions)?;
    let mut output = Output::new(rt.stdout());
    let judged = run_judge(
        rt.alloc(),
        &job.judging,
        &decisions,
        &mut Counting::new(&mut trace),
        &mut Counting::new(&mut output),
    );
    match judged {
        Ok(verdict) => Ok(judgement_status(verdict)),
        Err(fault) => {
            let fault = swapped(trace.named(fault), &decisions);
            stopped(output.failure(), fault)
        }
    }
}

/// The text of the decisions in a file; an empty one if there is no file.
fn decided(rt: &HostRuntime, file: Option<String>) -> Result<Vec<u8>, Fault> {
    match file {
        None => Ok(Vec::new(rt.alloc())),
        Some(file) => {
            let mut decided = Input::open(rt, file)?;
            let read = read_decisions(rt.alloc(), &mut Counting::new(&mut decided));
            read.map_err(|fault| decided.named(fault))
        }
    }
}
