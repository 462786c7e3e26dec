//! The judgement of the runs of a list, file by file.

use crate::inputs::Input;
use crate::outputs::{Output, stopped};
use command_faults::{Fault, ListedField, print, swapped};
use command_line::jobs::RunsJob;
use command_options::Judging;
use judged_runs::{ListedRun, Outcome, Verdict, outcomes_status, summary_text};
use std::alloc::Global;
use std::io::Write;
use text_commands::{
    judged_line, listed_judging, listed_path, read_decisions, read_runs, run_judge, test_formula,
    unjudged_line,
};
use trace_text::{Counting, write_text};

/// Prints a line for each run of a list, and then the summary, and gives the exit status. The list is read first. The
/// files of a run are opened when it is judged, and faults in them are in its line.
///
/// Stops if the formula or the list is refused, if the output can't be written, and if it is out of memory.
pub(crate) fn judge_runs(rt: &HostRuntime, job: RunsJob) -> Result<u8, Fault> {
    test_formula(rt.alloc(), job.judging.within.as_str())?;
    let mut list = Input::open(rt, job.list)?;
    let read = read_runs(rt.alloc(), &mut Counting::new(&mut list));
    let runs = read.map_err(|fault| list.named(fault))?;
    let mut output = Output::new(rt.stdout());
    let told = tell_runs(rt, &job.judging, &runs, &mut Counting::new(&mut output));
    match told {
        Ok(status) => Ok(status),
        Err(fault) => stopped(output.failure(), fault),
    }
}

/// Writes a line for each run, and then the summary, and gives the exit status.
fn tell_runs<W: Write>(
    rt: &HostRuntime,
    judging: &Judging,
    runs: &[ListedRun],
    writer: &mut Counting<W>,
) -> Result<u8, Fault> {
    let mut outcomes = Vec::with_capacity(rt.alloc(), runs.len())?;
    for k in 0..runs.len() {
        let outcome = tell_run(rt, judging, k as u64 + 1, &runs[k], writer)?;
        if outcomes.push(outcome).is_err() {
            return Err(Fault::Memory);
        }
    }
    let summary = summary_text(rt.alloc(), &outcomes)?;
    print(summary.as_str(), writer)?;
    Ok(outcomes_status(&outcomes))
}

/// Writes the line of a run, and gives what came of it.
fn tell_run<W: Write>(
    rt: &HostRuntime,
    judging: &Judging,
    number: u64,
    run: &ListedRun,
    writer: &mut Counting<W>,
) -> Result<Outcome, Fault> {
    let alloc = rt.alloc();
    let mut text = Vec::new(alloc);
    match judged(rt, judging, run, &mut text) {
        Ok(verdict) => {
            write_text(&judged_line(alloc, number, &text)?, writer)?;
            Ok(Outcome::Judged(verdict))
        }
        // (nothing but memory stops the writing of a text into memory)
        Err(Fault::Memory | Fault::Write(_)) => Err(Fault::Memory),
        Err(fault) => {
            write_text(&unjudged_line(alloc, number, &fault)?, writer)?;
            Ok(Outcome::NotJudged)
        }
    }
}

/// The verdict on a run, whose line goes into the text.
fn judged(
    rt: &HostRuntime,
    judging: &Judging,
    run: &ListedRun,
    text: &mut Vec<u8>,
) -> Result<Verdict, Fault> {
    let alloc = rt.alloc();
    let judging = listed_judging(alloc, judging, run)?;
    let path = listed_path(alloc, ListedField::Trace, &run.trace)?;
    let mut trace = Input::open(rt, path)?;
    let decisions = decided(rt, alloc, run)?;
    let judged = run_judge(
        alloc,
        &judging,
        &decisions,
        &mut Counting::new(&mut trace),
        &mut Counting::new(text),
    );
    judged.map_err(|fault| swapped(trace.named(fault), &decisions))
}

/// The text of the decisions of a run; an empty one if they are those of the replay.
fn decided(rt: &HostRuntime, alloc: Global, run: &ListedRun) -> Result<Vec<u8>, Fault> {
    if run.decisions.is_empty() {
        return Ok(Vec::new(alloc));
    }
    let path = listed_path(alloc, ListedField::Decisions, &run.decisions)?;
    let mut decided = Input::open(rt, path)?;
    let read = read_decisions(alloc, &mut Counting::new(&mut decided));
    read.map_err(|fault| decided.named(fault))
}
