//! What came of the runs of a list, and the summary of it.

ghost use Rattle.std.specs.Prelude.{◌≡◌, IfOk, count_by, string_bytes};
ghost use Rattle.judged_runs.specs.Outcomes.{is_kept, is_no, is_unjudged, is_untested, least_margin, margin_of};
ghost use Rattle.judged_runs.specs.Outcomes.{nearer, status_of_outcomes, told_summary};

use crate::judgements::Verdict;
use std::alloc::{AllocError, Global};
use std::fmt;

/// What came of a run of a list.
#[derive(Clone, Copy, Debug, PartialEq, Eq)]
pub enum Outcome {
    /// It has this verdict.
    Judged(Verdict),
    /// A file or a field of it is refused.
    NotJudged,
}

/// The least margin of some runs, and the number of the first run that has it, from 1.
#[derive(Clone, Copy, Debug, PartialEq, Eq)]
pub struct LeastMargin {
    pub margin: u64,
    pub run: u64,
}

/// The exit status for the runs of a list: 10 if some run wasn't judged, or else 1 if the verdict on some run is no.
pub fn outcomes_status(outcomes: &[Outcome]) -> u8
    ensures { result ≡ status_of_outcomes outcomes.now }
{
    if count_unjudged(outcomes) > 0 {
        return 10;
    }
    if count_no(outcomes) > 0 {
        return 1;
    }
    0
}

/// The summary of the runs of a list, with its line feed. It counts all runs, those with the verdict yes and a deadline
/// that was due, no, yes with none due, and those not judged. Then come the least margin and the first run that has it.
pub fn summary_text(alloc: Global, outcomes: &[Outcome]) -> Result<String, AllocError>
    ensures { IfOk result (λ text. string_bytes text ≡ told_summary outcomes.now) }
{
    let summary = Summary {
        runs: outcomes.len() as u64,
        kept: count_kept(outcomes),
        no: count_no(outcomes),
        untested: count_untested(outcomes),
        unjudged: count_unjudged(outcomes),
        least: least_margin(outcomes),
    };
    let mut text = summary.to_string(alloc)?;
    text.push_str("\n")?;
    Ok(text)
}

fn count_kept(outcomes: &[Outcome]) -> u64
    ensures { result ≡ count_by is_kept outcomes.now }
{
    outcomes.iter().filter(|outcome| is_kept(**outcome)).count() as u64
}

fn count_no(outcomes: &[Outcome]) -> u64
    ensures { result ≡ count_by is_no outcomes.now }
{
    outcomes.iter().filter(|outcome| is_no(**outcome)).count() as u64
}

fn count_untested(outcomes: &[Outcome]) -> u64
    ensures { result ≡ count_by is_untested outcomes.now }
{
    outcomes
        .iter()
        .filter(|outcome| is_untested(**outcome))
        .count() as u64
}

fn count_unjudged(outcomes: &[Outcome]) -> u64
    ensures { result ≡ count_by is_unjudged outcomes.now }
{
    outcomes
        .iter()
        .filter(|outcome| is_unjudged(**outcome))
        .count() as u64
}

/// The margin of a run, if a deadline of it was due and none was missed.
fn margin_of(outcome: Outcome) -> Option<u64>
    ensures { result ≡ margin_of outcome }
{
    match outcome {
        Outcome::Judged(Verdict::Yes(tested)) => tested.margin,
        _ => None,
    }
}

/// Whether the verdict is yes, and a deadline was due.
fn is_kept(outcome: Outcome) -> bool
    ensures { result ≡ is_kept outcome }
{
    margin_of(outcome).is_some()
}

/// Whether the verdict is no.
fn is_no(outcome: Outcome) -> bool
    ensures { result ≡ is_no outcome }
{
    match outcome {
        Outcome::Judged(Verdict::Yes(_)) => false,
        Outcome::Judged(_) => true,
        Outcome::NotJudged => false,
    }
}

/// Whether the verdict is yes, and no deadline was due.
fn is_untested(outcome: Outcome) -> bool
    ensures { result ≡ is_untested outcome }
{
    match outcome {
        Outcome::Judged(Verdict::Yes(tested)) => tested.margin.is_none(),
        _ => false,
    }
}

/// Whether there is no verdict.
fn is_unjudged(outcome: Outcome) -> bool
    ensures { result ≡ is_unjudged outcome }
{
    match outcome {
        Outcome::NotJudged => true,
        Outcome::Judged(_) => false,
    }
}

/// The least margin of the runs, and the first one that has it.
fn least_margin(outcomes: &[Outcome]) -> Option<LeastMargin>
    ensures { result ≡ least_margin outcomes.now }
{
    let mut least = None;
    for k in (0..outcomes.len()).rev() {
        least = nearer(margin_of(outcomes[k]), k as u64 + 1, least);
    }
    least
}

/// The margin of the run of this number, unless there is a lesser one of a later run.
fn nearer(margin: Option<u64>, run: u64, later: Option<LeastMargin>) -> Option<LeastMargin>
    ensures { result ≡ nearer margin run later }
{
    match (margin, later) {
        (None, later) => later,
        (Some(margin), None) => Some(LeastMargin { margin, run }),
        (Some(margin), Some(later)) => {
            if later.margin < margin {
                Some(later)
            } else {
                Some(LeastMargin { margin, run })
            }
        }
    }
}

/// What is printed about the runs of a list.
#[derive(Clone, Copy)]
struct Summary {
    runs: u64,
    kept: u64,
    no: u64,
    untested: u64,
    unjudged: u64,
    least: Option<LeastMargin>,
}

impl fmt::Display for Summary {
    ghost use Rattle.std.specs.Prelude.{Some};
    ghost use Rattle.judged_runs.specs.Outcomes.{summary_words};

    ghost output = { λ s. Some (summary_words s.runs s.kept s.no s.untested s.unjudged s.least) };

    fn fmt<W: fmt::Write>(&self, f: &mut fmt::Formatter<W>) -> fmt::Result {
        write!(
            f,
            "{}: {} yes, {} no, {} untested, {} not judged{}",
            RunCount(self.runs),
            self.kept,
            self.no,
            self.untested,
            self.unjudged,
            LeastWords(self.least)
        )
    }
}

/// How many runs there are.
#[derive(Clone, Copy)]
struct RunCount(u64);

impl fmt::Display for RunCount {
    ghost use Rattle.std.specs.Prelude.{Some};
    ghost use Rattle.judged_runs.specs.Outcomes.{count_words};

    ghost output = { λ count. Some (count_words count.0) };

    fn fmt<W: fmt::Write>(&self, f: &mut fmt::Formatter<W>) -> fmt::Result {
        match self.0 {
            1 => f.write_str("1 run"),
            runs => write!(f, "{runs} runs"),
        }
    }
}

/// The least margin, if there is one.
#[derive(Clone, Copy)]
struct LeastWords(Option<LeastMargin>);

impl fmt::Display for LeastWords {
    ghost use Rattle.std.specs.Prelude.{Some};
    ghost use Rattle.judged_runs.specs.Outcomes.{least_words};

    ghost output = { λ words. Some (least_words words.0) };

    fn fmt<W: fmt::Write>(&self, f: &mut fmt::Formatter<W>) -> fmt::Result {
        match self.0 {
            Some(least) => write!(f, "; least margin {} (run {})", least.margin, least.run),
            None => f.write_str(""),
        }
    }
}
