//! The lines of verdicts on decisions, and their exit statuses.

ghost use Rattle.std.specs.Prelude.{◌≡◌, IfOk, string_bytes};
ghost use Rattle.judged_runs.specs.VerdictLines.{status_of_verdict, told_verdict};

use crate::judgements::Verdict;
use decision_claims::{Decision, Late, Tested};
use std::alloc::{AllocError, Global};
use std::fmt;

/// The exit status of a verdict: 1 if something is wrong.
pub fn verdict_status(verdict: Verdict) -> u8
    ensures { result ≡ status_of_verdict verdict }
{
    match verdict {
        Verdict::Yes(_) => 0,
        _ => 1,
    }
}

/// The line of a verdict, with its line feed.
pub fn verdict_text(alloc: Global, verdict: Verdict) -> Result<String, AllocError>
    ensures { IfOk result (λ text. string_bytes text ≡ told_verdict verdict) }
{
    let mut line = VerdictLine(verdict).to_string(alloc)?;
    line.push_str("\n")?;
    Ok(line)
}

/// What is printed about a verdict.
#[derive(Clone, Copy)]
struct VerdictLine(Verdict);

impl fmt::Display for VerdictLine {
    ghost use Rattle.std.specs.Prelude.{Some};
    ghost use Rattle.judged_runs.specs.VerdictLines.{verdict_line};

    ghost output = { λ line. Some (verdict_line line.0) };

    fn fmt<W: fmt::Write>(&self, f: &mut fmt::Formatter<W>) -> fmt::Result {
        match self.0 {
            Verdict::Yes(tested) => write!(f, "yes{}", TestedWords(tested)),
            Verdict::Differ(one, other) => {
                write!(
                    f,
                    "no agreement{}{}",
                    DecisionWords(one),
                    DecisionWords(other)
                )
            }
            Verdict::Foreign(decision) => write!(f, "no validity{}", DecisionWords(decision)),
            Verdict::LateBy(late) => write!(f, "no deadline{}", LateWords(late)),
            Verdict::Untested(count) => write!(f, "no due {count}"),
        }
    }
}

/// A decision as its processor, tick and value, each after a space.
#[derive(Clone, Copy)]
struct DecisionWords(Decision);

impl fmt::Display for DecisionWords {
    ghost use Rattle.std.specs.Prelude.{Some};
    ghost use Rattle.judged_runs.specs.VerdictLines.{decision_words};

    ghost output = { λ words. Some (decision_words words.0) };

    fn fmt<W: fmt::Write>(&self, f: &mut fmt::Formatter<W>) -> fmt::Result {
        write!(f, " {} {} {}", self.0.proc, self.0.tick, self.0.value)
    }
}

/// What was late: the row's triple, the deadline and the processor, each after a space.
#[derive(Clone, Copy)]
struct LateWords(Late);

impl fmt::Display for LateWords {
    ghost use Rattle.std.specs.Prelude.{Some};
    ghost use Rattle.judged_runs.specs.VerdictLines.{late_words};

    ghost output = { λ words. Some (late_words words.0) };

    fn fmt<W: fmt::Write>(&self, f: &mut fmt::Formatter<W>) -> fmt::Result {
        write!(
            f,
            " {} {} {} {} {}",
            self.0.row.gst, self.0.row.delta, self.0.row.phi, self.0.deadline, self.0.proc
        )
    }
}

/// How many rows were due and how many come later, and the margin if there is one.
#[derive(Clone, Copy)]
struct TestedWords(Tested);

impl fmt::Display for TestedWords {
    ghost use Rattle.std.specs.Prelude.{Some};
    ghost use Rattle.judged_runs.specs.VerdictLines.{tested_words};

    ghost output = { λ words. Some (tested_words words.0) };

    fn fmt<W: fmt::Write>(&self, f: &mut fmt::Formatter<W>) -> fmt::Result {
        match self.0.margin {
            Some(margin) => write!(
                f,
                " {} due {} later margin {margin}",
                self.0.due, self.0.later
            ),
            None => write!(f, " {} due {} later", self.0.due, self.0.later),
        }
    }
}
