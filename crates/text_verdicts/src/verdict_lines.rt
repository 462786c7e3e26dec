//! The lines of verdicts, and their exit statuses.

ghost use Rattle.std.specs.Prelude.{◌≡◌, IfOk, string_bytes};
ghost use Rattle.text_verdicts.specs.VerdictLines.{status_of_verdict, told_verdict};

use certificate_checker::{Reason, Verdict};
use std::alloc::{AllocError, Global};
use std::fmt;

/// The exit status of a verdict: 1 if the rows are no certificate.
pub fn verdict_status(verdict: Verdict) -> u8
    ensures { result ≡ status_of_verdict verdict }
{
    match verdict {
        Verdict::Yes => 0,
        Verdict::No(_) => 1,
    }
}

/// The line of a verdict, with its line feed.
pub fn verdict_text(alloc: Global, verdict: Verdict) -> Result<String, AllocError>
    ensures { IfOk result (λ text. string_bytes text ≡ told_verdict verdict) }
{
    let mut line = VerdictLine(verdict).to_string(alloc)?;
    line.push_str("\n")?;
    Ok(line)
}

/// What is printed about a verdict.
#[derive(Clone, Copy)]
struct VerdictLine(Verdict);

impl fmt::Display for VerdictLine {
    ghost use Rattle.std.specs.Prelude.{Some};
    ghost use Rattle.text_verdicts.specs.VerdictLines.{verdict_line};

    ghost output = { λ line. Some (verdict_line line.0) };

    fn fmt<W: fmt::Write>(&self, f: &mut fmt::Formatter<W>) -> fmt::Result {
        match self.0 {
            Verdict::Yes => f.write_str("yes"),
            Verdict::No(reason) => write!(f, "no {}", ReasonWords(reason)),
        }
    }
}

/// The name of a reason and its numbers.
#[derive(Clone, Copy)]
struct ReasonWords(Reason);

impl fmt::Display for ReasonWords {
    ghost use Rattle.std.specs.Prelude.{Some};
    ghost use Rattle.text_verdicts.specs.VerdictLines.{reason_words};

    ghost output = { λ words. Some (reason_words words.0) };

    fn fmt<W: fmt::Write>(&self, f: &mut fmt::Formatter<W>) -> fmt::Result {
        match self.0 {
            Reason::NoRows => f.write_str("NoRows"),
            Reason::FirstNotOne => f.write_str("FirstNotOne"),
            Reason::NotRising(row) => write!(f, "NotRising {row}"),
            Reason::BeyondEnd(row) => write!(f, "BeyondEnd {row}"),
            Reason::NotNonIncreasing(row) => write!(f, "NotNonIncreasing {row}"),
            Reason::SameAsBefore(row) => write!(f, "SameAsBefore {row}"),
            Reason::BadMiss(row) => write!(f, "BadMiss {row}"),
            Reason::BadGap(row) => write!(f, "BadGap {row}"),
            Reason::DeltaFails(row, miss) => {
                write!(f, "DeltaFails {row} {} {}", miss.sent, miss.missed)
            }
            Reason::PhiFails(row, gap) => {
                write!(f, "PhiFails {row} {} {} {}", gap.proc, gap.from, gap.to)
            }
        }
    }
}
