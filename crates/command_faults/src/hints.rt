//! The lines after that of a fault: what was wrong in the input, and what helps. Each begins with a line feed; there
//! is none if nothing is known.

ghost use Rattle.std.specs.Prelude.{◌≡◌, ◌+◌, ◌-◌, ◌^◌, min};
ghost use Rattle.command_faults.specs.Hints.{certificate_hint, decisions_hint, listed_hint, output_hint};
ghost use Rattle.command_faults.specs.Hints.{run_list_hint, table_hint, trace_hint};

use crate::faults::{ListedField, PictureOption};
use crate::files::{FileTrouble, OutputTrouble};
use decision_claims::BadFormula;
use front::ReportError;
use judged_runs::{DecisionsError, RunListError};
use std::fmt;
use step_buffers::{Due, DueStep};
use step_tables::TableError;
use trace_text::TextError;

/// The file that wasn't read, and why.
#[derive(Clone, Copy)]
pub(crate) struct FileHint<'a>(pub(crate) &'a str, pub(crate) FileTrouble);

impl fmt::Display for FileHint<'_> {
    ghost use Rattle.std.specs.Prelude.{Some};
    ghost use Rattle.command_faults.specs.Hints.{file_hint};

    ghost output = { λ hint. Some (file_hint hint.0.now hint.1) };

    fn fmt<W: fmt::Write>(&self, f: &mut fmt::Formatter<W>) -> fmt::Result {
        write!(f, "\nsynchrony: {}: {}", self.0, self.1)
    }
}

impl fmt::Display for FileTrouble {
    ghost use Rattle.std.specs.Prelude.{Some};
    ghost use Rattle.command_faults.specs.Hints.{trouble_words};

    ghost output = { λ trouble. Some (trouble_words trouble) };

    fn fmt<W: fmt::Write>(&self, f: &mut fmt::Formatter<W>) -> fmt::Result {
        f.write_str(match self {
            FileTrouble::NoSuchFile => "no such file",
            FileTrouble::PermissionDenied => "permission denied",
            FileTrouble::IsADirectory => "is a directory",
            FileTrouble::Unopened => "cannot be opened",
            FileTrouble::Unread => "cannot be read",
        })
    }
}

/// Why standard output wasn't written.
pub(crate) fn output_hint(trouble: OutputTrouble) -> &'static str
    ensures { result.now ≡ output_hint trouble }
{
    match trouble {
        OutputTrouble::NoSpace => "\nsynchrony: standard output: no space left",
        OutputTrouble::QuotaExceeded => "\nsynchrony: standard output: disk quota exceeded",
        OutputTrouble::FileTooLarge => "\nsynchrony: standard output: file too large",
        OutputTrouble::Unwritten => "\nsynchrony: standard output: cannot be written",
    }
}

/// What a trace begins with, for a text that doesn't begin as one.
pub(crate) fn trace_hint(why: &TextError) -> &'static str
    ensures { result.now ≡ trace_hint why.now }
{
    match why {
        TextError::BadHeader =>
            "\nsynchrony: a trace begins with dls-trace; if this is a log, import makes a trace of it",
        _ => "",
    }
}

/// What a certificate begins with, for a text that doesn't begin as one.
pub(crate) fn certificate_hint(why: &ReportError) -> &'static str
    ensures { result.now ≡ certificate_hint why.now }
{
    match why {
        ReportError::BadHeader =>
            "\nsynchrony: a certificate begins with gst,delta,phi,sent,missed,proc,from,to; the trace comes before it",
        _ => "",
    }
}

/// What decisions begin with, for a text that doesn't begin as theirs; and what a record of them has.
pub(crate) fn decisions_hint(why: &DecisionsError) -> &'static str
    ensures { result.now ≡ decisions_hint why.now }
{
    match why {
        DecisionsError::BadHeader =>
            "\nsynchrony: decisions begin with proc,tick,value; the trace comes before them",
        DecisionsError::BadFields(_) | DecisionsError::BadNumber(_) =>
            "\nsynchrony: a record is a processor, a tick and a value, all of them whole numbers; record 1 is the one after the header",
        DecisionsError::BadProcessor(_) | DecisionsError::BadTick(_) =>
            "\nsynchrony: the processor and the tick are some of the trace; record 1 is the one after the header",
        _ => "",
    }
}

/// What a list of runs begins with, for a text that doesn't begin as one; and what a record of it has.
pub(crate) fn run_list_hint(why: &RunListError) -> &'static str
    ensures { result.now ≡ run_list_hint why.now }
{
    match why {
        RunListError::BadHeader =>
            "\nsynchrony: a list of runs begins with trace,decisions,correct,start",
        RunListError::BadFields(_) =>
            "\nsynchrony: a record has four fields, and quotes around one with commas, as \"1,2\"; record 1 is the one after the header",
        RunListError::NoRuns =>
            "\nsynchrony: after the header a list has a record for each run, such as run.trace,run.decisions,\"1,2\",1",
        _ => "",
    }
}

/// Where the table of a trace comes from, for a text that is no table of it.
pub(crate) fn table_hint(why: &TableError) -> &'static str
    ensures { result.now ≡ table_hint why.now }
{
    match why {
        TableError::TooLarge => "",
        _ =>
            "\nsynchrony: import LOG --table prints the table of a trace, by the options by which import LOG printed the trace",
    }
}

/// What a field of a run in a list takes.
pub(crate) fn listed_hint(field: ListedField) -> &'static str
    ensures { result.now ≡ listed_hint field }
{
    match field {
        ListedField::Trace => "\nsynchrony: trace takes the path of a file, in UTF-8",
        ListedField::Decisions =>
            "\nsynchrony: decisions takes the path of a file, in UTF-8, or nothing for those of the replay",
        ListedField::Correct =>
            "\nsynchrony: correct takes all, none, or numbers from 1 to 64 with one comma between them",
        ListedField::Start => "\nsynchrony: start takes a tick, or nothing",
    }
}

/// Why a text is no formula: what is at which operand, counted from 1.
#[derive(Clone, Copy)]
pub(crate) struct FormulaHint(pub(crate) BadFormula);

impl fmt::Display for FormulaHint {
    ghost use Rattle.std.specs.Prelude.{Some};
    ghost use Rattle.command_faults.specs.Hints.{formula_hint};

    ghost output = { λ hint. Some (formula_hint hint.0) };

    fn fmt<W: fmt::Write>(&self, f: &mut fmt::Formatter<W>) -> fmt::Result {
        match self.0 {
            BadFormula::Operand(operand) => write!(
                f,
                "\nsynchrony: operand {operand} of the formula is no number and none of delta, phi, n, t; the signs are +, *, / and parentheses, and max(A, B) is the greatest"
            ),
            BadFormula::Divisor(operand) => write!(
                f,
                "\nsynchrony: operand {operand} of the formula divides: it has to be a number from 1 on, and all divisors together, multiplied, at most 4294967295"
            ),
            BadFormula::Sign(operand) => write!(
                f,
                "\nsynchrony: after operand {operand} of the formula a sign is missing, or a parenthesis or comma doesn't fit"
            ),
            BadFormula::Depth(operand) => write!(
                f,
                "\nsynchrony: before operand {operand} of the formula more than 32 parentheses are open"
            ),
        }
    }
}

/// What a processor had to do in place of a step that is none of a run.
#[derive(Clone, Copy)]
pub(crate) struct DueHint(pub(crate) Option<Due>);

impl fmt::Display for DueHint {
    ghost use Rattle.std.specs.Prelude.{Some};
    ghost use Rattle.command_faults.specs.Hints.{due_hint};

    ghost output = { λ hint. Some (due_hint hint.0) };

    fn fmt<W: fmt::Write>(&self, f: &mut fmt::Formatter<W>) -> fmt::Result {
        match self.0 {
            Some(due) => write!(
                f,
                "\nsynchrony: processor {} had to {}; a run is a trace that run or simulate printed, and judge takes what another system decided as DECISIONS",
                due.proc,
                DueWords(due.what)
            ),
            None => f.write_str(""),
        }
    }
}

/// The same without the processor.
#[derive(Clone, Copy)]
struct DueWords(DueStep);

impl fmt::Display for DueWords {
    ghost use Rattle.std.specs.Prelude.{Some};
    ghost use Rattle.command_faults.specs.Hints.{due_words};

    ghost output = { λ words. Some (due_words words.0) };

    fn fmt<W: fmt::Write>(&self, f: &mut fmt::Formatter<W>) -> fmt::Result {
        match self.0 {
            DueStep::SendTo(to) => write!(f, "send to processor {to}"),
            DueStep::SendFirst(to) => {
                write!(f, "send to processor {to} before ending its round")
            }
            DueStep::Receive => f.write_str("receive, with nothing left to send in its round"),
        }
    }
}

/// What an option of a picture says, and what it has to fit.
#[derive(Clone, Copy)]
pub(crate) struct PictureHint(pub(crate) PictureOption);

impl fmt::Display for PictureHint {
    ghost use Rattle.std.specs.Prelude.{Some};
    ghost use Rattle.command_faults.specs.Hints.{picture_hint};

    ghost output = { λ hint. Some (picture_hint hint.0) };

    fn fmt<W: fmt::Write>(&self, f: &mut fmt::Formatter<W>) -> fmt::Result {
        match self.0 {
            PictureOption::NameCount(given, processors) => write!(
                f,
                "\nsynchrony: --names has {}, and the trace has {processors} processors",
                NameCount(given)
            ),
            PictureOption::BadName(place) => write!(
                f,
                "\nsynchrony: name {place} of --names has to be 1 to 64 bytes of text with no control character"
            ),
            PictureOption::SameName(place) => {
                write!(
                    f,
                    "\nsynchrony: name {place} of --names is the same as an earlier one"
                )
            }
            PictureOption::NoLane(place) => write!(
                f,
                "\nsynchrony: lane {place} of --lanes is neither a name, of --names or --table, nor a number from 1 to 64"
            ),
            PictureOption::From(from, last) => write!(
                f,
                "\nsynchrony: --from is {from}, and the trace has {}",
                Ticks(last)
            ),
            PictureOption::To(to, from) => write!(
                f,
                "\nsynchrony: --to is {to}, and has to be from {from} to {}",
                greatest_to(from)
            ),
        }
    }
}

/// How many names there are.
#[derive(Clone, Copy)]
struct NameCount(u64);

impl fmt::Display for NameCount {
    ghost use Rattle.std.specs.Prelude.{Some};
    ghost use Rattle.command_faults.specs.Hints.{count_words};

    ghost output = { λ count. Some (count_words count.0) };

    fn fmt<W: fmt::Write>(&self, f: &mut fmt::Formatter<W>) -> fmt::Result {
        if self.0 == 1 {
            f.write_str("1 name")
        } else {
            write!(f, "{} names", self.0)
        }
    }
}

/// The ticks of a trace with this last one.
#[derive(Clone, Copy)]
pub(crate) struct Ticks(pub(crate) u64);

impl fmt::Display for Ticks {
    ghost use Rattle.std.specs.Prelude.{Some};
    ghost use Rattle.command_faults.specs.Hints.{ticks_words};

    ghost output = { λ ticks. Some (ticks_words ticks.0) };

    fn fmt<W: fmt::Write>(&self, f: &mut fmt::Formatter<W>) -> fmt::Result {
        if self.0 == 0 {
            f.write_str("no ticks")
        } else {
            write!(f, "ticks 1 to {}", self.0)
        }
    }
}

/// The greatest last tick of a picture that begins at this one.
fn greatest_to(from: u64) -> u64
    ensures { result ≡ min (from + 999) (2 ^ 64 - 1) }
{
    from.saturating_add(999)
}
