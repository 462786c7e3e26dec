//! The lines in which faults are reported.

ghost use Rattle.std.specs.Prelude.{◌≡◌, IfOk, string_bytes};
ghost use Rattle.command_faults.specs.FaultLines.{fault_line, ended_line};

use crate::faults::{Fault, ListedField, PictureOption};
use crate::hints::{
    DueHint, FileHint, FormulaHint, PictureHint, certificate_hint, decisions_hint, listed_hint,
    output_hint, run_list_hint, table_hint, trace_hint,
};
use crate::log_fault_lines::{HelpLine, ImportHint, LengthHint, log_lead};
use crate::outside_lines::{MemberLine, TickLine};
use std::alloc::{AllocError, Global};
use std::fmt;

/// The line of a fault without its line feed, with one more line if something helps. For a refused command line,
/// its reader's words, which end with a line feed.
pub fn fault_text(alloc: Global, fault: &Fault) -> Result<String, AllocError>
    ensures { IfOk result (λ text. string_bytes text ≡ fault_line fault.now) }
{
    fault.to_string(alloc)
}

/// The line of a fault, with one line feed at its end.
pub fn told_line(alloc: Global, fault: &Fault) -> Result<String, AllocError>
    ensures { IfOk result (λ line. string_bytes line ≡ ended_line (fault_line fault.now)) }
{
    let mut line = fault_text(alloc, fault)?;
    if !line.as_str().ends_with('\n') {
        line.push_str("\n")?;
    }
    Ok(line)
}

impl fmt::Display for Fault {
    ghost use Rattle.std.specs.Prelude.{Some};
    ghost use Rattle.command_faults.specs.FaultLines.{fault_line};

    ghost output = { λ fault. Some (fault_line fault) };

    fn fmt<W: fmt::Write>(&self, f: &mut fmt::Formatter<W>) -> fmt::Result {
        match self {
            Fault::Command(words) => f.write_str(words.as_str()),
            Fault::Set(option, outside) => {
                let line = MemberLine(*option, outside);
                write!(f, "synchrony: no such processor in {option}{line}")
            }
            Fault::Trace(why) => { write!(f, "synchrony: trace: {why}{}", trace_hint(why)) }
            Fault::Swapped => f.write_str(
                "synchrony: trace: bad header\nsynchrony: the decisions begin as a trace: the two files may be swapped, and the trace comes first",
            ),
            Fault::Certificate(why) => {
                write!(f, "synchrony: certificate: {why}{}", certificate_hint(why))
            }
            Fault::Decisions(why) => {
                write!(f, "synchrony: decisions: {why}{}", decisions_hint(why))
            }
            Fault::Runs(why) => { write!(f, "synchrony: runs: {why}{}", run_list_hint(why)) }
            Fault::Table(why) => { write!(f, "synchrony: table: {why}{}", table_hint(why)) }
            Fault::Listed(field) => { write!(f, "synchrony: bad {field}{}", listed_hint(*field)) }
            Fault::Within(why) => { write!(f, "synchrony: bad --within{}", FormulaHint(*why)) }
            Fault::Memory => f.write_str("synchrony: out of memory"),
            Fault::Read => f.write_str("synchrony: cannot read"),
            Fault::Unread(file, trouble) => {
                write!(
                    f,
                    "synchrony: cannot read{}",
                    FileHint(file.as_str(), *trouble)
                )
            }
            Fault::Write(_) => f.write_str("synchrony: cannot write"),
            Fault::Unwritten(trouble) => {
                write!(f, "synchrony: cannot write{}", output_hint(*trouble))
            }
            Fault::NotARun(no, due) => {
                write!(f, "synchrony: not a run: step {no}{}", DueHint(*due))
            }
            Fault::Threads => f.write_str("synchrony: worker not started or held"),
            Fault::Picture(option) => {
                write!(f, "synchrony: bad {option}{}", PictureHint(*option))
            }
            Fault::Report(option, outside) => {
                write!(f, "synchrony: bad {option}{}", TickLine(*option, outside))
            }
            Fault::Log(why) => write!(f, "synchrony: {}{why}{}", log_lead(why), HelpLine(why)),
            Fault::Import(option) => { write!(f, "synchrony: bad {option}{}", ImportHint(*option)) }
            Fault::Length(option, given) => {
                let hint = LengthHint(*option, given.as_str());
                write!(f, "synchrony: bad {option}{hint}")
            }
        }
    }
}

/// The option, as the command line has it.
impl fmt::Display for PictureOption {
    ghost use Rattle.std.specs.Prelude.{Some};
    ghost use Rattle.command_faults.specs.FaultLines.{option_words};

    ghost output = { λ option. Some (option_words option) };

    fn fmt<W: fmt::Write>(&self, f: &mut fmt::Formatter<W>) -> fmt::Result {
        match self {
            PictureOption::NameCount(..) => f.write_str("--names"),
            PictureOption::BadName(_) | PictureOption::SameName(_) => f.write_str("--names"),
            PictureOption::NoLane(_) => f.write_str("--lanes"),
            PictureOption::From(..) => f.write_str("--from"),
            PictureOption::To(..) => f.write_str("--to"),
        }
    }
}

/// The field, as the list's header has it.
impl fmt::Display for ListedField {
    ghost use Rattle.std.specs.Prelude.{Some};
    ghost use Rattle.command_faults.specs.FaultLines.{listed_field_words};

    ghost output = { λ field. Some (listed_field_words field) };

    fn fmt<W: fmt::Write>(&self, f: &mut fmt::Formatter<W>) -> fmt::Result {
        match self {
            ListedField::Trace => f.write_str("trace"),
            ListedField::Decisions => f.write_str("decisions"),
            ListedField::Correct => f.write_str("correct"),
            ListedField::Start => f.write_str("start"),
        }
    }
}
