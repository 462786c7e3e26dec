//! The rows of a report with their deadlines, as CSV.

ghost use Rattle.std.specs.Prelude.{◌≡◌, IfOk, string_bytes};
ghost use Rattle.decision_claims.specs.Formulas.{deadline};
ghost use Rattle.judged_runs.specs.DeadlineRows.{due_entry, told_rows};

use decision_claims::{Formula, due_deadline};
use std::alloc::{AllocError, Global};
use std::fmt;
use step_trace::{Row, Trace};

const HEADER: &str = "gst,delta,phi,deadline,decided,margin\n";

/// A row of a report, its deadline if it is due, and the tick by which all members have decided, if they have.
#[derive(Clone, Copy)]
struct DeadlineRow {
    row: Row,
    deadline: Option<u64>,
    decided: Option<u64>,
}

/// The header, and a line for each of these rows.
pub(crate) fn rows_text(
    alloc: Global,
    trace: &Trace,
    rows: &[Row],
    decided: Option<u64>,
    start: u64,
    formula: &Formula,
) -> Result<String, AllocError>
    ensures { IfOk result (λ text. string_bytes text ≡ told_rows trace.now
        (deadline trace.now.config start formula.now) decided rows.now) }
{
    let mut text = String::from_str(alloc, HEADER)?;
    for row in rows {
        let line = DeadlineRow {
            row: *row,
            deadline: due_entry(trace, start, formula, *row),
            decided,
        }
        .to_string(alloc)?;
        text.push_str(line.as_str())?;
    }
    Ok(text)
}

/// The deadline of a row, if it is due.
fn due_entry(trace: &Trace, start: u64, formula: &Formula, row: Row) -> Option<u64>
    ensures { result ≡ due_entry trace.now (deadline trace.now.config start formula.now) row }
{
    due_deadline(trace, start, formula, row)
}

/// The line of a row, with its line feed.
impl fmt::Display for DeadlineRow {
    ghost use Rattle.std.specs.Prelude.{Some};
    ghost use Rattle.judged_runs.specs.DeadlineRows.{deadline_line};

    ghost output = { λ line. Some (deadline_line line.row line.deadline line.decided) };

    fn fmt<W: fmt::Write>(&self, f: &mut fmt::Formatter<W>) -> fmt::Result {
        writeln!(
            f,
            "{},{},{},{},{},{}",
            self.row.gst,
            self.row.delta,
            self.row.phi,
            Entry(self.deadline),
            Entry(self.decided),
            Margin {
                deadline: self.deadline,
                decided: self.decided,
            }
        )
    }
}

/// A number, or nothing.
#[derive(Clone, Copy)]
struct Entry(Option<u64>);

impl fmt::Display for Entry {
    ghost use Rattle.std.specs.Prelude.{Some};
    ghost use Rattle.judged_runs.specs.DeadlineRows.{entry_text};

    ghost output = { λ entry. Some (entry_text entry.0) };

    fn fmt<W: fmt::Write>(&self, f: &mut fmt::Formatter<W>) -> fmt::Result {
        match self.0 {
            Some(number) => write!(f, "{number}"),
            None => Ok(()),
        }
    }
}

/// How many ticks before a deadline all members had decided, with a minus for ticks after it; nothing if one of the two
/// lacks.
#[derive(Clone, Copy)]
struct Margin {
    deadline: Option<u64>,
    decided: Option<u64>,
}

impl fmt::Display for Margin {
    ghost use Rattle.std.specs.Prelude.{Some};
    ghost use Rattle.judged_runs.specs.DeadlineRows.{margin_text};

    ghost output = { λ margin. Some (margin_text margin.deadline margin.decided) };

    fn fmt<W: fmt::Write>(&self, f: &mut fmt::Formatter<W>) -> fmt::Result {
        let (Some(deadline), Some(decided)) = (self.deadline, self.decided) else {
            return Ok(());
        };
        if decided <= deadline {
            write!(f, "{}", deadline - decided)
        } else {
            write!(f, "-{}", decided - deadline)
        }
    }
}
