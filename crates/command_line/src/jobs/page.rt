//! The command `page`: its words and its help text, and the job that they give.

ghost use Rattle.std.specs.Prelude.{◌≡◌, IfOk, IfErr, OnOk, Some, option_map};
ghost use Rattle.clap.specs.Words.{found_of, rows_of};
ghost use Rattle.command_line.specs.Arguments.{IsCommand};
ghost use Rattle.command_line.specs.Commands.Page.{FitsTable, IsNamesRefusal, IsPage, IsPageFault, IsTableFault};
ghost use Rattle.command_line.specs.Commands.Page.{IsUnitFault, page_app, page_given, unit_given};

use crate::jobs::Job;
use crate::jobs::arguments::{
    correct_argument, correct_in, file_argument, kept, names_standard_input, new_command,
    optional_argument, text, tick, tick_argument,
};
use crate::jobs::run::refused_in;
use crate::line_errors::LineError;
use clap::{ArgMatches, Command};
use command_options::{Page, TimeUnit};
use std::alloc::{AllocError, Global};

const ABOUT: &str = "Prints a page about a run: what holds, who is to blame, and the evidence";

const AT_HELP: &str =
    "Takes the run to be calm from this tick on; the page chooses one if it is left out";

const NAMES_HELP: &str =
    "The names of all processors, in their order; else those of --table, or their numbers";

const TABLE_HELP: &str =
    "The table of the trace's steps, from which it takes names, messages and records; - is standard input";

const UNIT_HELP: &str =
    "With --table, the unit of its times: s, ms, us or ns; time stamps since 2001 need none";

const BAD_UNIT: &str = "synchrony: bad --unit\nsynchrony: --unit takes s, ms, us or ns";

/// The page about the trace in a file, as HTML. One of the two files at most is standard input.
#[derive(Debug, Drop)]
pub struct PageJob {
    /// The path of the file; `-` is standard input.
    pub file: String,
    /// The path of the file with the table of the trace's steps, if it is given; `-` is standard input.
    pub table: Option<String>,
    /// What the page is asked for.
    pub page: Page,
}

/// The command `page`, as the command line's reader takes it.
pub fn command<'a>(alloc: Global) -> Result<Command<'a>, AllocError>
    ensures { IfOk result (IsCommand page_app) }
{
    let arguments = vec![in alloc;
        file_argument(alloc),
        correct_argument(alloc),
        tick_argument(alloc, "at", AT_HELP),
        optional_argument(alloc, "names", "A,B,C", NAMES_HELP),
        optional_argument(alloc, "table", "STEPS", TABLE_HELP),
        optional_argument(alloc, "unit", "U", UNIT_HELP),
    ]?;
    new_command(alloc, "page", ABOUT, help(), arguments)
}

/// The job that the words after `page` ask for; None if one is missing.
///
/// Refuses a list that isn't one; then both names and a table; then two files that are both standard input; and then a
/// unit that is none. Memory may come instead.
pub fn job(alloc: Global, found: &ArgMatches<'_>) -> Option<Result<Job, LineError>>
    ensures { page_given (rows_of (found_of found.now)) result }
{
    let file = text(found, "file")?;
    let list = text(found, "correct")?;
    let at = tick(found, "at")?;
    let names = text(found, "names");
    let table = text(found, "table");
    let unit = text(found, "unit");
    Some(page(alloc, file, list, at, names, table, unit))
}

/// The job of a page with these words.
fn page(
    alloc: Global,
    file: &str,
    list: &str,
    at: Option<u64>,
    names: Option<&str>,
    table: Option<&str>,
    unit: Option<&str>,
) -> Result<Job, LineError>
    ensures job { IfOk result (IsPage file.now list.now at (option_map (λ n. n.now) names.entry)
        (option_map (λ t. t.now) table.entry) (option_map (λ u. u.now) unit.entry)) }
    ensures refused { IfErr result
        (IsPageFault file.now list.now (option_map (λ n. n.now) names.entry)
        (option_map (λ t. t.now) table.entry) (option_map (λ u. u.now) unit.entry)) }
{
    let correct = correct_in(alloc, "correct", list)?;
    test_table(alloc, file, names, table)?;
    let unit = unit_in(alloc, unit)?;
    let file = String::from_str(alloc, file)?;
    let names = kept(alloc, names)?;
    let table = kept(alloc, table)?;
    let page = Page {
        correct,
        at,
        names,
        unit,
    };
    Ok(Job::Page(PageJob { file, table, page }))
}

/// Refuses a table together with names, and then one that is standard input as the trace is.
pub(crate) fn test_table(
    alloc: Global,
    file: &str,
    names: Option<&str>,
    table: Option<&str>,
) -> Result<(), LineError>
    ensures fits { OnOk result (FitsTable file.now (option_map (λ n. n.now) names.entry)
        (option_map (λ t. t.now) table.entry)) }
    ensures refused { IfErr result
        (IsTableFault file.now (option_map (λ n. n.now) names.entry)
        (option_map (λ t. t.now) table.entry)) }
{
    let Some(table) = table else {
        return Ok(());
    };
    if names.is_some() {
        return Err(both_given(alloc)?);
    }
    if names_standard_input(file) && names_standard_input(table) {
        let text = String::from_str(alloc, "synchrony: only one file can be -")?;
        return Err(LineError::Refused(text));
    }
    Ok(())
}

/// The unit of this name; none without a name.
pub(crate) fn unit_in(alloc: Global, name: Option<&str>) -> Result<Option<TimeUnit>, LineError>
    ensures unit { IfOk result
        (λ u. unit_given (option_map (λ text. text.now) name.entry) ≡ Some u) }
    ensures refused { IfErr result (IsUnitFault (option_map (λ text. text.now) name.entry)) }
{
    match name {
        Some(name) => Ok(Some(named_unit(alloc, name)?)),
        None => Ok(None),
    }
}

/// The unit of this name.
fn named_unit(alloc: Global, name: &str) -> Result<TimeUnit, LineError>
    ensures unit { IfOk result (λ u. unit_given (Some name.now) ≡ Some (Some u)) }
    ensures refused { IfErr result (IsUnitFault (Some name.now)) }
{
    match name {
        "s" => Ok(TimeUnit::Second),
        "ms" => Ok(TimeUnit::Millisecond),
        "us" => Ok(TimeUnit::Microsecond),
        "ns" => Ok(TimeUnit::Nanosecond),
        _ => Err(refused_in(alloc, BAD_UNIT)?),
    }
}

/// The refusal of both names and a table.
fn both_given(alloc: Global) -> Result<LineError, AllocError>
    ensures { IfOk result IsNamesRefusal }
{
    let text = String::from_str(alloc, "synchrony: page takes either --names or --table")?;
    Ok(LineError::Refused(text))
}

/// What a page shows.
fn help() -> &'static str {
    "\
The page is one HTML file, which any browser shows. It needs no script and asks
for nothing else, so it can be mailed or kept beside the run. It says, in this
order:

  the headline     from which tick on the run is calm, and which bounds hold there
  the lead         what came earlier, who is to blame, and what was lost
  at a glance      both bounds over all ticks, and when each node stepped
  who              the bounds of each node, and of each ordered pair of nodes
  the evidence     for each bound why no smaller one holds: a silence, a late
                   message, or both, in words and as a picture
  the rows         those of the report that name other evidence than the one
                   before

The run is calm from the row on whose bounds the rest of the run has room for
most often: the one with the greatest square of the rest over delta times phi.
With --at it is the row that applies to that tick. Numbers are those of `report`
and `each`. Time is counted in ticks.

STEPS is the table that `import LOG --table` prints, by the same options as the
trace. With it nodes and messages have their names of the log, and each step
that the page tells of has the number of its record there. With the unit U of
its times, ticks are told as time, too, counted from the first tick on. That is
ns, unless the log has plain numbers and was imported without --unit; times from
September 2001 on, in nanoseconds since 1970, need no U. --names and --table go
one without the other.

At most 40 pieces of evidence have a card, and the page says how many have none.
The same input gives the same bytes.

Example, at the top of the repository:
  ./synchrony page examples/heartbeats.trace --correct all --names a,b,c,d >run.html

Exit status:
  0  the page is printed, or this text
  2  the command line is refused, LIST is no list, or it has a processor above
     the trace's number of processors; U isn't a unit; the names aren't as many
     different ones as there are processors, each of 1 to 64 bytes without
     control characters; or the tick of --at is none of the trace
  3  the trace is refused, or STEPS isn't the table of its steps
  5  out of memory
  6  a file can't be opened or read, or the output can't be written
Faults go to standard error. Output begins once all of it is known."
}
