//! The command `draw`: its words and its help text, and the job that they give.

ghost use Rattle.std.specs.Prelude.{IfOk, IfErr, option_map};
ghost use Rattle.clap.specs.Words.{found_of, rows_of};
ghost use Rattle.command_line.specs.Arguments.{IsCommand};
ghost use Rattle.command_line.specs.Commands.Draw.{IsDraw, IsDrawFault, draw_app, draw_given};

use crate::jobs::Job;
use crate::jobs::arguments::{
    correct_argument, correct_in, file_argument, kept, new_command, optional_argument, text, tick,
    tick_argument,
};
use crate::jobs::page::{test_table, unit_in};
use crate::line_errors::LineError;
use clap::{ArgMatches, Command};
use command_options::Drawing;
use std::alloc::{AllocError, Global};

const ABOUT: &str =
    "Draws a trace and the bounds of its report as SVG, for a set of correct processors";

const FROM_HELP: &str = "The first tick to draw; 1 if only --to is given";

const TO_HELP: &str =
    "The last tick to draw, at most 999 after the first; 99 after it if only --from is given";

const NAMES_HELP: &str =
    "The names of all processors, in their order; else those of --table, or their numbers";

const LANES_HELP: &str =
    "Draws only these processors, by their names or numbers, and what passes between them";

const TABLE_HELP: &str =
    "The table of the trace's steps, from which it takes names, messages and records; - is standard input";

const UNIT_HELP: &str =
    "With --table, the unit of its times: s, ms, us or ns; time stamps since 2001 need none";

/// The picture of the trace in a file, as SVG. One of the two files at most is standard input.
#[derive(Debug, Drop)]
pub struct DrawJob {
    /// The path of the file; `-` is standard input.
    pub file: String,
    /// The path of the file with the table of the trace's steps, if it is given; `-` is standard input.
    pub table: Option<String>,
    /// What the picture is asked for.
    pub drawing: Drawing,
}

/// The command `draw`, as the command line's reader takes it.
pub fn command<'a>(alloc: Global) -> Result<Command<'a>, AllocError>
    ensures { IfOk result (IsCommand draw_app) }
{
    let arguments = vec![in alloc;
        file_argument(alloc),
        correct_argument(alloc),
        tick_argument(alloc, "from", FROM_HELP),
        tick_argument(alloc, "to", TO_HELP),
        optional_argument(alloc, "names", "A,B,C", NAMES_HELP),
        optional_argument(alloc, "lanes", "A,B", LANES_HELP),
        optional_argument(alloc, "table", "STEPS", TABLE_HELP),
        optional_argument(alloc, "unit", "U", UNIT_HELP),
    ]?;
    new_command(alloc, "draw", ABOUT, help(), arguments)
}

/// The job that the words after `draw` ask for; None if one is missing.
///
/// Refuses a list that isn't one; then two files that are both standard input; and then a unit that is none. Memory may
/// come instead.
pub fn job(alloc: Global, found: &ArgMatches<'_>) -> Option<Result<Job, LineError>>
    ensures { draw_given (rows_of (found_of found.now)) result }
{
    let words = DrawWords {
        file: text(found, "file")?,
        list: text(found, "correct")?,
        from: tick(found, "from")?,
        to: tick(found, "to")?,
        names: text(found, "names"),
        lanes: text(found, "lanes"),
        table: text(found, "table"),
        unit: text(found, "unit"),
    };
    Some(draw(alloc, words))
}

/// The words after `draw`.
#[derive(Clone, Copy)]
struct DrawWords<'a> {
    file: &'a str,
    list: &'a str,
    from: Option<u64>,
    to: Option<u64>,
    names: Option<&'a str>,
    lanes: Option<&'a str>,
    table: Option<&'a str>,
    unit: Option<&'a str>,
}

/// The job of a picture with these words.
fn draw(alloc: Global, words: DrawWords<'_>) -> Result<Job, LineError>
    ensures job { IfOk result
        (IsDraw words.entry.file.now words.entry.list.now words.entry.from words.entry.to
        (option_map (λ n. n.now) words.entry.names) (option_map (λ n. n.now) words.entry.lanes)
        (option_map (λ t. t.now) words.entry.table) (option_map (λ u. u.now) words.entry.unit)) }
    ensures refused { IfErr result
        (IsDrawFault words.entry.file.now words.entry.list.now
        (option_map (λ t. t.now) words.entry.table) (option_map (λ u. u.now) words.entry.unit)) }
{
    let correct = correct_in(alloc, "correct", words.list)?;
    test_table(alloc, words.file, None, words.table)?;
    let unit = unit_in(alloc, words.unit)?;
    let file = String::from_str(alloc, words.file)?;
    let names = kept(alloc, words.names)?;
    let lanes = kept(alloc, words.lanes)?;
    let table = kept(alloc, words.table)?;
    let drawing = Drawing {
        correct,
        from: words.from,
        to: words.to,
        names,
        lanes,
        unit,
    };
    Ok(Job::Draw(DrawJob {
        file,
        table,
        drawing,
    }))
}

/// What a picture shows.
fn help() -> &'static str {
    "\
The picture is an SVG, which any browser shows. Above, over all ticks of the
trace, the least bounds from each tick on, as the report has them: delta and phi
as two lines, and the ticks that are drawn below shaded. Below, for each
processor a lane with its steps in the ticks from --from to --to, in the order of
the ticks:

  a dot            a Send
  a filled square  a Receive that takes messages
  an empty square  a Receive of nothing
  a bar beside it  the Receive ends a round
  a line           a message, from its Send to the Receive that takes it; a short
                   dashed end if nobody takes it
  marked           the misses and the silences that the report names as evidence,
                   if they touch these ticks

The lanes of the processors in LIST are in ink, the others pale. Each step and
each witness shows what it is when the pointer is on it. With --lanes there are
the lanes of those processors alone, their steps and silences, and the messages
from one of them to one of them. Each is given by its name, if --names or STEPS
has it, or else by its number. The bounds above stay those of all ticks and of
LIST.

Without --from and --to these are the ticks of the first evidence: the silence or
the late message, or both, that rules out smaller bounds from tick 1 on, with a
seventh more at both ends. If these are more than 1,000, they are at most 142
before the evidence, and its first ones. Without evidence they are the ticks 1 to
100.

STEPS is the table that `import LOG --table` prints, by the same options as the
trace. With it nodes and messages have their names of the log, and each step has
the number of its record there. With the unit U of its times, as for `page`, each
step has its time, too, and both axes have times, counted from the first tick on.

Example, at the top of the repository:
  ./synchrony draw examples/decides-seven.trace --correct 1,2,3 >run.svg

Exit status:
  0  the picture is printed, or this text
  2  the command line is refused, LIST is no list, or it has a processor above
     the trace's number of processors; U isn't a unit; the names aren't as many
     different ones as there are processors, each of 1 to 64 bytes without
     control characters; a processor of --lanes is none of the trace; the first
     tick is none of it; or the last one is before the first, or more than 999
     after it
  3  the trace is refused, or STEPS isn't the table of its steps
  5  out of memory
  6  a file can't be opened or read, or the output can't be written
Faults go to standard error. Output begins once all of it is known."
}
