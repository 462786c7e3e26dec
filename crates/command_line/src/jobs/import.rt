//! The command `import`: its words and its help text, and the job that they give.

ghost use Rattle.std.specs.Prelude.{◌≡◌, IfOk, IfErr};
ghost use Rattle.clap.specs.Words.{found_of, rows_of};
ghost use Rattle.command_line.specs.Arguments.{IsCommand, IsMemory};
ghost use Rattle.command_line.specs.Commands.Import.{IsImport, IsImportFault, IsImportOf, IsOneLengthRefusal};
ghost use Rattle.command_line.specs.Commands.Import.{form_of, import_app, import_given, is_refused, texts_in};

use crate::jobs::Job;
use crate::jobs::arguments::{
    flag, flag_argument, kept, new_command, optional_argument, positional_argument, text,
};
use crate::line_errors::LineError;
use clap::{ArgMatches, Command};
use command_options::{ImportForm, ImportOptions};
use std::alloc::{AllocError, Global};

const ABOUT: &str = "Makes a trace of a log with time stamps";

const LOG_HELP: &str = "The log; - is standard input";

const NODES_HELP: &str = "The nodes in their order; LOG's if it is left out";

const UNIT_HELP: &str = "What whole numbers are: s, ms, us or ns";

const TICK_HELP: &str = "The length of a tick; 1 if it is left out";

const UNTIL_HELP: &str = "When LOG ends; at its last event if it is left out";

const FROM_HELP: &str = "When the window of LOG begins";

const IDLE_HELP: &str = "The longest wait that gets a receive of nothing";

const SPREAD_HELP: &str = "Moves events to later ticks, no later than needed";

const ALIGN_HELP: &str = "Moves the clocks of nodes, by no more than needed";

const DROP_LOST_HELP: &str = "Leaves out sends of messages that no record receives";

const MERGE_HELP: &str = "Makes one receive of those of a node in one tick";

const TABLE_HELP: &str = "Prints a table of the steps in place of the trace";

const TICKS_HELP: &str = "Prints a table of lengths of a tick, to choose W by";

/// The trace that a log encodes, as a text of version 2.
#[derive(Debug, Drop)]
pub struct ImportJob {
    /// The path of the log's file; `-` is standard input.
    pub file: String,
    /// How the log is to be read.
    pub options: ImportOptions,
}

/// The command `import`, as the command line's reader takes it.
pub fn command<'a>(alloc: Global) -> Result<Command<'a>, AllocError>
    ensures { IfOk result (IsCommand import_app) }
{
    let arguments = vec![in alloc;
        positional_argument(alloc, "log", "LOG", LOG_HELP),
        optional_argument(alloc, "nodes", "A,B,C", NODES_HELP),
        optional_argument(alloc, "unit", "U", UNIT_HELP),
        optional_argument(alloc, "tick", "W", TICK_HELP),
        optional_argument(alloc, "until", "X", UNTIL_HELP),
        optional_argument(alloc, "from", "X", FROM_HELP),
        optional_argument(alloc, "idle", "Y", IDLE_HELP),
        flag_argument(alloc, "spread", SPREAD_HELP),
        flag_argument(alloc, "align", ALIGN_HELP),
        flag_argument(alloc, "drop-lost", DROP_LOST_HELP),
        flag_argument(alloc, "merge", MERGE_HELP),
        flag_argument(alloc, "table", TABLE_HELP),
        flag_argument(alloc, "ticks", TICKS_HELP),
    ]?;
    new_command(alloc, "import", ABOUT, help(), arguments)
}

/// What the flags of `import` ask for.
#[derive(Clone, Copy)]
pub(crate) struct ImportFlags {
    spread: bool,
    align: bool,
    drop_lost: bool,
    merge: bool,
    table: bool,
    ticks: bool,
}

/// The job that the words after `import` ask for; None if one is missing. The texts of its options are read
/// elsewhere.
///
/// Refuses options that go with ticks of one length, if the table of lengths is asked for. Memory may come instead.
pub fn job(alloc: Global, found: &ArgMatches<'_>) -> Option<Result<Job, LineError>>
    ensures { import_given (rows_of (found_of found.now)) result }
{
    let log = text(found, "log")?;
    let flags = ImportFlags {
        spread: flag(found, "spread")?,
        align: flag(found, "align")?,
        drop_lost: flag(found, "drop-lost")?,
        merge: flag(found, "merge")?,
        table: flag(found, "table")?,
        ticks: flag(found, "ticks")?,
    };
    Some(import_of(alloc, found, log, flags))
}

/// The job of an import, or of the table of the lengths of a tick.
fn import_of(
    alloc: Global,
    found: &ArgMatches<'_>,
    log: &str,
    flags: ImportFlags,
) -> Result<Job, LineError>
    ensures job { IfOk result (IsImportOf log.now flags (texts_in (rows_of (found_of found.now)))) }
    ensures refused { IfErr result
        (IsImportFault (is_refused flags (texts_in (rows_of (found_of found.now))))) }
{
    if is_refused(found, flags) {
        return Err(for_one_length(alloc)?);
    }
    import(alloc, found, log, flags)
}

/// Whether something goes with ticks of one length, though the table of lengths is asked for.
fn is_refused(found: &ArgMatches<'_>, flags: ImportFlags) -> bool
    ensures { result ≡ is_refused flags (texts_in (rows_of (found_of found.now))) }
{
    let has_length = text(found, "tick").is_some() || text(found, "idle").is_some();
    flags.ticks && (has_length || flags.merge || flags.table)
}

/// The refusal of what goes with ticks of one length.
fn for_one_length(alloc: Global) -> Result<LineError, AllocError>
    ensures { IfOk result IsOneLengthRefusal }
{
    let text = String::from_str(
        alloc,
        "synchrony: import --ticks takes no --tick, --idle, --merge or --table",
    )?;
    Ok(LineError::Refused(text))
}

/// What is printed.
fn form_of(flags: ImportFlags) -> ImportForm
    ensures { result ≡ form_of flags }
{
    if flags.ticks {
        return ImportForm::Ticks;
    }
    if flags.table {
        return ImportForm::Table;
    }
    ImportForm::Trace
}

/// The job of an import with these words.
fn import(
    alloc: Global,
    found: &ArgMatches<'_>,
    log: &str,
    flags: ImportFlags,
) -> Result<Job, LineError>
    ensures job { IfOk result (IsImport log.now flags (texts_in (rows_of (found_of found.now)))) }
    ensures refused { IfErr result IsMemory }
{
    let file = String::from_str(alloc, log)?;
    let options = ImportOptions {
        nodes: kept(alloc, text(found, "nodes"))?,
        unit: kept(alloc, text(found, "unit"))?,
        tick: kept(alloc, text(found, "tick"))?,
        until: kept(alloc, text(found, "until"))?,
        from: kept(alloc, text(found, "from"))?,
        idle: kept(alloc, text(found, "idle"))?,
        spread: flags.spread,
        align: flags.align,
        drop_lost: flags.drop_lost,
        merge: flags.merge,
        form: form_of(flags),
    };
    Ok(Job::Import(ImportJob { file, options }))
}

/// What a log is, and how it becomes a trace.
fn help() -> &'static str {
    "\
LOG is CSV. Its first record, the header, names the columns in any order, and
each further record is an event. Columns other than these five are passed over.

  time     when it happened
  node     who sent, or who received
  event    send or receive
  to       in a send, who it is for: a node, or several with ; between them, each
           of which gets the message; in a receive it isn't looked at
  message  in a send, the name of the message; in a receive, the names of those
           that it took, with one space between them, possibly none

Times are all of the kind of the first event's:
  whole numbers of 64 bits, in any unit
  decimal seconds such as 1700000000.123456, with at most nine digits after the
    point; whole numbers among them are whole seconds
  time stamps such as 2026-11-22T10:00:00.250Z
  time stamps without an offset such as 2026-11-22 10:00:00.250, read as UTC
All but whole numbers are counted in nanoseconds. What is printed is a trace in
version 2, whose tick 1 begins at the least time.

  --nodes A,B,C  2 to 64 different names, which are numbered from 1; some may
                 have no event. Without it nodes are numbered in the order in
                 which the log names them, and standard error tells the numbers
  --unit U       s, ms, us or ns: the times are whole numbers of this unit, and
                 are counted in nanoseconds; so are whole numbers in W, X and Y
  --tick W       a number above 0 in the unit of the times, which is the
                 nanosecond for decimal seconds and time stamps; or a duration
                 above 0, such as 5ms or 1m 30s, unless the times are whole
                 numbers without --unit
  --until X      a time of the same kind, which no event is after: the last tick
                 is that of X, and without it that of the greatest time. With
                 --unit, and for decimal seconds, also decimal seconds or a
                 duration, which is the time that comes so long after zero
  --from X       a time as --until takes it: only a window of LOG is read, the
                 events from X on, and none after --until. LOG may be of any
                 length. A receive in the window keeps only the messages that a
                 record of the window sends to its node; standard error tells
                 how many events and messages are left out. All else is as if
                 LOG had no other records, but records keep their numbers
  --idle Y       Y is written as W is. A node without an event for at most Y gets
                 a receive of nothing in the last tick of that time, counted in
                 ticks after --spread; standard error tells how many
  --spread       an event whose tick has an event of its node, or isn't after
                 the send of a message that it took, goes to a later one, no
                 later than needed; standard error tells how far events went
  --align        the clocks of nodes are moved forward, each by the least that
                 lets every message be received later than it was sent, by one
                 unit of the times at least; standard error tells by how much.
                 X is then by the moved clocks. It is refused if clocks drift
                 or step
  --drop-lost    the sends of messages that no record receives are left out,
                 after --align, as if LOG hadn't their records; standard error
                 tells how many. Records keep their numbers
  --merge        receives of a node whose times are in one tick become one, with
                 the messages of all, if it sends nothing between them; after
                 --drop-lost and before --spread. The first record is named, and
                 standard error tells how many are merged into others
  --table        in place of the trace, a table of its steps: which record each
                 is, when its tick begins, and the event, with names
  --ticks        in place of the trace, a table of lengths of a tick, by which to
                 choose W: what W makes of the trace with --spread. Standard
                 error names the longest W with which at most one in a hundred
                 events moves by more than one tick. It goes without --tick,
                 --idle, --merge and --table

--align puts the fastest message of a way at one unit, so delays that way look
shorter than they were, and those back longer by as much: the communication
bound between two nodes is off by no more than the fastest round trip less the
true delay. Most logs want --spread with it, since the fastest messages are then
received in the tick in which they were sent.

A node takes at most one step in a tick, and a message is received in a later
tick than it was sent: without --spread, events that aren't so are refused. With
it a difference of two ticks, and so each bound, is off by no more ticks than
the farthest event went.

Receives of nothing matter. The communication bound is measured at the Receives
of the receiver: a log that has only those that took something knows of none
that came too early, and shows lower bounds than one that has every poll. If a
node waits for events and logs no polls, --idle stands in for them: choose Y
above the longest wait that is normal, and below the pauses that you look for.
The communication bound is then that of polls in each tick of these waits. The
processor bound is still the longest time without a step.

With --table the output is CSV, with a record for each step of the trace:
  step     the number of the step, as reports have it
  tick     its tick
  begins   when that tick begins
  record   the number of its record in LOG; the header is record 1
  time     when it happened
  node, event, to, message  as LOG has them; to is empty in a receive
Times are whole numbers of what the times are counted in, by the moved clocks
with --align. An event whose time is before its tick begins was moved. A receive
of nothing that --idle added has no record, no time and no message.

With --ticks the output is CSV, with a record for each W of 1, 2, 5, 10 and so
on units of the times, up to the first that is longer than LOG. W with which
the trace would have more than 1000000 ticks have none:
  tick   the length of a tick, as --tick takes it
  last   the last tick of the trace
  moved  how many events are in a later tick than that of their time
  most   by how many ticks at most

Example, at the top of the repository:
  ./synchrony import examples/heartbeats.log --nodes a,b,c,d --tick 5 >run.trace
makes the trace examples/heartbeats.trace. Without --nodes the trace numbers the
nodes as the log names them, and standard error tells
  synchrony: processor 1 is a
  synchrony: processor 2 is b
  synchrony: processor 3 is d
  synchrony: processor 4 is c

Exit status:
  0  the trace or a table is printed, or this text
  2  the command line is refused; --nodes isn't 2 to 64 different names; --unit
     is another word; --tick is neither a number nor a duration above 0, or is a
     duration if the times are numbers of no unit; --until is neither a time nor
     a duration, doesn't fit the times, or is before an event; --from is refused
     as --until is, or is after it; --idle is refused as --tick is
  3  the log is refused; the fault names the record, and the header is record 1
  5  out of memory
  6  LOG can't be opened or read, or the output can't be written
Faults go to standard error. Output begins once all of it is known."
}
