//! The command `judge`: its words and its help text, and the job that they give.

ghost use Rattle.std.specs.Prelude.{◌≡◌, IfOk, IfErr, codes, option_map, string_bytes};
ghost use Rattle.clap.specs.Words.{found_of, rows_of};
ghost use Rattle.command_line.specs.Arguments.{IsArgument, IsCommand, tick_rule};
ghost use Rattle.command_line.specs.Commands.Judge.{AreDecisionsIn, IsDecisionsFault, IsEitherRefusal, IsForOneRefusal};
ghost use Rattle.command_line.specs.Commands.Judge.{IsJudging, IsNoListRefusal, IsOneFault, IsOneOf, IsRunsFaultOf};
ghost use Rattle.command_line.specs.Commands.Judge.{IsRunsOf, is_for_one, judge_app, judge_given};

use crate::jobs::Job;
use crate::jobs::arguments::{
    CORRECT_HELP, correct_in, flag, flag_argument, names_standard_input, new_command,
    option_argument, optional_argument, optional_positional_argument, positional_argument, text,
    tick, tick_argument,
};
use crate::line_errors::LineError;
use clap::builder::ValueParser;
use clap::{Arg, ArgMatches, Command};
use command_options::Judging;
use std::alloc::{AllocError, Global};
use step_trace::Correct;

const ABOUT: &str = "Says whether all correct processors of a run decided in time";

const FILE_HELP: &str = "The trace text, or with --runs the list of runs; - is standard input";

const DECISIONS_HELP: &str = "Who decided what, and when; - is standard input";

const REPLAY_HELP: &str = "Judges the decisions that replay finds in the trace";

const RUNS_HELP: &str =
    "Judges each run of a list; without DECISIONS, --factor, --rows and --replay";

const WITHIN_HELP: &str = "How many ticks they have, such as 3*phi*n + delta";

const START_HELP: &str = "The tick in which the instance started; 1 if it is left out";

const VALID_HELP: &str = "Asks that each decision is an initial value, too";

const WHOLE_HELP: &str = "Judges by the bounds of the whole run alone, not in time";

const DUE_HELP: &str = "Asks that so many rows are due; 0 if it is left out";

const FACTOR_HELP: &str = "Prints the least factor of FORMULA, too";

const ROWS_HELP: &str = "Prints the rows with their deadlines, too";

/// The judgement of decisions by a trace. One of the two files at most is standard input.
#[derive(Debug, Drop)]
pub struct JudgeJob {
    /// The path of the trace's file; `-` is standard input.
    pub file: String,
    /// The path of the decisions' file; `-` is standard input. None if the decisions are those of the replay.
    pub decisions: Option<String>,
    /// What the decisions are judged for.
    pub judging: Judging,
}

/// The judgement of the runs of a list.
#[derive(Debug, Drop)]
pub struct RunsJob {
    /// The path of the list's file; `-` is standard input.
    pub list: String,
    /// What the decisions of each run are judged for, unless the list says it of a run. The decisions are never those
    /// of the replay here, and neither the factor nor the rows are asked for.
    pub judging: Judging,
}

/// The command `judge`, as the command line's reader takes it.
pub fn command<'a>(alloc: Global) -> Result<Command<'a>, AllocError>
    ensures { IfOk result (IsCommand judge_app) }
{
    let arguments = vec![in alloc;
        positional_argument(alloc, "file", "FILE", FILE_HELP),
        optional_positional_argument(alloc, "decisions", "DECISIONS", DECISIONS_HELP),
        optional_argument(alloc, "correct", "LIST", CORRECT_HELP),
        option_argument(alloc, "within", "FORMULA", WITHIN_HELP),
        tick_argument(alloc, "start", START_HELP),
        flag_argument(alloc, "valid", VALID_HELP),
        flag_argument(alloc, "whole", WHOLE_HELP),
        due_argument(alloc),
        flag_argument(alloc, "factor", FACTOR_HELP),
        flag_argument(alloc, "rows", ROWS_HELP),
        flag_argument(alloc, "replay", REPLAY_HELP),
        flag_argument(alloc, "runs", RUNS_HELP),
    ]?;
    new_command(alloc, "judge", ABOUT, help(), arguments)
}

/// The option --due K.
fn due_argument<'a>(alloc: Global) -> Arg<'a>
    ensures { IsArgument (tick_rule (codes "due")) result }
{
    optional_argument(alloc, "due", "K", DUE_HELP).value_parser(ValueParser::unsigned(0, u64::MAX))
}

/// What is asked of a judgement besides its files, its processors and its formula.
#[derive(Clone, Copy)]
pub(crate) struct JudgeAsked {
    start: Option<u64>,
    valid: bool,
    whole: bool,
    due: Option<u64>,
    factor: bool,
    rows: bool,
    replay: bool,
}

/// The job that the words after `judge` ask for; None if one is missing. The formula is read elsewhere.
///
/// Refuses, without --runs: a missing list of processors, or one that isn't one; then decisions both of a file and of
/// the replay, or of neither; then two files that are both standard input. With --runs: what goes with one run alone;
/// then such a list. Memory may come instead.
pub fn job(alloc: Global, found: &ArgMatches<'_>) -> Option<Result<Job, LineError>>
    ensures { judge_given (rows_of (found_of found.now)) result }
{
    let file = text(found, "file")?;
    let within = text(found, "within")?;
    let asked = JudgeAsked {
        start: tick(found, "start")?,
        valid: flag(found, "valid")?,
        whole: flag(found, "whole")?,
        due: tick(found, "due")?,
        factor: flag(found, "factor")?,
        rows: flag(found, "rows")?,
        replay: flag(found, "replay")?,
    };
    let decisions = text(found, "decisions");
    let list = text(found, "correct");
    if flag(found, "runs")? {
        return Some(judge_runs(alloc, file, decisions, list, within, asked));
    }
    Some(judge_one(alloc, file, decisions, list, within, asked))
}

/// Whether something is asked for that goes with one run alone.
fn is_for_one(decisions: Option<&str>, asked: JudgeAsked) -> bool
    ensures { result ≡ is_for_one (option_map (λ d. d.now) decisions.entry) asked }
{
    decisions.is_some() || asked.factor || asked.rows || asked.replay
}

/// The refusal of what goes with one run alone.
fn for_one(alloc: Global) -> Result<LineError, AllocError>
    ensures { IfOk result IsForOneRefusal }
{
    let text = String::from_str(
        alloc,
        "synchrony: judge --runs takes no DECISIONS, --factor, --rows or --replay",
    )?;
    Ok(LineError::Refused(text))
}

/// The refusal of a run with no list of its correct processors.
fn no_list(alloc: Global) -> Result<LineError, AllocError>
    ensures { IfOk result IsNoListRefusal }
{
    let text = String::from_str(
        alloc,
        "synchrony: judge takes either --correct LIST or --runs\nsynchrony: FILE is a trace, for which LIST says who was correct, or with --runs a list of runs",
    )?;
    Ok(LineError::Refused(text))
}

/// The job of a list of runs with these words.
fn judge_runs(
    alloc: Global,
    file: &str,
    decisions: Option<&str>,
    list: Option<&str>,
    within: &str,
    asked: JudgeAsked,
) -> Result<Job, LineError>
    ensures job { IfOk result
        (IsRunsOf file.now (option_map (λ d. d.now) decisions.entry)
        (option_map (λ l. l.now) list.entry) within.now asked) }
    ensures refused { IfErr result
        (IsRunsFaultOf (is_for_one (option_map (λ d. d.now) decisions.entry) asked)
        (option_map (λ l. l.now) list.entry)) }
{
    if is_for_one(decisions, asked) {
        return Err(for_one(alloc)?);
    }
    let correct = match list {
        Some(list) => correct_in(alloc, "correct", list)?,
        None => Correct::All,
    };
    let list = String::from_str(alloc, file)?;
    let judging = judging_of(alloc, correct, within, asked)?;
    Ok(Job::JudgeRuns(RunsJob { list, judging }))
}

/// The job of one run with these words.
fn judge_one(
    alloc: Global,
    file: &str,
    decisions: Option<&str>,
    list: Option<&str>,
    within: &str,
    asked: JudgeAsked,
) -> Result<Job, LineError>
    ensures job { IfOk result
        (IsOneOf file.now (option_map (λ d. d.now) decisions.entry)
        (option_map (λ l. l.now) list.entry) within.now asked) }
    ensures refused { IfErr result
        (IsOneFault file.now (option_map (λ d. d.now) decisions.entry)
        (option_map (λ l. l.now) list.entry) asked.replay) }
{
    let Some(list) = list else {
        return Err(no_list(alloc)?);
    };
    let correct = correct_in(alloc, "correct", list)?;
    let decisions = decisions_in(alloc, file, decisions, asked.replay)?;
    let file = String::from_str(alloc, file)?;
    let judging = judging_of(alloc, correct, within, asked)?;
    Ok(Job::Judge(JudgeJob {
        file,
        decisions,
        judging,
    }))
}

/// What decisions are judged for.
fn judging_of(
    alloc: Global,
    correct: Correct,
    within: &str,
    asked: JudgeAsked,
) -> Result<Judging, AllocError>
    ensures { IfOk result (IsJudging correct within.now asked) }
{
    Ok(Judging {
        correct,
        within: String::from_str(alloc, within)?,
        start: asked.start,
        valid: asked.valid,
        whole: asked.whole,
        due: asked.due,
        factor: asked.factor,
        rows: asked.rows,
        replay: asked.replay,
    })
}

/// The path of the decisions' file, or none with --replay.
fn decisions_in(
    alloc: Global,
    file: &str,
    decisions: Option<&str>,
    replay: bool,
) -> Result<Option<String>, LineError>
    ensures given { IfOk result
        (λ given. AreDecisionsIn file.now (option_map (λ d. d.now) decisions.entry) replay
        (option_map string_bytes given)) }
    ensures refused { IfErr result
        (IsDecisionsFault file.now (option_map (λ d. d.now) decisions.entry) replay) }
{
    match decisions {
        None => {
            if replay {
                Ok(None)
            } else {
                Err(either(alloc)?)
            }
        }
        Some(decisions) => {
            if replay {
                return Err(either(alloc)?);
            }
            if names_standard_input(file) && names_standard_input(decisions) {
                let text = String::from_str(alloc, "synchrony: only one file can be -")?;
                return Err(LineError::Refused(text));
            }
            Ok(Some(String::from_str(alloc, decisions)?))
        }
    }
}

/// The refusal of decisions both of a file and of the replay, or of neither.
fn either(alloc: Global) -> Result<LineError, AllocError>
    ensures { IfOk result IsEitherRefusal }
{
    let text = String::from_str(alloc, "synchrony: judge takes either DECISIONS or --replay")?;
    Ok(LineError::Refused(text))
}

/// What is judged of a run, and by what.
fn help() -> &'static str {
    "\
DECISIONS is CSV with the header proc,tick,value, and then a record for each
decision in any order: which processor decided, in which tick of the trace, and
what. With --replay there is no such file: the trace has to be a run, as
`replay` demands it, and its decisions are judged, each in the tick of the step
that ended its round. The processors of LIST have to agree, and each of them
has to decide within FORMULA ticks from a stabilization time on, by the bounds
delta and phi that hold from there. So each row of the report sets a deadline,
gst + FORMULA; with --start TICK it counts from TICK on if that is later.

FORMULA has numbers and the words delta, phi, n (how many processors there are)
and t (how many may be faulty), with + and *, parentheses, max(A, B, ..), and /
by a number, which rounds up: 3*phi*n + max(delta, phi)/2. Signs are read from
the left, * and / before +.

What comes after a deadline doesn't count: if bounds hold up to the deadline
that they set, all have to decide by then, though the bounds may break down
later. --whole judges by the bounds of the whole run alone, which can hide a
processor that was late.

What is printed is a line: the first thing that is wrong, or yes.

  yes D due L later margin M  D rows of the report of the whole run have a
                              deadline by the last tick, and L a later one; all
                              had decided M ticks before the least deadline of
                              the D. Of 0 due rows there is no margin, and then
                              little was tested
  no agreement P A V Q B W    processor P decided V in tick A, Q another value W
                              in tick B
  no validity P A V           with --valid: V is nobody's initial value
  no deadline G D F Y P       from tick G on the bounds delta D and phi F hold;
                              processor P hadn't decided by their deadline Y
  no due D                    with --due K: fewer than K rows are due

With --factor a second line has the least number c such that all decided within
c times FORMULA, whatever the first line says: factor C, or factor none if no
number is enough, which is so only if FORMULA is 0 and time was needed.

With --rows the rows of the report of the whole run follow, as CSV with the
header gst,delta,phi,deadline,decided,margin: the deadline, if it is due; the
tick by which all had decided, if they had; and how many ticks that was before
the deadline, negative if it was later.

With --runs FILE is a list of runs: CSV with the header
trace,decisions,correct,start, and then a record for each run with the paths
of its trace and of its decisions, its correct processors and its start. An
empty field is allowed: the decisions are then those of the replay, the
processors and the start those of --correct (all, if it is left out) and
--start. A line is printed for each run, and then how many are of each kind:

  run 1: yes 3 due 9 later margin 31
  run 2: no deadline 40 2 5 212 3
  run 3: not judged: synchrony: cannot read; synchrony: r3.trace: no such file
  3 runs: 1 yes, 1 no, 0 untested, 1 not judged; least margin 31 (run 1)

A run is untested if the verdict is yes and no row was due.

Example, at the top of the repository:
  printf '%s\\n' proc,tick,value 1,2,5 2,3,5 |
    ./synchrony judge examples/one-miss.trace - --correct all --within delta
prints
  yes 2 due 1 later margin 0
The deadlines of the report's rows are 3, 3 and 4, the last tick is 3, and both
had decided by tick 3. With --within 1 it prints
  no deadline 1 2 2 2 2
Up to tick 2 both bounds were 2, and processor 2 hadn't decided by then.

Exit status:
  0  the verdict is yes, or this text was asked for
  1  the verdict is no
  2  the command line is refused, LIST is no list, or it has a processor above
     the trace's number of processors; FORMULA is no formula
  3  the trace is refused, or hasn't the tick of --start
  4  DECISIONS is refused: a record that isn't as said, of no processor or tick
     of the trace, or more than 1,000,000 of them; or the list of --runs is
  5  out of memory
  6  a file can't be opened or read, or the output can't be written
  7  with --replay: the trace is no run
  10 with --runs: some run is not judged
Faults go to standard error. Output begins once the verdict is known, or with
--runs that of the first run."
}
