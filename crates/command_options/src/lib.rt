//! The options that the command line gives a command besides its files: plain data, which `command_line` reads and the
//! commands take.
#![tactic(auto)]

ghost use Rattle.std.specs.Prelude.{◌*◌, ◌≤◌};
ghost use Rattle.std.specs.Option.{ForSome};
ghost use Rattle.step_trace.specs.declared.processors.TheConstants.{MAX_MEMBER};
ghost use Rattle.step_trace.specs.declared.traces.TheConstants.{MAX_STEPS};
ghost use Rattle.command_options.specs.declared.TheConstants.{MAX_TURNS, MAX_WORKERS};
ghost use Rattle.command_options.specs.Paces.{patience_of};

mod simulations;

pub use simulations::{Crash, MAX_BOUND, Schedule, SimulationOptions, StatedBounds, is_live};
use step_trace::{Config, Correct};

/// The greatest number of workers that may be asked for.
pub const MAX_WORKERS: u64 = 64;

/// How many workers read a trace and find the bounds of its report.
#[derive(Clone, Copy, Debug)]
pub struct Workers {
    /// From 1 to `MAX_WORKERS`.
    pub count: u64,
    ghost some: { 1 ≤ count },
    ghost few: { count ≤ MAX_WORKERS },
}

/// When a Receive ends the round of a node.
#[derive(Clone, Copy, Debug)]
pub enum Pace {
    /// If it is the last of so many Receives in the round, whatever was heard.
    Patience(u64),
    /// Once all has been heard that the round can bring; or if it is the last of so many Receives in the round. A
    /// thread whose node has nothing to do sleeps until a message comes.
    HeardOut(u64),
}

/// When a run ends.
#[derive(Clone, Copy, Debug)]
pub enum RunEnd {
    /// When each processor has made its steps.
    Steps,
    /// When all processors have decided, or else when each has made its steps.
    Decided,
}

/// What a run of the nodes of a configuration is asked for.
#[derive(Debug, Drop)]
pub struct RunOptions {
    /// The processors and their initial values.
    pub config: Config,
    /// When a Receive ends a round; its patience is at least 1.
    pub pace: Pace,
    /// When the run ends.
    pub end: RunEnd,
    /// How many steps each processor makes, or makes at most; all together make at most `MAX_STEPS`.
    pub steps: u64,
    /// The processors that count as correct for one who follows the run, if it is followed.
    pub follow: Option<Correct>,
    ghost patient: { 1 ≤ patience_of pace },
    ghost room: { config.n * steps ≤ MAX_STEPS },
}

/// Which part of a report is asked for.
#[derive(Debug, Drop)]
pub struct ReportPart {
    /// The processors that count as correct.
    pub correct: Correct,
    /// The tick up to which the trace is reported, as if it had ended there: all of it if there is none.
    pub until: Option<u64>,
    /// The tick whose row is printed alone: all rows if there is none.
    pub at: Option<u64>,
}

/// Of which trace the brief report is asked for.
#[derive(Debug, Drop)]
pub struct Brief {
    /// The processors that count as correct.
    pub correct: Correct,
    /// The tick up to which the trace is reported, as if it had ended there: all of it if there is none.
    pub until: Option<u64>,
}

/// Of which trace, and from which tick on, the bounds of each processor and of each link are asked for.
#[derive(Debug, Drop)]
pub struct Each {
    /// The processors that count as correct.
    pub correct: Correct,
    /// The tick up to which the trace counts, as if it had ended there: all of it if there is none.
    pub until: Option<u64>,
    /// The tick from which on the bounds hold: 1 if there is none.
    pub at: Option<u64>,
}

/// The greatest number of steps that one may be known to follow another within.
pub const MAX_TURNS: u64 = 1_000_000;

/// Which followers of a leader are asked for, and what is known of their steps.
#[derive(Debug, Drop)]
pub struct TimeoutTable {
    /// The leader, from 1 to `MAX_MEMBER`.
    pub from: u64,
    /// The followers: all to which the leader sends, if there is none.
    pub to: Option<Correct>,
    /// Of each so many steps of the leader one is a Send to the follower, if that is known.
    pub every: Option<u64>,
    /// Of each so many steps of the follower one is a Receive, if that is known.
    pub polls: Option<u64>,
    /// The tick up to which the trace counts, as if it had ended there: all of it if there is none.
    pub until: Option<u64>,
    /// The tick whose row alone is asked for: all rows if there is none.
    pub at: Option<u64>,
    ghost low: { 1 ≤ from },
    ghost high: { from ≤ MAX_MEMBER },
    ghost few_every: { ForSome every (λ k. k ≤ MAX_TURNS) },
    ghost few_polls: { ForSome polls (λ m. m ≤ MAX_TURNS) },
}

/// What a certificate is checked for.
#[derive(Debug, Drop)]
pub struct Claim {
    /// The processors that count as correct.
    pub correct: Correct,
    /// The tick up to which the trace counts, as if it had ended there: all of it if there is none.
    pub until: Option<u64>,
}

/// What the decisions of a run are judged for.
#[derive(Debug, Drop)]
pub struct Judging {
    /// The processors that count as correct.
    pub correct: Correct,
    /// The text of a formula: within so many ticks each of them has to decide.
    pub within: String,
    /// The tick in which the instance of agreement started: 1 if there is none.
    pub start: Option<u64>,
    /// Whether each decision has to be an initial value.
    pub valid: bool,
    /// Whether the bounds of the whole run alone count, and not those of its prefixes.
    pub whole: bool,
    /// How many rows of the report have to be due at least: none if there is none.
    pub due: Option<u64>,
    /// Whether the least factor with which the claim would be kept is asked for, too.
    pub factor: bool,
    /// Whether the rows of the report with their deadlines are asked for, too.
    pub rows: bool,
    /// Whether the decisions are those of the replay, and not those of a text.
    pub replay: bool,
}

/// What a picture is asked for.
#[derive(Debug, Drop)]
pub struct Drawing {
    /// The processors that count as correct.
    pub correct: Correct,
    /// The first tick to draw: 1 if only a last one is given.
    pub from: Option<u64>,
    /// The last tick to draw: 99 ticks later, or the last of the trace, if only a first one is given.
    pub to: Option<u64>,
    /// The names of the processors, with commas between them: if there are none, those of the table of the trace's
    /// steps, or else their numbers.
    pub names: Option<String>,
    /// The processors whose lanes are drawn, by their names or numbers, with commas between them: all if there are
    /// none.
    pub lanes: Option<String>,
    /// The unit of the times in the table of the trace's steps, if it is given.
    pub unit: Option<TimeUnit>,
}

/// What a page is asked for.
#[derive(Debug, Drop)]
pub struct Page {
    /// The processors that count as correct.
    pub correct: Correct,
    /// The tick whose row counts as the calm one: the row with the most room for its bounds if there is none.
    pub at: Option<u64>,
    /// The names of the processors, with commas between them: their numbers if there are none.
    pub names: Option<String>,
    /// The unit of the times in the table of the trace's steps, if it is given.
    pub unit: Option<TimeUnit>,
}

/// A unit of time.
#[derive(Clone, Copy, Debug, PartialEq, Eq)]
pub enum TimeUnit {
    Second,
    Millisecond,
    Microsecond,
    Nanosecond,
}

/// What is printed of a log.
#[derive(Clone, Copy, Debug)]
pub enum ImportForm {
    /// Its trace, as a text of version 2.
    Trace,
    /// The table of the steps of its trace.
    Table,
    /// The table of the lengths of a tick: how many ticks its trace has with each, and how far events move.
    Ticks,
}

/// How a log is to be read, as texts that are still to be read themselves, and what is printed of it.
#[derive(Debug, Drop)]
pub struct ImportOptions {
    /// The names of the nodes, with commas between them: those of the log, in their order, if there are none.
    pub nodes: Option<String>,
    /// The unit of the log's times, which are then whole numbers of it. If there is none, the times are as its first
    /// event has them.
    pub unit: Option<String>,
    /// The length of a tick, a number or a duration: 1 if there is none.
    pub tick: Option<String>,
    /// The time when the log ends: that of its last event if there is none.
    pub until: Option<String>,
    /// The time from which on the events of the log are read: all of them if there is none.
    pub from: Option<String>,
    /// The longest time without an event of a node that gets a receive of nothing, a number or a duration. If there is
    /// none, no node gets one.
    pub idle: Option<String>,
    /// Whether events may go to later ticks than those of their times.
    pub spread: bool,
    /// Whether the clocks of the nodes are moved, so that each message is received later than it is sent.
    pub align: bool,
    /// Whether the sends of messages that no record receives are left out.
    pub drop_lost: bool,
    /// Whether the receives of a node in one tick become one, if it sends nothing between them.
    pub merge: bool,
    /// What is printed.
    pub form: ImportForm,
}
