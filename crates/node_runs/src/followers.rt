//! A follower of a run: while its threads step, it reports how synchronous they are so far, and who decided.

ghost use Rattle.std.specs.Prelude.{◌≡◌, ◌⊎◌, ◌↔◌, ◌-◌, ◌*◌, ◌<◌, length, IfOk, IfErr, IfSome};
ghost use Rattle.std.specs.Prelude.{OnOk, IsTrue, Some, None, true, false, option_map};
ghost use Rattle.step_trace.specs.CorrectSets.{named};
ghost use Rattle.suffix_staircase.specs.Analysis.{AreLevels};
ghost use Rattle.trace_text.specs.ByteLoops.{WasFaultless};
ghost use Rattle.trace_text.specs.Faults.{inner_of};
ghost use Rattle.command_faults.specs.Printing.{IsWriteFault};
ghost use Rattle.node_runs.specs.DecisionLines.{told_later};
ghost use Rattle.node_runs.specs.StandingLines.{told_stop};
ghost use Rattle.node_runs.specs.Followers.{AreAmong, GoesOnAlike, HasBegun, HasTold, HasToldOne, IsDue};
ghost use Rattle.node_runs.specs.Followers.{IsFreshFollower, IsLine, IsLineOf, IsNextLineOf, IsSetRefusal, TellsOf};

use crate::decision_lines::later_text;
use crate::standing_lines::{tell_standing, tell_stop};
use crate::standings::standing_of;
use chunk_join::{Analyst, FeedError};
use command_faults::{Fault, SetOption, correct_set};
use locked_recorder::{DecidedPrefix, PrefixError, Recorder, View};
use std::alloc::{AllocError, Global};
use std::io::Write;
use std::sync::Wait;
use std::sync::atomic::{AtomicBool, Ordering};
use std::thread;
use std::time::{Clock, Duration};
use step_trace::{Config, Correct, ProcSet, Trace};
use suffix_staircase::Stairs;
use trace_text::Counting;

/// Of a run whose steps are cut into so many equal portions, a line is due if one portion is new.
const PORTIONS: u64 = 20;

/// An analysis from scratch scans so many steps while the analyst summarises one.
const SUMMARISED: u64 = 40;

/// How many milliseconds a follower sleeps before it asks again how many steps were made.
const PAUSE: u64 = 1;

/// A follower of a run, which reports how synchronous it is so far for the processors that count as correct.
#[derive(Drop)]
pub struct Follower<W> {
    analyst: Analyst,
    // How many steps the run is to have, and how many it had at the last line.
    all: u64,
    told: u64,
    // How many steps the trace had that the analyst was fed last.
    fed: u64,
    // No more is printed: out of memory, or the writer failed.
    is_over: bool,
    writer: Counting<W>,
}

/// The follower of the run of a configuration for these correct processors, in which so many steps are to be made. None
/// if there are none to follow. If it is out of memory it reports that, and there is no follower.
///
/// Refuses only Set, if a correct processor is above the configuration's number of processors.
pub fn follower_for<W: Write + Drop>(
    alloc: Global,
    config: &Config,
    follow: Option<Correct>,
    all: u64,
    writer: Counting<W>,
) -> Result<Option<Follower<W>>, Fault>
    ensures within { OnOk result (AreAmong follow config.now.n) }
    ensures set { IfOk result
        (λ made. IfSome made (λ follower. option_map (λ correct. named correct config.now.n) follow
        ≡ Some follower.analyst.set)) }
    ensures fresh { IfOk result
        (λ made. IfSome made (IsFreshFollower config.now all writer)) }
    ensures refused { IfErr result (IsSetRefusal follow config.now.n) }
{
    let Some(correct) = follow else {
        return Ok(None);
    };
    let set = correct_set(SetOption::Follow, correct, config.n())?;
    Ok(started(alloc, config, set, all, writer))
}

/// A follower that has seen nothing yet; none if out of memory, which is reported.
fn started<W: Write + Drop>(
    alloc: Global,
    config: &Config,
    set: ProcSet,
    all: u64,
    mut writer: Counting<W>,
) -> Option<Follower<W>>
    ensures set { IfSome result (λ follower. follower.analyst.set ≡ set) }
    ensures fresh { IfSome result (IsFreshFollower config.now all writer) }
{
    let Ok(config) = config.copy(alloc) else {
        // If that fails too, there is nowhere left to report it.
        let _ = tell_stop(&mut writer);
        return None;
    };
    Some(Follower {
        analyst: Analyst::new(alloc, config, set),
        all,
        told: 0,
        fed: 0,
        is_over: false,
        writer,
    })
}

impl<W: Write> Follower<W> {
    /// Follows a recorder to which threads make steps, until `ended` says that all have ended, or no more is printed.
    /// Each decision is reported once, with the first bounds that are printed after it.
    pub(crate) fn follow<R: Wait + Clock>(
        &mut self,
        rt: &R,
        alloc: Global,
        recorder: &Recorder,
        ended: &AtomicBool,
    )
        ensures set { self.new.analyst.set ≡ self.old.analyst.set }
        ensures told { HasTold (IsLine recorder.now.config self.old.analyst.set) self.old.told
            self.new.told (W.contents (inner_of self.old.writer))
            (W.contents (inner_of self.new.writer)) }
    {
        let mut view = recorder.view();
        for _ in rt.forever() {
            if self.is_over || ended.load(Ordering::SeqCst) {
                return;
            }
            thread::sleep(rt, Duration::from_millis(PAUSE));
            self.look(rt, alloc, recorder, &mut view);
        }
    }

    /// Reports the bounds of a recorder's trace, if a line is due. The trace with all steps is left out: it is reported
    /// when the run has ended.
    fn look<R: Wait>(&mut self, rt: &R, alloc: Global, recorder: &Recorder, view: &mut View)
        ensures set { self.new.analyst.set ≡ self.old.analyst.set }
        ensures told { HasTold (IsLine recorder.now.config self.old.analyst.set) self.old.told
            self.new.told (W.contents (inner_of self.old.writer))
            (W.contents (inner_of self.new.writer)) }
    {
        let Some(count) = recorder.step_count(rt) else {
            return;
        };
        if !self.is_due(count) {
            return;
        }
        match recorder.decided_prefix(rt, alloc, view) {
            Ok(prefix) => self.tell_due(alloc, &prefix),
            Err(PrefixError::Memory) => self.stop(),
            // What no prefix extends is no run, which the end of the run reports.
            Err(PrefixError::NotAnExtension { .. }) => self.is_over = true,
        }
    }

    /// Whether a line is due when so many steps were made.
    fn is_due(&self, count: u64) -> bool
        ensures { IsTrue result ↔ IsDue self.now.all self.now.told count }
    {
        count < self.all && count.saturating_sub(self.told).saturating_mul(PORTIONS) >= self.all
    }

    /// Prints the bounds of a trace, as `tell` does, and who decided since the last line, if a line is due. The trace
    /// may have got its last steps since they were counted.
    fn tell_due(&mut self, alloc: Global, prefix: &DecidedPrefix)
        ensures set { self.new.analyst.set ≡ self.old.analyst.set }
        ensures told { HasBegun
            (IsNextLineOf self.old.analyst.set prefix.now.trace prefix.now.decisions.items
            self.old.told self.new.told) (W.contents (inner_of self.old.writer))
            (W.contents (inner_of self.new.writer)) }
        ensures due { (IsDue self.old.all self.old.told (length prefix.now.trace.steps) → ⊥)
            → self.new ≡ self.old }
        ensures whole { IsDue self.old.all self.old.told (length prefix.now.trace.steps)
            → self.new.is_over ≡ false
            → HasToldOne (TellsOf self.old.analyst.set prefix.now.trace
            (told_later prefix.now.trace.config.n self.old.told prefix.now.decisions.items))
            (W.contents (inner_of self.old.writer)) (W.contents (inner_of self.new.writer)) }
    {
        if !self.is_due(prefix.trace.len() as u64) {
            return;
        }
        let all = prefix.trace.config().n();
        match later_text(alloc, all, self.told, &prefix.decisions) {
            Ok(news) => self.tell(alloc, &prefix.trace, news.as_str()),
            Err(AllocError) => self.stop(),
        }
    }

    /// Prints the bounds of a trace that extends the traces of earlier lines, and then this news, unless the follower
    /// is over. It is over after a line on out of memory, or if the writer fails.
    pub(crate) fn tell(&mut self, alloc: Global, trace: &Trace, news: &str)
        ensures set { self.new.analyst.set ≡ self.old.analyst.set }
        ensures told { HasBegun (IsLineOf self.old.analyst.set trace.now news.now)
            (W.contents (inner_of self.old.writer)) (W.contents (inner_of self.new.writer)) }
        ensures over { self.old.is_over ≡ true → self.new ≡ self.old }
        ensures count { self.old.is_over ≡ false → self.new.told ≡ length trace.now.steps }
        ensures whole { self.new.is_over ≡ false
            → HasToldOne (TellsOf self.old.analyst.set trace.now news.now)
            (W.contents (inner_of self.old.writer)) (W.contents (inner_of self.new.writer)) }
        ensures faultless { self.new.is_over ≡ false
            → WasFaultless self.old.writer self.new.writer }
    {
        if self.is_over {
            return;
        }
        self.told = trace.len() as u64;
        match self.tell_next(alloc, trace, news) {
            Ok(()) => {}
            Err(Fault::Memory) => self.stop(),
            Err(_) => self.is_over = true,
        }
    }

    /// Prints the bounds of a trace that extends the traces of earlier lines, and then this news.
    ///
    /// Refuses, in this order: NotARun(0) if it doesn't extend them; Write with the number of bytes that went out
    /// before. Memory may come instead before the first write.
    fn tell_next(&mut self, alloc: Global, trace: &Trace, news: &str) -> Result<(), Fault>
        ensures set { self.new.analyst.set ≡ self.old.analyst.set }
        ensures told { HasBegun (IsLineOf self.old.analyst.set trace.now news.now)
            (W.contents (inner_of self.old.writer)) (W.contents (inner_of self.new.writer)) }
        ensures cause { IfErr result (IsWriteFault self.old.writer self.new.writer) }
        ensures whole { OnOk result
            (HasToldOne (TellsOf self.old.analyst.set trace.now news.now)
            (W.contents (inner_of self.old.writer)) (W.contents (inner_of self.new.writer))) }
        ensures faultless { OnOk result (WasFaultless self.old.writer self.new.writer) }
        ensures alike { GoesOnAlike self.old self.new }
    {
        let stairs = self.stairs(alloc, trace)?;
        tell_standing(alloc, standing_of(&stairs), news, &mut self.writer)
    }

    /// The stairs of a trace: if little of it is new, from what the analyst knows, and else from scratch, which is
    /// quicker then.
    ///
    /// Refuses NotARun(0) if it doesn't extend what the analyst was fed; Memory may come instead.
    fn stairs(&mut self, alloc: Global, trace: &Trace) -> Result<Stairs, Fault>
        ensures set { self.new.analyst.set ≡ self.old.analyst.set }
        ensures writer { self.new.writer ≡ self.old.writer }
        ensures alike { GoesOnAlike self.old self.new }
        ensures stairs { IfOk result (AreLevels self.old.analyst.set trace.now) }
        ensures refused { IfErr result
            (λ why. (why ≡ Fault.NotARun 0 None) ⊎ (why ≡ Fault.Memory)) }
    {
        let set = self.analyst.set();
        if self.is_mostly_new(trace) && set.within(trace.config().n()) {
            return Ok(Stairs::of_trace(alloc, trace, set)?);
        }
        match self.analyst.feed(alloc, trace) {
            Ok(stairs) => {
                self.fed = trace.len() as u64;
                Ok(stairs)
            }
            Err(FeedError::NotAnExtension { .. }) => Err(Fault::NotARun(0, None)),
            Err(FeedError::Memory) => Err(Fault::Memory),
        }
    }

    /// Whether more of a trace is new to the analyst than it is quick to summarise.
    fn is_mostly_new(&self, trace: &Trace) -> bool
        ensures { IsTrue result
            ↔ (length trace.now.steps < (length trace.now.steps - self.now.fed) * SUMMARISED) }
    {
        let count = trace.len() as u64;
        count < count.saturating_sub(self.fed).saturating_mul(SUMMARISED)
    }

    /// Reports that it is out of memory, and then no more.
    fn stop(&mut self)
        ensures set { self.new.analyst.set ≡ self.old.analyst.set }
        ensures told { HasBegun (λ line. line ≡ told_stop) (W.contents (inner_of self.old.writer))
            (W.contents (inner_of self.new.writer)) }
        ensures over { self.new.is_over ≡ true }
        ensures count { self.new.told ≡ self.old.told }
    {
        self.is_over = true;
        // If the writer fails, there is nowhere left to report it.
        let _ = tell_stop(&mut self.writer);
    }
}
