//! What a page says first about a run.

ghost use Rattle.std.specs.Prelude.{◌≡◌, ◌==◌, ◌<◌, false, length};
ghost use Rattle.std.specs.List.{list_any};
ghost use Rattle.std.specs.Option.{option_map_or};
ghost use Rattle.step_trace.specs.Fronts.{IsReport};
ghost use Rattle.step_trace.specs.Traces.{ids_at, step_at};
ghost use Rattle.step_trace.specs.PushRefusals.{is_taken};
ghost use Rattle.run_story.specs.CalmRows.{FitsIn};
ghost use Rattle.run_story.specs.Headlines.{headline_of, is_between, is_lost_in, is_silent_to_end};
ghost use Rattle.run_story.specs.Headlines.{last_step_of, poor_headline, row_in, sends_from};

use crate::calm::is_poor;
use crate::messages::{receiver_of, sender_of};
use step_trace::{ProcSet, Row, Trace};

/// A run of fewer ticks whose calm row is poor is too short to show much.
pub const SHORT_RUN: u64 = 20;

/// What a page says first about a run: the first case that applies. Lengths are in ticks.
#[derive(Clone, Copy, Debug, PartialEq, Eq)]
pub enum Headline {
    /// The set has no member.
    NoMember,
    /// The trace has no step.
    NoStep,
    /// The calm row isn't poor, or it is given. `sent` says whether a member sends a message to a member in its tick or
    /// later.
    Calm { sent: bool },
    /// The run has fewer than `SHORT_RUN` ticks. The bounds are those of the first row.
    Short { delta: u64, phi: u64 },
    /// The gap of the calm row lasts to the end of the run, and its processor bound is no smaller than the other.
    /// `since` is the number of the processor's last step, if it makes one.
    SilentToEnd { proc: u64, since: Option<u64> },
    /// The message that the calm row names is never taken.
    NeverReceived,
    /// The processor bound of the calm row is no smaller than the other: a silence so long.
    Silence { ticks: u64 },
    /// Its communication bound is the greater: a miss so long.
    Late { ticks: u64 },
}

/// The headline of a run, by its report, of whose rows the one at place `calm` is the calm row. That isn't poor if it
/// is given.
///
/// Time grows with the trace.
pub fn headline_of(
    trace: &Trace,
    set: ProcSet,
    rows: &[Row],
    calm: usize,
    is_given: bool,
) -> Headline
    requires report { IsReport set trace.now rows.now }
    requires calm { calm < length rows.now }
    ensures { result ≡ headline_of set trace.now (row_in rows.now 0)
        (row_in rows.now calm) is_given }
{
    let _last = trace.last_tick();
    headline_from(trace, set, &rows[0], &rows[calm], is_given)
}

/// The headline of a run with this first row and this calm row.
fn headline_from(trace: &Trace, set: ProcSet, first: &Row, calm: &Row, is_given: bool) -> Headline
    requires { FitsIn trace.now.last calm.now }
    ensures { result ≡ headline_of set trace.now first.now calm.now is_given }
{
    if set == ProcSet::of_mask(0) {
        return Headline::NoMember;
    }
    if trace.len() == 0 {
        return Headline::NoStep;
    }
    if is_given || !is_poor(calm, trace.last_tick()) {
        let sent = sends_from(trace, set, calm.gst);
        return Headline::Calm { sent };
    }
    if trace.last_tick() < SHORT_RUN {
        return Headline::Short {
            delta: first.delta,
            phi: first.phi,
        };
    }
    poor_headline(trace, calm)
}

/// The headline of a run that isn't short, and whose calm row is poor.
fn poor_headline(trace: &Trace, row: &Row) -> Headline
    requires { FitsIn trace.now.last row.now }
    ensures { result ≡ poor_headline trace.now row.now }
{
    if is_silent_to_end(trace, row) {
        let proc = match row.gap {
            Some(gap) => gap.proc,
            None => 0,
        };
        let since = last_step_of(trace, proc);
        return Headline::SilentToEnd { proc, since };
    }
    if is_lost_in(trace, row) {
        return Headline::NeverReceived;
    }
    if row.delta <= row.phi {
        Headline::Silence { ticks: row.phi - 1 }
    } else {
        Headline::Late {
            ticks: row.delta - 1,
        }
    }
}

/// Whether the gap of a row lasts to the end, and its processor bound is no smaller than the other.
fn is_silent_to_end(trace: &Trace, row: &Row) -> bool
    ensures { result ≡ is_silent_to_end trace.now.last row.now }
{
    match row.gap {
        Some(gap) => row.delta <= row.phi && gap.to == trace.last_tick(),
        None => false,
    }
}

/// The number of the last step of a processor, if it makes one.
fn last_step_of(trace: &Trace, proc: u64) -> Option<u64>
    ensures { result ≡ last_step_of proc trace.now.steps (length trace.now.steps) }
{
    let mut last = None;
    for i in 0..trace.len() {
        let no = i as u64 + 1;
        if is_step_of(trace, no, proc) {
            last = Some(no);
        }
    }
    last
}

/// Whether the step of this number is one of a processor.
fn is_step_of(trace: &Trace, no: u64, proc: u64) -> bool
    ensures { result ≡ option_map_or (λ x. x.proc == proc) (step_at trace.now.steps no) false }
{
    match trace.step(no) {
        Some(step) => step.proc == proc,
        None => false,
    }
}

/// Whether the message that a row names is never taken.
fn is_lost_in(trace: &Trace, row: &Row) -> bool
    ensures { result ≡ is_lost_in trace.now.steps row.now }
{
    match row.miss {
        Some(miss) => !is_taken(trace, miss.sent),
        None => false,
    }
}

/// Whether some step takes this message.
fn is_taken(trace: &Trace, sent: u64) -> bool
    ensures { result ≡ is_taken trace.now.steps sent }
{
    let mut taken = false;
    for i in 0..trace.len() {
        taken = taken || takes(trace, i as u64 + 1, sent);
    }
    taken
}

/// Whether the step of this number takes this message.
fn takes(trace: &Trace, no: u64, sent: u64) -> bool
    ensures { result ≡ list_any (λ k. k == sent) (ids_at trace.now.steps no) }
{
    match trace.step(no) {
        Some(step) => step.act.ids().contains(&sent),
        None => false,
    }
}

/// Whether a member sends a message to a member in this tick or later.
fn sends_from(trace: &Trace, set: ProcSet, g: u64) -> bool
    ensures { result ≡ sends_from set trace.now g (length trace.now.steps) }
{
    let mut sends = false;
    for i in 0..trace.len() {
        let no = i as u64 + 1;
        if is_between(trace, set, no) && g <= trace.tick_at(no) {
            sends = true;
        }
    }
    sends
}

/// Whether the message of this number goes from a member to a member.
pub(crate) fn is_between(trace: &Trace, set: ProcSet, no: u64) -> bool
    ensures { result ≡ is_between set trace.now.steps no }
{
    set.contains(sender_of(trace, no)) && set.contains(receiver_of(trace, no))
}
