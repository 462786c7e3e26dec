//! The lines that report who decided in a run: all of them at its end, and meanwhile those that aren't reported yet.

ghost use Rattle.std.specs.Prelude.{◌≡◌, IfOk, filter, string_bytes};
ghost use Rattle.node_runs.specs.DecisionLines.{all_decided, count_words, decided_line, decision_words};
ghost use Rattle.node_runs.specs.DecisionLines.{is_later, line_of_any, told_decisions, told_later};

use deciding_runs::{Decision, decisions_of};
use std::alloc::{AllocError, Global};
use std::fmt;
use step_buffers::World;

/// The line that reports who decided what in the run of a World, and in which tick, with its line feed.
pub fn decisions_text(alloc: Global, world: &World) -> Result<String, AllocError>
    ensures { IfOk result (λ text. string_bytes text
        ≡ told_decisions world.now.trace.config world.now.trace.steps) }
{
    let decisions = decisions_of(alloc, world)?;
    all_decided(alloc, world.trace().config().n(), &decisions)
}

/// The line of all decisions, of so many processors.
fn all_decided(alloc: Global, all: u64, decisions: &[Decision]) -> Result<String, AllocError>
    ensures { IfOk result (λ text. string_bytes text ≡ all_decided all decisions.now) }
{
    decided_line(alloc, decisions.len() as u64, all, decisions)
}

/// The line, with its line feed, of those among the decisions of so many processors that were made after `since` steps,
/// if there are any. It also has how many decided until now.
pub(crate) fn later_text(
    alloc: Global,
    all: u64,
    since: u64,
    decisions: &[Decision],
) -> Result<String, AllocError>
    ensures { IfOk result (λ text. string_bytes text ≡ told_later all since decisions.now) }
{
    let mut later = Vec::from_slice(alloc, decisions)?;
    keep_later(&mut later, since);
    line_of_any(alloc, decisions.len() as u64, all, &later)
}

/// Of these the decisions that were made after so many steps.
fn keep_later(decisions: &mut Vec<Decision>, since: u64)
    ensures { decisions.new.items ≡ filter (is_later since) decisions.old.items }
{
    decisions.retain(|decision| since < decision.step);
}

/// The line of these decisions, if there are any, and of how many processors of all decided.
fn line_of_any(
    alloc: Global,
    some: u64,
    all: u64,
    decisions: &[Decision],
) -> Result<String, AllocError>
    ensures { IfOk result (λ text. string_bytes text ≡ line_of_any some all decisions.now) }
{
    if decisions.is_empty() {
        return Ok(String::new(alloc));
    }
    decided_line(alloc, some, all, decisions)
}

/// The line of these decisions, and of how many processors of all decided.
fn decided_line(
    alloc: Global,
    some: u64,
    all: u64,
    decisions: &[Decision],
) -> Result<String, AllocError>
    ensures { IfOk result (λ text. string_bytes text ≡ decided_line some all decisions.now) }
{
    let mut line = CountWords { some, all }.to_string(alloc)?;
    for decision in decisions {
        let words = DecisionWords(*decision).to_string(alloc)?;
        line.push_str(words.as_str())?;
    }
    line.push_str("\n")?;
    Ok(line)
}

/// How many processors decided, of how many.
#[derive(Clone, Copy)]
struct CountWords {
    some: u64,
    all: u64,
}

impl fmt::Display for CountWords {
    ghost use Rattle.std.specs.Prelude.{Some};
    ghost use Rattle.node_runs.specs.DecisionLines.{count_words};

    ghost output = { λ words. Some (count_words words.some words.all) };

    fn fmt<W: fmt::Write>(&self, f: &mut fmt::Formatter<W>) -> fmt::Result {
        write!(
            f,
            "synchrony: {} of {} processors decided",
            self.some, self.all
        )
    }
}

/// Who decided what, and in which tick.
#[derive(Clone, Copy)]
struct DecisionWords(Decision);

impl fmt::Display for DecisionWords {
    ghost use Rattle.std.specs.Prelude.{Some};
    ghost use Rattle.node_runs.specs.DecisionLines.{decision_words};

    ghost output = { λ words. Some (decision_words words.0) };

    fn fmt<W: fmt::Write>(&self, f: &mut fmt::Formatter<W>) -> fmt::Result {
        write!(
            f,
            "; {} decided {} in tick {}",
            self.0.processor, self.0.value, self.0.step
        )
    }
}
