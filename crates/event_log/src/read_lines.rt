//! The lines at the front of a log that need no reader of csv's, taken in by one thread or by two.

ghost use Rattle.std.specs.Prelude.{◌≤◌, length, map};
ghost use Rattle.trace_text.specs.Records.{GivesUnless};
ghost use Rattle.event_log.specs.LogRecords.{said};
ghost use Rattle.event_log.specs.Naming.{is_memory};
ghost use Rattle.event_log.specs.PlainLines.{LeadsOn, LeadsTo};
ghost use Rattle.event_log.specs.ToldLines.{AreRulesOf, AreTold, after_rows};

use crate::plain_lines::PlainLine;
use crate::reading::Reading;
use crate::records::{Rules, Told};
use crate::refusals::LogError;
use crate::told_lines::{Lines, ToldLines, told_lines};
use std::alloc::Global;
use std::thread;
use std::thread::Threads;

/// How many lines are read before another thread is asked for help.
const FIRST_LINES: usize = 1_024;

/// Takes in the lines at the front of a text that need no reader of csv's. Gives the place behind them.
pub(crate) fn read_by_one<'a>(
    alloc: Global,
    text: &[u8],
    begun: Reading<'a>,
) -> Result<(Reading<'a>, usize), LogError>
    ensures { LeadsOn begun.entry text.now 0 result }
{
    let mut reading = begun;
    let at = take_lines(alloc, text, text.len(), &mut reading)?;
    Ok((reading, at))
}

/// The same with the help of another thread, as far as none of them is refused.
pub(crate) fn read_by_two<'a, T: Threads>(
    rt: &T,
    alloc: Global,
    text: &[u8],
    begun: Reading<'a>,
) -> Result<(Reading<'a>, usize), LogError>
    ensures { LeadsOn begun.entry text.now 0 result }
{
    let mut reading = begun;
    let at = take_lines(alloc, text, FIRST_LINES, &mut reading)?;
    match reading.rules() {
        Some(rules) => read_ahead(rt, alloc, text, at, rules, reading),
        None => Ok((reading, at)),
    }
}

/// Takes in the first lines of a text, at most so many, up to one that needs csv's reader. Gives the place behind them.
fn take_lines(
    alloc: Global,
    text: &[u8],
    most: usize,
    reading: &mut Reading<'_>,
) -> Result<usize, LogError>
    ensures { LeadsTo reading.old reading.new text.now result }
{
    let mut line = PlainLine::new();
    let mut at = 0;
    for _ in 0..most {
        let Some(end) = line.read(text, at) else {
            return Ok(at);
        };
        reading.take_fields(alloc, &line)?;
        at = end;
    }
    Ok(at)
}

/// Takes in the lines from a place on, by the rules that they are judged by, while another thread finds out what the
/// next ones say.
fn read_ahead<'a, T: Threads>(
    rt: &T,
    alloc: Global,
    text: &[u8],
    at: usize,
    rules: Rules<'a>,
    begun: Reading<'a>,
) -> Result<(Reading<'a>, usize), LogError>
    requires within { at ≤ length text.now }
    requires rules { AreRulesOf rules begun }
    ensures { LeadsOn begun.entry text.now at result }
{
    let mut reading = begun;
    let mut told = told_lines(alloc, &rules, Lines::new(alloc, text), at);
    let mut lines = Lines::new(alloc, text);
    while told.rows.len() > 0 {
        let from = told.end;
        let rows = told.rows;
        let (next, taken) = thread::join(
            rt,
            move || -> ToldLines<'_>
                requires { from ≤ length lines.text.now }
                ensures { AreTold rules.entry lines.entry.text.now from result }
            { told_lines(alloc, &rules, lines, from) },
            move || -> Result<(Reading<'_>, Vec<Told<'_>>), LogError>
                ensures { GivesUnless is_memory (λ p. p.0) result
                    (after_rows reading.entry (map said rows.entry.items)) }
            { taken_in(alloc, reading, rows) },
        );
        let (read, emptied) = taken?;
        reading = read;
        lines = Lines {
            text,
            rows: emptied,
        };
        told = next;
    }
    Ok((reading, told.end))
}

/// What was read with these events, and the rows themselves, so that their memory serves again.
fn taken_in<'a, 'b>(
    alloc: Global,
    reading: Reading<'a>,
    rows: Vec<Told<'b>>,
) -> Result<(Reading<'a>, Vec<Told<'b>>), LogError>
    ensures { GivesUnless is_memory (λ p. p.0) result
        (after_rows reading.entry (map said rows.entry.items)) }
{
    let mut reading = reading;
    reading.take_told(alloc, &rows)?;
    Ok((reading, rows))
}
