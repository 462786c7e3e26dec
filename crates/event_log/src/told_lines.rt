//! Lines of a log that are told ahead: what they say is found out before they are taken in, as another thread can do.

ghost use Rattle.std.specs.Prelude.{◌≡◌, ◌≤◌, IfSome, length};
ghost use Rattle.event_log.specs.ToldLines.{AreTold, IsToldBy};

use crate::plain_lines::PlainLine;
use crate::records::{Rules, Told, told_of};
use std::alloc::Global;

/// The greatest number of lines that are told at once.
const MOST_LINES: usize = 4_096;

/// What lines of a text say, one behind the other, and the place behind them.
#[derive(Drop)]
pub(crate) struct ToldLines<'a> {
    pub(crate) rows: Vec<Told<'a>>,
    pub(crate) end: usize,
}

/// A text, and memory for what its lines say.
#[derive(Drop)]
pub(crate) struct Lines<'a> {
    pub(crate) text: &'a [u8],
    pub(crate) rows: Vec<Told<'a>>,
}

impl<'a> Lines<'a> {
    /// The lines of a text. Takes no memory yet.
    pub(crate) fn new(alloc: Global, text: &'a [u8]) -> Lines<'a>
        ensures { result.text.now ≡ text.now }
    {
        Lines {
            text,
            rows: Vec::new(alloc),
        }
    }
}

/// What the lines from a place on say, as far as each needs no reader of csv's, and none is refused.
pub(crate) fn told_lines<'a>(
    alloc: Global,
    rules: &Rules<'_>,
    lines: Lines<'a>,
    at: usize,
) -> ToldLines<'a>
    requires { at ≤ length lines.text.now }
    ensures { AreTold rules.now lines.entry.text.now at result }
{
    let mut line = PlainLine::new();
    let Lines { text, rows } = lines;
    let mut told = ToldLines { rows, end: at };
    told.rows.clear();
    for _ in 0..MOST_LINES {
        let Some(end) = line.read(text, told.end) else {
            return told;
        };
        let Some(row) = told_by(alloc, rules, &line) else {
            return told;
        };
        let Ok(()) = told.rows.push(row) else {
            return told;
        };
        told.end = end;
    }
    told
}

/// What a line says, if it isn't refused.
fn told_by<'a>(alloc: Global, rules: &Rules<'_>, line: &PlainLine<'a>) -> Option<Told<'a>>
    ensures { IfSome result (IsToldBy rules.now line.now) }
{
    let Ok(Told { moment, verb, .. }) = told_of(alloc, rules, 0, line) else {
        return None;
    };
    let columns = rules.columns;
    Some(Told {
        moment,
        verb,
        node: line.bytes(columns.node),
        to: line.bytes(columns.to),
        messages: line.bytes(columns.message),
    })
}
