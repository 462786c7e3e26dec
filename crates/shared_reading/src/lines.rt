//! Steps that were read without their trace.

ghost use Rattle.std.specs.Prelude.{◌≡◌, [], true, IfOk};
ghost use Rattle.csv.specs.Records.{fields_of};
ghost use Rattle.trace_text.specs.Records.{GivesUnless, ReachesUnless};
ghost use Rattle.trace_text.specs.TextRefusals.{Gives, is_memory};
ghost use Rattle.trace_text.specs.declared.reading.Stage.TheVariants.{Recording};
ghost use Rattle.shared_reading.specs.LongLines.{tells_none};
ghost use Rattle.shared_reading.specs.Lines.{FrontIsRead, Read, line_of, narrow_line, is_next};
ghost use Rattle.shared_reading.specs.Lines.{with_next, next_read, after_lines, refused_for};

use crate::paged_steps::PagedSteps;
use crate::step_lines::step_line;
use csv::ByteRecord;
use std::alloc::{AllocError, Global};
use std::marker::Model;
use step_trace::{PushError, Step, StepRefused, Trace};
use trace_text::TextError;
use trace_text::reading::{Stage, step_of};
use trace_text::records::{TakeRecords, field, field_is, number};
use trace_text::versions::{Version, step_fields};

/// A step, with its number and its tick.
#[derive(Drop)]
pub(crate) struct Line {
    pub(crate) no: u64,
    pub(crate) tick: u32,
    pub(crate) step: Step,
}

/// The steps of a version's text that were read so far: the number of each is one more than that of the step before it.
#[derive(Drop)]
pub(crate) struct Lines {
    version: Version,
    // The number of the first step, if there is one, and how many there are.
    first: u64,
    count: u64,
    steps: PagedSteps,
}

impl Model for Lines {
    ghost use Rattle.std.specs.Prelude.{◌≡◌, length};
    ghost use Rattle.shared_reading.specs.PagedSteps.{IsPaired};
    ghost use Rattle.shared_reading.specs.Lines.{Read, numbered};

    ghost Value = { Read };

    ghost view = { λ r.
        record { version = r.version; lines = numbered r.first r.steps.steps r.steps.ticks } };

    ghost invariant = { λ r. IsPaired r.steps × (r.count ≡ length r.steps.steps) };
}

impl Lines {
    /// No step yet.
    pub(crate) fn new(alloc: Global, version: Version) -> Result<Lines, AllocError>
        ensures { IfOk result (λ none. none ≡ record { version = version; lines = [] }) }
    {
        Ok(Lines {
            version,
            first: 0,
            count: 0,
            steps: PagedSteps::new(alloc)?,
        })
    }

    /// Adds the steps of the lines at the front of a text, as far as each is one that needs no reader of csv's. Answers
    /// where the first other line begins.
    pub(crate) fn read_front(&mut self, alloc: Global, text: &[u8]) -> Result<usize, TextError>
        ensures { FrontIsRead self.old self.new text.now result }
    {
        let mut at = 0;
        while let Some(found) = step_line(alloc, self.version, text, at)? {
            self.push(alloc, found.line)?;
            at = found.end;
        }
        Ok(at)
    }

    /// Adds a step, if it is the next one.
    fn push(&mut self, alloc: Global, line: Line) -> Result<(), TextError>
        ensures { ReachesUnless is_memory result self.new (with_next self.old line) }
    {
        if !self.is_next(line.no) {
            return Err(TextError::WrongNumber(0));
        }
        let Some(count) = self.count.checked_add(1) else {
            return Err(TextError::Memory);
        };
        let Ok(()) = self.steps.push(alloc, line.no, line.tick, line.step) else {
            return Err(TextError::Memory);
        };
        // (unchanged, unless this is the first step)
        self.first = line.no - self.count;
        self.count = count;
        Ok(())
    }

    /// Whether the next step may have this number: the first may have any.
    fn is_next(&self, no: u64) -> bool
        ensures { result ≡ is_next self.now.lines no }
    {
        if self.count == 0 {
            return true;
        }
        match no.checked_sub(self.first) {
            Some(place) => place == self.count,
            None => false,
        }
    }
}

impl TakeRecords for Lines {
    type Error = TextError;

    ghost next = { next_read };

    ghost is_memory = { is_memory };

    ghost keeps = { λ _ _. true };

    fn take(&mut self, alloc: Global, fields: &ByteRecord) -> Result<(), TextError> {
        let line = line_of(alloc, self.version, fields)?;
        self.push(alloc, line)
    }

    fn out_of_memory() -> TextError {
        TextError::Memory
    }

    ghost long = { tells_none };
}

/// The step that a record encodes.
fn line_of(alloc: Global, version: Version, fields: &ByteRecord) -> Result<Line, TextError>
    ensures { Gives result (line_of version (fields_of fields.now)) }
{
    if field_is(fields, 0, b"end") {
        return Err(TextError::BadFields(0));
    }
    if fields.len() != step_fields(version) {
        return Err(TextError::BadFields(0));
    }
    let Some(no) = number(field(fields, 0)) else {
        return Err(TextError::WrongNumber(0));
    };
    let (tick, step) = step_of(alloc, version, no, fields)?;
    narrow_line(no, tick, step)
}

/// A step with its number and its tick. No trace has a tick that needs more bits.
pub(crate) fn narrow_line(no: u64, tick: u64, step: Step) -> Result<Line, TextError>
    ensures { result ≡ narrow_line no (tick, step) }
{
    let Ok(tick) = u32::try_from(tick) else {
        return Err(TextError::WrongNumber(0));
    };
    Ok(Line { no, tick, step })
}

/// The trace with these steps behind its own, taken one after the other. The first that is refused decides.
pub(crate) fn push_lines(version: Version, trace: Trace, lines: Lines) -> Result<Trace, TextError>
    ensures { GivesUnless is_memory (λ longer. Recording version longer) result
        (after_lines version trace lines.lines) }
{
    if lines.count == 0 {
        return Ok(trace);
    }
    let no = trace.len() as u64 + 1;
    if lines.first != no {
        return Err(TextError::WrongNumber(no));
    }
    match lines.steps.append_to(trace) {
        Ok(longer) => Ok(longer),
        Err(refused) => Err(refusal_of(refused)),
    }
}

/// The refusal of a text for a step that a trace refuses.
fn refusal_of(refused: StepRefused) -> TextError
    ensures { result ≡ refused_for refused.why refused.no }
{
    match refused.why {
        PushError::Memory => TextError::Memory,
        why => TextError::BadStep(refused.no, why),
    }
}
