//! The marks of a picture.

ghost use Rattle.std.specs.Prelude.{◌≡◌, ◌<◌, ◌⊎◌, ℕ, length, IfOk, OnOk, OnErr};
ghost use Rattle.step_trace.specs.Fronts.{IsReport};
ghost use Rattle.step_trace.specs.Traces.{IsWellFormed};
ghost use Rattle.picture_marks.specs.Gathered.{gathered};
ghost use Rattle.picture_marks.specs.Marks.{ShowsExactly, ShowsMisses, ShowsGaps};
ghost use Rattle.picture_marks.specs.Pictures.{all_ticks, shown_step, shown_message};
ghost use Rattle.picture_marks.specs.Pictures.{shown_miss, shown_gap, corner, Shows};
ghost use Rattle.picture_marks.specs.Strokes.{ShowsSteps};

use crate::gathering::push_some;
use crate::messages::{self, Message};
use crate::report_rows;
use crate::strokes::{Strokes, columns_for, strokes_of};
use crate::takers::takers;
use crate::windows::Window;
use std::alloc::{AllocError, Global};
use step_trace::{ProcSet, Row, Trace};

/// What a picture shows: the numbers of the steps in its window and its lanes, the messages that touch it, the rows
/// whose misses and gaps do, and the corners of the staircase. Of all ticks it has the columns with steps, and the rows
/// whose gaps are in its lanes.
#[derive(Debug, Drop)]
pub struct Picture {
    pub window: Window,
    pub lanes: ProcSet,
    pub steps: Vec<u64>,
    pub messages: Vec<Message>,
    pub misses: Vec<Row>,
    pub gaps: Vec<Row>,
    pub corners: Vec<Row>,
    pub strokes: Strokes,
    pub stalls: Vec<Row>,
}

/// The picture of these ticks and lanes of a trace, with the rows of a report of it, in time that grows with the
/// trace and the rows.
///
/// Fails only if out of memory, and only if there is a step or a row.
pub fn picture_of(
    alloc: Global,
    trace: &Trace,
    rows: &[Row],
    window: Window,
    lanes: ProcSet,
) -> Result<Picture, AllocError>
    ensures shows { IfOk result (λ p. Shows trace.now rows.now window lanes p) }
    ensures exact { IfOk result (λ p. ShowsExactly trace.now window lanes p) }
    ensures misses { IfOk result (λ p. ShowsMisses trace.now rows.now window lanes p.misses.items) }
    ensures gaps { IfOk result (λ p. (set : ℕ) → IsReport set trace.now rows.now
        → ShowsGaps rows.now window lanes p.gaps.items) }
    ensures strokes { IfOk result (λ p. ShowsSteps trace.now p.strokes) }
    ensures stalls { IfOk result (λ p. (set : ℕ) → IsReport set trace.now rows.now
        → ShowsGaps rows.now (all_ticks trace.now) lanes p.stalls.items) }
    ensures more { OnErr result ((0 < length trace.now.steps) ⊎ (0 < length rows.now)) }
{
    Ok(Picture {
        window,
        lanes,
        steps: steps(alloc, trace, window, lanes)?,
        messages: messages(alloc, trace, window, lanes)?,
        misses: misses(alloc, trace, window, lanes, rows)?,
        gaps: gaps(alloc, window, lanes, rows)?,
        corners: corners(alloc, trace.last_tick(), rows)?,
        strokes: strokes_of(alloc, trace, columns_for(trace.last_tick()))?,
        stalls: stalls(alloc, trace, lanes, rows)?,
    })
}

fn steps(
    alloc: Global,
    trace: &Trace,
    window: Window,
    lanes: ProcSet,
) -> Result<Vec<u64>, AllocError>
    ensures listed { IfOk result
        (λ steps. steps.items ≡ gathered (shown_step trace.now window lanes)
        (length trace.now.steps)) }
    ensures more { OnErr result (0 < length trace.now.steps) }
{
    let mut steps = Vec::new(alloc);
    for i in 0..trace.len() {
        push_some(
            &mut steps,
            messages::shown_step(trace, window, lanes, i as u64 + 1),
        )?;
    }
    Ok(steps)
}

fn messages(
    alloc: Global,
    trace: &Trace,
    window: Window,
    lanes: ProcSet,
) -> Result<Vec<Message>, AllocError>
    ensures listed { IfOk result
        (λ messages. messages.items ≡ gathered (shown_message trace.now window lanes)
        (length trace.now.steps)) }
    ensures more { OnErr result (0 < length trace.now.steps) }
    ensures sound { OnOk result (IsWellFormed trace.now.config trace.now.steps) }
{
    if trace.len() == 0 {
        return Ok(Vec::new(alloc));
    }
    let takers = takers(alloc, trace)?;
    let mut messages = Vec::new(alloc);
    for i in 0..trace.len() {
        push_some(
            &mut messages,
            messages::shown_message(trace, &takers, window, lanes, i as u64 + 1),
        )?;
    }
    Ok(messages)
}

fn misses(
    alloc: Global,
    trace: &Trace,
    window: Window,
    lanes: ProcSet,
    rows: &[Row],
) -> Result<Vec<Row>, AllocError>
    ensures listed { IfOk result
        (λ misses. misses.items ≡ gathered (shown_miss trace.now window lanes rows.now)
        (length rows.now)) }
    ensures more { OnErr result (0 < length rows.now) }
{
    let mut misses = Vec::new(alloc);
    for i in 0..rows.len() {
        push_some(
            &mut misses,
            report_rows::shown_miss(trace, window, lanes, rows, i as u64 + 1),
        )?;
    }
    Ok(misses)
}

fn gaps(alloc: Global, window: Window, lanes: ProcSet, rows: &[Row]) -> Result<Vec<Row>, AllocError>
    ensures listed { IfOk result
        (λ gaps. gaps.items ≡ gathered (shown_gap window lanes rows.now) (length rows.now)) }
    ensures more { OnErr result (0 < length rows.now) }
{
    let mut gaps = Vec::new(alloc);
    for i in 0..rows.len() {
        push_some(
            &mut gaps,
            report_rows::shown_gap(window, lanes, rows, i as u64 + 1),
        )?;
    }
    Ok(gaps)
}

/// The rows whose gaps are shown if all ticks are.
fn stalls(
    alloc: Global,
    trace: &Trace,
    lanes: ProcSet,
    rows: &[Row],
) -> Result<Vec<Row>, AllocError>
    ensures listed { IfOk result
        (λ stalls. stalls.items ≡ gathered (shown_gap (all_ticks trace.now) lanes rows.now)
        (length rows.now)) }
    ensures more { OnErr result (0 < length rows.now) }
{
    let all = Window {
        first: 1,
        to: trace.last_tick(),
    };
    gaps(alloc, all, lanes, rows)
}

fn corners(alloc: Global, last: u64, rows: &[Row]) -> Result<Vec<Row>, AllocError>
    ensures listed { IfOk result
        (λ corners. corners.items ≡ gathered (corner last rows.now) (length rows.now)) }
    ensures more { OnErr result (0 < length rows.now) }
{
    let mut corners = Vec::new(alloc);
    for i in 0..rows.len() {
        push_some(&mut corners, report_rows::corner(last, rows, i as u64 + 1))?;
    }
    Ok(corners)
}
