//! The picture of a trace as SVG: the command `draw`.

ghost use Rattle.std.specs.Prelude.{◌≡◌, IfErr, IfOk, MatchResult, Ok, OnOk, map};
ghost use Rattle.step_trace.specs.Processors.{IsWithin};
ghost use Rattle.text_commands.specs.Drawings.{IsDrawable, IsDrawnWindow, IsMarksFault, IsPictureFor, IsUndrawn};
ghost use Rattle.text_commands.specs.Drawings.{IsWindowFault, asks_for_ticks, names_by, names_of_list, names_told};
ghost use Rattle.text_commands.specs.Drawings.{option_of, window_for};

use crate::answers::Answer;
use crate::lanes::lanes_for;
use crate::log_tables::{nanoseconds_in, rows_of, table_for};
use crate::names::names_for;
use crate::report_parts::report_of;
use crate::traces::set_of;
use command_faults::{Fault, PictureOption};
use command_options::Drawing;
use picture_marks::{Picture, Window, WindowError, picture_of, window_of};
use run_page::evidence_window;
use run_picture::svg_text;
use run_words::LogWords;
use std::alloc::{AllocError, Global};
use step_tables::StepTable;
use step_trace::{ProcSet, Row, Trace};

/// What a picture is asked for, with the text of the table of the trace's steps, if there is one: then nodes and
/// messages have the names that it gives.
#[derive(Debug, Drop)]
pub struct ToldDrawing {
    pub drawing: Drawing,
    pub table: Option<Vec<u8>>,
}

/// A picture: the bounds of every tick, for the correct processors, and the steps, messages and witnesses of some
/// ticks.
///
/// Declines a trace, in this order, by:
/// - Set if a correct processor is above its number of processors;
/// - Table with the first refusal of the table;
/// - Picture for the names;
/// - for the first lane that is none: Picture, or Set if it is above the number of processors;
/// - Picture for the first tick and the last tick.
impl Answer for ToldDrawing {
    ghost use Rattle.text_commands.specs.Drawings.{IsDrawingOf, IsUndrawnTrace};

    ghost Gives = { λ d. IsDrawingOf d };

    ghost Declines = { λ d. IsUndrawnTrace d };

    fn answer(&self, alloc: Global, trace: &mut Trace) -> Result<Vec<u8>, Fault> {
        let set = set_of(self.drawing.correct, trace)?;
        let table = table_for(alloc, &self.table, trace)?;
        drawn(alloc, trace, set, &self.drawing, &table)
    }
}

/// The picture of a trace, as SVG, by what a table says about it.
fn drawn(
    alloc: Global,
    trace: &Trace,
    set: ProcSet,
    drawing: &Drawing,
    table: &Option<StepTable>,
) -> Result<Vec<u8>, Fault>
    requires within { IsWithin set trace.now.config.n }
    ensures drawable { OnOk result (IsDrawable drawing.now table.now trace.now) }
    ensures refused { IfErr result (IsUndrawn drawing.now table.now trace.now) }
{
    let listed = names_for(alloc, &drawing.names, trace.config().n())?;
    let names = names_by(alloc, drawing, listed, table)?;
    let lanes = lanes_for(alloc, &drawing.lanes, &names, trace.config().n())?;
    let picture = marks_for(alloc, trace, set, drawing, lanes)?;
    let words = LogWords {
        names: &names,
        said: rows_of(table),
        unit: nanoseconds_in(drawing.unit),
    };
    Ok(svg_text(alloc, trace, &picture, set, &words)?)
}

/// The names of the processors: the listed ones, if the drawing lists some, and else those of the table.
fn names_by<'a>(
    alloc: Global,
    drawing: &'a Drawing,
    listed: Vec<&'a str>,
    table: &'a Option<StepTable>,
) -> Result<Vec<&'a str>, AllocError>
    requires { map (λ name. name.now) listed.items ≡ names_of_list drawing.now.names }
    ensures { IfOk result
        (λ names. map (λ name. name.now) names.items ≡ names_by drawing.now.names table.now) }
{
    if drawing.names.is_some() {
        return Ok(listed);
    }
    names_told(alloc, table)
}

/// The names that a table gives; none without a table.
fn names_told(alloc: Global, table: &Option<StepTable>) -> Result<Vec<&str>, AllocError>
    ensures { IfOk result (λ names. map (λ name. name.now) names.items ≡ names_told table.now) }
{
    match table {
        Some(table) => table.names(alloc),
        None => Ok(Vec::new(alloc)),
    }
}

/// The marks of the ticks that are asked for and of these lanes, with the rows of the trace's report.
fn marks_for(
    alloc: Global,
    trace: &Trace,
    set: ProcSet,
    drawing: &Drawing,
    lanes: ProcSet,
) -> Result<Picture, Fault>
    requires within { IsWithin set trace.now.config.n }
    ensures marks { IfOk result (IsPictureFor set drawing.now lanes trace.now) }
    ensures refused { IfErr result (IsMarksFault drawing.now trace.now.last) }
{
    let asked = window_for(drawing, trace.last_tick())?;
    let report = report_of(alloc, trace, set)?;
    let window = drawn_window(alloc, trace, drawing, asked, report.rows())?;
    Ok(picture_of(alloc, trace, report.rows(), window, lanes)?)
}

/// The ticks to draw: those that are asked for; if none are, those of the first evidence of these rows, or `asked` if
/// there is no evidence.
fn drawn_window(
    alloc: Global,
    trace: &Trace,
    drawing: &Drawing,
    asked: Window,
    rows: &[Row],
) -> Result<Window, AllocError>
    requires { window_for drawing.now trace.now.last ≡ Ok asked }
    ensures { IfOk result (IsDrawnWindow drawing.now trace.now rows.now) }
{
    if asks_for_ticks(drawing) {
        return Ok(asked);
    }
    match evidence_window(alloc, trace, rows)? {
        Some(window) => Ok(window),
        None => Ok(asked),
    }
}

/// Whether a first or a last tick is asked for.
fn asks_for_ticks(drawing: &Drawing) -> bool
    ensures { result ≡ asks_for_ticks drawing.now }
{
    drawing.from.is_some() || drawing.to.is_some()
}

/// The option that a window is refused for.
fn option_of(why: WindowError) -> PictureOption
    ensures { result ≡ option_of why }
{
    match why {
        WindowError::BadFrom(from, last) => PictureOption::From(from, last),
        WindowError::BadTo(to, from) => PictureOption::To(to, from),
    }
}

/// The ticks to draw, of a trace with this last tick.
fn window_for(drawing: &Drawing, last: u64) -> Result<Window, Fault>
    ensures { MatchResult result (λ w. window_for drawing.now last ≡ Ok w)
        (IsWindowFault drawing.now last) }
{
    match window_of(last, drawing.from, drawing.to) {
        Ok(window) => Ok(window),
        Err(why) => Err(Fault::Picture(option_of(why))),
    }
}
