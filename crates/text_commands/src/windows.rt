//! The trace of a window of a log, the table of its steps, or the table of the lengths of a tick, from a reader to a
//! writer.

ghost use Rattle.std.specs.Prelude.{◌≡◌, IfErr, IfOk, OnOk, option_map, string_bytes};
ghost use Rattle.std.specs.Io.KnownBytes.{IsAtEnd};
ghost use Rattle.trace_text.specs.Faults.{faults_of, inner_of};
ghost use Rattle.command_faults.specs.Printing.{WentOut};
ghost use Rattle.event_log.specs.Options.{IsUntilIn};
ghost use Rattle.log_windows.specs.LogWindows.{IsWindowOf};
ghost use Rattle.text_commands.specs.Imports.{IsQuietFault, IsToldOfLogs};
ghost use Rattle.text_commands.specs.Serving.{IsReadFault, Serves};
ghost use Rattle.text_commands.specs.Windows.{AreTicksToldOf, IsNoStart, IsTableToldOf, IsTraceToldOf, IsToldOfWindow};
ghost use Rattle.text_commands.specs.Windows.{IsUnreadWindow, IsUntoldOfWindow, IsWindowTold, IsWindowless};

use crate::import_lines::notes_text;
use crate::imports::ImportTexts;
use crate::tick_lines::{tick_notes, ticks_text};
use crate::upgrades::text_2_of;
use crate::window_lines::window_notes;
use command_faults::{Fault, ImportOption, print_notes};
use command_options::ImportForm;
use event_log::{LogEnd, LogTable, Options, read_end};
use log_windows::{LogWindow, WindowError, read_window, window_import, window_table, window_ticks};
use std::alloc::Global;
use std::io::{Read, Write};
use trace_text::{Counting, write_text};

/// When a window of a log begins, as a text gives it, if there is one.
///
/// Refuses Import.
pub fn window_start(from: Option<&str>) -> Result<Option<LogEnd>, Fault>
    ensures start { IfOk result (IsUntilIn (option_map (λ t. t.now) from.entry)) }
    ensures refused { IfErr result (IsNoStart (option_map (λ t. t.now) from.entry)) }
{
    let Some(text) = from else {
        return Ok(None);
    };
    match read_end(text) {
        Some(start) => Ok(Some(start)),
        None => Err(Fault::Import(ImportOption::From)),
    }
}

/// Reads a log of any length to its end, and does with its window from a time on what `run_import` does with a log. The
/// window's end is that of the options. Records have their numbers in the whole log. The first notes are how many
/// events are outside the window, and how many received messages were sent outside it.
///
/// Refuses, in this order: Read; Log for a log that has no such window, and then for a window that is refused; Write
/// with the number of bytes that went out before. Memory may come at any step before the notes are written.
pub fn run_window<R: Read, W: Write, N: Write>(
    alloc: Global,
    options: &Options,
    from: LogEnd,
    form: ImportForm,
    reader: &mut Counting<R>,
    writer: &mut Counting<W>,
    notes: &mut Counting<N>,
) -> Result<(), Fault>
    ensures served { Serves (IsWindowTold form options.now from
        (WentOut N.contents notes.old notes.new)) (IsWindowless form options.now from) IsToldOfLogs
        R.remaining W.contents reader.old reader.new writer.old writer.new result }
    ensures quiet { IfErr result (IsQuietFault notes.old notes.new) }
{
    let window = window_from(alloc, options, from, reader)?;
    let texts = texts_of(alloc, &window, options, form)?;
    print_notes(texts.notes.as_str(), notes);
    Ok(write_text(&texts.out, writer)?)
}

/// The window of the log that a reader has left.
fn window_from<R: Read>(
    alloc: Global,
    options: &Options,
    from: LogEnd,
    reader: &mut Counting<R>,
) -> Result<LogWindow, Fault>
    ensures window { IfOk result
        (IsWindowOf options.now.unit from options.now.until (R.remaining (inner_of reader.old))) }
    ensures end { OnOk result (IsAtEnd (R.remaining (inner_of reader.new))) }
    ensures faultless { OnOk result (faults_of reader.new ≡ faults_of reader.old) }
    ensures refused { IfErr result
        (IsUnreadWindow options.now from (R.remaining (inner_of reader.old))) }
    ensures read { IfErr result (IsReadFault (faults_of reader.old) (faults_of reader.new)) }
{
    match read_window(alloc, reader, options.unit, from, options.until) {
        Ok(window) => Ok(window),
        Err(WindowError::Read) => Err(Fault::Read),
        Err(WindowError::Log(why)) => Err(Fault::from(why)),
    }
}

/// The texts that are made of a window.
fn texts_of(
    alloc: Global,
    window: &LogWindow,
    options: &Options,
    form: ImportForm,
) -> Result<ImportTexts, Fault>
    ensures texts { IfOk result
        (λ texts. IsToldOfWindow form options.now (λ notes. string_bytes texts.notes ≡ notes)
        window.now texts.out.items) }
    ensures refused { IfErr result (IsUntoldOfWindow form options.now window.now) }
{
    match form {
        ImportForm::Trace => trace_texts(alloc, window, options),
        ImportForm::Table => table_texts(alloc, window, options),
        ImportForm::Ticks => tick_texts(alloc, window, options),
    }
}

/// The text of the trace of a window, and the notes.
fn trace_texts(alloc: Global, window: &LogWindow, options: &Options) -> Result<ImportTexts, Fault>
    ensures texts { IfOk result
        (λ texts. IsTraceToldOf options.now (λ notes. string_bytes texts.notes ≡ notes) window.now
        texts.out.items) }
    ensures refused { IfErr result (IsUntoldOfWindow ImportForm.Trace options.now window.now) }
{
    let import = window_import(alloc, window, options)?;
    let mut notes = window_notes(alloc, window)?;
    let others = notes_text(alloc, options, &import)?;
    notes.push_str(others.as_str())?;
    let out = text_2_of(alloc, &import.trace)?;
    Ok(ImportTexts { out, notes })
}

/// The table of the steps of a window, and the notes.
fn table_texts(alloc: Global, window: &LogWindow, options: &Options) -> Result<ImportTexts, Fault>
    ensures texts { IfOk result
        (λ texts. IsTableToldOf options.now (λ notes. string_bytes texts.notes ≡ notes) window.now
        texts.out.items) }
    ensures refused { IfErr result (IsUntoldOfWindow ImportForm.Table options.now window.now) }
{
    let LogTable { import, table } = window_table(alloc, window, options)?;
    let mut notes = window_notes(alloc, window)?;
    let others = notes_text(alloc, options, &import)?;
    notes.push_str(others.as_str())?;
    Ok(ImportTexts { out: table, notes })
}

/// The table of the lengths of a tick for a window, and the notes.
fn tick_texts(alloc: Global, window: &LogWindow, options: &Options) -> Result<ImportTexts, Fault>
    ensures texts { IfOk result
        (λ texts. AreTicksToldOf options.now (λ notes. string_bytes texts.notes ≡ notes) window.now
        texts.out.items) }
    ensures refused { IfErr result (IsUntoldOfWindow ImportForm.Ticks options.now window.now) }
{
    let table = window_ticks(alloc, window, options)?;
    let mut notes = window_notes(alloc, window)?;
    let others = tick_notes(alloc, &table)?;
    notes.push_str(others.as_str())?;
    let out = ticks_text(alloc, &table)?;
    Ok(ImportTexts { out, notes })
}
