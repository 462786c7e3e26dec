//! The trace of a log, the table of its steps, or the table of the lengths of a tick, from a reader to a writer.

ghost use Rattle.std.specs.Prelude.{◌≡◌, Err, IfOk, IfErr, option_map, string_bytes};
ghost use Rattle.command_faults.specs.Printing.{WentOut};
ghost use Rattle.event_log.specs.Options.{AreOptions, told_options};
ghost use Rattle.log_windows.specs.LogImports.{AreLogTicks, IsLogImport, IsLogTable};
ghost use Rattle.text_commands.specs.Imports.{IsImportOptionFault, IsImportTold, IsNoLength};
ghost use Rattle.text_commands.specs.Imports.{IsQuietFault, IsToldOfLogs, IsUnimported, NeedsOptionMemory};
ghost use Rattle.text_commands.specs.Imports.{options_in};
ghost use Rattle.text_commands.specs.Serving.{Serves};

use crate::import_lines::notes_text;
use crate::texts::read_whole;
use crate::tick_lines::{tick_notes, ticks_text};
use crate::upgrades::text_2_by_four;
use command_faults::{Fault, ImportOption, print_notes};
use command_options::{ImportForm, ImportOptions};
use event_log::{
    Import, LogError, LogTable, OptionError, OptionTexts, Options, TickTable, TwoThreads,
    read_options,
};
use log_windows::{log_import, log_table, log_ticks};
use std::alloc::Global;
use std::borrow::CowSlice;
use std::io::{Read, Write};
use std::mem;
use std::thread::Threads;
use trace_text::{Counting, write_text};

/// How a log is read, by the options that are given.
///
/// Refuses Import for the first text of these that gives nothing, in this order, but Length for a tick or a longest
/// time: the nodes, the unit, the tick, the end, and the longest time without an event. Memory may come instead, but
/// only if nodes are listed, or if a text that is no length has to be told.
pub fn import_options(alloc: Global, given: &ImportOptions) -> Result<Options, Fault>
    ensures options { IfOk result (AreOptions (options_in given.now)) }
    ensures refused { IfErr result (IsImportOptionFault (options_in given.now)) }
    ensures more { result ≡ Err Fault.Memory → NeedsOptionMemory (options_in given.now) }
{
    options_of(alloc, &texts_in(given))
}

/// How a log is read, by these texts.
fn options_of(alloc: Global, texts: &OptionTexts<'_>) -> Result<Options, Fault>
    ensures options { IfOk result (AreOptions (told_options texts.now)) }
    ensures refused { IfErr result (IsImportOptionFault (told_options texts.now)) }
    ensures more { result ≡ Err Fault.Memory → NeedsOptionMemory (told_options texts.now) }
{
    match read_options(alloc, texts) {
        Ok(options) => Ok(options),
        Err(OptionError::Tick) => Err(no_length(
            alloc,
            ImportOption::Tick,
            texts.tick.unwrap_or(""),
        )),
        Err(OptionError::Idle) => Err(no_length(
            alloc,
            ImportOption::Idle,
            texts.idle.unwrap_or(""),
        )),
        Err(why) => Err(Fault::from(why)),
    }
}

/// The options that are given, as texts.
fn texts_in(given: &ImportOptions) -> OptionTexts<'_>
    ensures { told_options result ≡ options_in given.now }
{
    OptionTexts {
        nodes: text_in(&given.nodes),
        unit: text_in(&given.unit),
        tick: text_in(&given.tick),
        until: text_in(&given.until),
        idle: text_in(&given.idle),
        spread: given.spread,
        align: given.align,
        drop_lost: given.drop_lost,
        merge: given.merge,
    }
}

/// The text, if one is given.
fn text_in(text: &Option<String>) -> Option<&str>
    ensures { option_map (λ t. t.now) result ≡ option_map string_bytes text.now }
{
    match text {
        Some(text) => Some(text.as_str()),
        None => None,
    }
}

/// The fault that what an option has is no length of time. Memory may come instead.
fn no_length(alloc: Global, option: ImportOption, text: &str) -> Fault
    ensures { IsNoLength option text.now result }
{
    match String::from_str(alloc, text) {
        Ok(given) => Fault::Length(option, given),
        Err(_) => Fault::Memory,
    }
}

/// Reads a log to its end and writes the notes on it. Then it writes the text of its trace in version 2, or the table
/// of its steps, or that of the lengths of a tick. The notes are which processor each node is, if the nodes aren't
/// listed; how many lost sends are left out, if they are; and how far events moved, if they may be spread. With the
/// table of lengths the note is which of them moves few events. Nothing is written before both texts are complete. That
/// the notes can't be written stops nothing.
///
/// Refuses, in this order: Read, or Log for a text that is too large; Log for any other refusal of the log; Write with
/// the number of bytes that went out before. Memory may come at any step before the notes are written.
pub fn run_import<T: Threads + Sync, R: Read, W: Write, N: Write>(
    rt: &T,
    alloc: Global,
    options: &Options,
    form: ImportForm,
    reader: &mut Counting<R>,
    writer: &mut Counting<W>,
    notes: &mut Counting<N>,
) -> Result<(), Fault>
    ensures served { Serves (IsImportTold form options.now (WentOut N.contents notes.old notes.new))
        (IsUnimported form options.now) IsToldOfLogs
        R.remaining W.contents reader.old reader.new writer.old writer.new result }
    ensures quiet { IfErr result (IsQuietFault notes.old notes.new) }
{
    let text = read_whole(alloc, reader, Fault::Log(LogError::TooLarge))?;
    let texts = texts_of(rt, alloc, text, options, form)?;
    print_notes(texts.notes.as_str(), notes);
    Ok(write_text(&texts.out, writer)?)
}

/// What is made of a log.
#[derive(Drop)]
pub(crate) struct ImportTexts {
    /// What is written.
    pub(crate) out: Vec<u8>,
    /// The notes on it.
    pub(crate) notes: String,
}

/// The texts that are made of a log.
fn texts_of<T: Threads + Sync>(
    rt: &T,
    alloc: Global,
    text: Vec<u8>,
    options: &Options,
    form: ImportForm,
) -> Result<ImportTexts, Fault>
    ensures texts { IfOk result
        (λ texts. IsImportTold form options.now (λ notes. string_bytes texts.notes ≡ notes)
        text.items texts.out.items) }
    ensures refused { IfErr result (IsUnimported form options.now text.items) }
{
    match form {
        ImportForm::Trace => trace_texts(rt, alloc, text, options),
        ImportForm::Table => table_texts(alloc, text, options),
        ImportForm::Ticks => tick_texts(alloc, text, options),
    }
}

/// The text of the trace of a log, and the notes. The log is freed before they are made. The memory of the trace is
/// left to the end of the program, which is near.
fn trace_texts<T: Threads + Sync>(
    rt: &T,
    alloc: Global,
    text: Vec<u8>,
    options: &Options,
) -> Result<ImportTexts, Fault>
    ensures texts { IfOk result
        (λ texts. IsImportTold ImportForm.Trace options.now
        (λ notes. string_bytes texts.notes ≡ notes) text.items texts.out.items) }
    ensures refused { IfErr result (IsUnimported ImportForm.Trace options.now text.items) }
{
    let import = import_of(rt, alloc, text, options)?;
    let notes = notes_text(alloc, options, &import)?;
    let out = text_2_by_four(rt, alloc, &import.trace)?;
    mem::forget(import);
    Ok(ImportTexts { out, notes })
}

/// The table of the steps of a log, and the notes.
fn table_texts(alloc: Global, text: Vec<u8>, options: &Options) -> Result<ImportTexts, Fault>
    ensures texts { IfOk result
        (λ texts. IsImportTold ImportForm.Table options.now
        (λ notes. string_bytes texts.notes ≡ notes) text.items texts.out.items) }
    ensures refused { IfErr result (IsUnimported ImportForm.Table options.now text.items) }
{
    let LogTable { import, table } = table_of(alloc, text, options)?;
    let notes = notes_text(alloc, options, &import)?;
    Ok(ImportTexts { out: table, notes })
}

/// The table of the lengths of a tick for a log, and the note on it.
fn tick_texts(alloc: Global, text: Vec<u8>, options: &Options) -> Result<ImportTexts, Fault>
    ensures texts { IfOk result
        (λ texts. IsImportTold ImportForm.Ticks options.now
        (λ notes. string_bytes texts.notes ≡ notes) text.items texts.out.items) }
    ensures refused { IfErr result (IsUnimported ImportForm.Ticks options.now text.items) }
{
    let table = ticks_of(alloc, text, options)?;
    let notes = tick_notes(alloc, &table)?;
    let out = ticks_text(alloc, &table)?;
    Ok(ImportTexts { out, notes })
}

/// A log read as a trace, with the help of another thread. The text, which takes much memory for a long log, is freed
/// before the trace is made.
fn import_of<T: Threads>(
    rt: &T,
    alloc: Global,
    text: Vec<u8>,
    options: &Options,
) -> Result<Import, Fault>
    ensures import { IfOk result (λ import. IsLogImport options.now text.items import) }
    ensures refused { IfErr result (IsUnimported ImportForm.Trace options.now text.items) }
{
    let workers = TwoThreads { rt };
    Ok(log_import(alloc, &workers, CowSlice::Owned(text), options)?)
}

/// A log read as a trace, with the table of its steps. The text is freed.
fn table_of(alloc: Global, text: Vec<u8>, options: &Options) -> Result<LogTable, Fault>
    ensures table { IfOk result (λ t. IsLogTable options.now text.items t.import t.table.items) }
    ensures refused { IfErr result (IsUnimported ImportForm.Table options.now text.items) }
{
    Ok(log_table(alloc, &text, options)?)
}

/// What lengths of a tick make of a log. The text is freed.
fn ticks_of(alloc: Global, text: Vec<u8>, options: &Options) -> Result<TickTable, Fault>
    ensures table { IfOk result (λ t. AreLogTicks options.now text.items t.kind t.rows.items) }
    ensures refused { IfErr result (IsUnimported ImportForm.Ticks options.now text.items) }
{
    Ok(log_ticks(alloc, &text, options)?)
}
