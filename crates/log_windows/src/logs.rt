//! A log read as a trace. A record of it may send a message to several nodes, with semicolons between their names.

ghost use Rattle.std.specs.Prelude.{◌≡◌, ◌≤◌, Err, IfErr, IfOk, length};
ghost use Rattle.std.specs.Cow.{cow_slice_items};
ghost use Rattle.log_windows.specs.LogImports.{AreLogTicks, IsLogImport, IsLogImportRefusal};
ghost use Rattle.log_windows.specs.LogImports.{IsLogTable, IsLogTicksRefusal};

use crate::imports::{window_import, window_table, window_ticks};
use crate::lists::{may_list, spread_log};
use event_log::{
    Import, LogError, LogTable, Options, TickTable, Workers, read_log, read_table, read_ticks,
};
use std::alloc::Global;
use std::borrow::CowSlice;
use trace_text::MAX_TEXT_BYTES;

/// The import of a log: as `read_log` gives it, once each send is to one node.
///
/// Refuses the same, by the records of the log; and TooLarge, if its text is too large with a record for each send.
/// Memory comes only for a text that isn't too large. A text that is given, not lent, is freed before the trace is
/// made.
pub fn log_import<W: Workers>(
    alloc: Global,
    workers: &W,
    text: CowSlice<'_, u8, Global>,
    options: &Options,
) -> Result<Import, LogError>
    ensures import { IfOk result (IsLogImport options.now (cow_slice_items text.entry)) }
    ensures refused { IfErr result (IsLogImportRefusal options.now (cow_slice_items text.entry)) }
    ensures more { result ≡ Err LogError.Memory
        → length (cow_slice_items text.entry) ≤ MAX_TEXT_BYTES }
{
    if !may_list(&text) {
        return read_log(alloc, workers, text, options);
    }
    let log = spread_log(alloc, &text)?;
    drop(text);
    window_import(alloc, &log, options)
}

/// That import with the table of its steps, as `read_table` gives it.
///
/// Refuses the same.
pub fn log_table(alloc: Global, text: &[u8], options: &Options) -> Result<LogTable, LogError>
    ensures table { IfOk result (λ t. IsLogTable options.now text.now t.import t.table.items) }
    ensures refused { IfErr result (IsLogImportRefusal options.now text.now) }
    ensures more { result ≡ Err LogError.Memory → length text.now ≤ MAX_TEXT_BYTES }
{
    if !may_list(text) {
        return read_table(alloc, text, options);
    }
    let log = spread_log(alloc, text)?;
    window_table(alloc, &log, options)
}

/// What lengths of a tick make of a log, as `read_ticks` gives it.
///
/// Refuses the same.
pub fn log_ticks(alloc: Global, text: &[u8], options: &Options) -> Result<TickTable, LogError>
    ensures table { IfOk result (λ t. AreLogTicks options.now text.now t.kind t.rows.items) }
    ensures refused { IfErr result (IsLogTicksRefusal options.now text.now) }
    ensures more { result ≡ Err LogError.Memory → length text.now ≤ MAX_TEXT_BYTES }
{
    if !may_list(text) {
        return read_ticks(alloc, text, options);
    }
    let log = spread_log(alloc, text)?;
    window_ticks(alloc, &log, options)
}
