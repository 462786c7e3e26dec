//! A window of a log read as a trace, with the records of the whole log.

ghost use Rattle.std.specs.Prelude.{◌≡◌, ◌≤◌, Err, IfErr, IfOk, length};
ghost use Rattle.event_log.specs.TickTables.{IsTickTable};
ghost use Rattle.log_windows.specs.WindowImports.{IsWindowImport, IsWindowImportRefusal};
ghost use Rattle.log_windows.specs.WindowImports.{IsWindowTable, IsWindowTicksRefusal};

use crate::numbers::{import_in, refusal_in, table_in};
use crate::reading::LogWindow;
use event_log::{
    Import, LogError, LogTable, OneThread, Options, TickTable, read_log, read_table, read_ticks,
};
use std::alloc::Global;
use std::borrow::CowSlice;
use trace_text::MAX_TEXT_BYTES;

/// The import of a window: that of its text, as `read_log` gives it, with the records of the whole log.
///
/// Refuses the same, with the numbers of the whole log. Memory comes only for a text that isn't too large.
pub fn window_import(
    alloc: Global,
    window: &LogWindow,
    options: &Options,
) -> Result<Import, LogError>
    ensures import { IfOk result (IsWindowImport options.now window.now) }
    ensures refused { IfErr result (IsWindowImportRefusal options.now window.now) }
    ensures more { result ≡ Err LogError.Memory → length window.now.text.items ≤ MAX_TEXT_BYTES }
{
    match read_log(alloc, &OneThread, CowSlice::Borrowed(&window.text), options) {
        Ok(import) => Ok(import_in(&window.places, import)),
        Err(why) => Err(refusal_in(&window.places, why)),
    }
}

/// That import with the table of its steps, as `read_table` gives it.
///
/// Refuses the same.
pub fn window_table(
    alloc: Global,
    window: &LogWindow,
    options: &Options,
) -> Result<LogTable, LogError>
    ensures table { IfOk result (λ t. IsWindowTable options.now window.now t.import t.table.items) }
    ensures refused { IfErr result (IsWindowImportRefusal options.now window.now) }
    ensures more { result ≡ Err LogError.Memory → length window.now.text.items ≤ MAX_TEXT_BYTES }
{
    match read_table(alloc, &window.text, options) {
        Ok(LogTable { import, table }) => {
            let table = table_in(alloc, &window.places, &table)?;
            let import = import_in(&window.places, import);
            Ok(LogTable { import, table })
        }
        Err(why) => Err(refusal_in(&window.places, why)),
    }
}

/// What lengths of a tick make of a window, as `read_ticks` gives it for its text.
///
/// Refuses the same, with the numbers of the whole log. Memory comes only for a text that isn't too large.
pub fn window_ticks(
    alloc: Global,
    window: &LogWindow,
    options: &Options,
) -> Result<TickTable, LogError>
    ensures table { IfOk result
        (λ t. IsTickTable options.now window.now.text.items t.kind t.rows.items) }
    ensures refused { IfErr result (IsWindowTicksRefusal options.now window.now) }
    ensures more { result ≡ Err LogError.Memory → length window.now.text.items ≤ MAX_TEXT_BYTES }
{
    match read_ticks(alloc, &window.text, options) {
        Ok(table) => Ok(table),
        Err(why) => Err(refusal_in(&window.places, why)),
    }
}
