//! The table of a trace's steps, which the commands `draw` and `page` take beside the trace.

ghost use Rattle.std.specs.Prelude.{◌≡◌, ◌≤◌, IfErr, IfOk, IfSome, OnOk, length, option_map};
ghost use Rattle.trace_text.specs.declared.byte_loops.TheConstants.{MAX_TEXT_BYTES};
ghost use Rattle.text_commands.specs.LogTables.{HasTable, IsTableFault, told_by};
ghost use Rattle.text_commands.specs.Serving.{IsAtEnd, IsReadFault, faults_of, inner_of};
ghost use Rattle.text_commands.specs.Texts.{IsUnreadWhole};

use crate::texts::read_whole;
use command_faults::Fault;
use command_options::TimeUnit;
use std::alloc::Global;
use std::io::Read;
use step_tables::{StepRow, StepTable, TableError, table_of_text};
use step_trace::Trace;
use trace_text::Counting;

/// Reads the text of a table to its end. It is parsed for the page or the picture.
///
/// Refuses Read at the first fault, and Table for a text that is too large. Memory may come instead.
pub fn read_table<R: Read>(alloc: Global, reader: &mut Counting<R>) -> Result<Vec<u8>, Fault>
    ensures text { IfOk result
        (λ text. IfSome (R.remaining (inner_of reader.old)) (λ known. text.items ≡ known)) }
    ensures limit { IfOk result (λ text. length text.items ≤ MAX_TEXT_BYTES) }
    ensures end { OnOk result (IsAtEnd (R.remaining (inner_of reader.new))) }
    ensures faultless { OnOk result (faults_of reader.new ≡ faults_of reader.old) }
    ensures refused { IfErr result
        (IsUnreadWhole (Fault.Table TableError.TooLarge) (R.remaining (inner_of reader.old))) }
    ensures read { IfErr result (IsReadFault (faults_of reader.old) (faults_of reader.new)) }
{
    read_whole(alloc, reader, Fault::Table(TableError::TooLarge))
}

/// What the table says about a trace, if there is one.
pub(crate) fn table_for(
    alloc: Global,
    text: &Option<Vec<u8>>,
    trace: &Trace,
) -> Result<Option<StepTable>, Fault>
    ensures told { IfOk result
        (λ table. table ≡ told_by (option_map (λ text. text.items) text.now) trace.now) }
    ensures table { OnOk result (HasTable (option_map (λ text. text.items) text.now) trace.now) }
    ensures refused { IfErr result
        (IsTableFault (option_map (λ text. text.items) text.now) trace.now) }
{
    match text {
        Some(text) => Ok(Some(table_of_text(alloc, trace, text)?)),
        None => Ok(None),
    }
}

/// What a table says about each step; nothing without a table.
pub(crate) fn rows_of(table: &Option<StepTable>) -> &[StepRow] {
    match table {
        Some(table) => table.rows(),
        None => &[],
    }
}

/// How many nanoseconds a unit has, if one is given.
pub(crate) fn nanoseconds_in(unit: Option<TimeUnit>) -> Option<u64> {
    match unit? {
        TimeUnit::Second => Some(1_000_000_000),
        TimeUnit::Millisecond => Some(1_000_000),
        TimeUnit::Microsecond => Some(1_000),
        TimeUnit::Nanosecond => Some(1),
    }
}
