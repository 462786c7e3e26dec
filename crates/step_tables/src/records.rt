//! The records of a table, each tested against the step that it is to be of.

ghost use Rattle.std.specs.Prelude.{◌≡◌, ◌≢◌, ◌-◌, ◌+◌, ◌∷◌, [], ◌++◌, Err, IfErr, MatchBool, OnOk};
ghost use Rattle.std.specs.Prelude.{false, map, slice_index_or, slice_set, string_bytes, true, ⊤};
ghost use Rattle.std.specs.Cmp.Lexicographic.{slice_cmp};
ghost use Rattle.std.specs.List.{list_all};
ghost use Rattle.std.specs.List.Sorted.{IsSorted};
ghost use Rattle.std.specs.Ordering.{nat_cmp};
ghost use Rattle.csv.specs.Records.{fields_of};
ghost use Rattle.step_tables.specs.Records.{after_record, are_names_of, is_at, is_source, message_at, message_of};
ghost use Rattle.step_tables.specs.Records.{named, said_of, with_act, with_deed, with_step};
ghost use Rattle.trace_text.specs.Names.{has_name, words_of};
ghost use Rattle.step_tables.specs.Tables.{is_memory};
ghost use Rattle.trace_text.specs.Records.{ReachesUnless};

use crate::names::{has_name, has_word, name_text, words_of};
use crate::refusals::TableError;
use crate::tables::{StepRow, StepTable, message_at};
use csv::ByteRecord;
use std::alloc::Global;
use step_trace::{Act, Step, Trace};
use trace_text::names::is_message_name;
use trace_text::records::{field, field_is, field_is_number, number};

/// Takes in the record of one more step.
pub(crate) fn take_record(
    alloc: Global,
    trace: &Trace,
    table: &mut StepTable,
    fields: &ByteRecord,
) -> Result<(), TableError>
    ensures { ReachesUnless is_memory result table.new
        (after_record trace.now table.old (fields_of fields.now)) }
{
    let no = table.rows.len() as u64 + 1;
    let at = no + 1;
    let Some(step) = trace.step(no) else {
        return Err(TableError::Unfit(at));
    };
    if !is_at(no, trace.tick(no), fields) {
        return Err(TableError::Unfit(at));
    }
    take_step(alloc, &mut table.nodes, &mut table.rows, at, step, fields)
}

/// Takes in the record of a step, which is in its place.
fn take_step(
    alloc: Global,
    nodes: &mut Vec<String>,
    rows: &mut Vec<StepRow>,
    at: u64,
    step: &Step,
    fields: &ByteRecord,
) -> Result<(), TableError>
    ensures { ReachesUnless is_memory result
        (record { nodes = map string_bytes nodes.new.items; rows = rows.new.items })
        (with_step at (record { nodes = map string_bytes nodes.old.items; rows = rows.old.items })
        step.now (fields_of fields.now)) }
{
    match name_node(alloc, nodes, at, step.proc, field(fields, 5)) {
        Ok(()) => take_deed(alloc, nodes, rows, at, &step.act, fields),
        Err(why) => Err(why),
    }
}

/// Takes in what a record says that a step does.
fn take_deed(
    alloc: Global,
    nodes: &mut Vec<String>,
    rows: &mut Vec<StepRow>,
    at: u64,
    act: &Act,
    fields: &ByteRecord,
) -> Result<(), TableError>
    ensures { ReachesUnless is_memory result
        (record { nodes = map string_bytes nodes.new.items; rows = rows.new.items })
        (with_deed at (record { nodes = map string_bytes nodes.old.items; rows = rows.old.items })
        act.now (fields_of fields.now)) }
{
    match take_act(alloc, rows, nodes, at, act, fields) {
        Ok(()) => push_row(alloc, rows, act, fields),
        Err(why) => Err(why),
    }
}

/// Whether a record is that of a step of this number, in this tick.
fn is_at(no: u64, tick: u64, fields: &ByteRecord) -> bool
    ensures { result ≡ is_at no tick (fields_of fields.now) }
{
    fields.len() == 9
        && field_is_number(fields, 0, no)
        && field_is_number(fields, 1, tick)
        && is_source(field(fields, 3))
}

/// Whether a field is the number of a record, or nothing.
fn is_source(field: &[u8]) -> bool
    ensures { result ≡ is_source field.now }
{
    field.len() == 0 || number(field).is_some()
}

/// Takes in what a processor is called. If it has a name, it has to be this one; if not, no other processor may have
/// it.
fn name_node(
    alloc: Global,
    nodes: &mut Vec<String>,
    at: u64,
    processor: u64,
    name: &[u8],
) -> Result<(), TableError>
    ensures { ReachesUnless is_memory result (map string_bytes nodes.new.items)
        (named at (map string_bytes nodes.old.items) (processor - 1) name.now) }
{
    let place = processor.saturating_sub(1) as usize;
    let known = name_at(nodes, place);
    if known.len() > 0 {
        return test_same(at, known, name);
    }
    let Some(text) = name_text(name) else {
        return Err(TableError::Unfit(at));
    };
    if has_name(nodes, name) {
        return Err(TableError::Unfit(at));
    }
    let Ok(text) = String::from_str(alloc, text) else {
        return Err(TableError::Memory);
    };
    put_name(nodes, place, text);
    Ok(())
}

/// The name at a place; nothing if there is no place, or it has none yet.
fn name_at(nodes: &[String], place: usize) -> &[u8]
    ensures { result.now ≡ slice_index_or (map string_bytes nodes.now) place [] }
{
    match nodes.get(place) {
        Some(name) => name.as_bytes(),
        None => &[],
    }
}

/// Puts a name at a place, if there is one.
fn put_name(nodes: &mut Vec<String>, place: usize, name: String)
    ensures { map string_bytes nodes.new.items ≡ slice_set (map string_bytes nodes.old.items) place
        (string_bytes name) }
{
    if place < nodes.len() {
        nodes[place] = name;
    }
}

/// Refuses a name that isn't the known one.
fn test_same(at: u64, known: &[u8], name: &[u8]) -> Result<(), TableError>
    ensures fits { OnOk result (known.now ≡ name.now) }
    ensures refused { IfErr result (λ why. (why ≡ TableError.Unfit at) × (known.now ≢ name.now)) }
{
    if known == name {
        Ok(())
    } else {
        Err(TableError::Unfit(at))
    }
}

/// Takes in what a record says about an act: its word, and the receiver and name of a message that is sent, or the
/// names of those that are received.
fn take_act(
    alloc: Global,
    rows: &[StepRow],
    nodes: &mut Vec<String>,
    at: u64,
    act: &Act,
    fields: &ByteRecord,
) -> Result<(), TableError>
    ensures { ReachesUnless is_memory result (map string_bytes nodes.new.items)
        (with_act at rows.now (map string_bytes nodes.old.items) act.now (fields_of fields.now)) }
{
    match act {
        Act::Send { to } => {
            if !field_is(fields, 6, b"send") || !is_message_name(field(fields, 8)) {
                return Err(TableError::Unfit(at));
            }
            name_node(alloc, nodes, at, *to, field(fields, 7))
        }
        Act::Receive { ids, .. } => {
            if !field_is(fields, 6, b"receive") || field(fields, 7).len() != 0 {
                return Err(TableError::Unfit(at));
            }
            test_received(alloc, rows, at, ids.as_slice(), field(fields, 8))
        }
    }
}

/// Refuses what isn't the names of the messages of a Receive.
fn test_received(
    alloc: Global,
    rows: &[StepRow],
    at: u64,
    ids: &[u64],
    names: &[u8],
) -> Result<(), TableError>
    ensures fits { OnOk result (are_names_of rows.now ids.now (words_of names.now) ≡ true) }
    ensures refused { IfErr result
        (λ why. MatchBool (is_memory why) ⊤ ((why ≡ TableError.Unfit at)
        × (are_names_of rows.now ids.now (words_of names.now) ≡ false))) }
{
    let Ok(mut words) = words_of(alloc, names) else {
        return Err(TableError::Memory);
    };
    if are_names_of(rows, ids, &mut words) {
        Ok(())
    } else {
        Err(TableError::Unfit(at))
    }
}

/// Whether there are as many words as messages, and each message's name is among them. The words are put in order
/// first, so that k messages take about k log k comparisons.
fn are_names_of(rows: &[StepRow], ids: &[u64], words: &mut [&[u8]]) -> bool
    ensures { result ≡ are_names_of rows.now ids.now (map (λ word. word.now) words.old) }
{
    if words.len() != ids.len() {
        return false;
    }
    words.sort_unstable();
    are_among(rows, ids, words)
}

/// Whether each message's name is among these words, which are in order.
fn are_among(rows: &[StepRow], ids: &[u64], words: &[&[u8]]) -> bool
    requires { IsSorted (λ x y. slice_cmp nat_cmp x.now y.now) words.now }
    ensures { result ≡ list_all
        (λ id. has_name (map (λ word. word.now) words.now) (message_at rows.now id)) ids.now }
{
    for id in ids {
        if !has_word(words, message_at(rows, *id)) {
            return false;
        }
    }
    true
}

/// Keeps what a record says about a step.
fn push_row(
    alloc: Global,
    rows: &mut Vec<StepRow>,
    act: &Act,
    fields: &ByteRecord,
) -> Result<(), TableError>
    ensures rows { OnOk result
        (rows.new.items ≡ rows.old.items ++ said_of act.now (fields_of fields.now) ∷ []) }
    ensures memory { IfErr result (λ why. why ≡ TableError.Memory) }
{
    let Ok(message) = Vec::from_slice(alloc, message_of(act, fields)) else {
        return Err(TableError::Memory);
    };
    let source = number(field(fields, 3));
    let begins = number(field(fields, 2));
    let time = number(field(fields, 4));
    let row = StepRow {
        source,
        message,
        begins,
        time,
    };
    match rows.push(row) {
        Ok(()) => Ok(()),
        Err(_) => Err(TableError::Memory),
    }
}

/// What the message of a step is called.
fn message_of<'a>(act: &Act, fields: &'a ByteRecord) -> &'a [u8]
    ensures { result.now ≡ message_of act.now (fields_of fields.now) }
{
    match act {
        Act::Send { .. } => field(fields, 8),
        Act::Receive { .. } => &[],
    }
}
