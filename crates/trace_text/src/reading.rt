//! Reading of trace text, record by record. The first record that is refused decides.

ghost use Rattle.std.specs.Prelude.{◌≡◌, ◌≢◌, ◌<◌, ◌≤◌, ◌↔◌, ◌+◌, ◌||◌, IsErrOf, IfOk, OnOk, IfErr};
ghost use Rattle.std.specs.Prelude.{MatchResult, length, option_map, Ok, Err, IsTrue, decimal, false};
ghost use Rattle.std.specs.Str.{bytes_eq};
ghost use Rattle.csv.specs.Records.{fields_of};
ghost use Rattle.step_trace.specs.Traces.{Recorded};
ghost use Rattle.trace_text.specs.Records.{WantsOnlyWhere, field_of, records_of_text};
ghost use Rattle.trace_text.specs.TraceTexts.{StandsFor, IsTextTrace};
ghost use Rattle.trace_text.specs.TextRefusals.{IsFirstRefusal, Gives, LeadsTo, is_memory, trace_of_records};
ghost use Rattle.trace_text.specs.TextRefusals.{trace_at_end, next_stage, header_stage, init_stage, step_stage, ids_of};
ghost use Rattle.trace_text.specs.TextRefusals.{ended, end_stage, record_keeps, init_keeps, step_record_keeps};
ghost use Rattle.trace_text.specs.TextRefusals.{step_keeps, fields_keep, operation_of, act_keeps, parts_of};
ghost use Rattle.trace_text.specs.TextRefusals.{begins_with_number};
ghost use Rattle.trace_text.specs.JudgedIds.{judged, judged_act_of, judged_of, judged_step_of};
ghost use Rattle.trace_text.specs.LongRefusals.{refuses_long};
ghost use Rattle.std.specs.Option.{ok_or};

use crate::byte_loops::MAX_TEXT_BYTES;
use crate::records::{TakeRecords, field, field_is, field_is_number, number, read_records};
use crate::refusals::TextError;
use crate::step_records::{Operation, judged_ids, operation_of, values};
use crate::versions::{Version, proc_place, step_fields, step_tick, version_named};
use csv::ByteRecord;
use std::alloc::Global;
use std::mem;
use step_trace::{Act, Config, MAX_PROCESSORS, MIN_PROCESSORS, MessageIds, PushError, Step, Trace};

/// How far a text was read.
#[derive(Drop)]
pub enum Stage {
    /// No record yet.
    Opening,
    /// The header: the version, how many processors there are, and how many may be faulty.
    Sized { version: Version, n: u64, t: u64 },
    /// The initial values, and these steps.
    Recording(Version, Trace),
    /// The whole trace.
    Ended(Trace),
}

/// The trace that a text encodes.
///
/// Refuses in the order of `TextError`; `Read` is never answered. The first record that is refused
/// decides, and within a record the first refusal.
pub fn read_trace(alloc: Global, text: &[u8]) -> Result<Trace, TextError>
    ensures stands { IfOk result (λ t. StandsFor text.now t) }
    ensures size { OnOk result (length text.now ≤ MAX_TEXT_BYTES) }
    ensures sound { IfOk result (λ t. IsTextTrace t) }
    ensures complete { (t : Recorded) → IsTextTrace t → StandsFor text.now t
        → length text.now ≤ MAX_TEXT_BYTES
        → MatchResult result (λ u. u ≡ t) (λ e. e ≡ TextError.Memory) }
    ensures too_large { IsErrOf result TextError.TooLarge ↔ (MAX_TEXT_BYTES < length text.now) }
    ensures no_fault { IfErr result (λ e. e ≢ TextError.Read) }
    ensures refused { IfErr result (λ e. IsFirstRefusal text.now e) }
    ensures unique { (t u : Recorded) → IsTextTrace t → IsTextTrace u → StandsFor text.now t
        → StandsFor text.now u → t ≡ u }
{
    if text.len() > MAX_TEXT_BYTES {
        return Err(TextError::TooLarge);
    }
    read_whole(alloc, text)
}

/// The trace of all records.
fn read_whole(alloc: Global, text: &[u8]) -> Result<Trace, TextError>
    ensures { Gives result (trace_of_records (records_of_text text.now)) }
{
    let mut stage = Stage::Opening;
    read_records(alloc, text, &mut stage)?;
    trace_at_end(stage)
}

/// What the end of the text says.
pub fn trace_at_end(stage: Stage) -> Result<Trace, TextError>
    ensures { result ≡ trace_at_end stage }
{
    match stage {
        Stage::Opening => Err(TextError::BadHeader),
        Stage::Sized { .. } => Err(TextError::BadInit),
        Stage::Recording(..) => Err(TextError::NoEnd),
        Stage::Ended(trace) => Ok(trace),
    }
}

impl TakeRecords for Stage {
    type Error = TextError;

    ghost next = { next_stage };

    ghost is_memory = { is_memory };

    ghost keeps = { record_keeps };

    fn take(&mut self, alloc: Global, fields: &ByteRecord) -> Result<(), TextError> {
        match self {
            Stage::Opening => *self = read_header(fields)?,
            Stage::Sized { version, n, t } => {
                *self = read_init(alloc, *version, *n, *t, fields)?;
            }
            Stage::Recording(version, trace) => {
                if !field_is(fields, 0, b"end") {
                    return read_step(alloc, *version, trace, fields);
                }
                read_end(*version, trace, fields)?;
                end(self);
            }
            Stage::Ended(_) => return Err(TextError::AfterEnd),
        }
        Ok(())
    }

    fn out_of_memory() -> TextError {
        TextError::Memory
    }

    ghost long = { refuses_long };
}

/// Ends the trace, if one is being recorded.
fn end(stage: &mut Stage)
    ensures { (v : Version) (t : Recorded) → stage.old ≡ Stage.Recording v t
        → stage.new ≡ Stage.Ended t }
{
    if let Stage::Recording(_, trace) = mem::replace(stage, Stage::Opening) {
        *stage = Stage::Ended(trace);
    }
}

/// `dls-trace,V,N,t`
fn read_header(fields: &ByteRecord) -> Result<Stage, TextError>
    ensures { result ≡ header_stage (fields_of fields.now) }
{
    if fields.len() != 4 || !field_is(fields, 0, b"dls-trace") {
        return Err(TextError::BadHeader);
    }
    let Some(version) = version_named(field(fields, 1)) else {
        return Err(TextError::BadVersion);
    };
    let Some(n) = number(field(fields, 2)) else {
        return Err(TextError::BadSize);
    };
    let Some(t) = number(field(fields, 3)) else {
        return Err(TextError::BadSize);
    };
    if n < MIN_PROCESSORS || MAX_PROCESSORS < n || n <= t || n < t + t + 1 {
        return Err(TextError::BadSize);
    }
    Ok(Stage::Sized { version, n, t })
}

/// `init,v1,..,vN`
fn read_init(
    alloc: Global,
    version: Version,
    n: u64,
    t: u64,
    fields: &ByteRecord,
) -> Result<Stage, TextError>
    ensures stage { Gives result (init_stage version n t (fields_of fields.now)) }
    ensures more { WantsOnlyWhere is_memory result (init_keeps (fields_of fields.now)) }
{
    if !field_is(fields, 0, b"init") {
        return Err(TextError::BadInit);
    }
    let Ok(init) = values(alloc, fields) else {
        return Err(TextError::Memory);
    };
    let Some(init) = init else {
        return Err(TextError::BadInit);
    };
    match Config::new(n, t, init) {
        Ok(config) => Ok(Stage::Recording(version, Trace::new(alloc, config))),
        Err(_) => Err(TextError::BadInit),
    }
}

/// `no,proc,op,arg`, in version 2 `no,tick,proc,op,arg`
fn read_step(
    alloc: Global,
    version: Version,
    trace: &mut Trace,
    fields: &ByteRecord,
) -> Result<(), TextError>
    ensures stage { LeadsTo result (Stage.Recording version trace.new)
        (step_stage version trace.old (fields_of fields.now)) }
    ensures more { WantsOnlyWhere is_memory result
        (step_record_keeps version trace.old (fields_of fields.now)) }
{
    let no = trace.len() as u64 + 1;
    if fields.len() != step_fields(version) {
        return Err(TextError::BadFields(no));
    }
    if !field_is_number(fields, 0, no) {
        return Err(TextError::WrongNumber(no));
    }
    let (tick, step) = step_of(alloc, version, no, fields)?;
    match trace.push_at(tick, step) {
        Ok(()) => Ok(()),
        Err(PushError::Memory) => Err(TextError::Memory),
        Err(why) => Err(TextError::BadStep(no, why)),
    }
}

/// The step of a record that has its fields and its number, with the ids by which it is judged, and its tick.
pub fn step_of(
    alloc: Global,
    version: Version,
    no: u64,
    fields: &ByteRecord,
) -> Result<(u64, Step), TextError>
    ensures step { Gives result (judged_step_of version no (fields_of fields.now)) }
    ensures more { WantsOnlyWhere is_memory result (step_keeps version no (fields_of fields.now)) }
{
    let place = proc_place(version);
    step_of_fields(
        alloc,
        no,
        step_tick(version, no, fields),
        field(fields, place + 1),
        field(fields, place),
        field(fields, place + 2),
    )
}

/// The step of this number that these fields encode: its tick, unless it isn't a number, its operation, its processor
/// and its argument.
///
/// Refuses, in this order: BadOp; BadNumber, for the tick, the processor or the argument. Memory may come for the ids.
pub fn step_of_fields(
    alloc: Global,
    no: u64,
    tick: Option<u64>,
    operation: &[u8],
    proc: &[u8],
    arg: &[u8],
) -> Result<(u64, Step), TextError>
    ensures step { Gives result (judged_of no tick operation.now proc.now arg.now) }
    ensures more { WantsOnlyWhere is_memory result
        (fields_keep (operation_of operation.now) tick proc.now arg.now) }
{
    let Some(operation) = operation_of(operation) else {
        return Err(TextError::BadOp(no));
    };
    let Some(tick) = tick else {
        return Err(TextError::BadNumber(no));
    };
    let Some(proc) = number(proc) else {
        return Err(TextError::BadNumber(no));
    };
    let act = act_of(alloc, no, operation, arg)?;
    Ok((tick, Step { proc, act }))
}

fn act_of(alloc: Global, no: u64, operation: Operation, arg: &[u8]) -> Result<Act, TextError>
    ensures act { Gives result (ok_or (judged_act_of operation arg.now) (TextError.BadNumber no)) }
    ensures more { WantsOnlyWhere is_memory result (act_keeps operation arg.now) }
{
    match operation {
        Operation::Send => {
            let Some(to) = number(arg) else {
                return Err(TextError::BadNumber(no));
            };
            Ok(Act::Send { to })
        }
        Operation::Receive => received(alloc, no, arg, false),
        Operation::EndRound => received(alloc, no, arg, true),
    }
}

fn received(alloc: Global, no: u64, arg: &[u8], ends: bool) -> Result<Act, TextError>
    ensures act { Gives result
        (ok_or (option_map (λ ids. Act.Receive ends (judged ids)) (ids_of arg.now))
        (TextError.BadNumber no)) }
    ensures more { WantsOnlyWhere is_memory result (begins_with_number (parts_of arg.now)) }
{
    if let Some(id) = number(arg) {
        return Ok(Act::Receive {
            ends,
            ids: MessageIds::one(id),
        });
    }
    let Ok(ids) = judged_ids(alloc, arg) else {
        return Err(TextError::Memory);
    };
    let Some(ids) = ids else {
        return Err(TextError::BadNumber(no));
    };
    match MessageIds::new(alloc, ids) {
        Ok(ids) => Ok(Act::Receive { ends, ids }),
        Err(_) => Err(TextError::Memory),
    }
}

/// `end,L`
fn read_end(version: Version, trace: &mut Trace, fields: &ByteRecord) -> Result<(), TextError>
    ensures { MatchResult result
        (λ _. end_stage version trace.old (fields_of fields.now) ≡ Ok (Stage.Ended trace.new))
        (λ e. end_stage version trace.old (fields_of fields.now) ≡ Err e) }
{
    let steps = trace.len() as u64;
    if fields.len() != 2 {
        return Err(TextError::BadFields(steps + 1));
    }
    match version {
        Version::One => check_count(fields, steps),
        Version::Two => end_in(trace, field(fields, 1)),
    }
}

/// The end of version 1 has the number of steps.
fn check_count(fields: &ByteRecord, steps: u64) -> Result<(), TextError>
    ensures { MatchResult result
        (λ _. IsTrue (bytes_eq (field_of (fields_of fields.now) 1) (decimal steps)))
        (λ e. (bytes_eq (field_of (fields_of fields.now) 1) (decimal steps) ≡ false)
        × (e ≡ TextError.WrongEnd)) }
{
    if !field_is_number(fields, 1, steps) {
        return Err(TextError::WrongEnd);
    }
    Ok(())
}

/// The end of version 2 has the last tick.
fn end_in(trace: &mut Trace, last: &[u8]) -> Result<(), TextError>
    ensures { MatchResult result
        (λ _. ended Version.Two trace.old last.now ≡ Ok (Stage.Ended trace.new))
        (λ e. ended Version.Two trace.old last.now ≡ Err e) }
{
    let Some(last) = number(last) else {
        return Err(TextError::WrongEnd);
    };
    let Ok(()) = trace.idle_to(last) else {
        return Err(TextError::WrongEnd);
    };
    Ok(())
}
