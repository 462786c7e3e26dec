//! The text of a replay: a header and a record for each processor, as csv writes them.

ghost use Rattle.std.specs.Prelude.{◌≡◌, ◌++◌, IfOk, OnOk, string_bytes};
ghost use Rattle.step_trace.specs.Configurations.{IsProc};
ghost use Rattle.trace_text.specs.Records.{record_line};
ghost use Rattle.trace_text.specs.RecordWriting.{IsReady, IsPlain, written};
ghost use Rattle.text_commands.specs.ReplayTexts.{decision_field, processor_record, replay_text};

use csv::Writer;
use std::alloc::{AllocError, Global};
use step_buffers::World;
use trace_text::record_writing::{number_text, record_writer, text_written, write_record};

/// The text of the replay that gave this World: for each processor its round and its decision.
pub fn replay_text_of(alloc: Global, world: &World) -> Result<Vec<u8>, AllocError>
    ensures { IfOk result
        (λ text. text.items ≡ replay_text world.now.trace.config world.now.trace.steps) }
{
    let mut writer = record_writer(alloc);
    write_records(alloc, &mut writer, world)?;
    text_written(writer)
}

/// Writes the header, and the record of each processor.
fn write_records(
    alloc: Global,
    writer: &mut Writer<Vec<u8>>,
    world: &World,
) -> Result<(), AllocError>
    requires { IsReady writer.old }
    ensures ready { OnOk result (IsReady writer.new) }
    ensures text { OnOk result (written writer.new
        ≡ written writer.old ++ replay_text world.now.trace.config world.now.trace.steps) }
{
    write_record(writer, &[b"proc", b"round", b"decision"])?;
    let n = world.trace().config().n();
    for p in 1..n + 1 {
        write_processor(alloc, writer, world, p)?;
    }
    Ok(())
}

/// Writes the record of processor `p`.
fn write_processor(
    alloc: Global,
    writer: &mut Writer<Vec<u8>>,
    world: &World,
    p: u64,
) -> Result<(), AllocError>
    requires processor { IsProc world.now.trace.config p }
    requires ready { IsReady writer.old }
    ensures ready { OnOk result (IsReady writer.new) }
    ensures text { OnOk result (written writer.new
        ≡ written writer.old
        ++ record_line (processor_record world.now.trace.config world.now.trace.steps p)) }
{
    let proc = number_text(alloc, p)?;
    let round = number_text(alloc, world.round(p))?;
    let decision = decision_text(alloc, world.decision(p))?;
    write_record(
        writer,
        &[proc.as_bytes(), round.as_bytes(), decision.as_bytes()],
    )
}

/// The field of a decision, empty if there is none.
fn decision_text(alloc: Global, decision: Option<u64>) -> Result<String, AllocError>
    ensures field { IfOk result (λ text. string_bytes text ≡ decision_field decision) }
    ensures plain { IfOk result (λ text. IsPlain (string_bytes text)) }
{
    match decision {
        None => Ok(String::new(alloc)),
        Some(value) => number_text(alloc, value),
    }
}
