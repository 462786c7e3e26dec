//! Writing of trace text: the whole text first, then its bytes.

ghost use Rattle.std.specs.Prelude.{◌≡◌, ◌+◌, ◌-◌, ◌<◌, ◌≤◌, ◌^◌, [], ◌∷◌, ◌++◌, ◌↔◌, IfOk, OnOk, IfErr};
ghost use Rattle.std.specs.Prelude.{IsTrue, All, length, map, decimal};
ghost use Rattle.std.specs.List.{join_with_byte};
ghost use Rattle.step_trace.specs.Configurations.{IsSetup};
ghost use Rattle.step_trace.specs.Ticks.{IsOnePerTick};
ghost use Rattle.trace_text.specs.ByteLoops.{WasFaultless};
ghost use Rattle.trace_text.specs.Faults.{is_flushed};
ghost use Rattle.trace_text.specs.Records.{record_line};
ghost use Rattle.trace_text.specs.TextWriting.{Wrote, WrotePart, IsWriteCause};
ghost use Rattle.trace_text.specs.TraceTexts.{IsTextTrace, StandsFor, is_one_per_tick, trace_text, trace_text_2};
ghost use Rattle.trace_text.specs.TraceTexts.{version_text, version_field, header_record, init_record, step_record};
ghost use Rattle.trace_text.specs.TraceTexts.{steps_text, end_record, op_text, arg_text, begun_text, rest_text};
ghost use Rattle.trace_text.specs.declared.versions.Version.TheVariants as Version;

use crate::byte_loops::{MAX_TEXT_BYTES, write_text};
use crate::counting::Counting;
use crate::refusals::WriteError;
use crate::versions::{Version, version_of};
use itoa::write_digits;
use std::alloc::{AllocError, Global};
use std::io::Write;
use std::thread;
use std::thread::Threads;
use step_trace::{Act, Step, Trace};

/// The least number of steps whose text two threads make.
const SHARED_STEPS: usize = 8_192;

/// The greatest number of digits of a number.
const MAX_DIGITS: usize = 20;

/// Writes the text of a trace, and flushes: in version 1 if each step's tick is its number and the last
/// tick is the number of steps, else in version 2.
///
/// Refusals: Write with the number of bytes that went out before, the text's first, only if the writer
/// answered a fault or took no byte. Memory, and then nothing was written.
pub fn write_trace<W: Write>(
    alloc: Global,
    trace: &Trace,
    writer: &mut Counting<W>,
) -> Result<(), WriteError>
    ensures whole { OnOk result (Wrote W.contents writer.old writer.new (trace_text trace.now)) }
    ensures flushed { OnOk result (IsTrue (is_flushed writer.new)) }
    ensures faultless { OnOk result (WasFaultless writer.old writer.new) }
    ensures part { IfErr result
        (WrotePart W.contents writer.old writer.new (trace_text trace.now)) }
    ensures cause { IfErr result (λ e. IsWriteCause e writer.old writer.new) }
    ensures version { IsTrue (is_one_per_tick trace.now) ↔ IsOnePerTick trace.now }
    ensures sound { IsTextTrace trace.now }
    ensures stands { StandsFor (trace_text trace.now) trace.now }
    ensures short { length (trace_text trace.now) < MAX_TEXT_BYTES }
{
    let Ok(text) = trace_text_of(alloc, version_of(trace), trace) else {
        return Err(WriteError::Memory);
    };
    write_text(&text, writer)
}

/// The text of a trace in version 2.
pub fn trace_text_2_of(alloc: Global, trace: &Trace) -> Result<Vec<u8>, AllocError>
    ensures text { IfOk result (λ text. text.items ≡ trace_text_2 trace.now) }
    ensures sound { IsTextTrace trace.now }
{
    trace_text_of(alloc, Version::Two, trace)
}

/// The text of a trace in version 2. Four threads make that of a long one, as far as they can be started.
pub fn trace_text_2_by_four<T: Threads + Sync>(
    rt: &T,
    alloc: Global,
    trace: &Trace,
) -> Result<Vec<u8>, AllocError>
    ensures text { IfOk result (λ text. text.items ≡ trace_text_2 trace.now) }
    ensures sound { OnOk result (IsTextTrace trace.now) }
{
    if trace.len() < SHARED_STEPS {
        return trace_text_2_of(alloc, trace);
    }
    let half = trace.len() as u64 / 2;
    let last = trace.last_tick();
    let (second, first) = thread::join(
        rt,
        move || -> Result<Vec<u8>, AllocError>
            requires half { half ≤ length trace.now.steps }
            requires last { last ≡ trace.now.last }
            ensures { IfOk result
                (λ text. text.items ≡ rest_text Version.Two trace.entry.now half) }
        { rest_by_two(rt, alloc, trace, half, last) },
        move || -> Result<Vec<u8>, AllocError>
            requires { half ≤ length trace.now.steps }
            ensures text { IfOk result
                (λ text. text.items ≡ begun_text Version.Two trace.entry.now half) }
            ensures setup { IsSetup trace.entry.now.config }
            ensures values { All (λ v. v < 2 ^ 64) trace.entry.now.config.init }
        { begun_by_two(rt, alloc, trace, half) },
    );
    let mut text = first?;
    text.extend_from_slice(&second?)?;
    Ok(text)
}

/// The front of a trace's text in version 2, with its first steps, so many of them. Another thread makes the second
/// half, if it can be started.
fn begun_by_two<T: Threads>(
    rt: &T,
    alloc: Global,
    trace: &Trace,
    count: u64,
) -> Result<Vec<u8>, AllocError>
    requires { count ≤ length trace.now.steps }
    ensures text { IfOk result (λ text. text.items ≡ begun_text Version.Two trace.now count) }
    ensures setup { IsSetup trace.now.config }
    ensures values { All (λ v. v < 2 ^ 64) trace.now.config.init }
{
    let half = count / 2;
    let (second, first) = thread::join(
        rt,
        move || -> Result<Vec<u8>, AllocError>
            requires { (half ≤ count) × (count ≤ length trace.now.steps) }
            ensures { IfOk result (λ text. text.items
                ≡ steps_text Version.Two trace.entry.now half count) }
        { steps_text(alloc, Version::Two, trace, half, count) },
        move || -> Result<Vec<u8>, AllocError>
            requires { half ≤ length trace.now.steps }
            ensures text { IfOk result
                (λ text. text.items ≡ begun_text Version.Two trace.entry.now half) }
            ensures setup { IsSetup trace.entry.now.config }
            ensures values { All (λ v. v < 2 ^ 64) trace.entry.now.config.init }
        { begun_text(alloc, Version::Two, trace, half) },
    );
    let mut text = first?;
    text.extend_from_slice(&second?)?;
    Ok(text)
}

/// What comes behind it. Another thread makes the second half, if it can be started.
fn rest_by_two<T: Threads>(
    rt: &T,
    alloc: Global,
    trace: &Trace,
    count: u64,
    last: u64,
) -> Result<Vec<u8>, AllocError>
    requires count { count ≤ length trace.now.steps }
    requires last { last ≡ trace.now.last }
    ensures { IfOk result (λ text. text.items ≡ rest_text Version.Two trace.now count) }
{
    let half = count + (trace.len() as u64 - count) / 2;
    let (second, first) = thread::join(
        rt,
        move || -> Result<Vec<u8>, AllocError>
            requires half { half ≤ length trace.now.steps }
            requires last { last ≡ trace.now.last }
            ensures { IfOk result
                (λ text. text.items ≡ rest_text Version.Two trace.entry.now half) }
        {
            let mut text = Vec::new(alloc);
            push_rest(&mut text, Version::Two, trace, half, last)?;
            Ok(text)
        },
        move || -> Result<Vec<u8>, AllocError>
            requires { (count ≤ half) × (half ≤ length trace.now.steps) }
            ensures { IfOk result (λ text. text.items
                ≡ steps_text Version.Two trace.entry.now count half) }
        { steps_text(alloc, Version::Two, trace, count, half) },
    );
    let mut text = first?;
    text.extend_from_slice(&second?)?;
    Ok(text)
}

/// The records of the steps behind the first `from`, up to the one of number `to`.
fn steps_text(
    alloc: Global,
    version: Version,
    trace: &Trace,
    from: u64,
    to: u64,
) -> Result<Vec<u8>, AllocError>
    requires order { from ≤ to }
    requires within { to ≤ length trace.now.steps }
    ensures { IfOk result (λ text. text.items ≡ steps_text version trace.now from to) }
{
    let mut text = Vec::new(alloc);
    push_steps(&mut text, version, trace, from, to)?;
    Ok(text)
}

/// The text of a trace in a version.
fn trace_text_of(alloc: Global, version: Version, trace: &Trace) -> Result<Vec<u8>, AllocError>
    ensures text { IfOk result (λ text. text.items ≡ version_text version trace.now) }
    ensures sound { IsTextTrace trace.now }
{
    let all = trace.len() as u64;
    let last = trace.last_tick();
    let mut text = begun_text(alloc, version, trace, all)?;
    push_rest(&mut text, version, trace, all, last)?;
    Ok(text)
}

/// The front of a trace's text, with its first steps, so many of them.
fn begun_text(
    alloc: Global,
    version: Version,
    trace: &Trace,
    count: u64,
) -> Result<Vec<u8>, AllocError>
    requires { count ≤ length trace.now.steps }
    ensures text { IfOk result (λ text. text.items ≡ begun_text version trace.now count) }
    ensures setup { IsSetup trace.now.config }
    ensures values { All (λ v. v < 2 ^ 64) trace.now.config.init }
{
    let config = trace.config();
    let mut text = Vec::new(alloc);
    push_front(&mut text, version, config.n(), config.t(), config.init())?;
    push_steps(&mut text, version, trace, 0, count)?;
    Ok(text)
}

/// What comes behind it: the other steps, and the end, which has the last tick.
fn push_rest(
    text: &mut Vec<u8>,
    version: Version,
    trace: &Trace,
    count: u64,
    last: u64,
) -> Result<(), AllocError>
    requires count { count ≤ length trace.now.steps }
    requires last { last ≡ trace.now.last }
    ensures { OnOk result (text.new.items ≡ text.old.items ++ rest_text version trace.now count) }
{
    push_steps(text, version, trace, count, trace.len() as u64)?;
    push_end(text, last)
}

/// The header and the initial values.
fn push_front(
    text: &mut Vec<u8>,
    version: Version,
    n: u64,
    t: u64,
    values: &[u64],
) -> Result<(), AllocError>
    requires some { 0 < length values.now }
    ensures text { OnOk result (text.new.items ≡ text.old.items
        ++ (record_line (header_record version n t) ++ record_line (init_record values.now))) }
    ensures numbers { All (λ v. v < 2 ^ 64) values.now }
{
    push_header(text, version, n, t)?;
    push_init(text, values)
}

/// `dls-trace,V,N,t`
fn push_header(text: &mut Vec<u8>, version: Version, n: u64, t: u64) -> Result<(), AllocError>
    ensures { OnOk result
        (text.new.items ≡ text.old.items ++ record_line (header_record version n t)) }
{
    text.extend_from_slice(b"dls-trace,")?;
    text.extend_from_slice(version_field(version))?;
    push_number(text, n, b',')?;
    push_number(text, t, b'\n')
}

/// A version's field and the comma behind it.
fn version_field<'a>(version: Version) -> &'a [u8]
    ensures { result.now ≡ version_field version ++ 44 ∷ [] }
{
    match version {
        Version::One => b"1,",
        Version::Two => b"2,",
    }
}

/// `init,v1,..,vN`
fn push_init(text: &mut Vec<u8>, values: &[u64]) -> Result<(), AllocError>
    requires { 0 < length values.now }
    ensures { OnOk result
        (text.new.items ≡ text.old.items ++ record_line (init_record values.now)) }
{
    text.extend_from_slice(b"init,")?;
    push_numbers(text, b',', values)
}

/// A record for each step behind the first `from`, up to the one of number `to`.
fn push_steps(
    text: &mut Vec<u8>,
    version: Version,
    trace: &Trace,
    from: u64,
    to: u64,
) -> Result<(), AllocError>
    requires order { from ≤ to }
    requires within { to ≤ length trace.now.steps }
    ensures { OnOk result
        (text.new.items ≡ text.old.items ++ steps_text version trace.now from to) }
{
    for before in from..to {
        let no = before + 1;
        let Some(step) = trace.step(no) else {
            unreachable!();
        };
        push_step(text, version, no, trace.tick(no), step)?;
    }
    Ok(())
}

/// `no,proc,op,arg`, in version 2 `no,tick,proc,op,arg`
fn push_step(
    text: &mut Vec<u8>,
    version: Version,
    no: u64,
    tick: u64,
    step: &Step,
) -> Result<(), AllocError>
    ensures { OnOk result (text.new.items ≡ text.old.items
        ++ record_line (step_record version no tick step.now)) }
{
    push_number(text, no, b',')?;
    match version {
        Version::One => push_act(text, step),
        Version::Two => {
            push_number(text, tick, b',')?;
            push_act(text, step)
        }
    }
}

/// `proc,op,arg`
fn push_act(text: &mut Vec<u8>, step: &Step) -> Result<(), AllocError>
    ensures { OnOk result (text.new.items ≡ text.old.items ++ record_line
        (decimal step.now.proc ∷ op_text step.now.act ∷ arg_text step.now.act ∷ [])) }
{
    push_number(text, step.proc, b',')?;
    text.extend_from_slice(op_field(&step.act))?;
    push_arg(text, &step.act)
}

/// An operation's field and the comma behind it.
fn op_field(act: &Act) -> &[u8]
    ensures { result.now ≡ op_text act.now ++ 44 ∷ [] }
{
    match act {
        Act::Send { .. } => b"S,",
        Act::Receive { ends: false, .. } => b"R,",
        Act::Receive { ends: true, .. } => b"E,",
    }
}

/// The argument of a step, and the end of its line.
fn push_arg(text: &mut Vec<u8>, act: &Act) -> Result<(), AllocError>
    ensures { OnOk result (text.new.items ≡ text.old.items ++ arg_text act.now ++ 10 ∷ []) }
{
    match act {
        Act::Send { to } => push_number(text, *to, b'\n'),
        Act::Receive { ids, .. } => push_numbers(text, b' ', ids.as_slice()),
    }
}

/// `end,L`
fn push_end(text: &mut Vec<u8>, last: u64) -> Result<(), AllocError>
    ensures { OnOk result
        (text.new.items ≡ text.old.items ++ record_line (end_record last)) }
{
    text.extend_from_slice(b"end,")?;
    push_number(text, last, b'\n')
}

/// Numbers with this byte between them, and the end of a line.
fn push_numbers(text: &mut Vec<u8>, between: u8, numbers: &[u64]) -> Result<(), AllocError>
    ensures { OnOk result (text.new.items ≡ text.old.items
        ++ join_with_byte between (map decimal numbers.now) ++ 10 ∷ []) }
{
    let Some((last, front)) = numbers.split_last() else {
        text.push(b'\n')?;
        return Ok(());
    };
    for number in front {
        push_number(text, *number, between)?;
    }
    push_number(text, *last, b'\n')
}

/// A number and the byte behind it.
fn push_number(text: &mut Vec<u8>, n: u64, behind: u8) -> Result<(), AllocError>
    ensures { OnOk result (text.new.items ≡ text.old.items ++ decimal n ++ behind ∷ []) }
{
    let mut digits = [behind; MAX_DIGITS + 1];
    let start = write_digits(n, &mut digits, MAX_DIGITS);
    text.extend_from_slice(&digits[start..])
}
