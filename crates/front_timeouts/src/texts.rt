//! The text of timeouts, as csv writes it.

ghost use Rattle.std.specs.Prelude.{◌≡◌, ◌≤◌, ◌++◌, ◌∷◌, [], IfOk, IfSome, OnOk, All, decimal};
ghost use Rattle.csv.specs.Records.{fields_of, partial_of};
ghost use Rattle.trace_text.specs.RecordWriting.{IsReady, IsPlain, written};
ghost use Rattle.trace_text.specs.Records.{record_line, text_of_records};
ghost use Rattle.step_trace.specs.Processors.{IsWithin};
ghost use Rattle.timeouts.specs.declared.timeouts.TheConstants.{MAX_TURNS};
ghost use Rattle.step_trace.specs.declared.processors.TheConstants.{MAX_MEMBER};
ghost use Rattle.front_timeouts.specs.Followers.{IsProcessor, members_to};
ghost use Rattle.front_timeouts.specs.Tables.{IsInside, IsTimeoutsText};
ghost use Rattle.front_timeouts.specs.TimeoutTexts.{numbers_of, timeout_record, follower_records};

use crate::followers::members;
use crate::tables::{FollowerTimeouts, follower_timeouts};
use csv::{ByteRecord, Writer};
use itoa::Buffer;
use std::alloc::{AllocError, Global};
use step_trace::{ProcSet, Trace};
use timeouts::{Timeout, Turns};
use trace_text::record_writing::{record_writer, text_written, write_byte_record, write_record};

/// How many columns there are.
const COLUMNS: usize = 11;

/// Their names, in their order.
const NAMES: [&[u8]; COLUMNS] = [
    b"follower",
    b"gst",
    b"delta",
    b"phi",
    b"heartbeat",
    b"poll",
    b"timeout",
    b"delay",
    b"quick",
    b"least",
    b"tried",
];

/// The text of the timeouts of these followers of `p`, in rising order. For each there is a line for each row of the
/// report of the two, or for the one row that applies to tick `at`.
///
/// A follower's timeouts are freed once they are written. Two passes over the trace for each follower. Fails only if an
/// allocation fails.
pub fn timeouts_text_of(
    alloc: Global,
    trace: &Trace,
    p: u64,
    followers: ProcSet,
    given: Turns,
    at: Option<u64>,
) -> Result<Vec<u8>, AllocError>
    requires leader { IsProcessor p }
    requires leader_within { p ≤ trace.now.config.n }
    requires followers_within { IsWithin followers trace.now.config.n }
    requires every { given.every ≤ MAX_TURNS }
    requires polls { given.polls ≤ MAX_TURNS }
    requires at { IfSome at (IsInside trace.now) }
    ensures { IfOk result
        (λ v. IsTimeoutsText trace.now p (members_to followers MAX_MEMBER) given at v.items) }
{
    let followers = members(alloc, followers)?;
    listed_text(alloc, trace, p, &followers, given, at)
}

/// The same of followers in a list.
fn listed_text(
    alloc: Global,
    trace: &Trace,
    p: u64,
    followers: &[u64],
    given: Turns,
    at: Option<u64>,
) -> Result<Vec<u8>, AllocError>
    requires leader { IsProcessor p }
    requires leader_within { p ≤ trace.now.config.n }
    requires followers { All IsProcessor followers.now }
    requires followers_within { All (λ q. q ≤ trace.now.config.n) followers.now }
    requires every { given.every ≤ MAX_TURNS }
    requires polls { given.polls ≤ MAX_TURNS }
    requires at { IfSome at (IsInside trace.now) }
    ensures { IfOk result (λ v. IsTimeoutsText trace.now p followers.now given at v.items) }
{
    let mut writer = record_writer(alloc);
    write_record(&mut writer, &NAMES)?;
    let mut fields = ByteRecord::new(alloc);
    for q in followers {
        let follower = follower_timeouts(alloc, trace, p, *q, given, at)?;
        write_follower(&mut writer, &mut fields, &follower)?;
    }
    text_written(writer)
}

/// Writes the timeouts of a follower. What the fields were doesn't matter: they keep their memory from line to line.
fn write_follower(
    writer: &mut Writer<Vec<u8>>,
    fields: &mut ByteRecord,
    follower: &FollowerTimeouts,
) -> Result<(), AllocError>
    requires { IsReady writer.old }
    ensures ready { OnOk result (IsReady writer.new) }
    ensures text { OnOk result
        (written writer.new ≡ written writer.old
        ++ text_of_records (follower_records follower.now)) }
{
    for timeout in &follower.timeouts {
        write_timeout(writer, fields, follower.follower, timeout)?;
    }
    Ok(())
}

#[tactic(auto, using(trace_text::proofs::PlainFields::push_plain, crate::proofs::TextsRead::numbers_more))]
fn write_timeout(
    writer: &mut Writer<Vec<u8>>,
    fields: &mut ByteRecord,
    q: u64,
    timeout: &Timeout,
) -> Result<(), AllocError>
    requires { IsReady writer.old }
    ensures ready { OnOk result (IsReady writer.new) }
    ensures text { OnOk result
        (written writer.new ≡ written writer.old ++ record_line (timeout_record q timeout.now)) }
{
    let mut digits = Buffer::new();
    fields.clear();
    for n in numbers_of(q, timeout) {
        push_number(fields, &mut digits, n)?;
    }
    write_byte_record(writer, fields)
}

/// The number of each column.
fn numbers_of(q: u64, t: &Timeout) -> [u64; COLUMNS]
    ensures { result ≡ numbers_of q t.now }
{
    [
        q,
        t.gst,
        t.delta,
        t.phi,
        t.heartbeat,
        t.poll,
        t.timeout,
        t.delay,
        t.quick,
        t.least,
        t.tried,
    ]
}

/// One more field, of a number, whose digits take no memory of their own.
fn push_number(fields: &mut ByteRecord, digits: &mut Buffer, n: u64) -> Result<(), AllocError>
    requires { partial_of fields.old ≡ [] }
    ensures whole { OnOk result (partial_of fields.new ≡ []) }
    ensures text { OnOk result (fields_of fields.new ≡ fields_of fields.old ++ decimal n ∷ []) }
    ensures plain { IsPlain (decimal n) }
{
    fields.push_field(digits.format(n).as_bytes())
}
