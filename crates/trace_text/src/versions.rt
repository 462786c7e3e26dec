//! The versions of trace text.

ghost use Rattle.std.specs.Prelude.{◌≡◌, ◌≤◌, ◌↔◌, IsTrue};
ghost use Rattle.csv.specs.Records.{fields_of};
ghost use Rattle.step_trace.specs.Ticks.{IsTrace, IsOnePerTick};
ghost use Rattle.trace_text.specs.TraceTexts.{is_one_per_tick, version_of};
ghost use Rattle.trace_text.specs.TextRefusals.{version_named, step_fields, proc_place, step_tick};

use crate::records::{field, number};
use csv::ByteRecord;
use step_trace::Trace;

/// How a trace text encodes the ticks of the steps.
#[derive(Clone, Copy)]
pub enum Version {
    /// Not at all: each step is in the tick of its number.
    One,
    /// By a field of each step.
    Two,
}

/// The version that a field names.
pub(crate) fn version_named(field: &[u8]) -> Option<Version>
    ensures { result ≡ version_named field.now }
{
    match field {
        b"1" => Some(Version::One),
        b"2" => Some(Version::Two),
        _ => None,
    }
}

/// How many fields a step has.
pub fn step_fields(version: Version) -> usize
    ensures { result ≡ step_fields version }
{
    match version {
        Version::One => 4,
        Version::Two => 5,
    }
}

/// The place of a step's processor in its record.
pub(crate) fn proc_place(version: Version) -> usize
    ensures place { result ≡ proc_place version }
    ensures limit { result ≤ 2 }
{
    match version {
        Version::One => 1,
        Version::Two => 2,
    }
}

/// The tick of the step of this number, by its record, unless it isn't a number.
pub(crate) fn step_tick(version: Version, no: u64, fields: &ByteRecord) -> Option<u64>
    ensures { result ≡ step_tick version no (fields_of fields.now) }
{
    match version {
        Version::One => Some(no),
        Version::Two => number(field(fields, 1)),
    }
}

/// The version in which a trace is written: the first if each step's tick is its number and the last
/// tick is the number of steps, else the second. In time that grows with the steps.
pub(crate) fn version_of(trace: &Trace) -> Version
    ensures version { result ≡ version_of trace.now }
    ensures numbered { IsTrue (is_one_per_tick trace.now) ↔ IsOnePerTick trace.now }
    ensures sound { IsTrace trace.now }
{
    let steps = trace.len() as u64;
    if trace.last_tick() != steps {
        return Version::Two;
    }
    for no in 1..steps + 1 {
        if trace.tick(no) != no {
            return Version::Two;
        }
    }
    Version::One
}
