//! Ticks as time: amounts, and points of time.

ghost use Rattle.std.specs.Prelude.{◌≡◌, ◌≤◌, ◌<◌, ◌++◌, OnOk};
ghost use Rattle.run_words.specs.Clocks.{amount_text, begin_text, clock_for, clock_of, fine_of, fraction_text};
ghost use Rattle.run_words.specs.Clocks.{from_text, hundredths_text, limited, nanoseconds_in, point_text, power_within};
ghost use Rattle.run_words.specs.Clocks.{tenths_text, three_text, time_of, time_point, time_text, unit_of, unit_text};
ghost use Rattle.run_words.specs.declared.clocks.TheConstants.{LONGEST};

use crate::digits::{push_count, push_digits, push_number};
use itoa::Buffer;
use std::alloc::AllocError;

/// The longest time that is told, in nanoseconds; a longer one counts as this.
pub const LONGEST: u64 = 1_000_000_000_000_000_000;

/// A unit of time.
#[derive(Clone, Copy, Debug, PartialEq, Eq)]
pub enum Unit {
    Second,
    Millisecond,
    Microsecond,
    Nanosecond,
}

impl Unit {
    /// The greatest unit of which a time has at least one, to three digits.
    fn of(nanoseconds: u64) -> Self
        ensures { result ≡ unit_of nanoseconds }
    {
        if nanoseconds < 1_000 {
            Unit::Nanosecond
        } else if nanoseconds < 999_500 {
            Unit::Microsecond
        } else if nanoseconds < 999_500_000 {
            Unit::Millisecond
        } else {
            Unit::Second
        }
    }

    fn nanoseconds(self) -> u64
        ensures value { result ≡ nanoseconds_in self }
        ensures some { 1 ≤ result }
        ensures most { result ≤ 1000000000 }
    {
        match self {
            Unit::Second => 1_000_000_000,
            Unit::Millisecond => 1_000_000,
            Unit::Microsecond => 1_000,
            Unit::Nanosecond => 1,
        }
    }
}

/// How long the ticks of a run are, and how points of time are told.
#[derive(Clone, Copy, Debug)]
pub struct Clock {
    /// The length of a tick, in nanoseconds.
    pub width: u64,
    /// The unit of points of time.
    pub unit: Unit,
    /// To how many nanoseconds they are rounded: a power of ten.
    pub fine: u64,
    /// To how many they are rounded up where the whole run is looked at: a power of ten.
    pub coarse: u64,
}

impl Clock {
    /// The clock of a run of so many ticks of so many nanoseconds each. None if a tick has no length, or the run would
    /// take more than `LONGEST`.
    ///
    /// A point of time is told to a tenth of a tick, but to a ten thousandth of the run at most; and to a 500th of the
    /// run where the whole is looked at.
    pub fn of(width: u64, ticks: u64) -> Option<Self>
        ensures { result ≡ clock_of width ticks }
    {
        let length = width.checked_mul(ticks)?;
        if length == 0 || length > LONGEST {
            return None;
        }
        Some(clock_for(width, length))
    }

    /// How long so many ticks are, in nanoseconds.
    pub fn time_of(self, ticks: u64) -> u64
        ensures value { result ≡ time_of self ticks }
        ensures limit { result ≤ LONGEST }
    {
        ticks.saturating_mul(self.width).min(LONGEST)
    }

    /// Appends so many ticks as time.
    pub fn push_ticks(self, out: &mut Vec<u8>, ticks: u64) -> Result<(), AllocError>
        ensures { OnOk result (out.new.items ≡ out.old.items ++ amount_text (time_of self ticks)) }
    {
        push_amount(out, self.time_of(ticks))
    }

    /// Appends when a tick begins, counted from when tick 1 begins.
    pub fn push_begin(self, out: &mut Vec<u8>, tick: u64) -> Result<(), AllocError>
        ensures { OnOk result (out.new.items ≡ out.old.items ++ begin_text self tick) }
    {
        let fine = limited(self.fine);
        let time = self.time_of(tick.saturating_sub(1));
        push_point(out, self.unit, fine, (time + fine / 2) / fine)
    }

    /// Appends a point of time of so many nanoseconds, in parts of so many, a power of ten; what is left of a part is
    /// cut off.
    pub fn push_time(self, out: &mut Vec<u8>, time: u64, part: u64) -> Result<(), AllocError>
        ensures { OnOk result (out.new.items ≡ out.old.items ++ time_point self time part) }
    {
        let part = part.clamp(1, self.unit.nanoseconds());
        push_point(out, self.unit, part, time / part)
    }

    /// Appends when a tick begins, rounded up as for a look at the whole run.
    pub fn push_from(self, out: &mut Vec<u8>, tick: u64) -> Result<(), AllocError>
        ensures { OnOk result (out.new.items ≡ out.old.items ++ from_text self tick) }
    {
        let coarse = limited(self.coarse);
        let time = self.time_of(tick.saturating_sub(1));
        push_point(out, self.unit, coarse, (time + (coarse - 1)) / coarse)
    }
}

/// A part of a unit that isn't out of bounds.
fn limited(part: u64) -> u64
    ensures value { result ≡ limited part }
    ensures some { 1 ≤ result }
    ensures most { result ≤ LONGEST }
{
    part.clamp(1, LONGEST)
}

/// The clock of a run of so many nanoseconds with ticks of so many.
fn clock_for(width: u64, length: u64) -> Clock
    ensures { result ≡ clock_for width length }
{
    let unit = Unit::of(length);
    let fine = fine_of(width, length, unit);
    let coarse = power_within(length / 500).clamp(fine, unit.nanoseconds());
    Clock {
        width,
        unit,
        fine,
        coarse,
    }
}

/// To how many nanoseconds points of time are rounded: a tenth of a tick, but a ten thousandth of the run at least, and
/// at most a unit.
fn fine_of(width: u64, length: u64, unit: Unit) -> u64
    ensures value { result ≡ fine_of width length unit }
    ensures limit { result ≤ nanoseconds_in unit }
{
    let tenth = power_within(width) / 10;
    let fine = tenth.max(power_within(length) / 10_000);
    fine.clamp(1, unit.nanoseconds())
}

/// The powers of ten up to `LONGEST`, the greatest first.
const POWERS: [u64; 19] = [
    1_000_000_000_000_000_000,
    100_000_000_000_000_000,
    10_000_000_000_000_000,
    1_000_000_000_000_000,
    100_000_000_000_000,
    10_000_000_000_000,
    1_000_000_000_000,
    100_000_000_000,
    10_000_000_000,
    1_000_000_000,
    100_000_000,
    10_000_000,
    1_000_000,
    100_000,
    10_000,
    1_000,
    100,
    10,
    1,
];

/// The greatest of these powers that isn't above a number; 1 for 0.
pub fn power_within(number: u64) -> u64
    ensures { result ≡ power_within number }
{
    for power in &POWERS {
        if *power <= number {
            return *power;
        }
    }
    1
}

/// Appends a time of so many nanoseconds, of a longer one `LONGEST`, in three digits, with its unit.
pub fn push_nanoseconds(out: &mut Vec<u8>, time: u64) -> Result<(), AllocError>
    ensures { OnOk result (out.new.items ≡ out.old.items ++ time_text time) }
{
    push_amount(out, time.min(LONGEST))
}

/// Appends a time of so many nanoseconds, in three digits, with its unit.
fn push_amount(out: &mut Vec<u8>, time: u64) -> Result<(), AllocError>
    requires { time ≤ LONGEST }
    ensures { OnOk result (out.new.items ≡ out.old.items ++ amount_text time) }
{
    let unit = Unit::of(time);
    push_three(out, time, unit.nanoseconds())?;
    push_unit(out, unit)
}

/// Appends how often a time has a unit of so many nanoseconds, in three digits, or all if there are more before the
/// point.
fn push_three(out: &mut Vec<u8>, time: u64, unit: u64) -> Result<(), AllocError>
    requires long { time ≤ LONGEST }
    requires some { 1 ≤ unit }
    requires most { unit ≤ 1000000000 }
    ensures { OnOk result (out.new.items ≡ out.old.items ++ three_text time unit) }
{
    if time < unit / 1_000 * 9_995 {
        return push_hundredths(out, (time * 100 + unit / 2) / unit);
    }
    if time < unit / 100 * 9_995 {
        return push_tenths(out, (time * 10 + unit / 2) / unit);
    }
    push_count(out, (time + unit / 2) / unit)
}

/// Appends so many hundredths, without zeros at the end.
fn push_hundredths(out: &mut Vec<u8>, parts: u64) -> Result<(), AllocError>
    ensures { OnOk result (out.new.items ≡ out.old.items ++ hundredths_text parts) }
{
    if parts % 10 == 0 {
        return push_tenths(out, parts / 10);
    }
    push_number(out, parts / 100)?;
    out.extend_from_slice(b".")?;
    push_digits(out, parts % 100)
}

/// Appends so many tenths, without a zero at the end.
fn push_tenths(out: &mut Vec<u8>, parts: u64) -> Result<(), AllocError>
    ensures { OnOk result (out.new.items ≡ out.old.items ++ tenths_text parts) }
{
    push_number(out, parts / 10)?;
    if parts % 10 == 0 {
        return Ok(());
    }
    out.extend_from_slice(b".")?;
    push_number(out, parts % 10)
}

/// Appends a point of time: so many times a part of a unit, with all digits that such parts have.
fn push_point(out: &mut Vec<u8>, unit: Unit, part: u64, count: u64) -> Result<(), AllocError>
    requires { 1 ≤ part }
    ensures { OnOk result (out.new.items ≡ out.old.items ++ point_text unit part count) }
{
    let parts = (unit.nanoseconds() / part).max(1);
    push_number(out, count / parts)?;
    if parts > 1 && count > 0 {
        push_fraction(out, parts, count % parts)?;
    }
    push_unit(out, unit)
}

/// Appends a point and so many of the parts that there are: a power of ten, so that adding it gives leading zeros.
fn push_fraction(out: &mut Vec<u8>, parts: u64, count: u64) -> Result<(), AllocError>
    requires some { count < parts }
    requires few { parts ≤ 1000000000 }
    ensures { OnOk result (out.new.items ≡ out.old.items ++ fraction_text parts count) }
{
    out.extend_from_slice(b".")?;
    let mut buffer = Buffer::new();
    let digits = buffer.format(parts + count).as_bytes();
    match digits.get(1..) {
        Some(rest) => out.extend_from_slice(rest),
        None => Ok(()),
    }
}

/// Appends a narrow space and a unit.
fn push_unit(out: &mut Vec<u8>, unit: Unit) -> Result<(), AllocError>
    ensures { OnOk result (out.new.items ≡ out.old.items ++ unit_text unit) }
{
    out.extend_from_slice(&[226, 128, 175])?;
    match unit {
        Unit::Second => out.extend_from_slice(b"s"),
        Unit::Millisecond => out.extend_from_slice(b"ms"),
        Unit::Microsecond => out.extend_from_slice(&[194, 181, 115]),
        Unit::Nanosecond => out.extend_from_slice(b"ns"),
    }
}
