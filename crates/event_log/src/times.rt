//! The times of a log, and the options that give times: numbers, or nanoseconds.

ghost use Rattle.std.specs.Prelude.{◌≡◌, ℤ, ◌*◌, ◌<◌, ◌≤◌, ◌^◌, ◌∷◌, [], ◌++◌, ◌==◌, None};
ghost use Rattle.std.specs.Prelude.{Some, IfSome, length, position};
ghost use Rattle.std.specs.Char.{is_ascii_digit};
ghost use Rattle.std.specs.List.{list_all};
ghost use Rattle.event_log.specs.Times.{IsDuration, IsEnd, IsWidth, decimal_of, digit_at, fraction_of, local_of};
ghost use Rattle.event_log.specs.Times.{moment_in, moment_of, nanoseconds_in, nanoseconds_of, seconds_by, settled};
ghost use Rattle.event_log.specs.Times.{stamp_of, three_from, time_as, time_of_end, unit_of, whole_of};

use jiff::{SignedDuration, Timestamp};
use std::str::FromStr;
use trace_text::names::text_of;
use trace_text::records::number;

/// The greatest length of a time stamp without an offset, in bytes.
const MAX_LOCAL_BYTES: usize = 40;

const NANOSECONDS_IN_A_SECOND: u128 = 1_000_000_000;

/// A unit of time.
#[derive(Clone, Copy, Debug)]
pub enum TimeUnit {
    Second,
    Millisecond,
    Microsecond,
    Nanosecond,
}

/// What the times of a log are.
#[derive(Clone, Copy, Debug)]
pub enum TimeKind {
    /// Whole numbers, in any unit.
    Number,
    /// Whole numbers of a unit, in nanoseconds.
    Whole(TimeUnit),
    /// Decimal seconds, in nanoseconds.
    Decimal,
    /// Time stamps with an offset, in nanoseconds from the start of 1970 on.
    Stamp,
    /// Time stamps without an offset, in UTC, likewise.
    Local,
}

/// A time, and of which kind it is.
#[derive(Clone, Copy, Debug)]
pub struct Moment {
    pub kind: TimeKind,
    pub time: i128,
}

/// The length of a tick.
#[derive(Clone, Copy, Debug)]
pub enum Width {
    /// In the unit of the log's times.
    Units(u64),
    /// In nanoseconds, for times that are counted in these.
    Nanoseconds(u128),
}

/// The end of a log.
#[derive(Clone, Copy, Debug)]
pub enum LogEnd {
    /// A whole number, in the unit of the log's times.
    Number(u64),
    /// So many nanoseconds after zero.
    Nanoseconds(i128),
    /// The nanosecond of a time stamp with an offset.
    Stamp(i128),
    /// The nanosecond of one without an offset.
    Local(i128),
}

/// The value of a time of this kind, if the field is one.
pub(crate) fn time_as(kind: TimeKind, field: &[u8]) -> Option<i128>
    ensures { result ≡ time_as kind field.now }
{
    match kind {
        TimeKind::Number => Some(i128::from(number(field)?)),
        TimeKind::Whole(unit) => Some(whole_of(unit, field)? as i128),
        TimeKind::Decimal => seconds_of(field),
        TimeKind::Stamp => stamp_of(field),
        TimeKind::Local => local_of(field),
    }
}

/// The nanosecond of decimal seconds, or of a whole second.
fn seconds_of(field: &[u8]) -> Option<i128>
    ensures { result ≡ time_as TimeKind.Decimal field.now }
{
    if let Some(whole) = whole_of(TimeUnit::Second, field) {
        return Some(whole as i128);
    }
    Some(decimal_of(field)? as i128)
}

/// The nanosecond of a whole number of a unit.
fn whole_of(unit: TimeUnit, field: &[u8]) -> Option<u128>
    ensures is { result ≡ whole_of unit field.now }
    ensures small { IfSome result (λ n. n < 2 ^ 127) }
{
    Some(u128::from(number(field)?) * u128::from(nanoseconds_in(unit)))
}

/// How many nanoseconds a unit has.
pub(crate) fn nanoseconds_in(unit: TimeUnit) -> u64
    ensures is { result ≡ nanoseconds_in unit }
    ensures above { 0 < result }
    ensures most { result ≤ 1000000000 }
{
    match unit {
        TimeUnit::Second => 1_000_000_000,
        TimeUnit::Millisecond => 1_000_000,
        TimeUnit::Microsecond => 1_000,
        TimeUnit::Nanosecond => 1,
    }
}

/// The nanosecond of decimal seconds: a number, a point, and one to nine digits.
#[tactic(auto, unfolding(crate::specs::Times::decimal_of))]
fn decimal_of(field: &[u8]) -> Option<u128>
    ensures is { result ≡ decimal_of field.now }
    ensures small { IfSome result (λ n. n < 2 ^ 127) }
{
    match point_in(field) {
        Some(at) => seconds_by(field, at),
        None => None,
    }
}

/// The place of the first point.
fn point_in(field: &[u8]) -> Option<usize>
    ensures is { result ≡ position (λ byte. byte == 46) field.now }
    ensures within { IfSome result (λ at. at < length field.now) }
{
    field.iter().position(|byte| *byte == b'.')
}

/// The nanosecond of decimal seconds whose point is at a place.
fn seconds_by(field: &[u8], at: usize) -> Option<u128>
    requires { at < length field.now }
    ensures is { result ≡ seconds_by (Some at) field.now }
    ensures small { IfSome result (λ n. n < 2 ^ 127) }
{
    let seconds = number(&field[..at])?;
    let fraction = fraction_of(&field[at + 1..])?;
    Some(u128::from(seconds) * NANOSECONDS_IN_A_SECOND + u128::from(fraction))
}

/// The nanoseconds that one to nine digits behind a point are worth.
#[tactic(auto, unfolding(crate::specs::Times::fraction_of))]
fn fraction_of(digits: &[u8]) -> Option<u64>
    ensures is { result ≡ fraction_of digits.now }
    ensures small { IfSome result (λ n. n < 2 ^ 63) }
{
    if digits.len() < 1 || digits.len() > 9 {
        return None;
    }
    if !are_digits(digits) {
        return None;
    }
    Some(1_000_000 * three_from(digits, 0) + 1_000 * three_from(digits, 3) + three_from(digits, 6))
}

fn are_digits(digits: &[u8]) -> bool
    ensures { result ≡ list_all is_ascii_digit digits.now }
{
    digits.iter().all(|digit| digit.is_ascii_digit())
}

/// The number that three digits from a place on write.
fn three_from(digits: &[u8], k: usize) -> u64
    requires { k < 9 }
    ensures is { result ≡ three_from digits.now k }
    ensures small { result < 111 * 256 }
{
    100 * digit_at(digits, k) + 10 * digit_at(digits, k + 1) + digit_at(digits, k + 2)
}

/// The digit at a place; 0 behind the last.
fn digit_at(digits: &[u8], k: usize) -> u64
    ensures is { result ≡ digit_at digits.now k }
    ensures small { result < 256 }
{
    let digit = digits.get(k).copied().unwrap_or(b'0');
    u64::from(digit.saturating_sub(b'0'))
}

/// The nanosecond of a time stamp.
fn stamp_of(field: &[u8]) -> Option<i128>
    ensures { result ≡ stamp_of field.now }
{
    let text = text_of(field)?;
    let Ok(stamp) = Timestamp::from_str(text) else {
        return None;
    };
    Some(stamp.as_nanosecond())
}

/// The nanosecond of a time stamp without an offset, in UTC: of a field that is no time stamp, and is one with a Z
/// after it.
#[tactic(auto, unfolding(crate::specs::Times::local_of))]
fn local_of(field: &[u8]) -> Option<i128>
    ensures { result ≡ local_of field.now }
{
    if stamp_of(field).is_some() {
        return None;
    }
    if field.len() > MAX_LOCAL_BYTES {
        return None;
    }
    zulu_of(field)
}

/// The nanosecond of the time stamp that a field is with a Z behind it.
fn zulu_of(field: &[u8]) -> Option<i128>
    requires { length field.now ≤ MAX_LOCAL_BYTES }
    ensures { result ≡ stamp_of (field.now ++ 90 ∷ []) }
{
    let mut text = [b'Z'; MAX_LOCAL_BYTES + 1];
    text[..field.len()].copy_from_slice(field);
    stamp_of(&text[..field.len() + 1])
}

/// The time of this kind that a field gives.
pub fn moment_in(kind: TimeKind, field: &[u8]) -> Option<Moment>
    ensures { result ≡ moment_in kind field.now }
{
    let time = time_as(kind, field)?;
    Some(Moment { kind, time })
}

/// The kind by which the next time is read: whole numbers of a unit, if one is given; else that of record 2, if it is
/// known.
pub fn settled(unit: Option<TimeUnit>, kind: Option<TimeKind>) -> Option<TimeKind>
    ensures { result ≡ settled unit kind }
{
    match unit {
        Some(unit) => Some(TimeKind::Whole(unit)),
        None => kind,
    }
}

/// The time that a field gives: a whole number, else decimal seconds, else a time stamp, else one without an offset.
/// None if it is none of them.
pub fn read_moment(field: &[u8]) -> Option<Moment>
    ensures { result ≡ moment_of field.now }
{
    if let Some(moment) = moment_in(TimeKind::Number, field) {
        return Some(moment);
    }
    if let Some(moment) = moment_in(TimeKind::Decimal, field) {
        return Some(moment);
    }
    if let Some(moment) = moment_in(TimeKind::Stamp, field) {
        return Some(moment);
    }
    moment_in(TimeKind::Local, field)
}

/// The unit that a text names: `s`, `ms`, `us` or `ns`.
pub fn read_unit(text: &[u8]) -> Option<TimeUnit>
    ensures { result ≡ unit_of text.now }
{
    if text == b"s".as_slice() {
        return Some(TimeUnit::Second);
    }
    if text == b"ms".as_slice() {
        return Some(TimeUnit::Millisecond);
    }
    if text == b"us".as_slice() {
        return Some(TimeUnit::Microsecond);
    }
    if text == b"ns".as_slice() {
        return Some(TimeUnit::Nanosecond);
    }
    None
}

/// The nanoseconds of the duration that a text is.
fn duration_of(text: &str) -> Option<i128>
    ensures some { IfSome result (λ x. IsDuration text.now x) }
    ensures none { result ≡ None → (x : ℤ) → ¬ IsDuration text.now x }
{
    match SignedDuration::from_str(text) {
        Ok(duration) => Some(duration.as_nanos()),
        Err(_) => None,
    }
}

/// The length of a tick that a text gives: a number above 0, or else a duration above 0. None if it is neither.
pub fn read_width(text: &str) -> Option<Width>
    ensures some { IfSome result (λ width. IsWidth text.now width) }
    ensures none { result ≡ None → (width : Width) → ¬ IsWidth text.now width }
    ensures short { IfSome result (λ width. nanoseconds_of width < 2 ^ 94) }
{
    if let Some(units) = number(text.as_bytes()) {
        if units == 0 {
            return None;
        }
        return Some(Width::Units(units));
    }
    let nanoseconds = duration_of(text)?;
    if nanoseconds <= 0 {
        return None;
    }
    Some(Width::Nanoseconds(nanoseconds as u128))
}

/// The end of a log that a text gives: a time, or else a duration, which is the time that comes so long after zero.
/// None if it is neither.
pub fn read_end(text: &str) -> Option<LogEnd>
    ensures some { IfSome result (λ end. IsEnd text.now end) }
    ensures none { result ≡ None → (end : LogEnd) → ¬ IsEnd text.now end }
{
    if let Some(end) = time_of_end(text.as_bytes()) {
        return Some(end);
    }
    let nanoseconds = duration_of(text)?;
    Some(LogEnd::Nanoseconds(nanoseconds))
}

/// The end of a log that a text gives as a time.
fn time_of_end(text: &[u8]) -> Option<LogEnd>
    ensures { result ≡ time_of_end text.now }
{
    if let Some(number) = number(text) {
        return Some(LogEnd::Number(number));
    }
    if let Some(nanoseconds) = decimal_of(text) {
        return Some(LogEnd::Nanoseconds(nanoseconds as i128));
    }
    if let Some(stamp) = stamp_of(text) {
        return Some(LogEnd::Stamp(stamp));
    }
    Some(LogEnd::Local(local_of(text)?))
}
