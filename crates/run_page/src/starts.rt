//! When a run starts, by its log.

use crate::pens::Pen;
use crate::pieces::Piece::Number;
use crate::runs::Run;
use crate::timings::Timing;
use jiff_core::Timestamp;
use jiff_fmt::temporal::DateTimePrinter;

/// So many nanoseconds after the start of 1970, in March 1973, and later times are dates; earlier ones count from
/// somewhere else.
const DATES: u64 = 100_000_000_000_000_000;

/// Writes when tick 1 begins, if the table says it: as a date and a time in UTC, or else as a number of the table.
pub(crate) fn put_start(pen: &mut Pen<'_>, run: &Run<'_>) {
    let Some(timing) = run.timing else {
        return;
    };
    pen.text(" · tick 1 begins at ");
    match stamp_of(timing) {
        Some(stamp) => pen.plain(DateTimePrinter::new().timestamp_text(stamp).as_str()),
        None => pen.put(&[Number(timing.first)]),
    }
}

/// When tick 1 begins, if that is so late that it is a date.
fn stamp_of(timing: Timing) -> Option<Timestamp> {
    let nanoseconds = timing.first.checked_mul(timing.unit?)?;
    if nanoseconds <= DATES {
        return None;
    }
    Timestamp::from_nanosecond(i128::from(nanoseconds)).ok()
}
