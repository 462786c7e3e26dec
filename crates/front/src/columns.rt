//! The columns of a report: the name of each, its entry for a row, and the row that entries make.

ghost use Rattle.std.specs.Prelude.{◌≡◌, ◌<◌, [], slice_index_or};
ghost use Rattle.front.specs.Columns.{entries_of, report_header, miss_of, gap_of, row_of_entries};

use crate::refusals::ReportError;
use step_trace::{Gap, Miss, Row};

/// How many there are.
pub(crate) const COLUMNS: usize = 8;

/// Their names, in their order.
pub(crate) const NAMES: [&[u8]; COLUMNS] = [
    b"gst", b"delta", b"phi", b"sent", b"missed", b"proc", b"from", b"to",
];

/// The name of the column at a place.
pub(crate) fn name<'a>(place: usize) -> &'a [u8]
    requires { place < COLUMNS }
    ensures { result.now ≡ slice_index_or report_header place [] }
{
    NAMES[place]
}

/// The entry of a row for each: a number, or nothing if the row has no such witness.
pub(crate) fn entries_of(row: &Row) -> [Option<u64>; COLUMNS]
    ensures { result ≡ entries_of row.now }
{
    [
        Some(row.gst),
        Some(row.delta),
        Some(row.phi),
        row.miss.map(|miss| miss.sent),
        row.miss.map(|miss| miss.missed),
        row.gap.map(|gap| gap.proc),
        row.gap.map(|gap| gap.from),
        row.gap.map(|gap| gap.to),
    ]
}

/// The row of these entries, which is to have this number. None denotes a field that is neither empty nor a number.
///
/// Refuses, in this order: BadNumber if there is such a field, or a bound or the stabilization time is empty;
/// HalfWitness if some entries of a witness are empty and some aren't.
pub(crate) fn row_of_entries(
    no: u64,
    entries: [Option<Option<u64>>; COLUMNS],
) -> Result<Row, ReportError>
    ensures { result ≡ row_of_entries no entries }
{
    let [
        Some(Some(gst)),
        Some(Some(delta)),
        Some(Some(phi)),
        Some(sent),
        Some(missed),
        Some(proc),
        Some(from),
        Some(to),
    ] = entries
    else {
        return Err(ReportError::BadNumber(no));
    };
    let (Some(miss), Some(gap)) = (miss_of(sent, missed), gap_of(proc, from, to)) else {
        return Err(ReportError::HalfWitness(no));
    };
    Ok(Row {
        gst,
        delta,
        phi,
        miss,
        gap,
    })
}

fn miss_of(sent: Option<u64>, missed: Option<u64>) -> Option<Option<Miss>>
    ensures { result ≡ miss_of sent missed }
{
    match (sent, missed) {
        (None, None) => Some(None),
        (Some(sent), Some(missed)) => Some(Some(Miss { sent, missed })),
        _ => None,
    }
}

fn gap_of(proc: Option<u64>, from: Option<u64>, to: Option<u64>) -> Option<Option<Gap>>
    ensures { result ≡ gap_of proc from to }
{
    match (proc, from, to) {
        (None, None, None) => Some(None),
        (Some(proc), Some(from), Some(to)) => Some(Some(Gap { proc, from, to })),
        _ => None,
    }
}
