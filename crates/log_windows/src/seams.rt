//! Where a text lies between two records, by csv's default reader.

ghost use Rattle.std.specs.Prelude.{◌≡◌, ◌≤◌, false, length, take};
ghost use Rattle.trace_text.specs.CsvPlaces.{state_of};
ghost use Rattle.shared_reading.specs.Seams.{IsClosed, has_quote};
ghost use Rattle.log_windows.specs.Places.{EndsNone, seam_by};

use memchr::{memchr, memrchr};
use trace_text::csv_places::Place;

/// How many bytes come before the last place between two records, if the text begins at such a place. A carriage return
/// may end a record behind it, but no line feed.
pub(crate) fn seam_len(text: &[u8]) -> usize
    ensures within { result ≤ length text.now }
    ensures closed { IsClosed (take result text.now) }
    ensures last { EndsNone text.now result }
{
    if memchr(b'"', text).is_some() {
        return quoted_seam_len(text);
    }
    lines_len(text)
}

/// How many bytes the whole lines of a text have. Without quotes they are whole records.
fn lines_len(text: &[u8]) -> usize
    ensures within { result ≤ length text.now }
    ensures closed { has_quote text.now ≡ false → IsClosed (take result text.now) }
    ensures last { EndsNone text.now result }
{
    match memrchr(b'\n', text) {
        Some(at) => at + 1,
        None => 0,
    }
}

/// The same as `seam_len`, byte by byte.
fn quoted_seam_len(text: &[u8]) -> usize
    ensures within { result ≤ length text.now }
    ensures closed { IsClosed (take result text.now) }
    ensures last { EndsNone text.now result }
{
    let mut place = Place::StartRecord;
    let mut seam = 0;
    for i in 0..text.len() {
        place = place.after(text[i]);
        seam = seam_by(place, seam, i + 1);
    }
    seam
}

/// The last place between two records, if the reader is here at the next one.
fn seam_by(place: Place, seam: usize, next: usize) -> usize
    ensures { result ≡ seam_by (state_of place) seam next }
{
    match place {
        Place::StartRecord => next,
        _ => seam,
    }
}
