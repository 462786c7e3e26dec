//! How much of a text is read: no further than a record of far too many fields, which is refused as soon as it has too
//! many. csv keeps the end of each field of a record, so a longer one would take memory in vain.

ghost use Rattle.std.specs.Prelude.{◌≡◌, ◌≤◌, ◌⊎◌, take, drop, length};
ghost use Rattle.csv.specs.Machine.{step};
ghost use Rattle.csv.specs.Reading.{default_config, strip_bom};
ghost use Rattle.csv.specs.declared.parser.State.TheVariants as st;
ghost use Rattle.trace_text.specs.CsvPlaces.{state_of};
ghost use Rattle.trace_text.specs.RecordLimits.{count_after, front_from};

use crate::csv_places::Place;
use memchr::memchr;
use step_trace::MAX_PROCESSORS;

/// The greatest number of fields of a record that may be accepted: a word, and a value for each processor.
pub const MAX_FIELDS: usize = MAX_PROCESSORS as usize + 1;

/// A record is short enough to be read if it ends within so many bytes, or within as many more.
const PAGE_BYTES: usize = 65_536;

/// csv's reader goes past it at the start of a text.
const BYTE_ORDER_MARK: [u8; 3] = [0xEF, 0xBB, 0xBF];

/// A place, and how many fields of its record are whole.
#[derive(Clone, Copy)]
struct Progress {
    place: Place,
    fields: usize,
}

/// How many bytes of a text have to be read: all, or those up to the end of the first field that is one too many in its
/// record. Most texts show at a glance that they have no long record, and then it is all.
pub(crate) fn readable_len(text: &[u8]) -> usize
    ensures within { result ≤ length text.now }
    ensures front { (result ≡ length text.now)
        ⊎ (strip_bom (take result text.now) ≡ front_from 0 st.StartRecord (strip_bom text.now)) }
{
    if may_have_long_records(text) {
        limited_len(text)
    } else {
        text.len()
    }
}

/// Whether a record may have far more fields than are accepted. Each ends at a line feed, unless there are quotes, and
/// a page without one may be part of a longer record.
fn may_have_long_records(text: &[u8]) -> bool {
    memchr(b'"', text).is_some() || text.chunks_exact(PAGE_BYTES).any(has_no_line_feed)
}

fn has_no_line_feed(page: &[u8]) -> bool {
    memchr(b'\n', page).is_none()
}

/// How many bytes there are up to the end of the first field that is one too many in its record, or in all.
fn limited_len(text: &[u8]) -> usize
    ensures within { result ≤ length text.now }
    ensures front { strip_bom (take result text.now) ≡ front_from 0 st.StartRecord
        (strip_bom text.now) }
{
    let mark = mark_len(text);
    mark + front_len(&text[mark..])
}

/// How many bytes a byte order mark takes at the start of a text.
fn mark_len(text: &[u8]) -> usize
    ensures within { result ≤ length text.now }
    ensures rest { strip_bom text.now ≡ drop result text.now }
{
    if text.starts_with(&BYTE_ORDER_MARK) {
        return BYTE_ORDER_MARK.len();
    }
    0
}

/// The same of a text after its byte order mark.
fn front_len(text: &[u8]) -> usize
    ensures within { result ≤ length text.now }
    ensures front { take result text.now ≡ front_from 0 st.StartRecord text.now }
{
    let mut progress = Progress {
        place: Place::StartRecord,
        fields: 0,
    };
    for i in 0..text.len() {
        progress = after(progress, text[i]);
        if progress.fields > MAX_FIELDS {
            return i + 1;
        }
    }
    text.len()
}

/// What one more byte makes of the progress.
fn after(progress: Progress, byte: u8) -> Progress
    requires { progress.fields ≤ MAX_FIELDS }
    ensures place { state_of result.place ≡ (step default_config (state_of progress.place) byte).0 }
    ensures fields { result.fields ≡ count_after
        (step default_config (state_of progress.place) byte).1 progress.fields }
{
    let place = progress.place.after(byte);
    let fields = match (progress.place, place) {
        (_, Place::StartField) => progress.fields + 1,
        // Blank lines end no record.
        (Place::StartRecord | Place::AfterReturn, Place::StartRecord) => progress.fields,
        (_, Place::StartRecord | Place::AfterReturn) => 0,
        _ => progress.fields,
    };
    Progress { place, fields }
}
