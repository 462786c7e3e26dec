//! Where a trace text is cut: behind a line feed.

ghost use Rattle.std.specs.Prelude.{◌≤◌, length};

use crate::pieces::tail;
use memchr::{memchr, memrchr};

/// The bytes that are left at the end of a text: the record of the end is among them.
pub(crate) const TAIL_BYTES: usize = 64;

/// The first place from this one on at which a line begins; near the end, the first one there, or the end.
pub(crate) fn line_start(text: &[u8], place: usize) -> usize
    ensures { result ≤ length text.now }
{
    let at = place.min(text.len().saturating_sub(TAIL_BYTES));
    if at == 0 {
        return 0;
    }
    match memchr(b'\n', tail(text, at - 1)) {
        Some(k) => at + k,
        None => text.len(),
    }
}

/// The place after the last line feed that has so many bytes behind it, or 0.
pub(crate) fn cut_leaving(text: &[u8], left: usize) -> usize
    ensures { result ≤ length text.now }
{
    let Some(end) = text.len().checked_sub(left) else {
        return 0;
    };
    match memrchr(b'\n', &text[..end]) {
        Some(at) => at + 1,
        None => 0,
    }
}
