//! How large a page may grow.

use crate::pens::Pen;

/// A page that would grow beyond so many bytes gets no further picture.
pub(crate) const ROOM_FOR_PICTURES: usize = 700_000;

/// One that would grow beyond so many by the shades of all bounds doesn't get them, since pictures come after them.
pub(crate) const ROOM_FOR_SHADES: usize = 420_000;

/// Writes a part of a page if that then has at most so many bytes, and else that the part isn't drawn.
pub(crate) fn put_within(pen: &mut Pen<'_>, part: &Pen<'_>, most: usize) {
    let is_large = pen.len().saturating_add(part.len()) > most;
    if is_large && !part.is_refused() {
        pen.text("<p class=\"cap\">Not drawn, for the page would grow too large.</p>");
    } else {
        pen.append(part);
    }
}
