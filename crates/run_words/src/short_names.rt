//! Names that are too long for their place.

ghost use Rattle.std.specs.Prelude.{◌≡◌, ◌≤◌, ◌++◌, OnOk, length};
ghost use Rattle.run_words.specs.Labels.{goes_on};
ghost use Rattle.run_words.specs.ShortNames.{characters, short_text, start_of};

use crate::escapes::push_escaped;
use std::alloc::AllocError;

/// A name with more characters is shown by its ends alone.
pub(crate) const MOST_CHARACTERS: usize = 15;

/// How many characters are shown then at each of its ends.
pub(crate) const SHOWN_CHARACTERS: usize = 7;

/// Appends a name as XML and HTML have it, and of a long one the first and the last characters alone, with an ellipsis
/// between them.
pub fn push_short(out: &mut Vec<u8>, name: &[u8]) -> Result<(), AllocError>
    ensures { OnOk result (out.new.items ≡ out.old.items ++ short_text name.now) }
{
    let count = characters(name);
    if count <= MOST_CHARACTERS {
        return push_escaped(out, name);
    }
    push_escaped(out, &name[..start_of(name, SHOWN_CHARACTERS)])?;
    out.extend_from_slice("…".as_bytes())?;
    push_escaped(out, &name[start_of(name, count - SHOWN_CHARACTERS)..])
}

/// How many characters a text in UTF-8 has: those of its bytes that begin one.
pub(crate) fn characters(text: &[u8]) -> usize
    ensures value { result ≡ characters text.now }
    ensures limit { result ≤ length text.now }
{
    let mut count = 0;
    for byte in text {
        if !goes_on(*byte) {
            count += 1;
        }
    }
    count
}

/// Where the character of this number begins, from 0; the length if there is none.
pub(crate) fn start_of(text: &[u8], number: usize) -> usize
    ensures value { result ≡ start_of number text.now }
    ensures limit { result ≤ length text.now }
{
    let mut left = number;
    for i in 0..text.len() {
        if !goes_on(text[i]) {
            if left == 0 {
                return i;
            }
            left -= 1;
        }
    }
    text.len()
}

/// Whether this byte goes on with a character that was begun before.
fn goes_on(byte: u8) -> bool
    ensures { result ≡ goes_on byte }
{
    128 <= byte && byte < 192
}
