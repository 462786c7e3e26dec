//! Text inside XML and HTML.

ghost use Rattle.std.specs.Prelude.{◌≡◌, ◌<◌, ◌++◌, OnOk};
ghost use Rattle.run_words.specs.Escapes.{ends_unheld, escape_of, escaped, held_byte};

use crate::names::byte_at;
use std::alloc::AllocError;

/// Appends a text as XML and HTML have it, in text and between quotes. U+FFFE and U+FFFF, which XML doesn't hold,
/// become U+FFFD.
pub fn push_escaped(out: &mut Vec<u8>, text: &[u8]) -> Result<(), AllocError>
    ensures { OnOk result (out.new.items ≡ out.old.items ++ escaped text.now) }
{
    for i in 0..text.len() {
        push_escape(out, held_byte(text, i))?;
    }
    Ok(())
}

/// The byte at this place, as XML holds it.
fn held_byte(text: &[u8], i: usize) -> u8
    ensures { result ≡ held_byte text.now i }
{
    if ends_unheld(text, i) {
        189
    } else {
        byte_at(text, i)
    }
}

/// Whether U+FFFE or U+FFFF ends at this place.
#[tactic(auto, unfolding(crate::specs::Escapes::ends_unheld))]
fn ends_unheld(text: &[u8], i: usize) -> bool
    ensures { result ≡ ends_unheld text.now i }
{
    if i < 2 {
        return false;
    }
    byte_at(text, i - 2) == 239 && byte_at(text, i - 1) == 191 && byte_at(text, i) >= 190
}

fn push_escape(out: &mut Vec<u8>, byte: u8) -> Result<(), AllocError>
    ensures { OnOk result (out.new.items ≡ out.old.items ++ escape_of byte) }
{
    if byte == b'&' {
        return out.extend_from_slice(b"&amp;");
    }
    if byte == b'<' {
        return out.extend_from_slice(b"&lt;");
    }
    if byte == b'>' {
        return out.extend_from_slice(b"&gt;");
    }
    if byte == b'"' {
        return out.extend_from_slice(b"&quot;");
    }
    if byte == b'\'' {
        return out.extend_from_slice(b"&#39;");
    }
    out.push(byte)?;
    Ok(())
}
