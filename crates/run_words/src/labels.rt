//! What processors are called in a picture, and how wide that is. Lengths are tenths of a pixel.

ghost use Rattle.std.specs.Prelude.{◌≡◌, ◌≤◌, ◌++◌, OnOk, map};
ghost use Rattle.run_words.specs.Labels.{byte_width, name_of, name_width};
ghost use Rattle.run_words.specs.ShortNames.{short_width};
ghost use Rattle.run_words.specs.Words.{label_text, node_text};

use crate::digits::push_number;
use crate::long_names::push_long;
use crate::names::MAX_NAME_BYTES;
use crate::short_names::{MOST_CHARACTERS, SHOWN_CHARACTERS, characters, push_short, start_of};
use std::alloc::AllocError;

/// How many characters of a processor's name are shown in words.
const NODE_CHARACTERS: usize = 64;

/// How wide the ellipsis of a shortened name is taken to be.
const ELLIPSIS_WIDTH: u64 = 120;

/// The name of the processor of this number; nothing if it has none.
fn name_of<'a>(names: &[&'a str], processor: u64) -> &'a [u8]
    ensures { result.now ≡ name_of (map (λ x. x.now) names.now) processor }
{
    if processor < 1 || processor > names.len() as u64 {
        return &[];
    }
    names[processor as usize - 1].as_bytes()
}

/// Appends what a processor is called: its name, shortened if it is very long, or `processor` and its number.
pub fn push_node(out: &mut Vec<u8>, names: &[&str], processor: u64) -> Result<(), AllocError>
    ensures { OnOk result (out.new.items ≡ out.old.items
        ++ node_text (map (λ x. x.now) names.now) processor) }
{
    let name = name_of(names, processor);
    if name.len() > 0 {
        return push_long(out, name, NODE_CHARACTERS);
    }
    out.extend_from_slice(b"processor ")?;
    push_number(out, processor)
}

/// Appends what a processor is called beside its lane: its name, shortened if it is long, or its number.
pub fn push_label(out: &mut Vec<u8>, names: &[&str], processor: u64) -> Result<(), AllocError>
    ensures { OnOk result (out.new.items ≡ out.old.items
        ++ label_text (map (λ x. x.now) names.now) processor) }
{
    let name = name_of(names, processor);
    if name.len() > 0 {
        return push_short(out, name);
    }
    push_number(out, processor)
}

/// How wide a name is taken to be, shortened if it is long.
pub fn short_width(name: &[u8]) -> u64
    ensures { result ≡ short_width name.now }
{
    let count = characters(name);
    if count <= MOST_CHARACTERS {
        return name_width(name);
    }
    let start = name_width(&name[..start_of(name, SHOWN_CHARACTERS)]);
    start + ELLIPSIS_WIDTH + name_width(&name[start_of(name, count - SHOWN_CHARACTERS)..])
}

/// How wide a name is taken to be.
fn name_width(name: &[u8]) -> u64
    ensures value { result ≡ name_width name.now }
    ensures limit { result ≤ 7_680 }
{
    let mut width = 0;
    for byte in &name[..name.len().min(MAX_NAME_BYTES)] {
        width += byte_width(*byte);
    }
    width
}

/// How wide a byte makes a name: a character counts by its first byte.
fn byte_width(byte: u8) -> u64
    ensures value { result ≡ byte_width byte }
    ensures limit { result ≤ 120 }
{
    match byte {
        128..=191 => 0,
        b'A'..=b'Z' | b'm' | b'w' | 224..=255 => 120,
        _ => 90,
    }
}
