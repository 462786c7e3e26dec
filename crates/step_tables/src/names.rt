//! The names of nodes and messages in a table.

ghost use Rattle.std.specs.Prelude.{◌≡◌, IfOk, None, Some, if◌then◌else◌, map, option_map, string_bytes};
ghost use Rattle.std.specs.Cmp.Lexicographic.{slice_cmp};
ghost use Rattle.std.specs.List.Sorted.{IsSorted};
ghost use Rattle.std.specs.Ordering.{nat_cmp};
ghost use Rattle.trace_text.specs.Names.{has_name, is_name, words_of};

use std::alloc::{AllocError, Global};
use trace_text::names::{is_name, text_of};

/// A name as text, if these bytes are one.
pub(crate) fn name_text(name: &[u8]) -> Option<&str>
    ensures { option_map (λ text. text.now) result
        ≡ (if is_name name.now then Some name.now else None) }
{
    if is_name(name) {
        return text_of(name);
    }
    None
}

/// Whether a name is among these.
pub(crate) fn has_name(names: &[String], name: &[u8]) -> bool
    ensures { result ≡ has_name (map string_bytes names.now) name.now }
{
    for known in names {
        if name == known.as_bytes() {
            return true;
        }
    }
    false
}

/// The words of a field, which have one space between them.
pub(crate) fn words_of(alloc: Global, field: &[u8]) -> Result<Vec<&[u8]>, AllocError>
    ensures { IfOk result (λ words. map (λ word. word.now) words.items ≡ words_of field.now) }
{
    let mut words = Vec::new(alloc);
    if field.len() == 0 {
        return Ok(words);
    }
    for word in field.split(|byte| *byte == b' ') {
        words.push(word)?;
    }
    Ok(words)
}

/// Whether a name is among these words, which are in order.
pub(crate) fn has_word(words: &[&[u8]], name: &[u8]) -> bool
    requires { IsSorted (λ x y. slice_cmp nat_cmp x.now y.now) words.now }
    ensures { result ≡ has_name (map (λ word. word.now) words.now) name.now }
{
    words.binary_search(&name).is_ok()
}
