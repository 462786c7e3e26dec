//! Names of processors, as a command line lists them.

ghost use Rattle.std.specs.Prelude.{◌≡◌, ◌↔◌, ◌<◌, IsTrue, IfOk, IfErr, OnOk, map, length};
ghost use Rattle.run_words.specs.Names.{parts_of, IsNew, IsName, IsNamesRefusal, AreNames, byte_at, is_refused_at};

use std::alloc::{AllocError, Global};

/// How many bytes a name may have.
pub const MAX_NAME_BYTES: usize = 64;

/// Why a text lists no names.
#[derive(Clone, Copy, Debug, PartialEq, Eq)]
pub enum NamesError {
    /// There are so many parts with a comma between each two, and not one for each processor.
    WrongCount(u64),
    /// The name at this place, from 1, hasn't 1 to `MAX_NAME_BYTES` bytes, or has a control character, or one that XML
    /// doesn't hold.
    BadName(u64),
    /// The name at this place, from 1, is the same as an earlier one.
    SameName(u64),
    /// Out of memory for them.
    Memory,
}

/// The names that a text lists: as many as `count`, all different, with one comma between each two.
///
/// Refuses WrongCount, and then for the first name that doesn't do, BadName or else SameName. Memory may come before.
pub fn names_of(alloc: Global, list: &str, count: u64) -> Result<Vec<&str>, NamesError>
    ensures listed { IfOk result (λ names. map (λ x. x.now) names.items ≡ parts_of list.now) }
    ensures fit { OnOk result (AreNames count (parts_of list.now)) }
    ensures refused { IfErr result (IsNamesRefusal count (parts_of list.now)) }
{
    let Ok(names) = parts_of(alloc, list) else {
        return Err(NamesError::Memory);
    };
    test_names(&names, count)?;
    Ok(names)
}

/// The parts of a text between its commas.
pub(crate) fn parts_of(alloc: Global, list: &str) -> Result<Vec<&str>, AllocError>
    ensures { IfOk result (λ parts. map (λ x. x.now) parts.items ≡ parts_of list.now) }
{
    let mut parts = Vec::new(alloc);
    for part in list.split(',') {
        parts.push(part)?;
    }
    Ok(parts)
}

/// Whether no name before this one is the same.
fn is_new(names: &[&str], i: usize) -> bool
    requires { i < length names.now }
    ensures { IsTrue result ↔ IsNew (map (λ x. x.now) names.now) i }
{
    for j in 0..i {
        if names[j] == names[i] {
            return false;
        }
    }
    true
}

/// Whether a name has 1 to `MAX_NAME_BYTES` bytes, and each of them may be in it.
fn is_name(name: &[u8]) -> bool
    ensures { IsTrue result ↔ IsName name.now }
{
    if name.len() < 1 || MAX_NAME_BYTES < name.len() {
        return false;
    }
    for i in 0..name.len() {
        if is_refused_at(name, i) {
            return false;
        }
    }
    true
}

/// Whether a control character is at this place, or one of those that XML doesn't hold begins there.
fn is_refused_at(name: &[u8], i: usize) -> bool
    requires { i < length name.now }
    ensures { result ≡ is_refused_at name.now i }
{
    let byte = byte_at(name, i);
    if byte < 32 || byte == 127 {
        return true;
    }
    byte == 239 && byte_at(name, i + 1) == 191 && byte_at(name, i + 2) >= 190
}

/// The byte at this place; 0 after the last.
pub(crate) fn byte_at(name: &[u8], i: usize) -> u8
    ensures { result ≡ byte_at name.now i }
{
    name.get(i).copied().unwrap_or(0)
}

/// Tests whether these are so many different names.
fn test_names(names: &[&str], count: u64) -> Result<(), NamesError>
    ensures fit { OnOk result (AreNames count (map (λ x. x.now) names.now)) }
    ensures refused { IfErr result (IsNamesRefusal count (map (λ x. x.now) names.now)) }
{
    if names.len() as u64 != count {
        return Err(NamesError::WrongCount(names.len() as u64));
    }
    for i in 0..names.len() {
        if !is_name(names[i].as_bytes()) {
            return Err(NamesError::BadName(i as u64 + 1));
        }
        if !is_new(names, i) {
            return Err(NamesError::SameName(i as u64 + 1));
        }
    }
    Ok(())
}
