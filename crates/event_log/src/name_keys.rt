//! How a set keeps its names: short ones in place, so that they need no allocation of their own.

ghost use Rattle.std.specs.Prelude.{◌≡◌, ◌≤◌, [], ◌∷◌, IfOk, IsOk, length, take};
ghost use Rattle.std.proofs.Common.{ap};
ghost use Rattle.std.specs.Cmp.{partial_equiv_from_equiv};
ghost use Rattle.std.specs.Cmp.Lexicographic.{bytes_decides, on_texts_equal};
ghost use Rattle.std.specs.Str.{bytes_eq};
ghost use Rattle.event_log.specs.NameKeys.{name_of};

use std::alloc::{AllocError, Global};
use std::hash::{Hash, Hasher};
use std::mem::size_of;

/// The greatest length of a name that is kept in place.
const IN_PLACE: usize = 30;

/// A name as a key of a set. A key that is only looked up borrows its name.
#[derive(Drop)]
pub(crate) enum NameKey<'a> {
    /// The length, and the name at the front of the array.
    Short(u8, [u8; IN_PLACE]),
    Long(Vec<u8>),
    Lent(&'a [u8]),
}

// A log may have half a million keys, so each has the size of a `Vec` and a tag.
const _: () = prove!(size_of::<NameKey<'static>>() == 32);

impl<'a> NameKey<'a> {
    /// A copy of a name.
    pub(crate) fn new(alloc: Global, name: &[u8]) -> Result<NameKey<'a>, AllocError>
        ensures name { IfOk result (λ key. name_of key ≡ name.now) }
        ensures in_place { length name.now ≤ 30 → IsOk result }
    {
        if name.len() <= IN_PLACE {
            return Ok(short_key(name));
        }
        Ok(NameKey::Long(Vec::from_slice(alloc, name)?))
    }

    /// The name.
    pub(crate) fn as_slice(&self) -> &[u8]
        ensures { result.now ≡ name_of self.now }
    {
        match self {
            NameKey::Short(len, bytes) => front(bytes, *len as usize),
            NameKey::Long(bytes) => bytes.as_slice(),
            NameKey::Lent(bytes) => *bytes,
        }
    }
}

/// The key of a name that is kept in place.
fn short_key<'a>(name: &[u8]) -> NameKey<'a>
    requires { length name.now ≤ 30 }
    ensures { name_of result ≡ name.now }
{
    let mut bytes = [0; IN_PLACE];
    bytes[..name.len()].copy_from_slice(name);
    NameKey::Short(name.len() as u8, bytes)
}

/// The first bytes, or all if there are fewer.
fn front(bytes: &[u8], len: usize) -> &[u8]
    ensures { result.now ≡ take len bytes.now }
{
    if bytes.len() <= len {
        return bytes;
    }
    &bytes[..len]
}

/// Whether two texts are the same. Short ones are compared byte by byte sooner than by a slice's `==`, which goes by
/// groups of bytes.
pub(crate) fn are_same(a: &[u8], b: &[u8]) -> bool
    ensures { result ≡ bytes_eq a.now b.now }
{
    if a.len() != b.len() {
        return false;
    }
    for i in 0..a.len() {
        if a[i] != b[i] {
            return false;
        }
    }
    true
}

impl<'a> PartialEq for NameKey<'a> {
    ghost eq = { λ a b. bytes_eq (name_of a) (name_of b) };

    ghost laws = { partial_equiv_from_equiv (on_texts_equal name_of) };

    fn eq(&self, other: &Self) -> bool {
        are_same(self.as_slice(), other.as_slice())
    }
}

impl<'a> Eq for NameKey<'a> {
    ghost laws = { on_texts_equal name_of };
}

impl<'a> Hash for NameKey<'a> {
    ghost hash_input = { λ key. name_of key ∷ [] };

    ghost respects_eq = { λ a b h. ap (λ name. name ∷ [])
        ((bytes_decides (name_of a) (name_of b)).0 h) };

    // One write of the whole name: a slice would write its bytes one by one.
    fn hash<H: Hasher>(&self, state: &mut H) {
        state.write(self.as_slice());
    }
}

impl<'a> Clone for NameKey<'a> {
    ghost is_clone = { λ a b. name_of b ≡ name_of a };

    fn clone(&self) -> Result<Self, AllocError> {
        match self {
            NameKey::Short(len, bytes) => Ok(NameKey::Short(*len, *bytes)),
            NameKey::Long(bytes) => Ok(NameKey::Long(bytes.clone()?)),
            NameKey::Lent(bytes) => Ok(NameKey::Lent(*bytes)),
        }
    }
}
