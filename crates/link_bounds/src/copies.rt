//! Lists of one value.

ghost use Rattle.std.specs.Prelude.{◌≡◌, IfOk, replicate};

use std::alloc::{AllocError, Global};

/// So many copies of a value.
pub(crate) fn copies<T: Copy>(alloc: Global, value: T, count: usize) -> Result<Vec<T>, AllocError>
    ensures { IfOk result (λ v. v.items ≡ replicate count value) }
{
    let mut all = Vec::new(alloc);
    all.reserve(count)?;
    for so_far in 0..count {
        all.push(value)?;
    }
    Ok(all)
}
