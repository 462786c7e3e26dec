//! Lists gathered number by number.

ghost use Rattle.std.specs.Prelude.{◌≡◌, ◌++◌, OnOk, OnErr, IsSome};
ghost use Rattle.picture_marks.specs.Gathered.{one_or_none};

use std::alloc::AllocError;

/// Appends what there is, if anything. Refuses only if there is something.
pub(crate) fn push_some<T: Drop>(list: &mut Vec<T>, item: Option<T>) -> Result<(), AllocError>
    ensures pushed { OnOk result (list.new.items ≡ list.old.items ++ one_or_none item) }
    ensures more { OnErr result (IsSome item) }
{
    if let Some(item) = item {
        list.push(item)?;
    }
    Ok(())
}
