//! Names of a log, which may have any length.

ghost use Rattle.std.specs.Prelude.{◌≡◌, ◌++◌, OnOk};
ghost use Rattle.run_words.specs.LongNames.{long_text};

use crate::escapes::push_escaped;
use crate::short_names::{characters, start_of};
use std::alloc::AllocError;

/// How many characters of a longer name are shown at its beginning, and at its end.
const FIRST_CHARACTERS: usize = 30;

const LAST_CHARACTERS: usize = 15;

/// Appends a name as XML and HTML have it. If it has more characters than `most`, only the first and the last ones,
/// with an ellipsis between them.
pub(crate) fn push_long(out: &mut Vec<u8>, name: &[u8], most: usize) -> Result<(), AllocError>
    ensures { OnOk result (out.new.items ≡ out.old.items ++ long_text most name.now) }
{
    let count = characters(name);
    if count <= most {
        return push_escaped(out, name);
    }
    push_escaped(out, &name[..start_of(name, FIRST_CHARACTERS)])?;
    out.extend_from_slice("…".as_bytes())?;
    push_escaped(
        out,
        &name[start_of(name, count.saturating_sub(LAST_CHARACTERS))..],
    )
}
