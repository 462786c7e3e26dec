//! So many ticks, in words.

use std::fmt;

/// So many ticks.
#[derive(Clone, Copy)]
pub(crate) struct Ticks(pub(crate) u128);

impl fmt::Display for Ticks {
    ghost use Rattle.std.specs.Prelude.{Some};
    ghost use Rattle.text_commands.specs.ImportLines.{tick_words};

    ghost output = { λ ticks. Some (tick_words ticks.0) };

    fn fmt<W: fmt::Write>(&self, f: &mut fmt::Formatter<W>) -> fmt::Result {
        match self.0 {
            1 => f.write_str("1 tick"),
            ticks => write!(f, "{ticks} ticks"),
        }
    }
}
