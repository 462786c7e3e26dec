//! The pen that writes a page.

ghost use Rattle.std.specs.Prelude.{◌≡◌, true, map};
ghost use Rattle.run_page.specs.Pieces.{pieces_text};
ghost use Rattle.run_page.specs.Pens.{HasWritten};

use crate::pieces::{Piece, push_pieces};
use run_words::Clock;
use std::alloc::{AllocError, Global};
use step_tables::StepRow;

/// A page while it is written. Once an allocation fails, it writes nothing more, and has no text in the end. So a
/// phrase is a list of calls, and only the whole page may fail.
#[derive(Drop)]
pub(crate) struct Pen<'a> {
    text: Vec<u8>,
    // What processors are called, in their order.
    names: &'a [&'a str],
    // What a table says about the steps; nothing without one.
    said: &'a [StepRow],
    // How long ticks are, if that is known.
    clock: Option<Clock>,
    is_refused: bool,
}

impl<'a> Pen<'a> {
    /// A pen that has written nothing.
    pub(crate) fn new(
        alloc: Global,
        names: &'a [&'a str],
        said: &'a [StepRow],
        clock: Option<Clock>,
    ) -> Self {
        Pen {
            text: Vec::new(alloc),
            names,
            said,
            clock,
            is_refused: false,
        }
    }

    /// What was written, in UTF-8. Fails only if out of memory.
    pub(crate) fn written(self) -> Result<Vec<u8>, AllocError> {
        if self.is_refused {
            Err(AllocError)
        } else {
            Ok(self.text)
        }
    }

    /// Whether an allocation failed, so that nothing more is written.
    pub(crate) fn is_refused(&self) -> bool
        ensures { result ≡ self.now.is_refused }
    {
        self.is_refused
    }

    /// How many bytes were written.
    pub(crate) fn len(&self) -> usize {
        self.text.len()
    }

    /// Writes these pieces, one after the other.
    pub(crate) fn put(&mut self, pieces: &[Piece])
        ensures { HasWritten (pieces_text (map (λ x. x.now) self.old.names.now) self.old.said.now
            self.old.clock pieces.now) self.old self.new }
    {
        if self.is_refused {
            return;
        }
        if push_pieces(&mut self.text, self.names, self.said, self.clock, pieces).is_err() {
            self.is_refused = true;
        }
    }

    /// Writes HTML unchanged.
    pub(crate) fn text(&mut self, text: &'static str)
        ensures { HasWritten text.now self.old self.new }
    {
        self.plain(text);
    }

    /// Writes a text that HTML needs no escape for.
    pub(crate) fn plain(&mut self, text: &str)
        ensures { HasWritten text.now self.old self.new }
    {
        if !self.is_refused && self.text.extend_from_slice(text.as_bytes()).is_err() {
            self.is_refused = true;
        }
    }

    /// Writes what another pen wrote.
    pub(crate) fn append(&mut self, other: &Pen<'_>)
        ensures written { HasWritten other.now.text.items self.old self.new }
        ensures refused { other.now.is_refused ≡ true → self.new.is_refused ≡ true }
    {
        if !self.is_refused && self.text.extend_from_slice(&other.text).is_err() {
            self.is_refused = true;
        }
        if other.is_refused {
            self.is_refused = true;
        }
    }
}
