//! Views: what a caller was shown of a trace.

use std::marker::Model;
use step_trace::Trace;

/// The longest prefix of a recorder's trace that a caller was shown; nothing at first.
#[derive(Debug, Drop)]
pub struct View {
    pub(crate) seen: Option<Trace>,
}

impl Model for View {
    ghost use Rattle.std.specs.Prelude.{Option};
    ghost use Rattle.step_trace.specs.Traces.{Recorded};

    ghost Value = { Option Recorded };

    ghost view = { λ a. a.seen };
}

impl View {
    ghost use Rattle.std.specs.Prelude.{◌≡◌, Some, None, option_copied};

    /// The view of one who was shown nothing.
    pub(crate) fn new() -> Self
        ensures { result ≡ None }
    {
        View { seen: None }
    }

    /// The longest prefix that was shown, if any was.
    pub fn seen(&self) -> Option<&Trace>
        ensures { option_copied result ≡ self.now }
    {
        self.seen.as_ref()
    }

    /// Keeps what was shown.
    pub(crate) fn see(&mut self, shown: Trace)
        ensures { self.new ≡ Some shown }
    {
        self.seen = Some(shown);
    }
}
