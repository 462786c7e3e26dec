//! A least bound, which grows with the evidence against smaller ones.

ghost use Rattle.std.specs.Prelude.{◌≡◌, ◌≤◌, None};
ghost use Rattle.step_trace.specs.declared.traces.TheConstants.{MAX_TICKS};

/// The least positive bound that all evidence of one kind leaves possible, in ticks, and the evidence against each
/// smaller one: none at 1.
#[derive(Clone, Copy, Debug, PartialEq, Eq)]
pub struct LeastBound<E> {
    pub least: u64,
    pub witness: Option<E>,
}

impl<E: Copy> LeastBound<E> {
    ghost use Rattle.link_bounds.specs.Evidence.{noted};

    /// The bound if there is no evidence.
    pub(crate) fn without_evidence() -> Self
        ensures { result ≡ record { least = 1; witness = None } }
    {
        LeastBound {
            least: 1,
            witness: None,
        }
    }

    /// Takes evidence of this length, in ticks, into the bound, if it allows none so long.
    pub(crate) fn note(&mut self, evidence: E, long: u64)
        requires { long ≤ MAX_TICKS }
        ensures { self.new ≡ noted self.old evidence long }
    {
        if self.least <= long {
            self.least = long + 1;
            self.witness = Some(evidence);
        }
    }
}
