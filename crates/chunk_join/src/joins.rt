//! Values that join in their order, as parts of a whole do.

ghost use Rattle.std.specs.Prelude.{◌≡◌, ◌≢◌, ◌↔◌, None, ℕ, Option, IfOk, OnOk, IfErr, OnErr, IsTrue};
ghost use Rattle.chunk_join.specs.Joins.{JoinedLaws, AreParts, IsRefusal, join_after, FitAfter, RefusesAfter};

/// Why two values don't join, in the order in which the reasons are tested.
#[derive(Clone, Copy, Debug, PartialEq, Eq)]
pub enum Why {
    /// The right part doesn't begin right after the left one's end.
    NotAdjacent,
    /// The parts are of different sets of processors.
    OtherSet,
    /// Out of memory for what they make up together.
    Memory,
}

/// Two values that didn't join, unchanged.
#[derive(Drop)]
pub struct JoinRefused<J> {
    pub why: Why,
    pub left: J,
    pub right: J,
}

/// Values that join in their order, as parts of a whole do.
///
/// An implementation says what its wholes are, and which value is the part of a whole between two cuts. Cut i is
/// right after the first i places of the whole, so the part from i to j is followed by the part from j on. It
/// proves that joining parts of one whole gives the part that they make up together (`JoinedLaws`).
pub trait Joined: Drop {
    ghost use Rattle.chunk_join.specs.declared.joins.Why.{Why};

    ghost Whole: { Type 0 };

    // the value is this part of the whole, between two cuts
    ghost IsPart: { Whole → ℕ → ℕ → Self → Type 0 };

    ghost empty: { Self };

    // the first reason against joining two values, other than out of memory
    ghost refusal: { Self → Self → Option Why };

    ghost joined: { Self → Self → Self };

    /// The empty part, which joins with every value and changes none. Takes no memory.
    fn unit() -> Self
        ensures { result ≡ empty };

    /// Whether the right value may follow this one. Takes no memory.
    fn fits(&self, right: &Self) -> bool
        ensures { IsTrue result ↔ (refusal self.now right.now ≡ None) };

    /// Both as one. Refuses in the order of `Why`, and hands both back unchanged. `Memory` is answered only if
    /// they fit, and neither is the empty part.
    fn join(self, right: Self) -> Result<Self, JoinRefused<Self>>
        ensures ok { OnOk result (refusal self right ≡ None) }
        ensures value { IfOk result (λ whole. whole ≡ joined self right) }
        ensures refused { IfErr result (λ e. IsRefusal e.why (refusal self right)) }
        ensures left { IfErr result (λ e. e.left ≡ self) }
        ensures right { IfErr result (λ e. e.right ≡ right) }
        ensures more { OnErr result ((self ≢ empty) × (right ≢ empty)) };

    ghost laws: { JoinedLaws IsPart empty refusal joined };
}

/// Joins values in their order; no value gives the unit.
///
/// Refuses with the reason against the first value that doesn't join with those before it; the values are gone
/// then. Parts of one whole, each beginning where the one before ends, fit: their refusal is `Memory`.
pub fn join_all<J: Joined>(parts: Vec<J>) -> Result<J, Why>
    ensures ok { OnOk result (FitAfter J.refusal J.joined J.empty parts.items) }
    ensures value { IfOk result (λ whole. whole ≡ join_after J.joined J.empty parts.items) }
    ensures part { IfOk result (λ x. (whole : J.Whole) (i k : ℕ)
        → AreParts J.IsPart J.empty whole i parts.items k → J.IsPart whole i k x) }
    ensures refused { IfErr result
        (λ why. RefusesAfter J.refusal J.joined why J.empty parts.items) }
    ensures fitting { IfErr result (λ why. (whole : J.Whole) (i k : ℕ)
        → AreParts J.IsPart J.empty whole i parts.items k → why ≡ Why.Memory) }
{
    let mut all = J::unit();
    for part in parts {
        all = match all.join(part) {
            Ok(more) => more,
            Err(refused) => return Err(refused.why),
        };
    }
    Ok(all)
}
