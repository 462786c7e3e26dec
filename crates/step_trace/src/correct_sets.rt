//! Which processors count as correct.

ghost use Rattle.std.specs.Prelude.{◌≡◌, ◌≤◌, IfSome, IfNone};
ghost use Rattle.step_trace.specs.CorrectSets.{IsCorrectIn, named};
ghost use Rattle.step_trace.specs.declared.correct_sets.Correct.{Correct};
ghost use Rattle.step_trace.specs.declared.processors.TheConstants.{MAX_MEMBER};

use crate::processors::ProcSet;

/// Which processors count as correct.
#[derive(Clone, Copy, Debug, PartialEq, Eq)]
pub enum Correct {
    /// All that there are.
    All,
    /// The members of this set.
    These(ProcSet),
}

impl Correct {
    /// What a text names: the word `all`, or a set as `ProcSet::parse_list` reads it. None if the text is anything
    /// else.
    pub fn parse(text: &str) -> Option<Correct>
        ensures named { IfSome result (IsCorrectIn text.now) }
        ensures refused { IfNone result ((correct : Correct) → ¬ IsCorrectIn text.now correct) }
    {
        if text == "all" {
            return Some(Correct::All);
        }
        match ProcSet::parse_list(text) {
            Some(set) => Some(Correct::These(set)),
            None => None,
        }
    }

    /// The set of the correct processors, if there are `n`. A set is unchanged, also with members above `n`.
    pub fn named(self, n: u64) -> ProcSet
        requires { n ≤ MAX_MEMBER }
        ensures { result ≡ named self n }
    {
        match self {
            Correct::All => ProcSet::all_to(n),
            Correct::These(set) => set,
        }
    }
}
