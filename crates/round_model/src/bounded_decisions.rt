//! The bounded decision (section 3 of the 1988 paper).

ghost use Rattle.std.specs.Prelude.{◌≤◌, ◌*◌, ℕ};
ghost use Rattle.step_trace.specs.Configurations.{Setup, IsSetup};
ghost use Rattle.step_trace.specs.Processors.{IsWithin};
ghost use Rattle.round_model.specs.RoundStates.{Table, state_after};
ghost use Rattle.round_model.specs.BoundedDecision.{IsInTouch, HearsAllOf, deciding_round, HaveDecided};
ghost use Rattle.round_model.specs.BoundedDecision.{HoldOneValue, LocksAreProper};

/// If the processors of a set of at least N - t hear one another from some round on, each of them decides
/// (section 3 of the 1988 paper).
///
/// A theorem, as `agreement` is: calling it does nothing. G is the first of those rounds, and k the phase
/// with the first lock-release round that doesn't come before G: (G + 3) / 4, rounded down. They have decided
/// by the end of round 4 (k + N) - 1, and stay so (`decided`). What is heard in later rounds, or by others,
/// doesn't matter.
///
/// On the way, for a set of any size whose processors hear one another in a lock-release round: after it
/// their locks are on at most one value (`one_lock`), and it is in the PROPER of each of them (`proper`).
pub fn decided_by()
    ensures decided { (c : Setup) (set : ℕ) (table : Table) (first rounds : ℕ) → IsSetup c →
        IsInTouch c set table first (deciding_round c first) → deciding_round c first ≤ rounds →
        HaveDecided set (state_after c table rounds) }
    ensures one_lock { (c : Setup) (set : ℕ) (table : Table) (phase : ℕ)
        → IsWithin set c.n → 1 ≤ phase →
        HearsAllOf set table (4 * phase) → HoldOneValue set (state_after c table (4 * phase)) }
    ensures proper { (c : Setup) (set : ℕ) (table : Table) (phase : ℕ)
        → IsWithin set c.n → 1 ≤ phase →
        HearsAllOf set table (4 * phase) → LocksAreProper set (state_after c table (4 * phase)) }
{}
