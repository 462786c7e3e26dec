//! Sets of processors.

ghost use Rattle.std.specs.Prelude.{◌≡◌, ◌≢◌, ℕ, ◌≤◌, ◌↔◌, IsTrue, MatchOption, false};

use std::marker::Model;

/// The greatest number that a member of a set may have: a set is kept in 64 bits.
pub const MAX_MEMBER: u64 = 64;

/// A set of processors from 1 to `MAX_MEMBER`, kept as a bit mask.
#[derive(Clone, Copy, Debug, PartialEq, Eq)]
pub struct ProcSet {
    mask: u64,
}

impl Model for ProcSet {
    ghost use Rattle.std.specs.Prelude.{ℕ};

    ghost Value = { ℕ };

    ghost view = { λ s. s.mask };

    ghost inverse = { λ n. record { mask = n } };
}

impl ProcSet {
    ghost use Rattle.step_trace.specs.Members.{all_to, IsLeastAbove};
    ghost use Rattle.step_trace.specs.Processors.{has_proc, IsWithin};

    /// The set with no processor.
    pub fn empty() -> Self
        ensures { (p : ℕ) → has_proc result p ≡ false }
    {
        ProcSet { mask: 0 }
    }

    /// The set whose members are the bits of a mask: processor p is one if bit p - 1 is set.
    pub fn of_mask(mask: u64) -> Self
        ensures { result ≡ mask }
    {
        ProcSet { mask }
    }

    /// The set of the processors 1 to `n`.
    pub fn all_to(n: u64) -> Self
        requires { n ≤ MAX_MEMBER }
        ensures mask { result ≡ all_to n }
        ensures members { (p : ℕ) → IsTrue (has_proc result p) ↔ ((1 ≤ p) × (p ≤ n)) }
    {
        if n == 0 {
            // (a shift by 64 would overflow)
            return ProcSet { mask: 0 };
        }
        ProcSet {
            mask: u64::MAX >> (MAX_MEMBER - n),
        }
    }

    /// The set with one more processor.
    pub fn with(self, p: u64) -> Self
        requires low { 1 ≤ p }
        requires high { p ≤ MAX_MEMBER }
        ensures added { IsTrue (has_proc result p) }
        ensures others { (q : ℕ) → q ≢ p → has_proc result q ≡ has_proc self q }
    {
        ProcSet {
            mask: self.mask | (1 << (p - 1)),
        }
    }

    /// Whether a processor is in the set.
    pub fn contains(self, p: u64) -> bool
        ensures { result ≡ has_proc self p }
    {
        0 < p && p <= MAX_MEMBER && (self.mask >> (p - 1)) & 1 == 1
    }

    /// Whether no member is above `n`.
    pub fn within(self, n: u64) -> bool
        ensures { IsTrue result ↔ IsWithin self n }
    {
        match self.first_above(n) {
            None => true,
            Some(_) => false,
        }
    }

    /// The least member above `n`, if there is one.
    pub fn first_above(self, n: u64) -> Option<u64>
        ensures { MatchOption result (IsWithin self n) (IsLeastAbove self n) }
    {
        for p in 1..MAX_MEMBER + 1 {
            if p > n && self.contains(p) {
                return Some(p);
            }
        }
        None
    }
}
