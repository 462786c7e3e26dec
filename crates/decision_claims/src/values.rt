//! The values of formulas, from left to right.

ghost use Rattle.std.specs.Prelude.{ℕ, ◌≡◌, ◌*◌, ◌-◌, ◌^◌, ◌≤◌, ◌<◌, ◌∷◌, [], List, length, min};
ghost use Rattle.decision_claims.specs.declared.formulas.Part.{Part as OnePart};
ghost use Rattle.decision_claims.specs.Formulas.{Fits, divisors, nothing, quotient, times_value};
ghost use Rattle.decision_claims.specs.Formulas.{value_from, whole, with_part};
ghost use Rattle.decision_claims.specs.NearValues.{IsNear, IsNearFrame, tally};

use crate::formulas::{MAX_OPEN, Part, Words};
use crate::parts::Parts;
use arrayvec::ArrayVec;

/// What was read between two parentheses, or of the whole formula.
#[derive(Clone, Copy, Debug)]
pub(crate) struct Frame {
    /// The greatest value before the last comma.
    most: u64,
    /// The sum of the products before the last plus.
    sum: u64,
    /// The product that goes on.
    product: u64,
}

impl Default for Frame {
    fn default() -> Frame {
        Frame::nothing()
    }
}

impl Frame {
    /// Nothing was read yet.
    fn nothing() -> Frame
        ensures { result ≡ nothing }
    {
        Frame {
            most: 0,
            sum: 0,
            product: 1,
        }
    }

    /// The value of what was read, or the greatest number.
    fn whole(self) -> u64
        ensures { result ≡ min (whole self) (2 ^ 64 - 1) }
    {
        let last = self.sum.saturating_add(self.product);
        if self.most < last { last } else { self.most }
    }

    /// The product goes on by a value.
    fn times(self, value: u64) -> Frame
        ensures { (cap : ℕ) → cap ≤ 2 ^ 64 - 1 → IsNearFrame cap result (times_value self value) }
    {
        Frame {
            product: self.product.saturating_mul(value),
            ..self
        }
    }

    /// The product is divided by a number, and rounded up.
    fn over(self, divisor: u64) -> Frame
        ensures product { result.product ≡ quotient self.product divisor }
        ensures most { result.most ≡ self.most }
        ensures sum { result.sum ≡ self.sum }
    {
        let positive = if divisor < 1 { 1 } else { divisor };
        Frame {
            product: self.product.div_ceil(positive),
            ..self
        }
    }
}

/// What was read, after one part more: what is within the innermost open parentheses, and around them.
fn with_part(words: Words, here: Frame, around: &mut ArrayVec<Frame, MAX_OPEN>, part: Part) -> Frame
    requires { Fits (length around.now.items) (part ∷ []) }
    ensures near { (cap : ℕ) → cap ≤ 2 ^ 64 - 1 → IsNear cap (tally result around.new.items)
        (with_part words (tally here around.old.items) part) }
    ensures depth { (rest : List OnePart) → Fits (length around.old.items) (part ∷ rest)
        → Fits (length around.new.items) rest }
{
    match part {
        Part::Value(operand) => here.times(words.value(operand)),
        Part::Plus => Frame {
            sum: here.sum.saturating_add(here.product),
            product: 1,
            ..here
        },
        Part::Times => here,
        Part::Over(divisor) => here.over(divisor),
        Part::Open | Part::Greatest => {
            around.push(here);
            Frame::nothing()
        }
        Part::Comma => Frame {
            most: here.whole(),
            sum: 0,
            product: 1,
        },
        Part::Close => match around.pop() {
            None => here,
            Some(outer) => outer.times(here.whole()),
        },
    }
}

/// The value of these parts, exact up to each cap that leaves room for their divisors.
pub(crate) fn near_value(words: Words, parts: &Parts) -> u64
    requires { Fits 0 parts.now }
    ensures { (cap : ℕ) → cap * divisors parts.now ≤ 2 ^ 64 - 1
        → min result cap ≡ min (value_from words (tally nothing []) parts.now) cap }
{
    match parts.split() {
        None => 1,
        Some((first, rest)) => value_on(words, first, rest),
    }
}

/// The value of a first part and further ones.
fn value_on(words: Words, first: Part, rest: &[Part]) -> u64
    requires { Fits 0 (first ∷ rest.now) }
    ensures { (cap : ℕ) → cap * divisors (first ∷ rest.now) ≤ 2 ^ 64 - 1
        → min result cap ≡ min (value_from words (tally nothing []) (first ∷ rest.now)) cap }
{
    let mut around = ArrayVec::new();
    let mut here = with_part(words, Frame::nothing(), &mut around, first);
    for part in rest {
        here = with_part(words, here, &mut around, *part);
    }
    here.whole()
}
