//! What a formula's text may have next, and why it is none.

ghost use Rattle.std.specs.Prelude.{◌≡◌, ◌<◌, ◌≤◌, ◌+◌, ◌-◌, ◌^◌, IfOk, Ok};
ghost use Rattle.decision_claims.specs.FormulaTexts.{after_group, counted, divided, divisor_next, end_by, group_next};
ghost use Rattle.decision_claims.specs.FormulaTexts.{needs, next_by, next_of_max, opened, operand_next, sign_next};

use crate::formulas::{Operand, Part};
use crate::lexemes::Lexeme;

/// Why a text is no formula. The number is that of an operand, counted from 1: of the numbers and words from the left,
/// without `max`. The first thing that no formula has there decides.
#[derive(Clone, Copy, Debug, PartialEq, Eq)]
pub enum BadFormula {
    /// An operand had to come, and this one is neither a number that fits 64 bits nor `delta`, `phi`, `n` or `t`, nor a
    /// parenthesis.
    Operand(u64),
    /// A divisor had to come, and this operand is no number from 1 on, or all divisors up to it, multiplied, are 2^32
    /// or more.
    Divisor(u64),
    /// A sign had to come after this operand, and none or another one does.
    Sign(u64),
    /// `MAX_OPEN` parentheses are open already before this operand, and one more opens.
    Depth(u64),
}

/// What has to come next.
#[derive(Clone, Copy)]
pub(crate) enum Need {
    Operand,
    Parenthesis,
    Divisor,
    Sign,
}

/// What was read so far.
#[derive(Clone, Copy)]
pub(crate) struct State {
    pub(crate) need: Need,
    /// The parentheses that are open, from the outside in: binary digits after a first 1, and 1 for one of `max`.
    pub(crate) groups: u64,
    /// All divisors, multiplied.
    pub(crate) divisors: u64,
    /// How many operands were read.
    pub(crate) operands: u64,
}

/// The state after one lexeme more, and the part that it ends, if it ends one.
#[derive(Clone, Copy)]
pub(crate) struct Move {
    pub(crate) state: State,
    pub(crate) part: Option<Part>,
}

impl State {
    /// What one lexeme more makes of it.
    pub(crate) fn next(self, lexeme: Lexeme) -> Result<Move, BadFormula>
        requires { self.operands < 2 ^ 64 - 1 }
        ensures next { result ≡ next_by self.need self lexeme }
        ensures few { IfOk result (λ m. m.state.operands ≤ self.operands + counted lexeme) }
    {
        match self.need {
            Need::Operand => self.operand_next(lexeme),
            Need::Parenthesis => self.group_next(lexeme),
            Need::Divisor => self.divisor_next(lexeme),
            Need::Sign => self.sign_next(lexeme),
        }
    }

    /// Why a text can't end here, if it can't.
    pub(crate) fn end(self) -> Option<BadFormula>
        requires { self.operands < 2 ^ 64 - 1 }
        ensures { result ≡ end_by self.need self }
    {
        match self.need {
            Need::Operand | Need::Parenthesis => Some(BadFormula::Operand(self.operands + 1)),
            Need::Divisor => Some(BadFormula::Divisor(self.operands + 1)),
            Need::Sign => if self.groups == 1 {
                None
            } else {
                Some(BadFormula::Sign(self.operands))
            },
        }
    }

    /// Where an operand has to come.
    fn operand_next(self, lexeme: Lexeme) -> Result<Move, BadFormula>
        requires { self.operands < 2 ^ 64 - 1 }
        ensures next { result ≡ operand_next self lexeme }
        ensures few { IfOk result (λ m. m.state.operands ≤ self.operands + counted lexeme) }
    {
        match lexeme {
            Lexeme::Name(operand) => Ok(Move {
                state: State {
                    need: Need::Sign,
                    operands: self.operands + 1,
                    ..self
                },
                part: Some(Part::Value(operand)),
            }),
            Lexeme::Max => Ok(self.needs(Need::Parenthesis, None)),
            Lexeme::Open => self.opened(0, Part::Open),
            _ => Err(BadFormula::Operand(self.operands + 1)),
        }
    }

    /// After the word `max`.
    fn group_next(self, lexeme: Lexeme) -> Result<Move, BadFormula>
        requires { self.operands < 2 ^ 64 - 1 }
        ensures next { result ≡ group_next self lexeme }
        ensures few { IfOk result (λ m. m.state.operands ≤ self.operands + counted lexeme) }
    {
        match lexeme {
            Lexeme::Open => self.opened(1, Part::Greatest),
            _ => Err(BadFormula::Operand(self.operands + 1)),
        }
    }

    /// After a slash.
    fn divisor_next(self, lexeme: Lexeme) -> Result<Move, BadFormula>
        requires { self.operands < 2 ^ 64 - 1 }
        ensures next { result ≡ divisor_next self lexeme }
        ensures few { IfOk result (λ m. m.state.operands ≤ self.operands + counted lexeme) }
    {
        match lexeme {
            Lexeme::Name(Operand::Number(k)) => self.divided(k),
            _ => Err(BadFormula::Divisor(self.operands + 1)),
        }
    }

    /// After an operand.
    fn sign_next(self, lexeme: Lexeme) -> Result<Move, BadFormula>
        ensures next { result ≡ sign_next self lexeme }
        ensures few { IfOk result (λ m. m.state.operands ≤ self.operands + counted lexeme) }
    {
        match lexeme {
            Lexeme::Plus => Ok(self.needs(Need::Operand, Some(Part::Plus))),
            Lexeme::Times => Ok(self.needs(Need::Operand, Some(Part::Times))),
            Lexeme::Slash => Ok(self.needs(Need::Divisor, None)),
            Lexeme::Comma => self.next_of_max(),
            Lexeme::Close => self.after_group(),
            _ => Err(BadFormula::Sign(self.operands)),
        }
    }

    /// Something else has to come next.
    fn needs(self, need: Need, part: Option<Part>) -> Move
        ensures needs { Ok result ≡ needs self need part }
        ensures same { result.state.operands ≡ self.operands }
    {
        Move {
            state: State { need, ..self },
            part,
        }
    }

    /// A parenthesis opens, with the digit of its kind.
    #[tactic(auto, unfolding(crate::specs::FormulaTexts::opened))]
    fn opened(self, kind: u64, part: Part) -> Result<Move, BadFormula>
        requires operands { self.operands < 2 ^ 64 - 1 }
        requires kind { kind ≤ 1 }
        ensures next { result ≡ opened self kind part }
        ensures few { IfOk result (λ m. m.state.operands ≤ self.operands) }
    {
        if self.groups < 4_294_967_296 {
            Ok(Move {
                state: State {
                    need: Need::Operand,
                    groups: self.groups * 2 + kind,
                    ..self
                },
                part: Some(part),
            })
        } else {
            Err(BadFormula::Depth(self.operands + 1))
        }
    }

    /// The product before is divided by a number.
    #[tactic(auto, unfolding(crate::specs::FormulaTexts::divided))]
    fn divided(self, k: u64) -> Result<Move, BadFormula>
        requires { self.operands < 2 ^ 64 - 1 }
        ensures next { result ≡ divided self k }
        ensures few { IfOk result (λ m. m.state.operands ≤ self.operands + 1) }
    {
        match self.divisors.checked_mul(k) {
            Some(divisors) => if 0 < divisors && divisors < 4_294_967_296 {
                Ok(Move {
                    state: State {
                        need: Need::Sign,
                        divisors,
                        operands: self.operands + 1,
                        ..self
                    },
                    part: Some(Part::Over(k)),
                })
            } else {
                Err(BadFormula::Divisor(self.operands + 1))
            },
            None => Err(BadFormula::Divisor(self.operands + 1)),
        }
    }

    /// A comma.
    #[tactic(auto, unfolding(crate::specs::FormulaTexts::next_of_max))]
    fn next_of_max(self) -> Result<Move, BadFormula>
        ensures next { result ≡ next_of_max self }
        ensures few { IfOk result (λ m. m.state.operands ≤ self.operands) }
    {
        if 1 < self.groups && self.groups % 2 == 1 {
            Ok(self.needs(Need::Operand, Some(Part::Comma)))
        } else {
            Err(BadFormula::Sign(self.operands))
        }
    }

    /// A parenthesis that closes.
    #[tactic(auto, unfolding(crate::specs::FormulaTexts::after_group))]
    fn after_group(self) -> Result<Move, BadFormula>
        ensures next { result ≡ after_group self }
        ensures few { IfOk result (λ m. m.state.operands ≤ self.operands) }
    {
        if 1 < self.groups {
            Ok(Move {
                state: State {
                    need: Need::Sign,
                    groups: self.groups / 2,
                    ..self
                },
                part: Some(Part::Close),
            })
        } else {
            Err(BadFormula::Sign(self.operands))
        }
    }
}
