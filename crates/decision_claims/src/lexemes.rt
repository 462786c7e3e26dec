//! The words and signs of a formula's text.

ghost use Rattle.std.specs.Prelude.{◌≡◌, ◌≤◌, length, bytes_eq};
ghost use Rattle.decision_claims.specs.FormulaTexts.{IsPieceEnd, is_sign, name_of, sign_lexeme, word_lexeme};

use crate::formulas::Operand;
use step_trace::read_number;

/// A word or a sign of a formula's text.
#[derive(Clone, Copy)]
pub(crate) enum Lexeme {
    /// A number of 64 bits, `delta`, `phi`, `n` or `t`.
    Name(Operand),
    /// The word `max`.
    Max,
    /// Any other word.
    Unknown,
    Plus,
    Times,
    Slash,
    Open,
    Comma,
    Close,
}

/// Where the piece that begins here ends: at the next sign, or at the end of the text.
pub(crate) fn piece_end(text: &[u8], from: usize) -> usize
    requires { from ≤ length text.now }
    ensures { IsPieceEnd text.now from result }
{
    for k in from..text.len() {
        if is_sign(text[k]) {
            return k;
        }
    }
    text.len()
}

/// Whether a byte is a sign: one of `+*/(),`.
#[tactic(auto, unfolding(crate::specs::FormulaTexts::is_sign))]
fn is_sign(byte: u8) -> bool
    ensures { result ≡ is_sign byte }
{
    byte == b'+' || byte == b'*' || byte == b'/' || byte == b'(' || byte == b')' || byte == b','
}

/// The sign that a byte is.
#[tactic(auto, unfolding(crate::specs::FormulaTexts::sign_lexeme))]
pub(crate) fn sign_lexeme(byte: u8) -> Lexeme
    ensures { result ≡ sign_lexeme byte }
{
    match byte {
        b'+' => Lexeme::Plus,
        b'*' => Lexeme::Times,
        b'/' => Lexeme::Slash,
        b'(' => Lexeme::Open,
        b',' => Lexeme::Comma,
        _ => Lexeme::Close,
    }
}

/// What a word is.
pub(crate) fn word_lexeme(word: &[u8]) -> Lexeme
    ensures { result ≡ word_lexeme word.now }
{
    match read_number(word) {
        Some(k) => Lexeme::Name(Operand::Number(k)),
        None => name_of(word),
    }
}

/// What a word is that is no number.
fn name_of(word: &[u8]) -> Lexeme
    ensures { result ≡ name_of word.now }
{
    if is_same(word, b"delta") {
        return Lexeme::Name(Operand::Delta);
    }
    if is_same(word, b"phi") {
        return Lexeme::Name(Operand::Phi);
    }
    if is_same(word, b"n") {
        return Lexeme::Name(Operand::Processors);
    }
    if is_same(word, b"t") {
        return Lexeme::Name(Operand::Faults);
    }
    if is_same(word, b"max") {
        return Lexeme::Max;
    }
    Lexeme::Unknown
}

/// Whether two texts are the same.
fn is_same(a: &[u8], b: &[u8]) -> bool
    ensures { result ≡ bytes_eq a.now b.now }
{
    a == b
}
