//! Formulas, with values that were found by hand. Texts that are none are cases of `tests/cases/judgements.cases`.

use decision_claims::{Words, parse_formula};
use std::alloc::Global;

const WORDS: Words = Words {
    delta: 2,
    phi: 5,
    n: 3,
    t: 1,
};

/// Texts, and their values up to 1000.
const VALUES: &[(&str, u64)] = &[
    ("12*phi*n + 3*delta + 40", 226),
    ("0", 0),
    (" t+1 * 7\t", 8),
    ("2*3*4+5*6", 54),
    ("999", 999),
    ("1000", 1000),
    ("1001", 1000),
    ("18446744073709551615*18446744073709551615", 1000),
    ("18446744073709551615*0+n", 3),
    ("max(delta, phi)", 5),
    ("max(1, n, delta) * 2", 6),
    ("2 * (n + 1)", 8),
    ("((phi))", 5),
    ("max( n )", 3),
    ("(delta + phi) / 2", 4),
    ("phi / 2 * n", 9),
    ("n * phi / 2", 8),
    ("phi / 2 / 2", 2),
    ("0 / 7", 0),
    ("1 + max(delta * (n + t), phi) / 3", 4),
    ("max(0, max(1, 2), 1) + max(3, 2)", 5),
    ("18446744073709551615 * 2000 / 4294967295 / 1", 1000),
    ("2000 * 4294967295 / 4294967295", 1000),
    ("999 * 4294967295 / 4294967295", 999),
];

/// The value of a text up to 1000, if it is a formula.
fn value_of(alloc: Global, text: &str) -> Option<u64> {
    match parse_formula(alloc, text.as_bytes()) {
        Ok(formula) => Some(formula.capped_value(WORDS, 1000)),
        Err(_) => None,
    }
}

#[test]
fn values(rt: HostRuntime) {
    for &(text, value) in VALUES {
        assert!(rt; value_of(rt.alloc(), text) == Some(value), "{text}");
    }
}
