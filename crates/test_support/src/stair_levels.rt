//! Levels and rows as plain numbers. A level is written [delta, sent, missed, phi, proc, from, to], and a row as in a
//! report, [gst, delta, phi, sent, missed, proc, from, to], with 0 for none.

use step_trace::{Gap, Miss, Row};
use suffix_staircase::{Level, Stairs};

/// The level that is so written.
fn level_of(numbers: [u64; 7]) -> Level {
    let [delta, sent, missed, phi, proc, from, to] = numbers;
    Level {
        delta,
        miss: (sent != 0).then_some(Miss { sent, missed }),
        phi,
        gap: (proc != 0).then_some(Gap { proc, from, to }),
    }
}

/// The row that is so written.
fn row_of(numbers: [u64; 8]) -> Row {
    let [gst, delta, phi, sent, missed, proc, from, to] = numbers;
    Row {
        gst,
        delta,
        phi,
        miss: (sent != 0).then_some(Miss { sent, missed }),
        gap: (proc != 0).then_some(Gap { proc, from, to }),
    }
}

/// The rows of the report of never-delivered if both processors are correct.
pub fn never_delivered_rows() -> [Row; 3] {
    [
        row_of([1, 5, 3, 1, 5, 1, 4, 5]),
        row_of([2, 1, 3, 0, 0, 1, 4, 5]),
        row_of([5, 1, 2, 0, 0, 1, 5, 5]),
    ]
}

/// Whether the stairs have these levels at these ticks.
pub fn has_levels_at(stairs: &Stairs, levels: &[(u64, [u64; 7])]) -> bool {
    for &(g, level) in levels {
        if g == 0 || g > stairs.len() as u64 || stairs.at(g) != level_of(level) {
            return false;
        }
    }
    true
}
