//! The silences of two parts that follow one another.

ghost use Rattle.std.specs.Prelude.{◌≡◌, ◌+◌, ◌++◌, ◌≤◌, ◌<◌, length, map, filter, find};
ghost use Rattle.std.specs.Prelude.{take, drop, vec_len, vec_capacity, Contains};
ghost use Rattle.step_trace.specs.declared.rows.Gap.{Gap};
ghost use Rattle.step_trace.specs.declared.traces.TheConstants.{MAX_TICKS};
ghost use Rattle.chunk_join.specs.Summaries.{Rises, EndsBefore};
ghost use Rattle.chunk_join.specs.Parts.{meets, goes_on, stops, reach_back};

use step_trace::Gap;

/// How many of these silences, which are in the order of their ends, end before tick `seam`.
pub(crate) fn ended_before(silent: &[Gap], seam: u64) -> usize
    requires { Rises EndsBefore silent.now }
    ensures within { result ≤ length silent.now }
    ensures ended { (w : Gap) → Contains (take result silent.now) w → w.to < seam }
{
    silent.partition_point(|silence| silence.to < seam)
}

/// Joins the silences of a part that ends at tick `seam` with those of the part that follows, for which there is
/// room. The `tail` of the left part, from place `start` on, has those that may end at the seam.
pub(crate) fn join_silences(
    left: &mut Vec<Gap>,
    start: usize,
    tail: &[Gap],
    seam: u64,
    right: &[Gap],
)
    requires room { vec_len left.old + length right.now ≤ vec_capacity left.old }
    requires start { start ≤ length left.old.items }
    requires tail { tail.now ≡ drop start left.old.items }
    requires ended { (w : Gap) → Contains (take start left.old.items) w → w.to < seam }
    requires limit { seam ≤ MAX_TICKS }
    ensures { left.new.items ≡ filter (stops seam right.now) left.old.items
        ++ map (reach_back seam left.old.items) right.now }
{
    left.truncate(start);
    append_stopping(left, tail, seam, right);
    append_reached(left, tail, seam, right);
}

/// Appends the silences of the left part that don't go on in the right one.
fn append_stopping(left: &mut Vec<Gap>, tail: &[Gap], seam: u64, right: &[Gap])
    requires room { vec_len left.old + length tail.now ≤ vec_capacity left.old }
    requires limit { seam ≤ MAX_TICKS }
    ensures items { left.new.items ≡ left.old.items ++ filter (stops seam right.now) tail.now }
    ensures len { vec_len left.new ≤ vec_len left.old + length tail.now }
    ensures capacity { vec_capacity left.new ≡ vec_capacity left.old }
{
    for silence in tail {
        if !goes_on(seam, silence, right) {
            left.push_reserved(*silence);
        }
    }
}

/// Appends the silences of the right part, each from where it began in the left one.
fn append_reached(left: &mut Vec<Gap>, tail: &[Gap], seam: u64, right: &[Gap])
    requires room { vec_len left.old + length right.now ≤ vec_capacity left.old }
    requires limit { seam ≤ MAX_TICKS }
    ensures { left.new.items ≡ left.old.items ++ map (reach_back seam tail.now) right.now }
{
    for silence in right {
        left.push_reserved(reach_back(tail, seam, *silence));
    }
}

/// Whether the first silence ends at the seam, and the second goes on with it.
fn meets(seam: u64, first: &Gap, second: &Gap) -> bool
    requires { seam ≤ MAX_TICKS }
    ensures { result ≡ meets seam first.now second.now }
{
    first.proc == second.proc && first.to == seam && second.from == seam + 1
}

/// Whether a silence of the left part goes on in the right one.
fn goes_on(seam: u64, silence: &Gap, right: &[Gap]) -> bool
    requires { seam ≤ MAX_TICKS }
    ensures { result ≡ goes_on seam right.now silence.now }
{
    right.iter().any(|second| meets(seam, silence, second))
}

/// The silence of the left part with which this one goes on.
fn begun(left: &[Gap], seam: u64, silence: Gap) -> Option<Gap>
    requires { seam ≤ MAX_TICKS }
    ensures { result ≡ find (λ w. meets seam w silence) left.now }
{
    left.iter()
        .copied()
        .find(|first| meets(seam, first, &silence))
}

/// A silence of the right part, from where it began in the left one.
fn reach_back(left: &[Gap], seam: u64, silence: Gap) -> Gap
    requires { seam ≤ MAX_TICKS }
    ensures { result ≡ reach_back seam left.now silence }
{
    match begun(left, seam, silence) {
        Some(first) => Gap {
            from: first.from,
            ..silence
        },
        None => silence,
    }
}
