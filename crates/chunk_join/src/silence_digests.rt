//! The silences of a part without those that later ones make needless.

ghost use Rattle.std.specs.Prelude.{◌≡◌, ◌<◌, ◌≤◌, length, take, drop};
ghost use Rattle.chunk_join.specs.Thinning.{weight_of, stays, kept_with, thinned};
ghost use Rattle.chunk_join.specs.Digests.{reaches_edge, gap_long};

use step_trace::Gap;

/// Leaves the silences that reach tick `from` or tick `to`, and of the others those that are longer than all later
/// ones.
pub(crate) fn thin_silences(silent: &mut Vec<Gap>, from: u64, to: u64)
    ensures { silent.new.items ≡ thinned (reaches_edge from to) gap_long silent.old.items }
{
    let start = gather_silences(silent, from, to);
    let left = silent.len() - start;
    silent.rotate_left(start);
    silent.truncate(left);
}

/// Moves those to the end, and gives where they begin.
fn gather_silences(silent: &mut [Gap], from: u64, to: u64) -> usize
    ensures within { result ≤ length silent.old }
    ensures kept { drop result silent.new ≡ thinned (reaches_edge from to) gap_long silent.old }
{
    let mut start = silent.len();
    let mut longest = 0;
    for k in (0..silent.len()).rev() {
        let silence = silent[k];
        start = put_silence(silent, k, start, from, to, longest, silence);
        longest = longest.max(long_of(from, to, &silence));
    }
    start
}

/// Puts a silence before those from place `start` on, if it stays, and gives where they begin then.
fn put_silence(
    silent: &mut [Gap],
    k: usize,
    start: usize,
    from: u64,
    to: u64,
    longest: u64,
    silence: Gap,
) -> usize
    requires low { k < start }
    requires high { start ≤ length silent.old }
    ensures low { k ≤ result }
    ensures high { result ≤ start }
    ensures front { take k silent.new ≡ take k silent.old }
    ensures kept { drop result silent.new ≡ kept_with
        (reaches_edge from to) gap_long longest silence (drop start silent.old) }
{
    if !stays(from, to, longest, &silence) {
        return start;
    }
    silent[start - 1] = silence;
    start - 1
}

/// Whether the silence stays, if the later ones inside the part are no longer than this.
fn stays(from: u64, to: u64, longest: u64, silence: &Gap) -> bool
    ensures { result ≡ stays (reaches_edge from to) gap_long longest silence.now }
{
    if reaches_edge(from, to, silence) {
        return true;
    }
    longest < silence.to.saturating_sub(silence.from - 1)
}

/// The length of a silence inside the part.
fn long_of(from: u64, to: u64, silence: &Gap) -> u64
    ensures { result ≡ weight_of (reaches_edge from to) gap_long silence.now }
{
    if reaches_edge(from, to, silence) {
        return 0;
    }
    silence.to.saturating_sub(silence.from - 1)
}

/// Whether the silence reaches the first or the last of these ticks.
fn reaches_edge(from: u64, to: u64, silence: &Gap) -> bool
    ensures { result ≡ reaches_edge from to silence.now }
{
    silence.from <= from || to <= silence.to
}
