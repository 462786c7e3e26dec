//! Round numbers for axes.

ghost use Rattle.std.specs.Prelude.{◌≡◌, ◌≤◌};
ghost use Rattle.run_words.specs.RoundNumbers.{round_step};

/// The steps between round numbers.
const STEPS: [u64; 19] = [
    1, 2, 5, 10, 20, 50, 100, 200, 500, 1_000, 2_000, 5_000, 10_000, 20_000, 50_000, 100_000,
    200_000, 500_000, 1_000_000,
];

/// The least round step of which at most `most` fit into `limit`, or 1,000,000.
pub fn round_step(limit: u64, most: u64) -> u64
    ensures value { result ≡ round_step limit most }
    ensures positive { 1 ≤ result }
{
    for step in &STEPS {
        if limit / (*step).max(1) <= most {
            return (*step).max(1);
        }
    }
    1_000_000
}
