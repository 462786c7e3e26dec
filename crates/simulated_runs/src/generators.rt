//! Numbers that are drawn from a seed: the generator splitmix64 (Steele, Lea and Flood, 2014).

ghost use Rattle.std.specs.Prelude.{◌≡◌, ◌<◌, ◌%◌};
ghost use Rattle.simulated_runs.specs.Generators.{drawn, mixed, next_state};

use std::marker::Model;

/// A generator of numbers of 64 bits. What it draws follows from its seed.
#[derive(Debug, Drop)]
pub struct Generator {
    state: u64,
}

impl Model for Generator {
    ghost use Rattle.std.specs.Prelude.{ℕ};

    ghost Value = { ℕ };

    ghost view = { λ g. g.state };
}

impl Generator {
    /// The generator of a seed.
    pub fn new(seed: u64) -> Self
        ensures { result ≡ seed }
    {
        Generator { state: seed }
    }

    /// The next number.
    pub fn next(&mut self) -> u64
        ensures drawn { result ≡ drawn self.old }
        ensures state { self.new ≡ next_state self.old }
    {
        self.state = next_state(self.state);
        mixed(self.state)
    }

    /// A number below `n`: the rest of the next number by `n`. Asks for an `n` above 0.
    pub fn below(&mut self, n: u64) -> u64
        requires { 0 < n }
        ensures drawn { result ≡ drawn self.old % n }
        ensures below { result < n }
        ensures state { self.new ≡ next_state self.old }
    {
        self.next() % n
    }
}

/// The state after a draw.
fn next_state(state: u64) -> u64
    ensures { result ≡ next_state state }
{
    state.wrapping_add(0x9e37_79b9_7f4a_7c15)
}

/// The number that a state gives.
fn mixed(state: u64) -> u64
    ensures { result ≡ mixed state }
{
    let once = (state ^ (state >> 30)).wrapping_mul(0xbf58_476d_1ce4_e5b9);
    let twice = (once ^ (once >> 27)).wrapping_mul(0x94d0_49bb_1331_11eb);
    twice ^ (twice >> 31)
}
