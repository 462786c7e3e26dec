//! Phases, parts and owners of rounds.

ghost use Rattle.std.specs.Prelude.{◌≡◌, ◌≤◌};
ghost use Rattle.lock_phases.specs.Rounds.{phase_of, part_of, owner};

/// The phase of a round, both counted from 1 (section 3 of the 1988 paper). Phase k is the trying
/// rounds 4k-3, 4k-2 and 4k-1 and the lock-release round 4k.
pub fn phase_of(round: u64) -> u64
    requires { 1 ≤ round }
    ensures { result ≡ phase_of round }
{
    (round - 1) / 4 + 1
}

/// Which of the four rounds of its phase a round is, from 1 to 4.
pub fn part_of(round: u64) -> u64
    requires { 1 ≤ round }
    ensures value { result ≡ part_of round }
    ensures low { 1 ≤ result }
    ensures high { result ≤ 4 }
{
    (round - 1) % 4 + 1
}

/// The processor, of `n`, to which a phase belongs: they take turns.
pub fn owner(n: u64, phase: u64) -> u64
    requires processors { 1 ≤ n }
    requires positive { 1 ≤ phase }
    ensures value { result ≡ owner n phase }
    ensures low { 1 ≤ result }
    ensures high { result ≤ n }
{
    (phase - 1) % n + 1
}
