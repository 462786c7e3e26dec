//! Until when each processor may step.

ghost use Rattle.std.specs.Prelude.{ℕ, ◌≡◌, ◌+◌, ◌-◌, ◌<◌, ◌≤◌, IfOk, IfSome};
ghost use Rattle.std.specs.Prelude.{IfNone, length};
ghost use Rattle.command_options.specs.Simulations.{live};
ghost use Rattle.simulated_runs.specs.Crashes.{IsSomeUp, IsUpIn, last_tick, lasts_of};

use command_options::{Crash, is_live};
use std::alloc::{AllocError, Global};

/// The processors that never crash, of `n`.
pub(crate) fn live(alloc: Global, n: u64, crashes: &[Crash]) -> Result<Vec<u64>, AllocError>
    ensures { IfOk result (λ found. found.items ≡ live n crashes.now) }
{
    let mut live = Vec::new(alloc);
    for i in 0..n {
        if is_live(crashes, i + 1) {
            live.push(i + 1)?;
        }
    }
    Ok(live)
}

/// For each of `n` processors the last tick in which it may step.
pub(crate) fn last_ticks(alloc: Global, n: u64, crashes: &[Crash]) -> Result<Vec<u64>, AllocError>
    ensures { IfOk result (λ lasts. lasts.items ≡ lasts_of n crashes.now) }
{
    let mut lasts = Vec::new(alloc);
    for i in 0..n {
        lasts.push(last_tick(crashes, i + 1))?;
    }
    Ok(lasts)
}

/// The last tick in which processor `p` may step: the least one of its crashes.
fn last_tick(crashes: &[Crash], p: u64) -> u64
    ensures { result ≡ last_tick crashes.now p }
{
    let mut last = u64::MAX;
    for crash in crashes {
        if crash.proc == p {
            last = last.min(crash.tick);
        }
    }
    last
}

/// The first processor that may step in this tick, from p on and then from 1 on. If none may, it is p.
pub(crate) fn up_from(lasts: &[u64], p: u64, tick: u64) -> u64
    requires low { 1 ≤ p }
    requires high { p ≤ length lasts.now }
    ensures up { IsSomeUp lasts.now tick → IsUpIn lasts.now result tick }
    ensures low { 1 ≤ result }
    ensures high { result ≤ length lasts.now }
{
    match first_up(lasts, p, lasts.len() as u64 + 1, tick) {
        Some(q) => q,
        None => first_up(lasts, 1, p, tick).unwrap_or(p),
    }
}

/// The first processor from one to before another that may step in this tick.
fn first_up(lasts: &[u64], from: u64, to: u64, tick: u64) -> Option<u64>
    requires low { 1 ≤ from }
    requires high { to ≤ length lasts.now + 1 }
    ensures up { IfSome result (λ q. IsUpIn lasts.now q tick) }
    ensures none { IfNone result ((q : ℕ) → from ≤ q → q < to → IsUpIn lasts.now q tick → ⊥) }
{
    for q in from..to {
        if tick <= lasts[(q - 1) as usize] {
            return Some(q);
        }
    }
    None
}
