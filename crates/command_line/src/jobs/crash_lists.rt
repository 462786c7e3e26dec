//! Crashes, as a command line lists them.

ghost use Rattle.std.specs.Prelude.{◌≡◌, ◌≢◌, ◌≤◌, IfNone, IfOk, IfSome, List, length};
ghost use Rattle.command_options.specs.Simulations.{live};
ghost use Rattle.command_options.specs.declared.simulations.Crash.{Crash};
ghost use Rattle.command_line.specs.CrashLists.{IsCrash64, IsCrashList, crash_text};

use command_options::{Crash, is_live};
use std::alloc::{AllocError, Global};
use step_trace::{Config, read_number};

/// The crashes that a text lists: P@TICK, two numbers as traces write them, with one comma between each two. None if
/// the text is anything else. Memory is the only refusal.
pub fn read_crashes(alloc: Global, text: &str) -> Result<Option<Vec<Crash>>, AllocError>
    ensures crashes { IfOk result
        (λ read. IfSome read (λ crashes. IsCrashList text.now crashes.items)) }
    ensures refused { IfOk result
        (λ read. IfNone read ((crashes : List Crash) → ¬ IsCrashList text.now crashes)) }
{
    let mut crashes = Vec::new(alloc);
    for piece in text.split(',') {
        let Some(crash) = read_crash(piece) else {
            return Ok(None);
        };
        crashes.push(crash)?;
    }
    Ok(Some(crashes))
}

/// The crash that a text names.
fn read_crash(text: &str) -> Option<Crash>
    ensures some { IfSome result (λ crash. text.now ≡ crash_text crash) }
    ensures small { IfSome result IsCrash64 }
    ensures none { IfNone result ((crash : Crash) → IsCrash64 crash → text.now ≢ crash_text crash) }
{
    let (proc, tick) = text.split_once('@')?;
    Some(Crash {
        proc: read_number(proc.as_bytes())?,
        tick: read_number(tick.as_bytes())?,
    })
}

/// How many of the processors never crash.
pub fn live_count(config: &Config, crashes: &[Crash]) -> u64
    ensures count { result ≡ length (live config.now.n crashes.now) }
    ensures most { result ≤ config.now.n }
{
    let mut count = 0;
    for i in 0..config.n() {
        if is_live(crashes, i + 1) {
            count += 1;
        }
    }
    count
}
