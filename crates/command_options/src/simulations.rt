//! What a simulated run is asked for.

ghost use Rattle.std.specs.Prelude.{◌≡◌, ◌+◌, ◌≤◌, All, length};
ghost use Rattle.std.specs.List.{list_any};
ghost use Rattle.std.specs.Option.{ForSome};
ghost use Rattle.step_trace.specs.Configurations.{IsProc};
ghost use Rattle.step_trace.specs.declared.traces.TheConstants.{MAX_STEPS};
ghost use Rattle.command_options.specs.Simulations.{is_crash_of, is_live, live};
ghost use Rattle.command_options.specs.declared.simulations.TheConstants.{MAX_BOUND};

use step_trace::Config;

/// The greatest stabilization time, and the greatest bound, that may be stated.
pub const MAX_BOUND: u64 = 1_000_000;

/// Who is named for the next step of a simulated run.
#[derive(Clone, Copy, Debug, PartialEq, Eq)]
pub enum Schedule {
    /// Each processor, one after the other.
    Turns,
    /// Any processor, drawn anew for each step.
    Random,
    /// One processor for as many steps as are drawn, then another one.
    Bursts,
}

/// The bounds that a simulated run keeps for its live processors, in ticks.
#[derive(Clone, Copy, Debug)]
pub struct StatedBounds {
    /// The tick after which the run keeps them.
    pub gst: u64,
    /// The communication bound.
    pub delta: u64,
    /// The processor bound.
    pub phi: u64,
    ghost early: { gst ≤ MAX_BOUND },
    ghost some: { 1 ≤ delta },
    ghost soon: { delta ≤ MAX_BOUND },
    ghost often: { phi ≤ MAX_BOUND },
}

/// A processor that crashes, and the last tick in which it may step.
#[derive(Clone, Copy, Debug)]
pub struct Crash {
    pub proc: u64,
    pub tick: u64,
}

/// Whether processor `p` never crashes.
pub fn is_live(crashes: &[Crash], p: u64) -> bool
    ensures { result ≡ is_live crashes.now p }
{
    !has_crash(crashes, p)
}

/// Whether one of these is a crash of processor `p`.
fn has_crash(crashes: &[Crash], p: u64) -> bool
    ensures { result ≡ list_any (is_crash_of p) crashes.now }
{
    crashes.iter().any(|crash| is_crash_of(crash, p))
}

/// Whether a crash is one of processor `p`.
fn is_crash_of(crash: &Crash, p: u64) -> bool
    ensures { result ≡ is_crash_of p crash.now }
{
    crash.proc == p
}

/// What a simulated run is asked for.
#[derive(Debug, Drop)]
pub struct SimulationOptions {
    /// The processors and their initial values.
    pub config: Config,
    /// How many Receives a round takes at most.
    pub patience: u64,
    /// How many steps are made, one in each tick.
    pub steps: u64,
    /// The seed of all that is drawn.
    pub seed: u64,
    /// Who is named for each step.
    pub schedule: Schedule,
    /// The bounds that the run keeps, if any are stated.
    pub bounds: Option<StatedBounds>,
    /// The processors that crash; the others are live. At most t crash.
    pub crashes: Vec<Crash>,
    /// Of a hundred messages to other processors, how many are lost on average. They are those sent up to the
    /// stabilization time, or all if no bounds are stated.
    pub loss: u64,
    ghost room: { steps ≤ MAX_STEPS },
    ghost processors: { All (λ crash. IsProc config crash.proc) crashes.items },
    ghost most: { config.n ≤ length (live config.n crashes.items) + config.t },
    ghost kept: { ForSome bounds (λ b. length (live config.n crashes.items) ≤ b.phi) },
}
