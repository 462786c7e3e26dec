//! Simulated runs: the trace that is printed, and the lines of who decided, and of a run that is too short.

ghost use Rattle.std.specs.Prelude.{ℕ, List, IfOk, IfErr, OnOk, OnErr, ◌≡◌, ◌++◌, IsTrue, string_bytes};
ghost use Rattle.std.specs.Io.KnownBytes.{Appends};
ghost use Rattle.trace_text.specs.ByteLoops.{WasFaultless};
ghost use Rattle.trace_text.specs.Faults.{inner_of, is_flushed};
ghost use Rattle.command_faults.specs.Printing.{IsWriteFault, WentOut};
ghost use Rattle.node_runs.specs.DecisionLines.{told_decisions};
ghost use Rattle.node_runs.specs.Runs.{IsUnwrittenRun};
ghost use Rattle.node_runs.specs.Simulations.{IsFaultOfSimulating, IsFaultOfSimulation};
ghost use Rattle.node_runs.specs.Simulations.{IsSimulated, IsSimulationText, early_note};

use crate::decision_lines::decisions_text;
use command_faults::{Fault, print_notes};
use command_options::SimulationOptions;
use simulated_runs::simulate;
use std::alloc::{AllocError, Global};
use std::fmt;
use std::io::Write;
use step_buffers::{StepError, World};
use trace_text::{Counting, write_trace};

/// Simulates the run that is asked for, writes the text of its trace, and then notes who decided what, and in which
/// tick, and whether the run ends before its bounds hold. Nothing is written before the run is whole; that the notes
/// can't be written stops nothing.
///
/// Refuses Memory; NotARun(0) if a step is refused; and Write with the number of bytes that went out before.
pub fn run_simulation<W: Write, N: Write>(
    alloc: Global,
    options: SimulationOptions,
    writer: &mut Counting<W>,
    notes: &mut Counting<N>,
) -> Result<(), Fault>
    ensures run { OnOk result
        ((text : List ℕ) × IsSimulationText options (WentOut N.contents notes.old notes.new) text
        × Appends (W.contents (inner_of writer.old)) (W.contents (inner_of writer.new)) text) }
    ensures flushed { OnOk result (IsTrue (is_flushed writer.new)) }
    ensures faultless { OnOk result (WasFaultless writer.old writer.new) }
    ensures own { IfErr result IsFaultOfSimulation }
    ensures part { IfErr result
        (IsUnwrittenRun (IsSimulated options) (W.contents (inner_of writer.old))
        (W.contents (inner_of writer.new))) }
    ensures unwritten { IfErr result (IsWriteFault writer.old writer.new) }
    ensures quiet { OnErr result (notes.new ≡ notes.old) }
{
    let early = early_text(alloc, &options)?;
    let world = simulated(alloc, options)?;
    let noted = noted_of(alloc, &world, early)?;
    write_trace(alloc, world.trace(), writer)?;
    print_notes(noted.as_str(), notes);
    Ok(())
}

/// The line of who decided in the run of a World, and then this one.
fn noted_of(alloc: Global, world: &World, early: String) -> Result<String, AllocError>
    ensures { IfOk result (λ text. string_bytes text
        ≡ told_decisions world.now.trace.config world.now.trace.steps ++ string_bytes early) }
{
    let mut noted = decisions_text(alloc, world)?;
    noted.push_str(early.as_str())?;
    Ok(noted)
}

/// The line of a run that ends before the bounds that it is to keep hold, with its line feed; nothing for another run.
fn early_text(alloc: Global, options: &SimulationOptions) -> Result<String, AllocError>
    ensures { IfOk result (λ text. string_bytes text ≡ early_note options.now) }
{
    let Some(bounds) = options.bounds else {
        return Ok(String::new(alloc));
    };
    if bounds.gst < options.steps {
        return Ok(String::new(alloc));
    }
    EarlyLine {
        last: options.steps,
        first: bounds.gst + 1,
    }
    .to_string(alloc)
}

/// The last tick of a run, and the first in which its bounds would hold.
#[derive(Clone, Copy)]
struct EarlyLine {
    last: u64,
    first: u64,
}

impl fmt::Display for EarlyLine {
    ghost use Rattle.std.specs.Prelude.{Some};
    ghost use Rattle.node_runs.specs.Simulations.{early_line};

    ghost output = { λ line. Some (early_line line.last line.first) };

    fn fmt<W: fmt::Write>(&self, f: &mut fmt::Formatter<W>) -> fmt::Result {
        writeln!(
            f,
            "synchrony: the run ends in tick {}, and the bounds hold from tick {} on",
            self.last, self.first
        )
    }
}

/// The World that made the run that is asked for.
fn simulated(alloc: Global, options: SimulationOptions) -> Result<World, Fault>
    ensures run { IfOk result (λ world. IsSimulated options world.trace) }
    ensures own { IfErr result IsFaultOfSimulating }
{
    match simulate(alloc, options) {
        Ok(world) => Ok(world),
        Err(StepError::Memory) => Err(Fault::Memory),
        Err(_) => Err(Fault::NotARun(0, None)),
    }
}
