//! Texts that are printed: a help text, and the line of a fault.

ghost use Rattle.std.specs.Prelude.{OnOk, IfErr, IsTrue};
ghost use Rattle.std.specs.Io.KnownBytes.{Appends};
ghost use Rattle.trace_text.specs.ByteLoops.{WasFaultless};
ghost use Rattle.trace_text.specs.Faults.{inner_of, is_flushed};
ghost use Rattle.command_faults.specs.FaultLines.{fault_line, ended_line};
ghost use Rattle.command_faults.specs.Printing.{IsUnprinted, IsUntold, IsWriteFault, WentOut};

use crate::fault_lines::told_line;
use crate::faults::Fault;
use std::alloc::Global;
use std::io::Write;
use trace_text::{Counting, write_text};

/// Prints a text, and flushes.
///
/// Refuses only Write, with the number of bytes that went out before: the writer answered a fault, or
/// took no byte.
pub fn print<W: Write>(text: &str, writer: &mut Counting<W>) -> Result<(), Fault>
    ensures whole { OnOk result
        (Appends (W.contents (inner_of writer.old)) (W.contents (inner_of writer.new)) text.now) }
    ensures flushed { OnOk result (IsTrue (is_flushed writer.new)) }
    ensures faultless { OnOk result (WasFaultless writer.old writer.new) }
    ensures part { IfErr result
        (λ why. IsUnprinted why text.now (W.contents (inner_of writer.old))
        (W.contents (inner_of writer.new))) }
    ensures cause { IfErr result (IsWriteFault writer.old writer.new) }
{
    Ok(write_text(text.as_bytes(), writer)?)
}

/// Prints notes on what is printed elsewhere, if it can: that they can't be printed stops nothing.
pub fn print_notes<W: Write>(text: &str, writer: &mut Counting<W>)
    ensures { WentOut W.contents writer.old writer.new text.now }
{
    match write_text(text.as_bytes(), writer) {
        Ok(()) => {}
        Err(_) => {}
    }
}

/// Prints a fault, on a line of its own.
///
/// Refuses Memory if the line can't be allocated, and then nothing is printed; and Write as `print`
/// does.
pub fn tell<W: Write>(alloc: Global, fault: &Fault, writer: &mut Counting<W>) -> Result<(), Fault>
    ensures told { OnOk result (Appends (W.contents (inner_of writer.old))
        (W.contents (inner_of writer.new)) (ended_line (fault_line fault.now))) }
    ensures flushed { OnOk result (IsTrue (is_flushed writer.new)) }
    ensures part { IfErr result
        (λ why. IsUntold why (ended_line (fault_line fault.now)) (W.contents (inner_of writer.old))
        (W.contents (inner_of writer.new))) }
    ensures cause { IfErr result (IsWriteFault writer.old writer.new) }
{
    let line = told_line(alloc, fault)?;
    print(line.as_str(), writer)
}
