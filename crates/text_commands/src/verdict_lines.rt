//! The lines in which verdicts are printed.

ghost use Rattle.std.specs.Prelude.{OnOk, IfErr, IsTrue};
ghost use Rattle.std.specs.Io.KnownBytes.{Appends};
ghost use Rattle.trace_text.specs.ByteLoops.{WasFaultless};
ghost use Rattle.trace_text.specs.Faults.{inner_of, is_flushed};
ghost use Rattle.command_faults.specs.Printing.{IsUntold, IsWriteFault};
ghost use Rattle.text_verdicts.specs.VerdictLines.{told_verdict};

use certificate_checker::Verdict;
use command_faults::{Fault, print};
use std::alloc::Global;
use std::io::Write;
use text_verdicts::verdict_text;
use trace_text::Counting;

/// Writes the line of a verdict, and flushes.
///
/// Refuses Memory, and then nothing is written; and Write with the number of bytes that went out before.
pub fn tell_verdict<W: Write>(
    alloc: Global,
    verdict: Verdict,
    writer: &mut Counting<W>,
) -> Result<(), Fault>
    ensures told { OnOk result (Appends (W.contents (inner_of writer.old))
        (W.contents (inner_of writer.new)) (told_verdict verdict)) }
    ensures flushed { OnOk result (IsTrue (is_flushed writer.new)) }
    ensures faultless { OnOk result (WasFaultless writer.old writer.new) }
    ensures part { IfErr result
        (λ why. IsUntold why (told_verdict verdict) (W.contents (inner_of writer.old))
        (W.contents (inner_of writer.new))) }
    ensures cause { IfErr result (IsWriteFault writer.old writer.new) }
{
    let line = verdict_text(alloc, verdict)?;
    print(line.as_str(), writer)
}
