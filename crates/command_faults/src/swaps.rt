//! Two files that may be swapped on the command line, or in a list.

ghost use Rattle.std.specs.Prelude.{◌≡◌};
ghost use Rattle.command_faults.specs.Swaps.{begins_as_trace, fault_of_swapped};

use crate::faults::Fault;
use trace_text::TextError;

/// What the text of a trace begins with.
const TRACE_START: &[u8] = b"dls-trace,";

/// The same fault of a judgement, or that its two files may be swapped: the trace is refused for its header, and the
/// text of decisions begins as a trace does.
pub fn swapped(fault: Fault, decisions: &[u8]) -> Fault
    ensures { result ≡ fault_of_swapped fault (begins_as_trace decisions.now) }
{
    match fault {
        Fault::Trace(TextError::BadHeader) if begins_as_trace(decisions) => Fault::Swapped,
        fault => fault,
    }
}

/// Whether a text begins as that of a trace.
fn begins_as_trace(text: &[u8]) -> bool
    ensures { result ≡ begins_as_trace text.now }
{
    text.starts_with(TRACE_START)
}
