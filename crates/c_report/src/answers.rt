//! What a caller is answered: the exit statuses of the program, and one more number for what no process meets. And
//! which processors a caller names as correct.

ghost use Rattle.std.specs.Prelude.{◌≡◌};
ghost use Rattle.c_report.specs.CorrectMasks.{correct_of};

use step_trace::{Correct, ProcSet};

/// The report is in the caller's buffer.
pub const DONE: u32 = 0;
/// The rows are the certificate of the trace; the line that says so is in the caller's buffer.
pub const YES: u32 = 0;
/// The rows are no certificate; the line that says why is in the caller's buffer.
pub const NO: u32 = 1;
/// The set has a member that the trace hasn't.
pub const BAD_SET: u32 = 2;
/// The trace text encodes no trace; the caller's buffer has the reason, as far as it fits.
pub const BAD_TRACE: u32 = 3;
/// The certificate encodes no rows; the caller's buffer has the reason, as far as it fits.
pub const BAD_CERTIFICATE: u32 = 4;
/// Out of memory.
pub const NO_MEMORY: u32 = 5;
/// The answer is longer than the caller's room. No exit status of the program is the same.
pub const NO_ROOM: u32 = 9;

/// The mask that names all processors of a trace, however many there are.
pub const ALL: u64 = u64::MAX;

/// The processors that a mask names: all of the trace, or those whose bits are set.
pub(crate) fn correct_of(mask: u64) -> Correct
    ensures { result ≡ correct_of mask }
{
    if mask == ALL {
        return Correct::All;
    }
    Correct::These(ProcSet::of_mask(mask))
}
