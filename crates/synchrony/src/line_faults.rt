//! The fault that a refused command line is.

ghost use Rattle.std.specs.Prelude.{◌≡◌};
ghost use Rattle.synchrony.specs.LineFaults.{fault_of_line};

use command_faults::Fault;
use command_line::LineError;

/// The fault of a command line that gives no job.
pub fn refused_line(why: LineError) -> Fault
    ensures { result ≡ fault_of_line why }
{
    match why {
        LineError::Refused(words) => Fault::Command(words),
        LineError::Memory => Fault::Memory,
    }
}
