//! A text that is read whole.

ghost use Rattle.std.specs.Prelude.{◌≡◌, ◌≢◌, ◌≤◌, length, IfOk, IfErr, IfSome, OnOk};
ghost use Rattle.trace_text.specs.declared.byte_loops.TheConstants.{MAX_TEXT_BYTES};
ghost use Rattle.text_commands.specs.Serving.{IsAtEnd, IsReadFault, faults_of, inner_of};
ghost use Rattle.text_commands.specs.Texts.{IsUnreadWhole};

use command_faults::Fault;
use std::alloc::Global;
use std::io::Read;
use trace_text::{Counting, TextError, read_all};

/// All bytes that a reader has left, if they are at most `MAX_TEXT_BYTES`.
///
/// Refuses Read at the first fault, and `too_large`, which is another fault, once more bytes were read. Memory may come
/// instead.
pub(crate) fn read_whole<R: Read>(
    alloc: Global,
    reader: &mut Counting<R>,
    too_large: Fault,
) -> Result<Vec<u8>, Fault>
    requires { too_large ≢ Fault.Read }
    ensures text { IfOk result
        (λ text. IfSome (R.remaining (inner_of reader.old)) (λ known. text.items ≡ known)) }
    ensures limit { IfOk result (λ text. length text.items ≤ MAX_TEXT_BYTES) }
    ensures end { OnOk result (IsAtEnd (R.remaining (inner_of reader.new))) }
    ensures faultless { OnOk result (faults_of reader.new ≡ faults_of reader.old) }
    ensures refused { IfErr result (IsUnreadWhole too_large (R.remaining (inner_of reader.old))) }
    ensures read { IfErr result (IsReadFault (faults_of reader.old) (faults_of reader.new)) }
{
    match read_all(alloc, reader) {
        Ok(text) => Ok(text),
        Err(TextError::TooLarge) => Err(too_large),
        Err(TextError::Read) => Err(Fault::Read),
        Err(_) => Err(Fault::Memory),
    }
}
