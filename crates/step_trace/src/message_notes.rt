//! Notes of messages, in a list with a place for each step: that of message s is s.

ghost use Rattle.std.specs.Prelude.{◌≡◌, ◌<◌, All, length};
ghost use Rattle.step_trace.specs.MessageNotes.{AreNoted};

/// Notes a number for these messages.
pub fn note_messages(notes: &mut Vec<u32>, ids: &[u64], number: u32)
    requires { All (λ s. s < length notes.old.items) ids.now }
    ensures long { length notes.new.items ≡ length notes.old.items }
    ensures noted { AreNoted number ids.now notes.old.items notes.new.items }
{
    for s in ids {
        notes[*s as usize] = number;
    }
}
