//! Drops messages that nobody can hear any more.

ghost use Rattle.std.specs.Prelude.{ℕ, ◌∷◌, [], ◌<◌, IsTrue, false, ◌≡◌, ◌≤◌, length};
ghost use Rattle.step_buffers.specs.Letters.{letter_at, letter_left, round_of};
ghost use Rattle.step_buffers.specs.Inboxes.{ahead};

use crate::letters::{Place, letter_at, round_of};

/// Drops those of these messages that were sent in an earlier round than this one.
pub(crate) fn release(letters: &mut Vec<Place>, ids: &[u64], round: u64)
    ensures places { length letters.new.items ≡ length letters.old.items }
    ensures left { (s : ℕ) → letter_at letters.new.items s
        ≡ letter_left letters.old.items ids.now round s }
{
    for id in ids {
        release_one(letters, *id, round);
    }
}

fn release_one(letters: &mut Vec<Place>, id: u64, round: u64)
    ensures places { length letters.new.items ≡ length letters.old.items }
    ensures left { (s : ℕ) → letter_at letters.new.items s
        ≡ letter_left letters.old.items (id ∷ []) round s }
{
    if is_past(letters, id, round) {
        letters[id as usize - 1] = Place::empty();
    }
}

/// Whether the message of this id was sent in an earlier round than this one.
fn is_past(letters: &[Place], id: u64, round: u64) -> bool
    ensures past { IsTrue result → round_of letters.now id < round }
    ensures low { IsTrue result → 1 ≤ id }
    ensures high { IsTrue result → id ≤ length letters.now }
    ensures other { result ≡ false
        → letter_left letters.now (id ∷ []) round id ≡ letter_at letters.now id }
{
    match letter_at(letters, id) {
        Some(letter) => letter.round < round,
        None => false,
    }
}

/// Drops the messages of earlier rounds than this one.
pub(crate) fn drop_past(inbox: &mut Vec<u64>, letters: &[Place], round: u64)
    ensures { inbox.new.items ≡ ahead letters.now round inbox.old.items }
{
    inbox.retain(|id| round <= round_of(letters, *id));
}
