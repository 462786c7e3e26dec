//! The messages of a part without those that later ones make needless.

ghost use Rattle.std.specs.Prelude.{◌≡◌, ◌<◌, ◌≤◌, length, take, drop};
ghost use Rattle.chunk_join.specs.Thinning.{weight_of, stays, kept_with, thinned};
ghost use Rattle.chunk_join.specs.Digests.{is_open, miss_long};

use crate::summaries::{Fate, Message};

/// Leaves the open messages, and of those that are taken the ones with a longer last miss than all later ones.
pub(crate) fn thin_messages(sent: &mut Vec<Message>)
    ensures { sent.new.items ≡ thinned is_open miss_long sent.old.items }
{
    let start = gather_messages(sent);
    let left = sent.len() - start;
    sent.rotate_left(start);
    sent.truncate(left);
}

/// Moves those to the end, and gives where they begin.
fn gather_messages(sent: &mut [Message]) -> usize
    ensures within { result ≤ length sent.old }
    ensures kept { drop result sent.new ≡ thinned is_open miss_long sent.old }
{
    let mut start = sent.len();
    let mut longest = 0;
    for k in (0..sent.len()).rev() {
        let message = sent[k];
        start = put_message(sent, k, start, longest, message);
        longest = longest.max(long_of(&message));
    }
    start
}

/// Puts a message before those from place `start` on, if it stays, and gives where they begin then.
fn put_message(
    sent: &mut [Message],
    k: usize,
    start: usize,
    longest: u64,
    message: Message,
) -> usize
    requires low { k < start }
    requires high { start ≤ length sent.old }
    ensures low { k ≤ result }
    ensures high { result ≤ start }
    ensures front { take k sent.new ≡ take k sent.old }
    ensures kept { drop result sent.new ≡ kept_with is_open miss_long longest message
        (drop start sent.old) }
{
    if !stays(longest, &message) {
        return start;
    }
    sent[start - 1] = message;
    start - 1
}

/// Whether the message stays, if the later ones have no longer miss than this.
fn stays(longest: u64, message: &Message) -> bool
    ensures { result ≡ stays is_open miss_long longest message.now }
{
    match message.fate {
        Fate::Open => true,
        Fate::Taken {
            missed: Some(place),
        } => longest < u64::from(place.tick.saturating_sub(message.sent.tick)),
        Fate::Taken { missed: None } => false,
    }
}

/// The length of the last miss of a message that is taken.
fn long_of(message: &Message) -> u64
    ensures { result ≡ weight_of is_open miss_long message.now }
{
    match message.fate {
        Fate::Open => 0,
        Fate::Taken {
            missed: Some(place),
        } => u64::from(place.tick.saturating_sub(message.sent.tick)),
        Fate::Taken { missed: None } => 0,
    }
}
