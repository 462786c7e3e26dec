//! The messages of a part, after what the part that follows takes.

ghost use Rattle.std.specs.Prelude.{◌≡◌, ◌+◌, ◌≤◌, ◌++◌, length, map, vec_len, vec_capacity};
ghost use Rattle.chunk_join.specs.Summaries.{Rises, SentBefore};
ghost use Rattle.chunk_join.specs.Parts.{settle, settle_with, takes_of};

use crate::summaries::{Fate, Message, Place, Take, after, comes_before, last_of, later_of};

/// The messages of both parts, for which there is room: those of the left part after what the right part takes.
pub(crate) fn join_messages(
    sent: &mut Vec<Message>,
    more: &[Message],
    taken: &[Take],
    last: &[Option<Place>],
)
    requires room { vec_len sent.old + length more.now ≤ vec_capacity sent.old }
    requires rising { Rises SentBefore sent.old.items }
    ensures { sent.new.items ≡ map (settle taken.now last.now) sent.old.items ++ more.now }
{
    settle_all(sent, taken, last);
    for message in more {
        sent.push_reserved(*message);
    }
}

/// Gives each message that the right part takes its fate.
fn settle_all(sent: &mut [Message], taken: &[Take], last: &[Option<Place>])
    requires { Rises SentBefore sent.old }
    ensures { sent.new ≡ map (settle taken.now last.now) sent.old }
{
    for k in (0..taken.len()).rev() {
        settle_one(sent, &taken[k], last);
    }
}

/// Gives the message of this take its fate. If there is none, its sender doesn't count.
fn settle_one(sent: &mut [Message], take: &Take, last: &[Option<Place>])
    requires { Rises SentBefore sent.old }
    ensures { sent.new ≡ map (settle_with last.now take.now) sent.old }
{
    let at = sent.partition_point(|message| comes_before(message.sent, take.sent));
    if at < sent.len() {
        sent[at] = settled(sent[at], take, last);
    }
}

/// A message after one take.
fn settled(message: Message, take: &Take, last: &[Option<Place>]) -> Message
    ensures { result ≡ settle_with last.now take.now message }
{
    if !takes_of(&message, take) {
        return message;
    }
    let before = later_of(last_of(last, take.by), take.before);
    let missed = after(message.sent, before);
    Message {
        fate: Fate::Taken { missed },
        ..message
    }
}

/// Whether it is a take of the message.
fn takes_of(message: &Message, take: &Take) -> bool
    ensures { result ≡ takes_of message.now take.now }
{
    take.sent.no == message.sent.no && take.sent.tick == message.sent.tick
}
