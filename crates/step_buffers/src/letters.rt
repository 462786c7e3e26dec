//! Messages on their way, by their ids.

ghost use Rattle.std.specs.Prelude.{◌≡◌, ◌≤◌, ◌<◌, ◌+◌, ◌++◌, ℕ, length, option_copied, slice_index, IfOk, OnOk};
ghost use Rattle.std.specs.Option.{option_or};
ghost use Rattle.step_trace.specs.declared.configurations.TheConstants.{MAX_PROCESSORS};
ghost use Rattle.step_buffers.specs.Letters.{letter_at, round_of, of_round, said_by, body_from, heard_from, heard_in};

use lock_phases::Body;
use std::alloc::{AllocError, Global};
use std::marker::Model;
use std::sync::Arc;

/// A message that was sent: by whom, in which of the sender's rounds, and what it says.
#[derive(Debug, Drop)]
pub(crate) struct Letter {
    pub sender: u64,
    pub round: u64,
    pub body: Body,
}

/// The place of a step, for the message that it sent.
#[derive(Debug, Drop)]
pub(crate) struct Place {
    // (the places of all that a processor says in a round share one letter)
    letter: Option<Arc<Letter>>,
}

impl Model for Place {
    ghost use Rattle.std.specs.Prelude.{Option, option_map};
    ghost use Rattle.std.specs.Arc.{arc_value};
    ghost use Rattle.step_buffers.specs.declared.letters.Letter.{Letter};

    ghost Value = { Option Letter };

    ghost view = { λ a. option_map arc_value a.letter };
}

impl Place {
    ghost use Rattle.std.specs.Prelude.{◌≡◌, None, Some, is_some, option_copied, IfOk};

    /// The place of no message.
    pub(crate) fn empty() -> Self
        ensures { result ≡ None }
    {
        Place { letter: None }
    }

    /// The place of a message.
    pub(crate) fn of(alloc: Global, letter: Letter) -> Result<Self, AllocError>
        ensures { IfOk result (λ place. place ≡ Some letter) }
    {
        Ok(Place {
            letter: Some(Arc::new(alloc, letter)?),
        })
    }

    /// Whether it has a message.
    pub(crate) fn has_letter(&self) -> bool
        ensures { result ≡ is_some self.now }
    {
        self.letter.is_some()
    }

    /// Another place of the same message.
    pub(crate) fn share(&self) -> Result<Self, AllocError>
        ensures { IfOk result (λ place. place ≡ self.now) }
    {
        Ok(Place {
            letter: self.letter.clone()?,
        })
    }

    /// Its message.
    pub(crate) fn letter(&self) -> Option<&Letter>
        ensures { option_copied result ≡ self.now }
    {
        match &self.letter {
            Some(letter) => Some(&**letter),
            None => None,
        }
    }
}

/// The message of this id, of a list with a place for each step.
pub(crate) fn letter_at(letters: &[Place], id: u64) -> Option<&Letter>
    ensures { option_copied result ≡ letter_at letters.now id }
{
    if id == 0 {
        return None;
    }
    match letters.get(id as usize - 1) {
        Some(place) => place.letter(),
        None => None,
    }
}

/// The round in which the message of this id was sent, or 0 if there is none.
pub(crate) fn round_of(letters: &[Place], id: u64) -> u64
    ensures { result ≡ round_of letters.now id }
{
    match letter_at(letters, id) {
        Some(letter) => letter.round,
        None => 0,
    }
}

/// What each of `n` processors said in a round, by the messages with the ids of two lists, in the order of
/// the senders.
pub(crate) fn heard_in(
    alloc: Global,
    letters: &[Place],
    inbox: &[u64],
    taken: &[u64],
    round: u64,
    n: u64,
) -> Result<Vec<(u64, Body)>, AllocError>
    requires { n ≤ MAX_PROCESSORS }
    ensures { IfOk result (λ heard.
        heard.items ≡ heard_in letters.now inbox.now taken.now round n) }
{
    // (a processor says no more than one thing in a round)
    let mut ids = Vec::with_capacity(alloc, n as usize)?;
    add_of_round(&mut ids, letters, inbox, round)?;
    add_of_round(&mut ids, letters, taken, round)?;
    heard_from(alloc, letters, &ids, n)
}

/// Adds those of these ids whose messages were sent in a round.
fn add_of_round(
    list: &mut Vec<u64>,
    letters: &[Place],
    ids: &[u64],
    round: u64,
) -> Result<(), AllocError>
    ensures { OnOk result (list.new.items ≡ list.old.items ++ of_round letters.now round ids.now) }
{
    for id in ids {
        if round_of(letters, *id) == round {
            list.push(*id)?;
        }
    }
    Ok(())
}

fn heard_from(
    alloc: Global,
    letters: &[Place],
    ids: &[u64],
    n: u64,
) -> Result<Vec<(u64, Body)>, AllocError>
    requires { n ≤ MAX_PROCESSORS }
    ensures { IfOk result (λ heard. heard.items ≡ heard_from letters.now ids.now n) }
{
    let first = first_by_sender(alloc, letters, ids, n)?;
    let mut heard = Vec::with_capacity(alloc, ids.len())?;
    for sender in 1..n + 1 {
        let Some(body) = said_by(letters, first[sender as usize], sender) else {
            continue;
        };
        heard.push((sender, copied(body)?))?;
    }
    Ok(heard)
}

/// For each of `n` processors the first of these messages that is its own, in the place of its number; 0 if there is
/// none.
fn first_by_sender(
    alloc: Global,
    letters: &[Place],
    ids: &[u64],
    n: u64,
) -> Result<Vec<u64>, AllocError>
    requires { n ≤ MAX_PROCESSORS }
    ensures long { IfOk result (λ first. length first.items ≡ n + 1) }
    ensures each { IfOk result (λ first. (q : ℕ) → q ≤ n
        → said_by q (letter_at letters.now (slice_index first.items q))
        ≡ body_from letters.now ids.now q) }
{
    let mut first = vec![in alloc; 0u64; n as usize + 1]?;
    for k in (0..ids.len()).rev() {
        note_sender(&mut first, letters, ids[k]);
    }
    Ok(first)
}

/// Notes a message in the place of its sender.
fn note_sender(first: &mut Vec<u64>, letters: &[Place], id: u64)
    ensures long { length first.new.items ≡ length first.old.items }
    ensures each { (q : ℕ) → q < length first.old.items
        → said_by q (letter_at letters.now (slice_index first.new.items q))
        ≡ option_or (said_by q (letter_at letters.now id))
        (said_by q (letter_at letters.now (slice_index first.old.items q))) }
{
    if let Some(letter) = letter_at(letters, id) {
        let sender = letter.sender as usize;
        if sender < first.len() {
            first[sender] = id;
        }
    }
}

/// The same body.
pub(crate) fn copied(body: &Body) -> Result<Body, AllocError>
    ensures { IfOk result (λ copy. copy ≡ body.now) }
{
    body.clone()
}

/// What the message of this id says, if it is of this sender.
fn said_by(letters: &[Place], id: u64, sender: u64) -> Option<&Body>
    ensures { option_copied result ≡ said_by sender (letter_at letters.now id) }
{
    let letter = letter_at(letters, id)?;
    if letter.sender == sender {
        Some(&letter.body)
    } else {
        None
    }
}
