//! The summary of a part of a trace that has at least one tick, and two that are joined.

ghost use Rattle.std.specs.Prelude.{◌≡◌, ◌+◌, ◌++◌, ◌≤◌, ◌<◌, length, map, filter, drop};
ghost use Rattle.std.specs.Prelude.{vec_len, vec_capacity, None, OnOk, IfOk, IfErr};
ghost use Rattle.chunk_join.specs.Joins.{IsRefusal};
ghost use Rattle.chunk_join.specs.Parts.{parts_refusal, joined_parts, is_older, reach_take, later_each};

use crate::joins::{JoinRefused, Why};
use crate::message_joins::join_messages;
use crate::silence_joins::{ended_before, join_silences};
use crate::summaries::{Message, Place, Take, last_of, later_of};
use std::alloc::{AllocError, Global};
use std::marker::Model;
use step_trace::{Gap, ProcSet};

/// What is known of the ticks `from` to `to` of a trace for a set of processors.
#[derive(Debug, Drop)]
pub(crate) struct Part {
    pub(crate) set: ProcSet,
    pub(crate) from: u64,
    pub(crate) to: u64,
    // The messages between members that are sent in the part, in the order of their Sends.
    pub(crate) sent: Vec<Message>,
    // The messages from before the part that members take in it, in the order of the Receives.
    pub(crate) taken: Vec<Take>,
    // For each processor its last Receive in the part.
    pub(crate) last: Vec<Option<Place>>,
    // The longest silences of members in the part, in the order of their ends.
    pub(crate) silent: Vec<Gap>,
}

impl Model for Part {
    ghost use Rattle.chunk_join.specs.Summaries.{Summary, IsConsistent};

    ghost Value = { Summary };

    ghost view = { λ a.
        record {
          set = a.set;
          from = a.from;
          to = a.to;
          sent = a.sent.items;
          taken = a.taken.items;
          last = a.last.items;
          silent = a.silent.items;
        } };

    ghost invariant = { λ a. IsConsistent
        (record {
          set = a.set;
          from = a.from;
          to = a.to;
          sent = a.sent.items;
          taken = a.taken.items;
          last = a.last.items;
          silent = a.silent.items;
        }) };
}

impl Part {
    ghost use Rattle.chunk_join.specs.Parts.{parts_refusal};

    /// An equal part.
    pub(crate) fn copy(&self, alloc: Global) -> Result<Part, AllocError>
        ensures { IfOk result (λ copy. copy ≡ self.now) }
    {
        Ok(Part {
            set: self.set,
            from: self.from,
            to: self.to,
            sent: Vec::from_slice(alloc, &self.sent)?,
            taken: Vec::from_slice(alloc, &self.taken)?,
            last: Vec::from_slice(alloc, &self.last)?,
            silent: Vec::from_slice(alloc, &self.silent)?,
        })
    }

    /// The first reason against joining the part that follows, other than out of memory.
    pub(crate) fn refusal(&self, right: &Part) -> Option<Why>
        ensures { result ≡ parts_refusal self.now right.now }
    {
        if self.to + 1 != right.from {
            return Some(Why::NotAdjacent);
        }
        if self.set != right.set {
            return Some(Why::OtherSet);
        }
        None
    }
}

/// Joins two parts, or hands them back unchanged.
pub(crate) fn join_parts(mut left: Part, right: Part) -> Result<Part, JoinRefused<Part>>
    ensures ok { OnOk result (parts_refusal left right ≡ None) }
    ensures value { IfOk result (λ whole. whole ≡ joined_parts left right) }
    ensures refused { IfErr result (λ e. IsRefusal e.why (parts_refusal left right)) }
    ensures left { IfErr result (λ e. e.left ≡ left) }
    ensures right { IfErr result (λ e. e.right ≡ right) }
{
    if let Some(why) = left.refusal(&right) {
        return Err(JoinRefused { why, left, right });
    }
    let start = ended_before(&left.silent, left.to);
    let tail = match make_room(
        &mut left.sent,
        &mut left.taken,
        &mut left.silent,
        start,
        &right,
    ) {
        Ok(tail) => tail,
        Err(AllocError) => {
            let why = Why::Memory;
            return Err(JoinRefused { why, left, right });
        }
    };
    join_messages(&mut left.sent, &right.sent, &right.taken, &left.last);
    append_older(&mut left.taken, left.from, &right.taken, &left.last);
    join_silences(&mut left.silent, start, &tail, left.to, &right.silent);
    replace_last(&mut left.last, &right.last);
    left.to = right.to;
    Ok(left)
}

/// Makes room for the lists of the part that follows, and gives a copy of the silences from place `start` on.
fn make_room(
    sent: &mut Vec<Message>,
    taken: &mut Vec<Take>,
    silent: &mut Vec<Gap>,
    start: usize,
    right: &Part,
) -> Result<Vec<Gap>, AllocError>
    requires { start ≤ length silent.old.items }
    ensures sent { sent.new.items ≡ sent.old.items }
    ensures taken { taken.new.items ≡ taken.old.items }
    ensures silent { silent.new.items ≡ silent.old.items }
    ensures tail { IfOk result (λ tail. tail.items ≡ drop start silent.old.items) }
    ensures sent_room { OnOk result
        (vec_len sent.new + length right.now.sent ≤ vec_capacity sent.new) }
    ensures taken_room { OnOk result
        (vec_len taken.new + length right.now.taken ≤ vec_capacity taken.new) }
    ensures silent_room { OnOk result
        (vec_len silent.new + length right.now.silent ≤ vec_capacity silent.new) }
{
    sent.reserve(right.sent.len())?;
    taken.reserve(right.taken.len())?;
    silent.reserve(right.silent.len())?;
    Vec::from_slice(*silent.allocator(), &silent[start..])
}

/// Appends what was sent before tick `from`, each with the last Receive before it in either part.
fn append_older(taken: &mut Vec<Take>, from: u64, more: &[Take], last: &[Option<Place>])
    requires { vec_len taken.old + length more.now ≤ vec_capacity taken.old }
    ensures { taken.new.items ≡ taken.old.items
        ++ map (reach_take last.now) (filter (is_older from) more.now) }
{
    for take in more {
        if u64::from(take.sent.tick) < from {
            let before = later_of(last_of(last, take.by), take.before);
            taken.push_reserved(Take { before, ..*take });
        }
    }
}

/// The last Receives of the right part replace those of the left one.
fn replace_last(left: &mut Vec<Option<Place>>, right: &[Option<Place>])
    requires { length left.old.items ≡ length right.now }
    ensures { left.new.items ≡ later_each left.old.items right.now }
{
    for p in 0..right.len() {
        left[p] = later_of(left[p], right[p]);
    }
}
