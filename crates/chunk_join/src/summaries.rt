//! What is known of the steps of a part of a trace, for a set of processors that count as correct.
//!
//! Ticks are real-time steps. A number of a step goes with its tick, since the parts of a trace are compared by ticks.

ghost use Rattle.std.specs.Prelude.{◌≡◌, ◌≤◌, length};
ghost use Rattle.step_trace.specs.Ticks.{tick_of};
ghost use Rattle.chunk_join.specs.Summaries.{last_of};
ghost use Rattle.chunk_join.specs.Parts.{later_of, after, comes_before};

use step_trace::Trace;

/// A step of a trace. Numbers and ticks of a trace are below 2^32, and a long list of messages has many places.
#[derive(Clone, Copy, Debug, PartialEq, Eq)]
pub(crate) struct Place {
    /// Its number.
    pub(crate) no: u32,
    /// Its tick.
    pub(crate) tick: u32,
}

impl Place {
    /// The place of the step of this number.
    pub(crate) fn of(trace: &Trace, no: u64) -> Place
        requires low { 1 ≤ no }
        requires high { no ≤ length trace.now.steps }
        ensures { result ≡ record { no = no; tick = tick_of trace.now no } }
    {
        let _steps = trace.len();
        Place {
            no: no as u32,
            tick: trace.tick(no) as u32,
        }
    }
}

/// What becomes of a message up to the end of a part.
#[derive(Clone, Copy, Debug, PartialEq, Eq)]
pub(crate) enum Fate {
    /// No Receive takes it.
    Open,
    /// A Receive takes it, and this is the last one before that misses it.
    Taken { missed: Option<Place> },
}

/// A message between members.
#[derive(Clone, Copy, Debug, PartialEq, Eq)]
pub(crate) struct Message {
    pub(crate) sent: Place,
    pub(crate) to: u64,
    pub(crate) fate: Fate,
}

/// A message, sent before the part, that a member takes in it.
#[derive(Clone, Copy, Debug, PartialEq, Eq)]
pub(crate) struct Take {
    /// The Receive that takes it.
    pub(crate) at: Place,
    /// The processor that receives.
    pub(crate) by: u64,
    /// The Send of the message.
    pub(crate) sent: Place,
    /// The last Receive of the processor before, if it is in the part.
    pub(crate) before: Option<Place>,
}

/// The last Receive that a list has for this processor.
pub(crate) fn last_of(last: &[Option<Place>], proc: u64) -> Option<Place>
    ensures { result ≡ last_of last.now proc }
{
    match last.get(proc as usize) {
        Some(place) => *place,
        None => None,
    }
}

/// The right part's last Receive, or the left part's if the right has none.
pub(crate) fn later_of(left: Option<Place>, right: Option<Place>) -> Option<Place>
    ensures { result ≡ later_of left right }
{
    match right {
        Some(place) => Some(place),
        None => left,
    }
}

/// This Receive, if it comes in a later tick than the Send.
pub(crate) fn after(sent: Place, received: Option<Place>) -> Option<Place>
    ensures { result ≡ after sent received }
{
    match received {
        Some(place) => {
            if sent.tick < place.tick {
                Some(place)
            } else {
                None
            }
        }
        None => None,
    }
}

/// Whether one step comes before another: in an earlier tick, or in the same tick with a smaller number.
pub(crate) fn comes_before(first: Place, second: Place) -> bool
    ensures { result ≡ comes_before first second }
{
    if first.tick == second.tick {
        first.no < second.no
    } else {
        first.tick < second.tick
    }
}
