//! Sets of processors, as a command line writes them.

ghost use Rattle.std.specs.Prelude.{◌≢◌, ℕ, List, IfSome, IfNone, codes};
ghost use Rattle.step_trace.specs.ProcessorLists.{IsListOf, IsSetIn, HasMembers};

use crate::numbers::read_number;
use crate::processors::{MAX_MEMBER, ProcSet};

impl ProcSet {
    /// The set that a text lists: the word `none`, or numbers from 1 to `MAX_MEMBER` as `read_number`
    /// reads them, with one comma between each two, in any order, repeats allowed. None if the text is
    /// anything else.
    pub fn parse_list(text: &str) -> Option<ProcSet>
        ensures members { IfSome result (λ set. IsSetIn text.now set) }
        ensures refused { IfNone result
            ((text.now ≢ codes "none") × ((numbers : List ℕ) → ¬ IsListOf text.now numbers)) }
    {
        if text == "none" {
            return Some(ProcSet::empty());
        }
        read_members(text)
    }
}

/// The set of the numbers that a text lists.
fn read_members(text: &str) -> Option<ProcSet>
    ensures members { IfSome result
        (λ set. (numbers : List ℕ) × IsListOf text.now numbers × HasMembers set numbers) }
    ensures refused { IfNone result ((numbers : List ℕ) → ¬ IsListOf text.now numbers) }
{
    let mut set = ProcSet::empty();
    for piece in text.split(',') {
        let Some(p) = read_number(piece.as_bytes()) else {
            return None;
        };
        if p < 1 || p > MAX_MEMBER {
            return None;
        }
        set = set.with(p);
    }
    Some(set)
}
