//! Lists of places in one list.

ghost use Rattle.std.specs.Prelude.{◌≡◌, ◌<◌, ◌-◌, ◌∷◌, [], drop, length, map, slice_index, slice_index_or, take};
ghost use Rattle.merged_receives.specs.Pieces.{pieces};

use std::marker::Model;

/// Lists of places, one behind the other in one list.
#[derive(Debug, Drop)]
pub struct Parts {
    /// Of each part where it ends among all places. It begins where the one before it ends.
    ends: Vec<u32>,
    /// The places of all parts.
    places: Vec<u32>,
}

impl Model for Parts {
    ghost use Rattle.std.specs.Prelude.{ℕ, List};
    ghost use Rattle.merged_receives.specs.Pieces.{pieces};

    ghost Value = { List (List ℕ) };

    ghost view = { λ p. pieces 0 p.ends.items p.places.items };
}

impl Parts {
    ghost use Rattle.std.specs.Prelude.{◌≡◌, [], length, map, slice_index_or};
    ghost use Rattle.merged_receives.specs.Pieces.{pieces};

    /// The pieces of `places` that end at `ends`.
    pub(crate) fn new(ends: Vec<u32>, places: Vec<u32>) -> Self
        ensures { result ≡ pieces 0 ends.items places.items }
    {
        Parts { ends, places }
    }

    /// How many parts there are.
    pub fn len(&self) -> usize
        ensures { result ≡ length self.now }
    {
        self.ends.len()
    }

    /// The places of the part at a place; none if there is no such part.
    pub fn part(&self, k: usize) -> &[u32]
        ensures { result.now ≡ slice_index_or self.now k [] }
    {
        piece_at(&self.ends, &self.places, k)
    }

    /// Puts others for all places: for each place the one that `places` has there; 0 if it has none.
    pub fn renumber(&mut self, places: &[u32])
        ensures { self.new ≡ map (map (λ p. slice_index_or places.now p 0)) self.old }
    {
        put_others(&mut self.places, places);
    }
}

/// The piece at a place, of those that end at `ends`; none if there is no such piece.
fn piece_at<'a>(ends: &[u32], places: &'a [u32], k: usize) -> &'a [u32]
    ensures { result.now ≡ slice_index_or (pieces 0 ends.now places.now) k [] }
{
    if k >= ends.len() {
        return &[];
    }
    piece(places, begin_of(ends, k), ends[k] as usize)
}

/// Where a piece begins: where the one before it ends.
fn begin_of(ends: &[u32], k: usize) -> usize
    requires { k < length ends.now }
    ensures { result ≡ slice_index (0 ∷ ends.now) k }
{
    if k == 0 {
        return 0;
    }
    ends[k - 1] as usize
}

/// The piece that begins and ends at these places.
fn piece(places: &[u32], begin: usize, end: usize) -> &[u32]
    ensures { result.now ≡ take (end - begin) (drop begin places.now) }
{
    let last = end.min(places.len());
    if begin >= last {
        return &[];
    }
    &places[begin..last]
}

/// Puts for each number the one that `places` has there; 0 if it has none.
fn put_others(numbers: &mut [u32], places: &[u32])
    ensures { numbers.new ≡ map (λ p. slice_index_or places.now p 0) numbers.old }
{
    for i in 0..numbers.len() {
        numbers[i] = place_at(places, numbers[i]);
    }
}

/// The number at a place; 0 if there is none.
fn place_at(places: &[u32], p: u32) -> u32
    ensures { result ≡ slice_index_or places.now p 0 }
{
    match places.get(p as usize) {
        Some(place) => *place,
        None => 0,
    }
}
