//! Who may step next, so that each live processor can step in time.

ghost use Rattle.std.specs.Prelude.{ℕ, ◌≡◌, ◌+◌, ◌<◌, ◌^◌, ◌++◌, ◌∷◌, [], length, true};
ghost use Rattle.std.specs.Prelude.{map, remove, IfOk, IfSome, IfNone, OnOk};
ghost use Rattle.simulated_runs.specs.Turns.{ArePassed, HasNoTurn, HasTurn, IsFirstTurn, MayStep};

use std::alloc::{AllocError, Global};

/// A live processor, and the tick by which it is to step next.
#[derive(Clone, Copy, Debug)]
pub(crate) struct Turn {
    pub proc: u64,
    pub deadline: u64,
}

/// The live processors by their deadlines, the least one first. Of a run that states no bounds it has none.
#[derive(Debug, Drop)]
pub(crate) struct Turns {
    queue: Vec<Turn>,
    gst: u64,
    phi: u64,
}

impl Turns {
    /// The turns of these processors before the first tick: each is to step within the bound after the
    /// stabilization time.
    pub(crate) fn new(alloc: Global, live: &[u64], gst: u64, phi: u64) -> Result<Self, AllocError>
        requires { gst + phi < 2 ^ 64 }
        ensures queue { IfOk result
            (λ turns. turns.queue.items ≡ map
            (λ p. record { proc = p; deadline = gst + phi }) live.now) }
        ensures gst { IfOk result (λ turns. turns.gst ≡ gst) }
        ensures phi { IfOk result (λ turns. turns.phi ≡ phi) }
    {
        Ok(Turns {
            queue: opening_queue(alloc, live, gst + phi)?,
            gst,
            phi,
        })
    }

    /// Whether processor `p` may step in this tick: those before it can still step in time, one in each tick after.
    pub(crate) fn may_step(&self, p: u64, tick: u64) -> bool
        requires { tick + length self.now.queue.items < 2 ^ 64 }
        ensures { result ≡ true → MayStep self.now.queue.items tick p }
    {
        may_step(&self.queue, p, tick)
    }

    /// The processor that is to step first, which may step in any tick.
    pub(crate) fn first(&self) -> Option<u64>
        ensures turn { IfSome result (HasTurn self.now.queue.items) }
        ensures may { IfSome result (λ p. (x : ℕ) → MayStep self.now.queue.items x p) }
        ensures none { IfNone result (self.now.queue.items ≡ []) }
    {
        match self.queue.first() {
            Some(turn) => Some(turn.proc),
            None => None,
        }
    }

    /// Processor `p` steps in this tick: its next turn comes after those of the others.
    pub(crate) fn pass(&mut self, p: u64, tick: u64) -> Result<(), AllocError>
        requires { tick + self.old.gst + self.old.phi < 2 ^ 64 }
        ensures passed { OnOk result
            (ArePassed self.old.gst self.old.phi self.old.queue.items self.new.queue.items tick p) }
        ensures gst { self.new.gst ≡ self.old.gst }
        ensures phi { self.new.phi ≡ self.old.phi }
    {
        let turn = Turn {
            proc: p,
            deadline: tick.max(self.gst) + self.phi,
        };
        match place_of(&self.queue, p) {
            Some(place) => move_back(&mut self.queue, place, turn),
            None => Ok(()),
        }
    }
}

/// The turns of these processors, with this deadline.
fn opening_queue(alloc: Global, live: &[u64], deadline: u64) -> Result<Vec<Turn>, AllocError>
    ensures { IfOk result
        (λ queue. queue.items ≡ map (λ p. record { proc = p; deadline = deadline }) live.now) }
{
    live.iter()
        .map(|p| Turn { proc: *p, deadline })
        .collect(alloc)
}

/// Whether processor `p` may step in this tick.
fn may_step(queue: &[Turn], p: u64, tick: u64) -> bool
    requires { tick + length queue.now < 2 ^ 64 }
    ensures { result ≡ true → MayStep queue.now tick p }
{
    for (place, turn) in queue.iter().enumerate() {
        if turn.proc == p {
            return true;
        }
        if turn.deadline <= tick + place as u64 {
            return false;
        }
    }
    true
}

/// Where the first turn of processor `p` is.
fn place_of(queue: &[Turn], p: u64) -> Option<usize>
    ensures within { IfSome result (λ place. place < length queue.now) }
    ensures found { IfSome result (IsFirstTurn queue.now p) }
    ensures none { IfNone result (HasNoTurn queue.now p) }
{
    for (place, turn) in queue.iter().enumerate() {
        if turn.proc == p {
            return Some(place);
        }
    }
    None
}

/// Takes out the turn at this place, and adds one behind the others.
fn move_back(queue: &mut Vec<Turn>, place: usize, turn: Turn) -> Result<(), AllocError>
    requires { place < length queue.old.items }
    ensures { OnOk result (queue.new.items ≡ remove queue.old.items place ++ turn ∷ []) }
{
    queue.remove(place);
    queue.push(turn)?;
    Ok(())
}
