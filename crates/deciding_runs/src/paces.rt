//! The pace "heard out": what a processor does next, and which of its Receives ends its round.

ghost use Rattle.std.specs.Prelude.{◌≡◌, ◌≤◌, ◌+◌, All, Contains, length, fold, IfOk};
ghost use Rattle.step_trace.specs.Configurations.{IsProc};
ghost use Rattle.step_buffers.specs.Buffers.{buffer};
ghost use Rattle.step_buffers.specs.HeardTables.{passed};
ghost use Rattle.deciding_runs.specs.Paces.{opening_pace, is_complete, is_over, heard_message, heard_ids};
ghost use Rattle.deciding_runs.specs.Paces.{heard_waiting, ends_taking, is_idle, paced_move, after_round, after_wait};
ghost use Rattle.deciding_runs.specs.Paces.{after_receive, after_move};

use crate::audible::may_hear_all;
use crate::peers::{Peer, awaited, end_phase, hear, heard, is_left_behind};
use lock_phases::{Node, part_of};
use std::alloc::{AllocError, Global};
use std::marker::Model;
use step_buffers::{Move, Take, World};
use step_trace::Config;

/// The pace "heard out" of a processor (own): what it has heard of each other one, and how many Receives its round may
/// still take.
///
/// A Receive ends the round if it is complete. By its own node the processor knows whom it may hear. From each of these
/// it has taken something of this round or of a later one, or it suspects it; and if it may hear all, it has heard so
/// of N - t. A Receive also ends the round if something of a round more than a phase later was taken, or if it is the
/// last of its patience. A processor is suspected from the end of a phase on in which nothing was taken from it, unless
/// something of a later round was. It is suspected until something is taken from it again.
#[derive(Debug, Drop)]
pub struct Pace {
    peers: Vec<Peer>,
    quorum: u64,
    patience: u64,
    left: u64,
}

impl Model for Pace {
    ghost use Rattle.deciding_runs.specs.Paces.{Paced};

    ghost Value = { Paced };

    ghost view = { λ x. record {
      peers = x.peers.items;
      quorum = x.quorum;
      patience = x.patience;
      left = x.left;
    } };
}

impl Pace {
    /// The pace before the first round, with a patience of so many Receives. Takes memory for each processor.
    pub fn new(alloc: Global, config: &Config, patience: u64) -> Result<Self, AllocError>
        ensures { IfOk result (λ pace. pace ≡ opening_pace config.now patience) }
    {
        let unheard = Peer {
            latest: 0,
            spoke: false,
            suspected: false,
        };
        Ok(Pace {
            peers: vec![in alloc; unheard; config.n() as usize]?,
            quorum: config.n() - config.t(),
            patience,
            left: patience,
        })
    }

    /// Of how many processors it keeps what was heard.
    pub fn processors(&self) -> u64
        ensures { result ≡ length self.now.peers }
    {
        self.peers.len() as u64
    }

    /// The next move of processor `p` in a World: a Send, if it has something to send; else a Receive of all that waits
    /// for it. The pace goes on as after this move. Asks for a processor of the World, and for a pace of as many
    /// processors.
    pub fn next_move<'a>(&mut self, world: &World, p: u64) -> Move<'a>
        requires processor { IsProc world.now.trace.config p }
        requires peers { length self.old.peers ≡ world.now.trace.config.n }
        ensures moved { result ≡ paced_move world.now.trace.config
            world.now.trace.steps p self.old }
        ensures pace { self.new ≡ after_move world.now.trace.config
            world.now.trace.steps p self.old }
        ensures peers { length self.new.peers ≡ length self.old.peers }
    {
        if world.next_destination(p).is_some() {
            return Move::Send;
        }
        self.hear_waiting(world, p);
        let round = world.round(p);
        let ends = self.is_over(world.trace().config(), world.node(p), round, p);
        self.receive(ends, round);
        Move::Receive {
            take: Take::All,
            ends,
        }
    }

    /// Whether a Receive of processor `p` that takes these messages ends its round. The pace goes on as after this
    /// Receive. Asks for a processor of the World, for a pace of as many processors, and for ids of messages that wait
    /// for `p`.
    pub fn take(&mut self, world: &World, p: u64, ids: &[u64]) -> bool
        requires processor { IsProc world.now.trace.config p }
        requires peers { length self.old.peers ≡ world.now.trace.config.n }
        requires waiting { All (λ s. Contains (buffer world.now.trace.steps p) s) ids.now }
        ensures ends { result ≡ ends_taking world.now.trace.config world.now.trace.steps p
            ids.now self.old }
        ensures pace { self.new ≡ after_receive result (passed world.now.trace.steps p + 1)
            (heard_ids world.now.trace.steps p ids.now self.old) }
        ensures peers { length self.new.peers ≡ length self.old.peers }
    {
        self.hear_ids(world, p, ids);
        let round = world.round(p);
        let ends = self.is_over(world.trace().config(), world.node(p), round, p);
        self.receive(ends, round);
        ends
    }

    /// Whether processor `p` has nothing to do until a message comes: it has nothing to send, nothing waits for it, and
    /// its round isn't over. Asks for a processor of the World, and for a pace of as many processors.
    pub fn is_idle(&self, world: &World, p: u64) -> bool
        requires processor { IsProc world.now.trace.config p }
        requires peers { length self.now.peers ≡ world.now.trace.config.n }
        ensures { result ≡ is_idle world.now.trace.config world.now.trace.steps p self.now }
    {
        if world.next_destination(p).is_some() {
            return false;
        }
        if !world.waiting(p).is_empty() {
            return false;
        }
        !self.is_over(world.trace().config(), world.node(p), world.round(p), p)
    }

    /// Hears all that waits for processor `p`.
    fn hear_waiting(&mut self, world: &World, p: u64)
        requires processor { IsProc world.now.trace.config p }
        requires peers { length self.old.peers ≡ world.now.trace.config.n }
        ensures heard { self.new ≡ heard_waiting world.now.trace.steps p self.old }
        ensures peers { length self.new.peers ≡ length self.old.peers }
    {
        hear_waiting(&mut self.peers, world, p);
    }

    /// Hears these messages, which wait for processor `p`.
    fn hear_ids(&mut self, world: &World, p: u64, ids: &[u64])
        requires processor { IsProc world.now.trace.config p }
        requires peers { length self.old.peers ≡ world.now.trace.config.n }
        requires waiting { All (λ s. Contains (buffer world.now.trace.steps p) s) ids.now }
        ensures heard { self.new ≡ heard_ids world.now.trace.steps p ids.now self.old }
        ensures peers { length self.new.peers ≡ length self.old.peers }
    {
        hear_all(&mut self.peers, world, p, ids);
    }

    /// Whether a Receive ends the round, once what it takes was heard.
    fn is_over(&self, config: &Config, node: &Node, round: u64, p: u64) -> bool
        requires peers { length self.now.peers ≡ config.now.n }
        requires round { 1 ≤ round }
        ensures { result ≡ is_over config.now node.now round p self.now }
    {
        self.is_complete(config, node, round, p)
            || is_left_behind(&self.peers, round)
            || self.left <= 1
    }

    /// Whether all has been heard that a round can bring.
    fn is_complete(&self, config: &Config, node: &Node, round: u64, p: u64) -> bool
        requires peers { length self.now.peers ≡ config.now.n }
        requires round { 1 ≤ round }
        ensures { result ≡ is_complete config.now node.now round p self.now }
    {
        awaited(config, node, round, p, &self.peers) == 0
            && (!may_hear_all(config, node, round, p) || self.quorum <= heard(&self.peers, round))
    }

    /// Counts a Receive of a round, and ends the round if it is over.
    fn receive(&mut self, ends: bool, round: u64)
        requires { 1 ≤ round }
        ensures received { self.new ≡ after_receive ends round self.old }
        ensures peers { length self.new.peers ≡ length self.old.peers }
    {
        if ends {
            self.end_round(round);
        } else {
            self.wait();
        }
    }

    /// Counts a Receive that ends no round.
    fn wait(&mut self)
        ensures { self.new ≡ after_wait self.old }
    {
        self.left = self.left.saturating_sub(1);
    }

    /// Ends a round; with the last one of a phase, who said nothing in it is suspected.
    fn end_round(&mut self, round: u64)
        requires { 1 ≤ round }
        ensures ended { self.new ≡ after_round round self.old }
        ensures peers { length self.new.peers ≡ length self.old.peers }
    {
        self.left = self.patience;
        if part_of(round) == 4 {
            end_phase(&mut self.peers, round);
        }
    }
}

/// Hears all that waits for processor `p`.
fn hear_waiting(peers: &mut [Peer], world: &World, p: u64)
    requires processor { IsProc world.now.trace.config p }
    requires peers { length peers.old ≡ world.now.trace.config.n }
    ensures { peers.new ≡ fold (heard_message world.now.trace.steps p) peers.old
        (buffer world.now.trace.steps p) }
{
    for id in world.waiting(p) {
        let (from, round) = world.origin(p, *id);
        hear(peers, from, round);
    }
}

/// Hears these messages, which wait for processor `p`.
fn hear_all(peers: &mut [Peer], world: &World, p: u64, ids: &[u64])
    requires processor { IsProc world.now.trace.config p }
    requires peers { length peers.old ≡ world.now.trace.config.n }
    requires waiting { All (λ s. Contains (buffer world.now.trace.steps p) s) ids.now }
    ensures { peers.new ≡ fold (heard_message world.now.trace.steps p) peers.old ids.now }
{
    for id in ids {
        let (from, round) = world.origin(p, *id);
        hear(peers, from, round);
    }
}
