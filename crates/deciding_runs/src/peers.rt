//! What a processor has heard of each other one, and for whom it waits in a round.

ghost use Rattle.std.specs.Prelude.{◌≡◌, ◌≤◌, ◌-◌, ◌&&◌, not, length, map, slice_set};
ghost use Rattle.deciding_runs.specs.Audible.{may_hear};
ghost use Rattle.deciding_runs.specs.Peers.{after_hearing, after_phase, is_heard_of, is_done_with, is_far_ahead};
ghost use Rattle.deciding_runs.specs.Peers.{is_left_behind, awaited_count, heard_count, peer_of};

use crate::audible::may_hear;
use lock_phases::Node;
use step_trace::Config;

/// What a processor has heard of another one.
#[derive(Clone, Copy, Debug)]
pub(crate) struct Peer {
    /// The latest round of which it took a message of it before it had passed that round, or 0.
    pub latest: u64,
    /// Whether it took any message of it since its own last phase ended.
    pub spoke: bool,
    /// Whether it waits for it no more, until it hears of it again.
    pub suspected: bool,
}

impl Peer {
    /// Hears a message of a round.
    fn hear(&mut self, round: u64)
        ensures { self.new ≡ after_hearing round self.old }
    {
        self.latest = self.latest.max(round);
        self.spoke = true;
        self.suspected = false;
    }

    /// Ends a phase with its last round.
    fn end_phase(&mut self, round: u64)
        ensures { self.new ≡ after_phase round self.old }
    {
        self.suspected = self.suspected || (!self.spoke && self.latest < round);
        self.spoke = false;
    }

    /// Whether it was heard of in a round or in a later one.
    fn is_heard_of(&self, round: u64) -> bool
        ensures { result ≡ is_heard_of round self.now }
    {
        round <= self.latest
    }

    /// Whether there is nothing more to wait for in a round.
    fn is_done(&self, round: u64) -> bool
        ensures { result ≡ is_done_with round self.now }
    {
        self.is_heard_of(round) || self.suspected
    }

    /// Whether it is more than a phase ahead of a round.
    fn is_far_ahead(&self, round: u64) -> bool
        ensures { result ≡ is_far_ahead round self.now }
    {
        4 < self.latest.saturating_sub(round)
    }
}

/// Hears a message of a processor, of a round.
pub(crate) fn hear(peers: &mut [Peer], from: u64, round: u64)
    requires low { 1 ≤ from }
    requires high { from ≤ length peers.old }
    ensures { peers.new ≡ slice_set peers.old (from - 1)
        (after_hearing round (peer_of peers.old from)) }
{
    peers[(from - 1) as usize].hear(round);
}

/// Ends a phase with its last round.
pub(crate) fn end_phase(peers: &mut [Peer], round: u64)
    ensures { peers.new ≡ map (after_phase round) peers.old }
{
    for peer in peers.iter_mut() {
        peer.end_phase(round);
    }
}

/// Whether p, with this node, waits for q in a round, of whom it heard this.
fn is_awaited(config: &Config, node: &Node, round: u64, p: u64, q: u64, peer: &Peer) -> bool
    requires { 1 ≤ round }
    ensures { result ≡ (may_hear config.now node.now round p q &&
        not (is_done_with round peer.now)) }
{
    may_hear(config, node, round, p, q) && !peer.is_done(round)
}

/// For how many p, with this node, waits in a round.
pub(crate) fn awaited(config: &Config, node: &Node, round: u64, p: u64, peers: &[Peer]) -> u64
    requires peers { length peers.now ≡ config.now.n }
    requires round { 1 ≤ round }
    ensures { result ≡ awaited_count config.now node.now round p peers.now }
{
    let mut awaited = 0;
    for q in 1..config.n() + 1 {
        if is_awaited(config, node, round, p, q, &peers[(q - 1) as usize]) {
            awaited += 1;
        }
    }
    awaited
}

/// How many were heard of in a round or in a later one.
pub(crate) fn heard(peers: &[Peer], round: u64) -> u64
    ensures { result ≡ heard_count round peers.now }
{
    peers.iter().filter(|peer| peer.is_heard_of(round)).count() as u64
}

/// Whether somebody is more than a phase ahead of a round.
pub(crate) fn is_left_behind(peers: &[Peer], round: u64) -> bool
    ensures { result ≡ is_left_behind round peers.now }
{
    peers.iter().any(|peer| peer.is_far_ahead(round))
}
