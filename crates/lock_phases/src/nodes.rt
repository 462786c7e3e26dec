//! Nodes: what one sends in a round, and what becomes of it in the round.

ghost use Rattle.std.specs.Prelude.{◌≡◌, ◌<◌, ◌≤◌, length, IfOk, OnOk, OnErr, is_some, IsSome, All, map};
ghost use Rattle.std.specs.List.Sorted.{IsStrictlyIncreasing};

use crate::bodies::{Body, Kind, LockPairs, Values};
use crate::locks::{heard_lock, keep_acceptable, put_lock, release};
use crate::quorums::{acks, least_listed};
use crate::rounds::{owner, part_of, phase_of};
use crate::values::grown;
use std::alloc::{AllocError, Global};
use std::marker::Model;
use step_trace::Config;

/// One node of Algorithm 1 (section 3 of the 1988 paper): its PROPER values, its locks, its proposal,
/// whether it owes an acknowledgement, and its decision.
#[derive(Debug, Drop)]
pub struct Node {
    // (every body that the node sends shares it)
    proper: Values,
    locks: Vec<(u64, u64)>,
    proposal: Option<u64>,
    owes_ack: bool,
    decision: Option<u64>,
}

impl Model for Node {
    ghost use Rattle.lock_phases.specs.Nodes.{State, IsRising};

    ghost Value = { State };

    ghost view = { λ a. record {
      proper = a.proper;
      locks = a.locks.items;
      proposal = a.proposal;
      owes_ack = a.owes_ack;
      decision = a.decision;
    } };

    ghost invariant = { λ a. IsRising (record {
      proper = a.proper;
      locks = a.locks.items;
      proposal = a.proposal;
      owes_ack = a.owes_ack;
      decision = a.decision;
    }) };
}

impl Node {
    ghost use Rattle.step_trace.specs.Configurations.{IsProc};
    ghost use Rattle.lock_phases.specs.Nodes.{Grows, value_of, opening};
    ghost use Rattle.lock_phases.specs.Messages.{sender_of};
    ghost use Rattle.lock_phases.specs.Locks.{heard_lock};
    ghost use Rattle.lock_phases.specs.Rounds.{part_of, part_at};
    ghost use Rattle.lock_phases.specs.NodeFunctions.{values_to_list, kind_in, out, after_listing, after_locking};
    ghost use Rattle.lock_phases.specs.NodeFunctions.{after_acknowledging, after_releasing, after_part, next};

    /// The opening node of a processor with this initial value.
    pub fn new(alloc: Global, value: u64) -> Result<Self, AllocError>
        ensures { IfOk result (λ node. node ≡ opening value) }
    {
        let mut proper = Vec::new(alloc);
        proper.push(value)?;
        Ok(Node {
            proper: Values::new(alloc, proper)?,
            locks: Vec::new(alloc),
            proposal: None,
            owes_ack: false,
            decision: None,
        })
    }

    /// An equal node.
    pub fn copy(&self, alloc: Global) -> Result<Self, AllocError>
        ensures { IfOk result (λ node. node ≡ self.now) }
    {
        Ok(Node {
            proper: self.proper.clone()?,
            locks: Vec::from_slice(alloc, &self.locks)?,
            proposal: self.proposal,
            owes_ack: self.owes_ack,
            decision: self.decision,
        })
    }

    /// The PROPER values, rising.
    pub fn proper(&self) -> &[u64]
        ensures value { result.now ≡ self.now.proper }
        ensures rising { IsStrictlyIncreasing result.now }
    {
        self.proper.as_slice()
    }

    /// The locks, each a value with the phase in which it was locked, rising by value.
    pub fn locks(&self) -> &[(u64, u64)]
        ensures value { result.now ≡ self.now.locks }
        ensures rising { IsStrictlyIncreasing (map value_of result.now) }
    {
        &self.locks
    }

    /// The value that it proposes, if it does: only an owner does.
    pub fn proposal(&self) -> Option<u64>
        ensures { result ≡ self.now.proposal }
    {
        self.proposal
    }

    /// Whether it owes an acknowledgement.
    pub fn ack(&self) -> bool
        ensures { result ≡ self.now.owes_ack }
    {
        self.owes_ack
    }

    /// The value that it decided, if it did.
    pub fn decision(&self) -> Option<u64>
        ensures { result ≡ self.now.decision }
    {
        self.decision
    }

    /// Whether processor `me` with this node sends anything to processor `to` in a round: whether `out` has
    /// a message (section 3 of the 1988 paper). Takes no memory.
    #[tactic(auto, using(crate::proofs::Sendings::sends_by_part))]
    pub fn sends_to(&self, config: &Config, me: u64, round: u64, to: u64) -> bool
        requires { 1 ≤ round }
        ensures { result ≡ is_some (out config.now self.now me round to) }
    {
        let owner = owner(config.n(), phase_of(round));
        match part_of(round) {
            1 => to == owner,
            2 => me == owner && self.proposal.is_some(),
            3 => self.owes_ack && to == owner,
            _ => true,
        }
    }

    /// What processor `me` with this node sends to processor `to` in a round, if anything (section 3 of the
    /// 1988 paper). PROPER is attached to all that it sends.
    #[tactic(auto, using(crate::proofs::Sendings::out_by_part))]
    pub fn out(
        &self,
        alloc: Global,
        config: &Config,
        me: u64,
        round: u64,
        to: u64,
    ) -> Result<Option<Body>, AllocError>
        requires sender { IsProc config.now me }
        requires receiver { IsProc config.now to }
        requires positive { 1 ≤ round }
        ensures ok { IfOk result (λ body. body ≡ out config.now self.now me round to) }
        ensures more { OnErr result (IsSome (out config.now self.now me round to)) }
    {
        if !self.sends_to(config, me, round, to) {
            return Ok(None);
        }
        let Some(kind) = self.kind_in(alloc, round)? else {
            return Ok(None);
        };
        let proper = self.proper.clone()?;
        Ok(Some(Body { kind, proper }))
    }

    /// What it says in a round to whomever it sends, PROPER aside.
    fn kind_in(&self, alloc: Global, round: u64) -> Result<Option<Kind>, AllocError>
        requires { 1 ≤ round }
        ensures { IfOk result (λ kind. kind ≡ kind_in (part_at (part_of round)) self.now) }
    {
        match part_of(round) {
            1 => Ok(Some(Kind::List(self.values_to_list(alloc)?))),
            2 => Ok(self.proposal.map(Kind::Lock)),
            3 => Ok(Some(Kind::Ack)),
            _ => Ok(Some(Kind::Locks(self.locks_to_tell(alloc)?))),
        }
    }

    fn values_to_list(&self, alloc: Global) -> Result<Values, AllocError>
        ensures { IfOk result (λ values. values ≡ values_to_list self.now) }
    {
        // (`collect` would ask again for less if its allocation fails)
        let mut values = Vec::from_slice(alloc, self.proper.as_slice())?;
        keep_acceptable(&mut values, &self.locks);
        Ok(Values::new(alloc, values)?)
    }

    fn locks_to_tell(&self, alloc: Global) -> Result<LockPairs, AllocError>
        ensures { IfOk result (λ pairs. pairs ≡ self.now.locks) }
    {
        let pairs = Vec::from_slice(alloc, &self.locks)?;
        Ok(LockPairs::new(alloc, pairs)?)
    }

    /// Takes processor `me` with this node through a round in which it heard these messages, each with its
    /// sender, in the order of the senders (section 3 of the 1988 paper).
    ///
    /// Each PROPER heard is taken in first. A body of another part of the phase, a Lock that isn't the
    /// owner's, and a List or Ack heard by another than the owner do no more than that. Takes memory only
    /// for a value or a lock that is new to the node; out of memory leaves the node unchanged.
    #[tactic(auto, unfolding(crate::specs::NodeFunctions::next))]
    pub fn compute(
        &mut self,
        alloc: Global,
        config: &Config,
        me: u64,
        round: u64,
        heard: &[(u64, Body)],
    ) -> Result<(), AllocError>
        requires processor { IsProc config.now me }
        requires positive { 1 ≤ round }
        requires senders { All (λ m. IsProc config.now (sender_of m)) heard.now }
        requires rising { IsStrictlyIncreasing (map sender_of heard.now) }
        ensures ok { OnOk result (self.new ≡ next config.now self.old me round heard.now) }
        ensures err { OnErr result (self.new ≡ self.old) }
        ensures more { OnErr result (Grows self.old (next config.now self.old me round heard.now)) }
    {
        let grown = grown(alloc, self.proper.as_slice(), heard)?;
        self.compute_part(config, me, round, heard)?;
        if let Some(proper) = grown {
            self.proper.set(proper);
        }
        Ok(())
    }

    /// The compute part of a round, PROPER aside.
    fn compute_part(
        &mut self,
        config: &Config,
        me: u64,
        round: u64,
        heard: &[(u64, Body)],
    ) -> Result<(), AllocError>
        requires { 1 ≤ round }
        ensures ok { OnOk result (self.new ≡ after_part config.now self.old me round heard.now) }
        ensures err { OnErr result (self.new ≡ self.old) }
        ensures more { OnErr result (length self.old.locks
            < length (after_part config.now self.old me round heard.now).locks) }
    {
        let phase = phase_of(round);
        let owner = owner(config.n(), phase);
        match part_of(round) {
            1 => self.propose(config, me == owner, heard),
            2 => self.lock(owner, phase, heard)?,
            3 => self.decide(config, me == owner, heard),
            _ => self.release(heard),
        }
        Ok(())
    }

    fn propose(&mut self, config: &Config, owns: bool, heard: &[(u64, Body)])
        ensures { self.new ≡ after_listing config.now self.old owns heard.now }
    {
        if owns {
            self.proposal = least_listed(config.n() - config.t(), heard);
        }
    }

    fn lock(&mut self, owner: u64, phase: u64, heard: &[(u64, Body)]) -> Result<(), AllocError>
        ensures ok { OnOk result
            (self.new ≡ after_locking self.old phase (heard_lock owner heard.now)) }
        ensures err { OnErr result (self.new ≡ self.old) }
        ensures more { OnErr result (length self.old.locks
            < length (after_locking self.old phase (heard_lock owner heard.now)).locks) }
    {
        if let Some(v) = heard_lock(owner, heard) {
            put_lock(&mut self.locks, v, phase)?;
            self.owes_ack = true;
        }
        Ok(())
    }

    fn decide(&mut self, config: &Config, owns: bool, heard: &[(u64, Body)])
        ensures { self.new ≡ after_acknowledging config.now self.old owns heard.now }
    {
        if owns && self.proposal.is_some() && self.decision.is_none() && config.t() < acks(heard) {
            self.decision = self.proposal;
        }
        self.proposal = None;
        self.owes_ack = false;
    }

    fn release(&mut self, heard: &[(u64, Body)])
        ensures { self.new ≡ after_releasing self.old heard.now }
    {
        release(&mut self.locks, heard);
    }
}
