//! The messages of a simulated run: when they are due, and which are lost.

ghost use Rattle.std.specs.Prelude.{◌≡◌, ◌+◌, ◌-◌, ◌*◌, ◌<◌, ◌≤◌, ◌++◌, ◌∷◌};
ghost use Rattle.std.specs.Prelude.{[], true, IfOk, OnOk, length, replicate};
ghost use Rattle.step_trace.specs.declared.configurations.TheConstants.{MAX_PROCESSORS};
ghost use Rattle.step_trace.specs.declared.traces.TheConstants.{MAX_STEPS};
ghost use Rattle.simulated_runs.specs.Posts.{IsDueTick, IsPosted, MayBeLost, tray_of, with_tray};
ghost use Rattle.simulated_runs.specs.Trays.{due_ids, not_due};

use crate::generators::Generator;
use crate::trays::{Posted, Tray};
use command_options::StatedBounds;
use std::alloc::{AllocError, Global};

/// The messages that are under way.
#[derive(Debug, Drop)]
pub(crate) struct Post {
    /// For each processor, what is under way to it.
    trays: Vec<Tray>,
    /// For each sender and each receiver, the tick in which the last message of the one to the other is due.
    latest: Vec<u64>,
    bounds: Option<StatedBounds>,
    loss: u64,
    ghost square: { length latest.items ≡ length trays.items * length trays.items },
}

impl Post {
    /// Nothing is under way between `n` processors.
    pub(crate) fn new(
        alloc: Global,
        n: u64,
        bounds: Option<StatedBounds>,
        loss: u64,
    ) -> Result<Self, AllocError>
        requires { n ≤ MAX_PROCESSORS }
        ensures trays { IfOk result (λ post. post.trays.items ≡ replicate n []) }
        ensures bounds { IfOk result (λ post. post.bounds ≡ bounds) }
    {
        Ok(Post {
            trays: empty_trays(alloc, n)?,
            latest: vec![in alloc; 0u64; (n * n) as usize]?,
            bounds,
            loss,
        })
    }

    /// Processor `from` sends a message to processor `to` in this tick, which is its id. It is lost, or due in a tick
    /// after it. Asks for two processors.
    pub(crate) fn send(
        &mut self,
        generator: &mut Generator,
        from: u64,
        to: u64,
        tick: u64,
    ) -> Result<(), AllocError>
        requires from_low { 1 ≤ from }
        requires from_high { from ≤ length self.old.trays.items }
        requires low { 1 ≤ to }
        requires high { to ≤ length self.old.trays.items }
        requires early { tick ≤ MAX_STEPS }
        ensures posted { OnOk result
            (IsPosted self.old.bounds self.old.trays.items self.new.trays.items to tick) }
        ensures count { length self.new.trays.items ≡ length self.old.trays.items }
        ensures bounds { self.new.bounds ≡ self.old.bounds }
    {
        if from != to && self.loses(generator, tick) {
            return Ok(());
        }
        let due = if from == to {
            tick + 1
        } else {
            self.due(generator, from, to, tick)
        };
        add_to(&mut self.trays, to, Posted { id: tick, due })
    }

    /// Takes what is due for a processor by this tick, and gives the ids. Asks for a processor.
    pub(crate) fn take_due(
        &mut self,
        alloc: Global,
        p: u64,
        tick: u64,
    ) -> Result<Vec<u64>, AllocError>
        requires low { 1 ≤ p }
        requires high { p ≤ length self.old.trays.items }
        ensures due { IfOk result
            (λ ids. ids.items ≡ due_ids tick (tray_of self.old.trays.items p)) }
        ensures left { OnOk result
            (self.new.trays.items ≡ with_tray self.old.trays.items p
            (not_due tick (tray_of self.old.trays.items p))) }
        ensures count { length self.new.trays.items ≡ length self.old.trays.items }
        ensures bounds { self.new.bounds ≡ self.old.bounds }
    {
        take_from(alloc, &mut self.trays, p, tick)
    }

    /// Whether a message that is sent in this tick is lost.
    fn loses(&self, generator: &mut Generator, tick: u64) -> bool
        ensures { result ≡ true → MayBeLost self.now.bounds tick }
    {
        if self.loss == 0 || !self.may_lose(tick) {
            return false;
        }
        generator.below(100) < self.loss
    }

    /// Whether messages that are sent in this tick may be lost.
    fn may_lose(&self, tick: u64) -> bool
        ensures { result ≡ true → MayBeLost self.now.bounds tick }
    {
        match self.bounds {
            Some(bounds) => tick <= bounds.gst,
            None => true,
        }
    }

    /// When a message is due that is sent in this tick. If bounds are stated, it is a tick that is drawn of those that
    /// the communication bound allows, and not before a message that was sent before it.
    fn due(&mut self, generator: &mut Generator, from: u64, to: u64, tick: u64) -> u64
        requires from_low { 1 ≤ from }
        requires from_high { from ≤ length self.old.trays.items }
        requires low { 1 ≤ to }
        requires high { to ≤ length self.old.trays.items }
        requires early { tick ≤ MAX_STEPS }
        ensures due { IsDueTick self.old.bounds tick result }
        ensures trays { self.new.trays ≡ self.old.trays }
        ensures bounds { self.new.bounds ≡ self.old.bounds }
    {
        let Some(bounds) = self.bounds else {
            return tick + 1;
        };
        let most = tick.max(bounds.gst) + bounds.delta;
        let drawn = tick + 1 + generator.below(most - tick);
        let place = ((from - 1) * self.trays.len() as u64 + to - 1) as usize;
        let due = drawn.max(self.latest[place]).min(most);
        self.latest[place] = due;
        due
    }
}

/// Trays for `n` processors, with nothing under way.
fn empty_trays(alloc: Global, n: u64) -> Result<Vec<Tray>, AllocError>
    ensures { IfOk result (λ trays. trays.items ≡ replicate n []) }
{
    let mut trays = Vec::new(alloc);
    for _ in 0..n {
        trays.push(Tray::new(alloc))?;
    }
    Ok(trays)
}

/// Adds a message to what is under way to a processor.
fn add_to(trays: &mut [Tray], p: u64, message: Posted) -> Result<(), AllocError>
    requires low { 1 ≤ p }
    requires high { p ≤ length trays.old }
    ensures { OnOk result
        (trays.new ≡ with_tray trays.old p (tray_of trays.old p ++ message ∷ [])) }
{
    trays[(p - 1) as usize].add(message)
}

/// Takes what is due for a processor by this tick, and gives the ids.
fn take_from(alloc: Global, trays: &mut [Tray], p: u64, tick: u64) -> Result<Vec<u64>, AllocError>
    requires low { 1 ≤ p }
    requires high { p ≤ length trays.old }
    ensures due { IfOk result (λ ids. ids.items ≡ due_ids tick (tray_of trays.old p)) }
    ensures left { OnOk result
        (trays.new ≡ with_tray trays.old p (not_due tick (tray_of trays.old p))) }
{
    trays[(p - 1) as usize].take_due(alloc, tick)
}
