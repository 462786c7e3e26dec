//! Sleepers: threads that have nothing to do until a message comes.

use std::alloc::{AllocError, Global};
use std::sync::{Condvar, Mutex, Wait};

/// Where the threads of processors sleep that have nothing to do until a message comes.
///
/// A thread lies down only while another one stays awake, so there is always one that makes steps. It is woken by a
/// message to its processor, and when all others sleep that still make steps.
#[derive(Drop)]
pub(crate) struct Sleepers {
    beds: Mutex<Beds>,
    // One for each processor, so that a message wakes its receiver alone.
    bells: Vec<Condvar>,
}

/// Whose threads sleep, and how many threads still make steps.
#[derive(Drop)]
struct Beds {
    asleep: Vec<bool>,
    working: u64,
}

impl Sleepers {
    /// For the threads of processors 1 to `n`, all of which are awake. Takes memory for each.
    pub(crate) fn new(alloc: Global, n: u64) -> Result<Self, AllocError> {
        let mut bells = Vec::with_capacity(alloc, n as usize)?;
        for _ in 0..n {
            bells.push(Condvar::new())?;
        }
        Ok(Sleepers {
            beds: Mutex::new(Beds {
                asleep: vec![in alloc; false; n as usize]?,
                working: n,
            }),
            bells,
        })
    }

    /// Wakes all threads for good: none lies down any more. For a thread that can't be started, for which others would
    /// wait.
    pub(crate) fn rouse<R: Wait>(&self, rt: &R) {
        self.beds.lock(rt).working = 0;
        self.ring_all();
    }

    /// Says that a thread makes no more steps. Waits for the lock.
    pub(crate) fn leave<R: Wait>(&self, rt: &R) {
        self.beds.lock(rt).leave();
        self.ring_all();
    }

    /// Lays the thread of processor `p` down, if another one stays awake, and says whether it did. Waits for the lock.
    pub(crate) fn lie_down<R: Wait>(&self, rt: &R, p: u64) -> bool {
        self.beds.lock(rt).lie_down(p)
    }

    /// Sleeps, as the thread of processor `p`, which lay down, until it is woken.
    pub(crate) fn sleep<R: Wait>(&self, rt: &R, p: u64) {
        if let Some(bell) = self.bells.get(place(p)) {
            let mut beds = bell.wait_while(rt, self.beds.lock(rt), |beds| beds.sleeps_on(p));
            beds.get_up(p);
        }
    }

    /// Wakes the thread of processor `p`, if it sleeps. Waits for the lock.
    pub(crate) fn wake<R: Wait>(&self, rt: &R, p: u64) {
        if self.beds.lock(rt).get_up(p) {
            if let Some(bell) = self.bells.get(place(p)) {
                bell.notify_all();
            }
        }
    }

    fn ring_all(&self) {
        for bell in &self.bells {
            bell.notify_all();
        }
    }
}

impl Beds {
    /// How many threads that still make steps are awake.
    fn awake(&self) -> u64 {
        let asleep = self.asleep.iter().filter(|sleeps| **sleeps).count() as u64;
        self.working.saturating_sub(asleep)
    }

    /// Lays a thread down if another one stays awake.
    fn lie_down(&mut self, p: u64) -> bool {
        let i = place(p);
        if self.awake() < 2 || i >= self.asleep.len() {
            return false;
        }
        self.asleep[i] = true;
        true
    }

    /// Whether a thread that lay down sleeps on: nobody woke it, and another one is awake.
    fn sleeps_on(&self, p: u64) -> bool {
        let i = place(p);
        i < self.asleep.len() && self.asleep[i] && 0 < self.awake()
    }

    /// Lets a thread get up, and says whether it lay.
    fn get_up(&mut self, p: u64) -> bool {
        let i = place(p);
        if i >= self.asleep.len() {
            return false;
        }
        let lay = self.asleep[i];
        self.asleep[i] = false;
        lay
    }

    fn leave(&mut self) {
        self.working = self.working.saturating_sub(1);
    }
}

/// The place of a processor in a list of all; past its end for processor 0, which isn't there.
fn place(p: u64) -> usize {
    p.wrapping_sub(1) as usize
}
