//! A gate for tests, at which two workers meet: it shows that they run at the same time.

use crate::gates::Gate;
use std::sync::atomic::{AtomicBool, Ordering};
use std::thread;

/// How many turns a worker waits for the other.
pub const TURNS: u64 = 1_000_000;

/// A gate for workers 1 and 2, each of which is let in once the other has come. Each comes once.
#[derive(Drop)]
pub struct MeetingGate {
    first_came: AtomicBool,
    second_came: AtomicBool,
}

impl MeetingGate {
    /// A gate to which nobody has come.
    pub fn new() -> Self {
        MeetingGate {
            first_came: AtomicBool::new(false),
            second_came: AtomicBool::new(false),
        }
    }
}

impl Gate for MeetingGate {
    /// Waits for the other worker, for `TURNS` turns, in each of which other threads may run. False if
    /// it doesn't come, if this worker came before, and to any other worker.
    fn enter(&self, who: u64) -> bool {
        let (mine, other) = match who {
            1 => (&self.first_came, &self.second_came),
            2 => (&self.second_came, &self.first_came),
            _ => return false,
        };
        if mine.swap(true, Ordering::SeqCst) {
            return false;
        }
        for _ in 0..TURNS {
            if other.load(Ordering::SeqCst) {
                return true;
            }
            thread::yield_now();
        }
        false
    }
}
