//! How many processors there are, how many of them may be faulty, and their initial values.

ghost use Rattle.std.specs.Prelude.{◌≡◌, ◌↔◌, length, IfOk, IsTrue, MatchResult, Some, None};

use std::alloc::{AllocError, Global};
use std::marker::Model;

/// The least number of processors.
pub const MIN_PROCESSORS: u64 = 2;

/// The greatest number of processors.
pub const MAX_PROCESSORS: u64 = 64;

/// Why a configuration is refused.
#[derive(Clone, Copy, Debug, PartialEq, Eq)]
pub enum ConfigError {
    /// The number of processors is outside its limits.
    BadSize,
    /// `2t + 1` is above the number of processors.
    BadFaults,
    /// There aren't as many initial values as processors.
    BadInit,
}

/// A configuration: `n` processors, numbered from 1, of which at most `t` are faulty, and the
/// initial value of each (section 2 of the 1988 paper, for omission faults).
#[derive(Debug, Drop)]
pub struct Config {
    n: u64,
    t: u64,
    init: Vec<u64>,
}

impl Model for Config {
    ghost use Rattle.step_trace.specs.Configurations.{Setup, IsSetup};

    ghost Value = { Setup };

    ghost view = { λ a. record { n = a.n; t = a.t; init = a.init.items } };

    ghost invariant = { λ a. IsSetup (record { n = a.n; t = a.t; init = a.init.items }) };
}

impl Config {
    ghost use Rattle.step_trace.specs.Configurations.{IsSetup, config_refusal, is_proc};

    /// A configuration of these values.
    ///
    /// Refuses, in this order: `BadSize`, `BadFaults`, `BadInit`. Takes no memory.
    pub fn new(n: u64, t: u64, init: Vec<u64>) -> Result<Self, ConfigError>
        ensures ok { IfOk result (λ c. c ≡ record { n = n; t = t; init = init.items }) }
        ensures refused { MatchResult result (λ _. config_refusal n t (length init.items) ≡ None)
            (λ why. config_refusal n t (length init.items) ≡ Some why) }
    {
        if n < MIN_PROCESSORS || MAX_PROCESSORS < n {
            return Err(ConfigError::BadSize);
        }
        if n <= t || n < t + t + 1 {
            return Err(ConfigError::BadFaults);
        }
        if init.len() as u64 != n {
            return Err(ConfigError::BadInit);
        }
        Ok(Config { n, t, init })
    }

    /// An equal configuration.
    pub fn copy(&self, alloc: Global) -> Result<Self, AllocError>
        ensures copied { IfOk result (λ copy. copy ≡ self.now) }
    {
        Ok(Config {
            n: self.n,
            t: self.t,
            init: Vec::from_slice(alloc, &self.init)?,
        })
    }

    /// The number of processors.
    pub fn n(&self) -> u64
        ensures value { result ≡ self.now.n }
        ensures sound { IsSetup self.now }
    {
        self.n
    }

    /// How many processors may be faulty.
    pub fn t(&self) -> u64
        ensures { result ≡ self.now.t }
    {
        self.t
    }

    /// The initial value of each processor, in their order.
    pub fn init(&self) -> &[u64]
        ensures { result.now ≡ self.now.init }
    {
        &self.init
    }

    /// Whether `p` is the number of a processor.
    pub fn is_processor(&self, p: u64) -> bool
        ensures { result ≡ is_proc self.now p }
    {
        0 < p && p <= self.n
    }

    /// Whether it is the same configuration as another.
    pub fn is_same(&self, other: &Config) -> bool
        ensures { IsTrue result ↔ (self.now ≡ other.now) }
    {
        self.init.as_slice() == other.init.as_slice() && self.n == other.n && self.t == other.t
    }
}
