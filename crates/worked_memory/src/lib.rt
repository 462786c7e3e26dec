//! Out of memory in calls that no command makes, and in threads that read a text: each call is made again and again,
//! with its first allocation refused, then its second, and so on. `tests/memory` runs these tests with a library that
//! refuses; without it each call is made once, with ample memory. Commands are swept as a whole, by `tests/sweeps`.
#![tactic(auto)]

#[cfg(test)]
mod joins;
#[cfg(test)]
mod looks;
#[cfg(test)]
mod readers;
#[cfg(test)]
mod recorders;
#[cfg(test)]
mod rounds;
#[cfg(test)]
mod traces;
