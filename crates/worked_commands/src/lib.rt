//! What no clause says of reports by threads and runs on threads: that threads meet, and what comes of one that is held
//! back. These are tests of `text_commands` and `node_runs`, by their public items. Their outputs, the lines of their
//! faults, and devices that fail are cases of `tests/cases/`.
#![tactic(auto)]

#[cfg(test)]
mod runs;
#[cfg(test)]
mod workers;
