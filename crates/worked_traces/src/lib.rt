//! What no clause says of traces, gaps, gates, pieces and texts: that calls which no command makes succeed at full
//! size, that workers meet, and that each call reaches a device once. And formulas, gaps and misses by hand, and bounds
//! that are found in two ways. These are tests of the crates below, by their public items.
#![tactic(auto)]

#[cfg(test)]
mod counted_calls;
#[cfg(test)]
mod formulas;
#[cfg(test)]
mod full_size;
#[cfg(test)]
mod gaps_and_misses;
#[cfg(test)]
mod gates;
#[cfg(test)]
mod longest_texts;
#[cfg(test)]
mod pieces;
