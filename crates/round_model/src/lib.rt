//! The round model of section 3 of Dwork, Lynch and Stockmeyer ("Consensus in the Presence of Partial
//! Synchrony", 1988). It has rounds of Algorithm 1 over any table of who heard whom, and agreement.
#![tactic(auto)]

mod agreements;
mod bounded_decisions;
mod heard_sets;
mod rounds;

pub use agreements::agreement;
pub use bounded_decisions::decided_by;
pub use heard_sets::{Heard, MAX_ROUNDS};
pub use rounds::{decided, run_rounds};
