//! What receives of nothing in short silences change of the bounds of a log: laws alone.
#![tactic(auto)]

mod laws;

pub use laws::{delta_laws, filling_laws, phi_laws};
