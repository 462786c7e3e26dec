//! What a page about a run reports: in which row the run is calm, which silences and late messages rule out smaller
//! bounds before that, its headline, and who the lost messages are for. Plain data, with no words.
#![tactic(auto)]

mod calm;
mod delays;
mod ended_silences;
mod evidence;
mod headlines;
mod losses;
mod message_counts;
mod messages;
mod named;
mod stalls;

pub use calm::{calm_row, is_poor};
pub use delays::{Delay, delays_of};
pub use ended_silences::ended_silence;
pub use evidence::{Evidence, evidence_of};
pub use headlines::{Headline, headline_of};
pub use losses::{LostReceivers, lost_receivers};
pub use message_counts::{MessageCounts, count_messages};
pub use named::{Named, brief_rows, named_evidence};
pub use stalls::{Stall, stalls_of};
