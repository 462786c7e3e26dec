//! Traces of Send and Receive steps: sets of processors, configurations, well-formed lists of steps,
//! the plain data of reported bounds, and the gate that workers enter before their work. `specs/` has
//! the definitions of all of it.
#![tactic(auto)]

mod configurations;
mod correct_sets;
mod cuts;
mod delivery_index;
mod differences;
mod gates;
mod loose_steps;
pub mod meeting;
mod message_ids;
mod message_notes;
mod numbers;
mod own_steps;
mod paged_lists;
mod placed_steps;
mod processor_lists;
mod processors;
mod push_error_texts;
mod push_refusals;
mod rows;
mod step_facts;
mod steps;
mod steps_so_far;
mod tick_lists;
mod tick_steps;
mod ticks;
mod traces;
mod unchecked_steps;

pub use configurations::{Config, ConfigError, MAX_PROCESSORS, MIN_PROCESSORS};
pub use correct_sets::Correct;
pub use gates::{Gate, OpenGate};
pub use loose_steps::{LooseSteps, StepRefused};
pub use message_ids::MessageIds;
pub use message_notes::note_messages;
pub use numbers::read_number;
pub use processors::{MAX_MEMBER, ProcSet};
pub use push_refusals::is_rising;
pub use rows::{Gap, Miss, Row};
pub use step_facts::{ids_at, is_receive_of, is_step_of, receiver, step_of};
pub use steps::{Act, Step};
pub use tick_steps::steps_before;
pub use ticks::BadTick;
pub use traces::{MAX_STEPS, MAX_TICKS, PAGE_STEPS, PushError, Trace};
