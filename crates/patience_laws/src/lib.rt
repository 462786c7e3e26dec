//! How long a processor has to wait by the pace "heard out".
#![tactic(auto)]

mod laws;

pub use laws::{
    gathering_laws, knowledge_laws, least_laws, meeting_laws, paced_laws, progress_laws,
    round_laws, silence_laws,
};
