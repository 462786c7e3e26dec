//! Events with times in place of ticks, as systems log them, and the trace in ticks that they make.
#![tactic(auto)]

mod briefs;
mod causal_orders;
mod cause_cycles;
mod checks;
mod events;
mod idle_ticks;
mod idle_traces;
mod lateness;
mod laws;
mod message_checks;
mod messages;
mod orders;
mod own_sequences;
mod passing;
mod received;
mod spread_ticks;
mod spread_traces;
mod steps;
mod ticked_events;
mod time_orders;
mod timed_traces;
mod times;
mod walk_briefs;

pub use cause_cycles::{Hop, cycle_of_causes};
pub use checks::{are_meant, check_events};
pub use events::{Clock, Event, EventAct, EventError, Hint};
pub use idle_ticks::IdleTick;
pub use idle_traces::{Filling, IdleError, IdleTrace, PlacedIdleTrace, filling_of, idle_trace};
pub use lateness::{LateMessage, Lateness, lateness_of, time_at};
pub use laws::{cause_laws, idle_laws, trace_laws};
pub use message_checks::check_messages;
pub use messages::Messages;
pub use orders::numbers_of;
pub use received::hops_of;
pub use spread_traces::{Moved, PlacedTrace, TimedTrace, placed_trace};
pub use ticked_events::{EventTicks, event_ticks};
pub use time_orders::time_order_of;
pub use times::{Span, least_time, span_of, ticks_of};
