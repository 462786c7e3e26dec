//! Sweeps of refused allocations. A call is made again and again, with its first allocation refused, then its second,
//! and so on, until it ends without a refusal. The call and the judge of its answer are a [`Call`]; [`first_wrong`]
//! makes the sweep. If a call changes nothing that it is lent, a [`LentCall`] is simpler.
//!
//! The refusals come from `tests/refusing.c`, which `tests/memory` loads before the C library. A test names the
//! allocation to refuse by asking for memory of a size that nothing else asks for. If that library isn't loaded, these
//! requests are met, nothing is refused, and the call is made once with ample memory.
#![tactic(auto)]

mod lent_calls;
mod refusals;

pub use lent_calls::{LentCall, first_wrong_lent};
pub use refusals::{Call, Outcome, Refusal, Whose, first_wrong, judged};
