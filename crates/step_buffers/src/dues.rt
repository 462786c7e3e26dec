//! What a processor has to do in place of a step that isn't due.

ghost use Rattle.std.specs.Prelude.{◌≡◌};
ghost use Rattle.step_buffers.specs.Dues.{due_for};

use step_trace::Act;

/// What a processor had to do in place of a step that is none of a run.
#[derive(Clone, Copy, Debug, PartialEq, Eq)]
pub struct Due {
    /// The processor, whose step it is.
    pub proc: u64,
    /// What it had to do.
    pub what: DueStep,
}

/// What a processor has to do, by what it sends next in its round.
#[derive(Clone, Copy, Debug, PartialEq, Eq)]
pub enum DueStep {
    /// If it sends, it sends to this processor, and to no other one.
    SendTo(u64),
    /// It sends to this processor, before it may end its round.
    SendFirst(u64),
    /// It receives: it has nothing to send until it ends its round.
    Receive,
}

/// What a processor has to do in place of this, if it isn't due, where `next` is the processor to which it sends next.
pub(crate) fn due_for(next: Option<u64>, act: &Act) -> DueStep
    ensures { result ≡ due_for next act.now }
{
    match (next, act) {
        (None, _) => DueStep::Receive,
        (Some(to), Act::Send { .. }) => DueStep::SendTo(to),
        (Some(to), Act::Receive { .. }) => DueStep::SendFirst(to),
    }
}
