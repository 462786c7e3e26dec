//! What makes events a trace, tested event by event.

ghost use Rattle.std.specs.Prelude.{◌≡◌, ◌<◌, ◌+◌, ◌||◌, ◌↔◌, ℕ, None, Some, false, length, map, IfOk, OnOk};
ghost use Rattle.std.specs.Prelude.{MatchResult, IsTrue, IsSome, is_some, nat_eq, slice_index_or};
ghost use Rattle.std.specs.HashSet.{contains};
ghost use Rattle.timed_events.specs.Briefs.{brief_of};
ghost use Rattle.timed_events.specs.Checks.{received_before, messages_at, message_refusal, messages_refusal};
ghost use Rattle.timed_events.specs.Checks.{late_hint, apart_hint, moment_at, earlier_at, second_refusal};
ghost use Rattle.timed_events.specs.Checks.{events_refusal, AreOfProcessors, AreMeant, IsMeantAt, IsEventRefusal};

use crate::briefs::{Brief, briefs_of};
use crate::events::{Event, EventAct, EventError, Hint};
use crate::message_checks::sent_by;
use std::alloc::Global;
use std::collections::HashSet;
use step_trace::MAX_PROCESSORS;

/// Tests the events, whose ticks these are, in their order.
///
/// Asks for a tick of each event, and for processors from 1 to `MAX_PROCESSORS`. Refuses, of one event in this
/// order: for each of its messages `NeverSent`, `WrongReceiver`, `ReceivedBefore`, `NotLater`; then `SecondEvent`.
pub fn check_events(alloc: Global, events: &[Event], ticks: &[u32]) -> Result<(), EventError>
    requires ticks { length ticks.now ≡ length events.now }
    requires processors { AreOfProcessors events.now }
    ensures { MatchResult result (λ _. events_refusal events.now ticks.now ≡ None)
        (λ why. IsEventRefusal why (events_refusal events.now ticks.now)) }
{
    let briefs = briefs_of(alloc, events)?;
    let mut taken = vec![in alloc; false; events.len()]?;
    let mut seen = HashSet::new(alloc);
    for (place, event) in events.iter().enumerate() {
        let messages = event.act.messages();
        take_messages(events, &briefs, ticks, place, messages, &mut taken)?;
        take_moment(events, ticks, place, &mut seen)?;
    }
    Ok(())
}

/// Whether each event is of one of `n` processors, and each Send goes to one of them.
pub fn are_meant(events: &[Event], n: u64) -> bool
    ensures { IsTrue result ↔ AreMeant events.now n }
{
    for place in 0..events.len() {
        if !is_meant(events, place, n) {
            return false;
        }
    }
    true
}

/// Whether the event at `place` is of one of `n` processors, and goes to one of them if it is a Send.
fn is_meant(events: &[Event], place: usize, n: u64) -> bool
    requires { place < length events.now }
    ensures { IsTrue result ↔ IsMeantAt events.now n place }
{
    let event = &events[place];
    if event.processor < 1 || n < event.processor {
        return false;
    }
    match &event.act {
        EventAct::Send { to } => 1 <= *to && *to <= n,
        EventAct::Receive { .. } => true,
    }
}

/// Tests the messages of the event at `place`, and marks them as taken.
pub(crate) fn take_messages(
    events: &[Event],
    briefs: &[Brief],
    ticks: &[u32],
    place: usize,
    messages: &[Option<u32>],
    taken: &mut Vec<bool>,
) -> Result<(), EventError>
    requires inside { place < length events.now }
    requires ticks { length ticks.now ≡ length events.now }
    requires processors { AreOfProcessors events.now }
    requires briefs { briefs.now ≡ map brief_of events.now }
    requires messages { messages.now ≡ messages_at events.now place }
    requires len { length taken.old.items ≡ length events.now }
    requires taken { (s : ℕ) → s < length events.now
        → slice_index_or taken.old.items s false ≡ received_before events.now place s }
    ensures len { OnOk result (length taken.new.items ≡ length events.now) }
    ensures taken { OnOk result ((s : ℕ) → s < length events.now
        → slice_index_or taken.new.items s false ≡ received_before events.now (place + 1) s) }
    ensures refused { MatchResult result (λ _. messages_refusal events.now ticks.now place ≡ None)
        (λ why. messages_refusal events.now ticks.now place ≡ Some why) }
{
    for (k, message) in messages.iter().enumerate() {
        let sent = sent_before(events, briefs, ticks, place, k, *message, taken)?;
        taken[sent] = true;
    }
    Ok(())
}

/// The place of the event that sent a message, if the event at `place` may receive it.
fn sent_before(
    events: &[Event],
    briefs: &[Brief],
    ticks: &[u32],
    place: usize,
    k: usize,
    message: Option<u32>,
    taken: &[bool],
) -> Result<usize, EventError>
    requires inside { place < length events.now }
    requires ticks { length ticks.now ≡ length events.now }
    requires processors { AreOfProcessors events.now }
    requires briefs { briefs.now ≡ map brief_of events.now }
    requires taken { length taken.now ≡ length events.now }
    ensures sent { IfOk result (λ s. (s < length events.now) × (message ≡ Some s)) }
    ensures refused { MatchResult result
        (λ _. message_refusal events.now ticks.now (λ s. slice_index_or taken.now s false) place k
        message ≡ None) (λ why. message_refusal events.now ticks.now
        (λ s. slice_index_or taken.now s false) place k message ≡ Some why) }
{
    let sent = sent_by(events, briefs, place, k, message, taken)?;
    if ticks[sent] < ticks[place] {
        return Ok(sent);
    }
    let hint = late_hint(events, sent, place);
    Err(EventError::NotLater {
        event: place,
        message: k,
        hint,
    })
}

/// What would help against a receive no later than its Send: nothing does if a processor receives its own message
/// before it sends it.
fn late_hint(events: &[Event], sent: usize, place: usize) -> Option<Hint>
    requires sent { sent < length events.now }
    requires inside { place < length events.now }
    ensures { result ≡ late_hint events.now sent place }
{
    if events[sent].time < events[place].time {
        return Some(Hint::ShorterTick);
    }
    if events[sent].processor != events[place].processor {
        return Some(Hint::Spread);
    }
    if !(events[place].time < events[sent].time) && sent < place {
        return Some(Hint::Spread);
    }
    None
}

/// Tests that no earlier event is of the same processor in the same tick, and marks its moment as seen.
fn take_moment(
    events: &[Event],
    ticks: &[u32],
    place: usize,
    seen: &mut HashSet<u64>,
) -> Result<(), EventError>
    requires inside { place < length events.now }
    requires ticks { length ticks.now ≡ length events.now }
    requires processors { AreOfProcessors events.now }
    requires seen { (m : ℕ) → contains nat_eq seen.old m ≡ is_some
        (earlier_at events.now ticks.now place m) }
    ensures seen { OnOk result ((m : ℕ)
        → contains nat_eq seen.new m ≡ is_some (earlier_at events.now ticks.now (place + 1) m)) }
    ensures refused { MatchResult result (λ _. second_refusal events.now ticks.now place ≡ None)
        (λ why. IsEventRefusal why (second_refusal events.now ticks.now place)) }
{
    let moment = moment_at(events, ticks, place);
    let Ok(new) = seen.insert(moment) else {
        return Err(EventError::Memory);
    };
    if !new {
        return Err(second_event(events, ticks, place));
    }
    Ok(())
}

/// The reason against the event at `place`, if an earlier one is of the same processor in the same tick.
fn second_event(events: &[Event], ticks: &[u32], place: usize) -> EventError
    requires inside { place < length events.now }
    requires ticks { length ticks.now ≡ length events.now }
    requires processors { AreOfProcessors events.now }
    requires second { IsSome
        (earlier_at events.now ticks.now place (moment_at events.now ticks.now place)) }
    ensures { second_refusal events.now ticks.now place ≡ Some result }
{
    let moment = moment_at(events, ticks, place);
    for earlier in 0..place {
        if moment_at(events, ticks, earlier) == moment {
            let tick = u64::from(ticks[place]);
            let hint = apart_hint(events, earlier, place);
            return EventError::SecondEvent {
                event: place,
                tick,
                hint,
            };
        }
    }
    unreachable!()
}

/// What would set two events of one processor in one tick apart.
fn apart_hint(events: &[Event], earlier: usize, place: usize) -> Option<Hint>
    requires earlier { earlier < length events.now }
    requires inside { place < length events.now }
    ensures { result ≡ apart_hint events.now earlier place }
{
    if events[earlier].time < events[place].time || events[place].time < events[earlier].time {
        return Some(Hint::ShorterTick);
    }
    Some(Hint::Spread)
}

/// The moment of the event at `place`, as one number: first its tick, then its processor.
pub(crate) fn moment_at(events: &[Event], ticks: &[u32], place: usize) -> u64
    requires inside { place < length events.now }
    requires ticks { length ticks.now ≡ length events.now }
    requires processors { AreOfProcessors events.now }
    ensures { result ≡ moment_at events.now ticks.now place }
{
    u64::from(ticks[place]) * MAX_PROCESSORS + (events[place].processor - 1)
}
