//! Events make one trace.

ghost use Rattle.std.specs.Prelude.{ℕ, ◌≡◌, ◌↔◌, Bool, true, List};
ghost use Rattle.step_trace.specs.Traces.{Recorded};
ghost use Rattle.timed_events.specs.declared.events.Event.{Event};
ghost use Rattle.timed_events.specs.declared.events.Clock.{Clock};
ghost use Rattle.timed_events.specs.declared.idle_traces.IdleTrace.{IdleTrace};
ghost use Rattle.timed_events.specs.declared.spread_traces.TimedTrace.{TimedTrace};
ghost use Rattle.timed_events.specs.declared.cause_cycles.Hop.{Hop};
ghost use Rattle.timed_events.specs.CauseCycles.{IsCauseCycle};
ghost use Rattle.timed_events.specs.Causes.{AreSentBefore, IsCausalOrder, IsFirstUnplaceable, IsTimeOrder};
ghost use Rattle.timed_events.specs.IdleTraces.{AreFilledPlaces, IsIdleTimed};
ghost use Rattle.timed_events.specs.Spreads.{AreLeast, AreSpread, AreStepPlaces, HavePassed, HasStepsAt, IsTimed};
ghost use Rattle.timed_events.specs.TimedTraces.{IsTraceOf};

/// The laws of traces of events. Events in their ticks, up to a last tick, have one trace. Events that may be spread,
/// and of which none is refused, have one list of ticks. So events with times have one trace, and moved in one way. The
/// places of the events in the order of its steps are those at which its steps are (`placed`).
///
/// These are theorems over the definitions. The contract quantifies over all events, ticks and clocks. Calling it does
/// nothing.
pub fn trace_laws()
    ensures one { (n : ℕ) (events : List Event) (ticks : List ℕ) (last : ℕ) (a b : Recorded)
        → IsTraceOf n events ticks last a → IsTraceOf n events ticks last b → a ≡ b }
    ensures spread_once { (events : List Event) (clock : Clock) (a b : List ℕ)
        → HavePassed true events clock → AreSpread events clock a
        → AreSpread events clock b → a ≡ b }
    ensures placed { (spread : Bool) (n : ℕ) (events : List Event) (clock : Clock)
        (timed : TimedTrace) (places : List ℕ) → IsTimed spread n events clock timed
        → AreStepPlaces spread events clock places → HasStepsAt n events places timed.trace }
    ensures timed_once { (spread : Bool) (n : ℕ) (events : List Event) (clock : Clock)
        (a b : TimedTrace) → IsTimed spread n events clock a
        → IsTimed spread n events clock b → a ≡ b }
{}

/// The laws of orders that keep causes. There is none if an event is in a cycle of causes or behind one (`behind`), and
/// none if hops are a cycle (`cycle`). If there is one, the least ticks are one list (`least_once`). The order of times
/// is one exactly if each message was sent before it was received, by their times (`by_time`).
///
/// Theorems over the definitions, as those of `trace_laws`.
pub fn cause_laws()
    ensures behind { (events : List Event) (i : ℕ) → IsFirstUnplaceable events i → (order : List ℕ)
        → ¬ IsCausalOrder events order }
    ensures cycle { (events : List Event) (hops : List Hop) → IsCauseCycle events hops
        → (order : List ℕ) → ¬ IsCausalOrder events order }
    ensures least_once { (events : List Event) (own order a b : List ℕ) → IsCausalOrder events order
        → AreLeast events own a → AreLeast events own b → a ≡ b }
    ensures by_time { (events : List Event) (order : List ℕ) → IsTimeOrder events order
        → (IsCausalOrder events order ↔ AreSentBefore events) }
{}

/// The laws of traces with receives of nothing in short silences. Events, clock and limit have one. The places of the
/// events and of these receives in the order of its steps are those at which its steps are (`filled`).
///
/// Theorems over the definitions, as those of `trace_laws`.
pub fn idle_laws()
    ensures idle_once { (spread : Bool) (n : ℕ) (events : List Event) (clock : Clock) (limit : ℕ)
        (a b : IdleTrace) (new more : List Event) → IsIdleTimed spread n events clock limit a new
        → IsIdleTimed spread n events clock limit b more → a ≡ b }
    ensures filled { (spread : Bool) (n : ℕ) (events : List Event) (clock : Clock) (limit : ℕ)
        (timed : IdleTrace) (new : List Event) (places : List ℕ)
        → IsIdleTimed spread n events clock limit timed new
        → AreFilledPlaces spread n events clock limit new places
        → HasStepsAt n new places timed.trace }
{}
