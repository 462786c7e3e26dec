//! A receive of nothing in the last tick of a short silence serves as well as one in each of its ticks.

ghost use Rattle.std.specs.Prelude.{ℕ, ◌<◌, ◌≤◌, ◌↔◌, max};
ghost use Rattle.step_trace.specs.declared.configurations.TheConstants.{MAX_PROCESSORS};
ghost use Rattle.step_trace.specs.Bounds.{DeltaHolds, IsDelta, IsPhi, PhiHolds};
ghost use Rattle.step_trace.specs.Traces.{Recorded};
ghost use Rattle.timed_events.specs.Checks.{AreMeant};
ghost use Rattle.idle_laws.specs.Fillings.{IsFull, IsPlain, IsSparse, Log};

/// The communication bounds of a log with receives of nothing.
///
/// With one in the last tick of each short silence a bound holds exactly if it does with one in each of their ticks
/// (`holds`). So the least bounds are the same (`least`). A bound that holds with receives of nothing holds without
/// them (`plain`).
///
/// Theorems over the definitions: they quantify over all logs, limits, sets, ticks and bounds. Calling it does nothing.
pub fn delta_laws()
    ensures holds { (log : Log) (limit set g d : ℕ) (sparse full : Recorded)
        → IsSparse log limit sparse
        → IsFull log limit full → (DeltaHolds set sparse g d ↔ DeltaHolds set full g d) }
    ensures least { (log : Log) (limit set g d : ℕ) (sparse full : Recorded)
        → IsSparse log limit sparse → IsFull log limit full
        → (IsDelta set sparse g d ↔ IsDelta set full g d) }
    ensures plain { (log : Log) (limit set g d : ℕ) (sparse plain : Recorded)
        → IsSparse log limit sparse → IsPlain log plain → DeltaHolds set sparse g d
        → DeltaHolds set plain g d }
{}

/// The processor bounds of a log with receives of nothing.
///
/// With one in the last tick of each short silence a bound of at least the limit holds exactly if it does with one in
/// each of their ticks (`holds`). So a least bound above the limit is the same (`above`). Any is at least the one with
/// receives in each tick, and at most the greater of that one and the limit (`between`). A bound that holds without
/// receives of nothing holds with them (`plain`).
///
/// Theorems over the definitions, as those of `delta_laws`.
pub fn phi_laws()
    ensures holds { (log : Log) (limit set g f : ℕ) (sparse full : Recorded)
        → IsSparse log limit sparse → IsFull log limit full
        → 1 ≤ g → limit ≤ f → (PhiHolds set sparse g f ↔ PhiHolds set full g f) }
    ensures above { (log : Log) (limit set g f : ℕ) (sparse full : Recorded)
        → IsSparse log limit sparse → IsFull log limit full → 1 ≤ g → limit < f
        → (IsPhi set sparse g f ↔ IsPhi set full g f) }
    ensures between { (log : Log) (limit set g f e : ℕ) (sparse full : Recorded)
        → IsSparse log limit sparse → IsFull log limit full → 1 ≤ g → IsPhi set sparse g f
        → IsPhi set full g e → (e ≤ f) × (f ≤ max e limit) }
    ensures plain { (log : Log) (limit set g f : ℕ) (sparse plain : Recorded)
        → IsSparse log limit sparse → IsPlain log plain → PhiHolds set plain g f
        → PhiHolds set sparse g f }
{}

/// The traces of which the other laws speak.
///
/// A log that has a trace with a receive of nothing in the last tick of each short silence has one with a receive of
/// nothing in each of their ticks (`exists`). The log's events and processors are as `idle_trace` asks.
///
/// A theorem over the definitions, as those of `delta_laws`.
pub fn filling_laws()
    ensures exists { (log : Log) (limit : ℕ) (sparse : Recorded)
        → log.n ≤ MAX_PROCESSORS → AreMeant log.events log.n → IsSparse log limit sparse
        → (full : Recorded) × IsFull log limit full }
{}
