//! What a pace knows of the others, whom it suspects, and how long a round may take by it.

ghost use Rattle.std.specs.Prelude.{ℕ, ◌≡◌, ◌+◌, ◌-◌, ◌*◌, ◌<◌, ◌≤◌, List, length};
ghost use Rattle.std.specs.Prelude.{true, IsTrue, ◌++◌, ◌∷◌, [], suc, Some};
ghost use Rattle.step_trace.specs.declared.steps.Step.{Step as TraceStep};
ghost use Rattle.step_trace.specs.Configurations.{Setup, IsProc, IsSetup};
ghost use Rattle.step_trace.specs.Processors.{has_proc, IsWithin};
ghost use Rattle.step_trace.specs.Traces.{Recorded, IsReceiveOf, IsStepOf, IsWellFormed};
ghost use Rattle.step_trace.specs.Ticks.{IsTimed, IsTrace, tick_of};
ghost use Rattle.step_trace.specs.Bounds.{DeltaHolds, PhiHolds};
ghost use Rattle.lock_phases.specs.Hearing.{number_of};
ghost use Rattle.lock_phases.specs.Rounds.{part_of};
ghost use Rattle.round_model.specs.BoundedDecision.{deciding_round, HaveDecided};
ghost use Rattle.step_buffers.specs.HeardTables.{passed, round_at};
ghost use Rattle.step_buffers.specs.Runs.{IsRun, IsSend, node_at};
ghost use Rattle.deciding_runs.specs.HeardOut.{HasHeardOf, IsTakenBefore};
ghost use Rattle.deciding_runs.specs.Together.{HavePassedBy};
ghost use Rattle.deciding_runs.specs.Peers.{is_heard_of};
ghost use Rattle.patience_laws.specs.PacedRuns.{IsPacedStep, StepsByPace, pace_after, pace_stepping, peer_after};
ghost use Rattle.patience_laws.specs.LeastRounds.{AreInRoundFrom, AreInTouch, IsHeardOutByAll, KeepsBounds};
ghost use Rattle.patience_laws.specs.LeastRounds.{OweAcknowledgements, TakeInOrder};
ghost use Rattle.patience_laws.specs.Meetings.{ComeTogether, ComesTo, MeetOnce};
ghost use Rattle.patience_laws.specs.Gatherings.{AreAlone, HaveMet, HearThemselves, NeedAll, NoneBefore};
ghost use Rattle.patience_laws.specs.Gatherings.{SuspectNoneIn, met_round, met_tick};
ghost use Rattle.patience_laws.specs.RoundTicks.{EachEnds, HasHeardFrom, HearsMembers};
ghost use Rattle.patience_laws.specs.RoundTicks.{IsInRoundFrom, sends_to, steps_since};
ghost use Rattle.patience_laws.specs.Silence.{Suspects, TakesOf, WasSilent};

use deciding_runs::heard_out_laws;

/// A run by the pace goes on with what `Pace::take` and `Pace::next_move` of `deciding_runs` answer (own).
///
/// A theorem: it stands in the contract, and calling it does nothing. No steps are a run by the pace (`begins`). With a
/// step more it stays one, if the step is another processor's or what the pace answers (`moved`), and the pace goes on
/// as that answer says (`pace`).
pub fn paced_laws()
    ensures begins { (c : Setup) (patience p : ℕ) → StepsByPace c patience [] p }
    ensures moved { (c : Setup) (patience : ℕ) (steps : List TraceStep) (step : TraceStep) (p : ℕ)
        → IsWellFormed c steps
        → StepsByPace c patience steps p → IsPacedStep c patience steps p step
        → StepsByPace c patience (steps ++ step ∷ []) p }
    ensures pace { (c : Setup) (patience : ℕ) (steps : List TraceStep) (step : TraceStep) (p : ℕ)
        → pace_after c patience (steps ++ step ∷ []) p (suc (length steps))
        ≡ pace_stepping steps p (Some step) (pace_after c patience steps p (length steps)) }
{}

/// What a pace knows of a processor is what was taken of it (own).
///
/// A theorem, as `paced_laws` is. Of the round in which a processor is, and of
/// later ones, its pace has heard another one exactly if it took a message of it of that round or of a later one.
pub fn knowledge_laws()
    ensures noted { (c : Setup) (patience : ℕ) (steps : List TraceStep) (p q round k : ℕ)
        → IsWellFormed c steps
        → IsProc c q → round_at steps p (k + 1) ≤ round → HasHeardOf steps p q round k
        → is_heard_of round (peer_after c patience steps p q k) ≡ true }
    ensures taken { (c : Setup) (patience : ℕ) (steps : List TraceStep) (p q round k : ℕ)
        → IsWellFormed c steps → IsProc c q → 1 ≤ round
        → is_heard_of round (peer_after c patience steps p q k) ≡ true
        → HasHeardOf steps p q round k }
{}

/// Who is suspected, and since when (own).
///
/// A theorem, as `paced_laws` is. A processor suspects another one exactly if it ended a phase in which it took
/// nothing of it, nor has it since, and had heard nothing of it of the last round of that phase or of a later one
/// (`silent`, `suspects`). So it goes on to suspect it until it takes something of it (`stays`).
pub fn silence_laws()
    ensures silent { (c : Setup) (patience : ℕ) (steps : List TraceStep) (p q k : ℕ)
        → IsWellFormed c steps → IsProc c q → Suspects c patience steps p q k
        → WasSilent steps p q k }
    ensures suspects { (c : Setup) (patience : ℕ) (steps : List TraceStep) (p q k : ℕ)
        → IsWellFormed c steps → IsProc c q → WasSilent steps p q k
        → Suspects c patience steps p q k }
    ensures stays { (c : Setup) (patience : ℕ) (steps : List TraceStep) (p q j k : ℕ)
        → IsWellFormed c steps → IsProc c q → j ≤ k → Suspects c patience steps p q j
        → ((m : ℕ) → j < m → m ≤ k → ¬ TakesOf steps p q m) → Suspects c patience steps p q k }
{}

/// How soon a round is over, by the processor bound f.
///
/// A theorem, as `paced_laws` is. A processor with at most `most` messages to send in its round has sent them `most`
/// times f ticks after it came to the round. From then on each of its Receives may end the round; if each does from
/// tick z on, the round is over by tick z + f (`ends`). They do if it has heard of a round more than a phase ahead
/// (`behind`), and if the set has N - t members, it has heard of all of them that it may hear in the round, and
/// suspects all others (`hears`). By the communication bound d, what one member sends to another from tick g on is
/// taken by each Receive d ticks later (`taken`). In so many times f ticks a processor makes as many steps (`steps`);
/// so who is left behind passes a phase in (2 N + 6) f ticks (`catches_up`).
pub fn round_laws()
    ensures ends { (trace : Recorded) (patience set g f p round x most z : ℕ)
        → IsRun trace.config trace.steps → IsTimed trace
        → StepsByPace trace.config patience trace.steps p → IsTrue (has_proc set p)
        → PhiHolds set trace g f → g ≤ x → IsInRoundFrom trace p round x
        → length (sends_to trace.config trace.steps p round) ≤ most → x + most * f ≤ z
        → EachEnds trace p round z → IsInRoundFrom trace p (round + 1) (z + f) }
    ensures taken { (trace : Recorded) (set g d p q s k : ℕ) → IsTrace trace
        → DeltaHolds set trace g d
        → IsTrue (has_proc set p) → IsTrue (has_proc set q) → IsSend trace.steps q p s
        → g ≤ tick_of trace s
        → IsReceiveOf trace.steps k p → tick_of trace s + d ≤ tick_of trace k
        → IsTakenBefore trace.steps p k s }
    ensures behind { (trace : Recorded) (patience set g f p q round x most : ℕ)
        → IsRun trace.config trace.steps → IsTimed trace
        → StepsByPace trace.config patience trace.steps p → IsTrue (has_proc set p)
        → PhiHolds set trace g f → g ≤ x → IsInRoundFrom trace p round x
        → length (sends_to trace.config trace.steps p round) ≤ most → IsProc trace.config q
        → HasHeardFrom trace p q (round + 5) (x + most * f)
        → IsInRoundFrom trace p (round + 1) (x + most * f + f) }
    ensures steps { (trace : Recorded) (patience set g f p x count k : ℕ)
        → IsRun trace.config trace.steps → IsTimed trace
        → StepsByPace trace.config patience trace.steps p → IsTrue (has_proc set p)
        → PhiHolds set trace g f → g ≤ x → IsStepOf trace.steps k p
        → x + count * f ≤ tick_of trace k → count ≤ steps_since trace p x k }
    ensures catches_up { (trace : Recorded) (patience set g f p q round x : ℕ)
        → IsRun trace.config trace.steps → IsTimed trace
        → StepsByPace trace.config patience trace.steps p → IsTrue (has_proc set p)
        → PhiHolds set trace g f → g ≤ x → IsInRoundFrom trace p round x → 1 ≤ round
        → part_of round ≡ 1 → IsProc trace.config q → HasHeardFrom trace p q (round + 8) x
        → IsInRoundFrom trace p (round + 4) (x + (2 * trace.config.n + 6) * f) }
    ensures hears { (trace : Recorded) (patience set g f p round x most z : ℕ)
        → IsRun trace.config trace.steps → IsTimed trace
        → StepsByPace trace.config patience trace.steps p → IsTrue (has_proc set p)
        → PhiHolds set trace g f → g ≤ x → IsInRoundFrom trace p round x
        → length (sends_to trace.config trace.steps p round) ≤ most → x + most * f ≤ z
        → IsWithin set trace.config.n
        → trace.config.n - trace.config.t ≤ number_of trace.config.n (has_proc set)
        → HearsMembers patience set trace p round z → IsInRoundFrom trace p (round + 1) (z + f) }
{}

/// By which tick the least round of the members is over, by the bounds d and f (own).
///
/// A theorem, as `paced_laws` is. At least N - t members step by the pace, are in a round or in later ones from tick x
/// on, and suspect all others; and what they send in these rounds comes under the bounds. Then the round is over for
/// all of them d + 2 f ticks later if it is a listing round, d + (N + 4) f later if it is a locking round, d + 2 f
/// later if it is an acknowledging round in which all owe an acknowledgement to an owner with a proposal, and d + (N +
/// 1) f later if it is a lock-release round. So a phase is over 4 d + (2 N + 9) f ticks later (`phase`). How long a
/// round takes does not depend on the patience.
pub fn least_laws()
    ensures listing { (patience set : ℕ) (trace : Recorded) (g d f round x : ℕ)
        → KeepsBounds patience set trace g d f → AreInTouch patience set trace g round x
        → AreInRoundFrom set trace round x → 1 ≤ round → part_of round ≡ 1
        → AreInRoundFrom set trace (round + 1) (x + f + d + f) }
    ensures locking { (patience set : ℕ) (trace : Recorded) (g d f round x : ℕ)
        → KeepsBounds patience set trace g d f → AreInTouch patience set trace g round x
        → AreInRoundFrom set trace round x → 1 ≤ round → part_of round ≡ 2
        → AreInRoundFrom set trace (round + 1) (x + 3 * f + trace.config.n * f + d + f) }
    ensures acknowledging { (patience set : ℕ) (trace : Recorded) (g d f round x : ℕ)
        → KeepsBounds patience set trace g d f → AreInTouch patience set trace g round x
        → AreInRoundFrom set trace round x → 1 ≤ round → part_of round ≡ 3
        → OweAcknowledgements set trace round
        → AreInRoundFrom set trace (round + 1) (x + f + d + f) }
    ensures releasing { (patience set : ℕ) (trace : Recorded) (g d f round x : ℕ)
        → KeepsBounds patience set trace g d f → AreInTouch patience set trace g round x
        → AreInRoundFrom set trace round x → 1 ≤ round → part_of round ≡ 4
        → AreInRoundFrom set trace (round + 1) (x + trace.config.n * f + d + f) }
    ensures phase { (patience set : ℕ) (trace : Recorded) (g d f round x : ℕ)
        → KeepsBounds patience set trace g d f → AreInTouch patience set trace g round x
        → AreInRoundFrom set trace round x → 1 ≤ round → part_of round ≡ 1
        → OweAcknowledgements set trace (round + 2)
        → AreInRoundFrom set trace (round + 4) (x + (4 * d + (2 * trace.config.n + 9) * f)) }
{}

/// No member is stuck, and after a phase the others count no more (own).
///
/// A theorem, as `paced_laws` is. Whatever it hears, a member passes each round in (N + P + 1) f ticks with a patience
/// of P (`passes`). From tick g on no member takes anything of another processor. Then the members are in touch once
/// each has passed a phase that nobody had come to before g (`in_touch`). A processor comes to no more than one round
/// in a tick (`comes`).
pub fn progress_laws()
    ensures passes { (trace : Recorded) (patience set g f p round x count : ℕ)
        → IsRun trace.config trace.steps → IsTimed trace
        → StepsByPace trace.config patience trace.steps p → IsTrue (has_proc set p)
        → PhiHolds set trace g f → g ≤ x → IsInRoundFrom trace p round x
        → IsInRoundFrom trace p (round + count)
        (x + count * ((trace.config.n + patience + 1) * f)) }
    ensures in_touch { (patience set : ℕ) (trace : Recorded) (g d f least most round x : ℕ)
        → KeepsBounds patience set trace g d f → AreAlone set trace g least most → g ≤ x
        → most < round → part_of round ≡ 1 → AreInRoundFrom set trace (round + 4) x
        → AreInTouch patience set trace g round x }
    ensures comes { (patience set : ℕ) (trace : Recorded) (g d f least most p round k x : ℕ)
        → KeepsBounds patience set trace g d f → AreAlone set trace g least most
        → ComesTo trace.steps p round k → g ≤ x → most + 1 + (x - g) < round → x ≤ tick_of trace k }
{}

/// Members that come to a round together, and have the patience for it, decide (own).
///
/// A theorem, as `paced_laws` is. At least N - t members step by the pace with a patience of at least 5 d + (3 N + 10)
/// f Receives, come to the first round of a phase within d + (N + 1) f ticks of one another, suspect no member and
/// suspect all others; and what they say from then on comes under the bounds and is taken in order. Then no patience
/// ends a round of theirs, and none is left behind: each round is ended when all members were heard that may be heard
/// in it (`heard_out`). A phase takes 4 d + (2 N + 9) f ticks (`phases`). So by a tick x, which is N + 1 phases and f
/// ticks after the last member came to the round, each has passed the deciding round (`passed`), and has decided if the
/// trace goes on so long (`decided`). Members come together so once all have heard out one lock-release round (`meet`).
pub fn meeting_laws()
    ensures meet { (patience set : ℕ) (trace : Recorded) (g d f round y : ℕ)
        → KeepsBounds patience set trace g d f → MeetOnce patience set trace g round y
        → ComeTogether patience set trace g d f round y }
    ensures heard_out { (patience set : ℕ) (trace : Recorded) (g d f round y r : ℕ)
        → KeepsBounds patience set trace g d f → ComeTogether patience set trace g d f round y
        → 5 * d + (3 * trace.config.n + 10) * f ≤ patience → round ≤ r
        → IsHeardOutByAll set trace r }
    ensures phases { (patience set : ℕ) (trace : Recorded) (g d f round y phases : ℕ)
        → KeepsBounds patience set trace g d f → ComeTogether patience set trace g d f round y
        → 5 * d + (3 * trace.config.n + 10) * f ≤ patience
        → AreInRoundFrom set trace (round + 4 * phases)
        (y + (d + (trace.config.n + 1) * f) + phases * (4 * d + (2 * trace.config.n + 9) * f)) }
    ensures passed { (patience set : ℕ) (trace : Recorded) (g d f round y x : ℕ)
        → KeepsBounds patience set trace g d f → ComeTogether patience set trace g d f round y
        → 5 * d + (3 * trace.config.n + 10) * f ≤ patience
        → x ≡ y + (d + (trace.config.n + 1) * f) + (trace.config.n + 1) * (4 * d
        + (2 * trace.config.n + 9) * f) + f → x ≤ trace.last + 1
        → HavePassedBy trace set (deciding_round trace.config round) x }
    ensures decided { (patience set : ℕ) (trace : Recorded) (g d f round y : ℕ)
        → IsSetup trace.config → KeepsBounds patience set trace g d f
        → ComeTogether patience set trace g d f round y
        → 5 * d + (3 * trace.config.n + 10) * f ≤ patience
        → y + (d + (trace.config.n + 1) * f) + (trace.config.n + 1)
        * (4 * d + (2 * trace.config.n + 9) * f) + f ≤ trace.last + 1
        → HaveDecided set (node_at trace.config trace.steps) }
{
    heard_out_laws();
}

/// Members that need one another meet, and decide (own).
///
/// A theorem, as `paced_laws` is. At least N - t members step by the pace with a patience P of at least 5 d + (4 N +
/// 14) f Receives, which 8 d + (4 N + 18) f is. From tick g on the bounds hold, and the members are alone, in rounds
/// from `least` on; before g nobody was in a round above `most`. They take one another's messages in order, and each
/// takes its own at once. And they need one another: they are exactly N - t, or none suspects a member from g on.
/// Whatever they had heard and sent, they meet before a tick (`meet`): with u = (N + P + 1) f and w = (most + 9 -
/// least) u, it is g + (most + 5 w + 21 - least) u. So all decide N + 1 phases later (`decide`). The gap closes, for
/// all members pass five rounds in P ticks (`five`), and the foremost doesn't end a lock-release round sooner if a
/// member isn't in it. Any members that are within a phase of one another when the first comes to such a round, and
/// suspect none in it, meet in it, before P ticks are over (`near`).
pub fn gathering_laws()
    ensures five { (patience set : ℕ) (trace : Recorded) (g d f round x wait : ℕ)
        → KeepsBounds patience set trace g d f → TakeInOrder set trace → HearThemselves set trace
        → AreInTouch patience set trace g round x → AreInRoundFrom set trace round x → 1 ≤ round
        → 5 * d + (4 * trace.config.n + 14) * f ≤ wait
        → AreInRoundFrom set trace (round + 5) (x + wait) }
    ensures near { (patience set : ℕ) (trace : Recorded) (g d f least round x p : ℕ)
        → KeepsBounds patience set trace g d f → TakeInOrder set trace → HearThemselves set trace
        → AreInTouch patience set trace g least x → 1 < least → AreInRoundFrom set trace least x
        → NoneBefore set trace round x → least ≤ round → round ≤ least + 4 → part_of round ≡ 4
        → SuspectNoneIn patience set trace round → 5 * d + (4 * trace.config.n + 14) * f ≤ patience
        → IsTrue (has_proc set p) → x + patience + f ≤ trace.last + 1
        → HaveMet patience set trace g (round + 1) (x + patience) }
    ensures meet { (patience set : ℕ) (trace : Recorded) (g d f least most p : ℕ)
        → KeepsBounds patience set trace g d f → TakeInOrder set trace → HearThemselves set trace
        → AreAlone set trace g least most
        → NeedAll patience set trace g → 5 * d + (4 * trace.config.n + 14) * f ≤ patience
        → IsTrue (has_proc set p)
        → met_tick trace.config patience g f least most + f ≤ trace.last + 1
        → HaveMet patience set trace g (met_round trace.config patience f least most)
        (met_tick trace.config patience g f least most) }
    ensures decide { (patience set : ℕ) (trace : Recorded) (g d f least most : ℕ)
        → IsSetup trace.config → KeepsBounds patience set trace g d f → TakeInOrder set trace
        → HearThemselves set trace → AreAlone set trace g least most
        → NeedAll patience set trace g → 5 * d + (4 * trace.config.n + 14) * f ≤ patience
        → met_tick trace.config patience g f least
        most + (d + (trace.config.n + 1) * f) + (trace.config.n + 1)
        * (4 * d + (2 * trace.config.n + 9) * f) + f ≤ trace.last + 1
        → HaveDecided set (node_at trace.config trace.steps) }
{
    meeting_laws();
}
