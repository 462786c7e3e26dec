//! What a run decides, and by which tick.

ghost use Rattle.std.specs.Prelude.{ℕ, ◌≡◌, ◌+◌, ◌≤◌, ◌++◌, ◌∷◌, [], List, Some, true, false, length};
ghost use Rattle.step_trace.specs.declared.steps.Step.{Step as TraceStep};
ghost use Rattle.step_trace.specs.Configurations.{Setup, IsSetup, IsProc};
ghost use Rattle.step_trace.specs.Traces.{Recorded, IsWellFormed};
ghost use Rattle.step_trace.specs.Cuts.{IsCutAt};
ghost use Rattle.step_trace.specs.Processors.{IsWithin};
ghost use Rattle.lock_phases.specs.declared.bodies.Body.{Body as SaidBody};
ghost use Rattle.lock_phases.specs.Nodes.{State};
ghost use Rattle.lock_phases.specs.NodeFunctions.{out};
ghost use Rattle.round_model.specs.RoundStates.{Table, state_after};
ghost use Rattle.round_model.specs.BoundedDecision.{deciding_round, HaveDecided};
ghost use Rattle.step_buffers.specs.HeardTables.{passed, heard_table};
ghost use Rattle.step_buffers.specs.Runs.{IsRun, node_at};
ghost use Rattle.step_buffers.specs.Moves.{step_of};
ghost use Rattle.deciding_runs.specs.Together.{AreTogether, HavePassedBy, IsSentInRound};
ghost use Rattle.deciding_runs.specs.FilledTables.{filled};
ghost use Rattle.deciding_runs.specs.Audible.{may_hear};
ghost use Rattle.deciding_runs.specs.HeardOut.{HearOut, HasHeardOf, IsHeardOut, TakesAll, TakesInOrder};
ghost use Rattle.deciding_runs.specs.Peers.{peer_of};
ghost use Rattle.deciding_runs.specs.Paces.{Paced, WereHeard, EndsComplete, EndRoundsComplete};
ghost use Rattle.deciding_runs.specs.Paces.{is_complete, paced_move, after_move};

/// If at least N - t processors pass some rounds and hear all that they say to one another in them, each of them
/// decides (section 3 of the 1988 paper argues so of its rounds).
///
/// A theorem: its contract quantifies over every configuration, every list of steps and every trace. Calling it does
/// nothing. In `decided` the rounds go from `first` to the deciding round of `first`. In `by_tick` the members have
/// passed them by a tick: then the trace up to that tick has all their decisions. On the way: who has passed a round
/// has sent all that it had to say in it (`sent`). To hear of somebody who has nothing to say changes no node
/// (`silence`).
pub fn deciding_laws()
    ensures decided { (c : Setup) (steps : List TraceStep) (set first : ℕ) → IsSetup c
        → IsRun c steps
        → AreTogether c steps set first (deciding_round c first)
        → HaveDecided set (node_at c steps) }
    ensures by_tick { (trace cut : Recorded) (tick set first : ℕ) → IsSetup trace.config
        → IsRun trace.config trace.steps
        → AreTogether trace.config trace.steps set first (deciding_round trace.config first)
        → HavePassedBy trace set (deciding_round trace.config first) tick
        → IsCutAt trace tick cut
        → HaveDecided set (node_at cut.config cut.steps) }
    ensures sent { (c : Setup) (steps : List TraceStep) (rounds q to : ℕ) (body : SaidBody)
        → IsRun c steps → rounds + 1 ≤ passed steps q → IsProc c to
        → out c (state_after c (heard_table steps) rounds q) q (rounds + 1) to ≡ Some body
        → IsSentInRound steps q to (rounds + 1) }
    ensures silence { (c : Setup) (table : Table) (rounds p : ℕ)
        → state_after c table rounds p ≡ state_after c (filled c table) rounds p }
{}

/// Who ends its rounds when it has heard all that it may hear in them, and not because its patience ran out, decides
/// (own).
///
/// A theorem, as `deciding_laws` is. Whom a processor may hear in a round it knows by its own node (`may_hear`): who
/// tells it anything is among those. Let the members of a set of at least N - t take one another's messages in order.
/// Let each end each round, from `first` to the deciding round of `first`, once it has heard each member that it may
/// hear in it: something of that round or of a later one. Then each of them decides (`decided`). Who takes all that
/// waits takes messages in order (`order`).
pub fn heard_out_laws()
    ensures tellers { (c : Setup) (table : Table) (rounds p q : ℕ) (body : SaidBody)
        → out c (state_after c table rounds q) q (rounds + 1) p ≡ Some body
        → may_hear c (state_after c table rounds p) (rounds + 1) p q ≡ true }
    ensures decided { (c : Setup) (steps : List TraceStep) (set first : ℕ) → IsSetup c
        → IsRun c steps → HearOut c steps set first (deciding_round c first)
        → HaveDecided set (node_at c steps) }
    ensures order { (c : Setup) (steps : List TraceStep) (p q : ℕ) → IsWellFormed c steps
        → TakesAll steps p → TakesInOrder steps p q }
{}

/// What a pace has heard was heard in the trace, and stays so with each step of a run (`moved`, `grows`). Who ends a
/// round because it is complete has heard all whom it may hear in it and doesn't suspect: something of that round or of
/// a later one (`hears`). A round that was ended so is heard out (`heard_out`). Let the members of a set of at least
/// N - t take all that waits for them. Up to the deciding round, let no patience end a round of theirs, and let no
/// member suspect a member or be left behind. Then each of them decides (`decided`).
///
/// A theorem, as `deciding_laws` is.
pub fn pace_laws()
    ensures hears { (c : Setup) (steps : List TraceStep) (node : State) (round p q : ℕ) (x : Paced)
        → WereHeard steps p x.peers → 1 ≤ round → IsProc c q → is_complete c node round p x ≡ true
        → (peer_of x.peers q).suspected ≡ false → may_hear c node round p q ≡ true
        → HasHeardOf steps p q round (length steps) }
    ensures heard_out { (c : Setup) (steps : List TraceStep) (set p round : ℕ) → IsWithin set c.n
        → 1 ≤ round → EndsComplete c steps set p round → IsHeardOut c steps set p round }
    ensures decided { (c : Setup) (steps : List TraceStep) (set first : ℕ) → IsSetup c
        → IsRun c steps → EndRoundsComplete c steps set first (deciding_round c first)
        → HaveDecided set (node_at c steps) }
    ensures grows { (steps more : List TraceStep) (p : ℕ) (x : Paced)
        → WereHeard steps p x.peers → WereHeard (steps ++ more) p x.peers }
    ensures moved { (c : Setup) (steps : List TraceStep) (step : TraceStep) (p : ℕ) (x : Paced)
        → IsProc c p → IsWellFormed c steps → length x.peers ≡ c.n
        → step_of c steps p (paced_move c steps p x) ≡ Some step → WereHeard steps p x.peers
        → WereHeard (steps ++ step ∷ []) p (after_move c steps p x).peers }
{}
