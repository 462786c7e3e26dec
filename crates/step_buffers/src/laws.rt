//! What holds of every run, and of every move that is refused.

ghost use Rattle.std.specs.Prelude.{ℕ, ◌≡◌, ◌≤◌, ◌++◌, List, Some};
ghost use Rattle.step_trace.specs.declared.steps.Step.{Step as TraceStep};
ghost use Rattle.step_trace.specs.Configurations.{Setup, IsSetup, IsProc};
ghost use Rattle.step_trace.specs.Traces.{IsWellFormed};
ghost use Rattle.step_trace.specs.PushRefusals.{IsLeastFailing};
ghost use Rattle.round_model.specs.RoundStates.{state_after};
ghost use Rattle.round_model.specs.Agreement.{Agree, DecidesInitialValue};
ghost use Rattle.step_buffers.specs.HeardTables.{passed, heard_table};
ghost use Rattle.step_buffers.specs.Runs.{IsRun, node_at};
ghost use Rattle.step_buffers.specs.Buffers.{buffer};
ghost use Rattle.step_buffers.specs.declared.moves.Move.{Move as TraceMove};
ghost use Rattle.step_buffers.specs.declared.moves.StepError.TheVariants.{NotInBuffer};
ghost use Rattle.step_buffers.specs.Moves.{is_in, named_ids, step_refusal};

/// In every trace, no two of its nodes decide differently, and what they decide is somebody's initial value.
/// Later steps take no decision back, and change no node of a round that its processor has passed; and each
/// prefix of a run is a run (section 3 of the 1988 paper).
///
/// A theorem: its contract quantifies over every configuration and every list of steps. Calling it does nothing.
pub fn run_laws()
    ensures agreement { (c : Setup) (steps : List TraceStep) (p q : ℕ) → IsSetup c
        → Agree (node_at c steps p) (node_at c steps q) }
    ensures validity { (c : Setup) (steps : List TraceStep) (p : ℕ) → IsSetup c → IsProc c p
        → DecidesInitialValue c (node_at c steps p) }
    ensures stays { (c : Setup) (steps more : List TraceStep) (p v : ℕ) → IsWellFormed c steps
        → (node_at c steps p).decision ≡ Some v
        → (node_at c (steps ++ more) p).decision ≡ Some v }
    ensures nodes { (c : Setup) (steps more : List TraceStep) (rounds p : ℕ)
        → IsWellFormed c steps → rounds ≤ passed steps p
        → state_after c (heard_table steps) rounds p
        ≡ state_after c (heard_table (steps ++ more)) rounds p }
    ensures prefix { (c : Setup) (steps more : List TraceStep)
        → IsRun c (steps ++ more) → IsRun c steps }
{}

/// If a move is refused for a message, that message doesn't wait for the processor, and its id is the least such
/// of the ids that the move names.
///
/// A theorem: its contract quantifies over every World and every move. Calling it does nothing.
pub fn refusal_laws()
    ensures least { (c : Setup) (limit : ℕ) (steps : List TraceStep) (p : ℕ)
        (move : TraceMove) (s : ℕ)
        → step_refusal c limit steps p move ≡ Some (NotInBuffer s)
        → IsLeastFailing (is_in (buffer steps p)) (named_ids move) s }
{}
