//! The laws of the node functions (section 3 of the 1988 paper), from which agreement and the bounded decision
//! follow.
//!
//! They are theorems: each contract quantifies over every configuration, every state of a node, every round and all
//! that may be heard in it. Calling one of them does nothing. `out` is what a node sends to a processor in a round,
//! and `next` the node after the round (`specs/NodeFunctions.antt`).

ghost use Rattle.std.specs.Prelude.{ℕ, ◌≡◌, ◌≢◌, ◌⊎◌, ◌+◌, ◌-◌, ◌≤◌, List, Option};
ghost use Rattle.std.specs.Prelude.{Some, true, unwrap_or, map};
ghost use Rattle.std.specs.List.Sorted.{IsStrictlyIncreasing};
ghost use Rattle.step_trace.specs.Configurations.{Setup, IsSetup};
ghost use Rattle.lock_phases.specs.declared.bodies.Body.{Body};
ghost use Rattle.lock_phases.specs.Rounds.{phase_of, part_of, owner};
ghost use Rattle.lock_phases.specs.Nodes.{State, IsRising};
ghost use Rattle.lock_phases.specs.Messages.{Message, sender_of};
ghost use Rattle.lock_phases.specs.Quorums.{acks};
ghost use Rattle.lock_phases.specs.NodeFunctions.{values_to_list, out, next};
ghost use Rattle.lock_phases.specs.Hearing.{IsHeardListed, IsToldToLock, heard_from};
ghost use Rattle.lock_phases.specs.Hearing.{with_proper, IsAddressed, IsSaidBy};
ghost use Rattle.lock_phases.specs.NodeLaws.{TakesIn, IsListOf, ListingKeeps, IsProposal, IsRefusedByFew};
ghost use Rattle.lock_phases.specs.NodeLaws.{IsMadeByQuorum, LockingKeeps, LockingLocks, IsUntold, Obeys, IsLockedOnce};
ghost use Rattle.lock_phases.specs.NodeLaws.{AcknowledgingKeeps, IsAcknowledgedByQuorum, IsDecidedByQuorum};
ghost use Rattle.lock_phases.specs.NodeLaws.{ReleasingKeeps};

use crate::bodies::Kind;

/// In every round: where PROPER, a proposal and a decision come from, and that a decision stays. PROPER and the
/// locks go on rising by value.
pub fn origin_laws()
    ensures proper { (c : Setup) (s : State) (me round : ℕ) (heard : List Message) →
        TakesIn heard s.proper (next c s me round heard).proper }
    ensures proposal { (c : Setup) (s : State) (me round : ℕ) (heard : List Message) (v : ℕ) →
        (next c s me round heard).proposal ≡ Some v
        → (s.proposal ≡ Some v) ⊎ IsHeardListed heard v }
    ensures decision { (c : Setup) (s : State) (me round : ℕ) (heard : List Message) (v : ℕ) →
        (next c s me round heard).decision ≡ Some v
        → (s.decision ≡ Some v) ⊎ (s.proposal ≡ Some v) }
    ensures stays { (c : Setup) (s : State) (me round : ℕ) (heard : List Message) (v : ℕ) →
        s.decision ≡ Some v → (next c s me round heard).decision ≡ Some v }
    ensures rising { (c : Setup) (s : State) (me round : ℕ) (heard : List Message) →
        IsRising s → IsRising (next c s me round heard) }
{}

/// What a node says, with its PROPER: to the owner the list of its values that are proper and acceptable, and the
/// acknowledgement that it owes. As the owner it sends everybody its proposal to lock. To everybody it sends its
/// locks. It says nothing else, and what it says is so.
pub fn sending_laws()
    ensures list { (c : Setup) (s : State) (me round : ℕ) → part_of round ≡ 1 →
        out c s me round (owner c.n (phase_of round)) ≡ Some
        (with_proper s (Kind.List (values_to_list s))) }
    ensures listed { (s : State) → IsListOf s (values_to_list s) }
    ensures lock { (c : Setup) (s : State) (round to v : ℕ) → part_of round ≡ 2
        → s.proposal ≡ Some v →
        out c s (owner c.n (phase_of round)) round to ≡ Some (with_proper s (Kind.Lock v)) }
    ensures acknowledgement { (c : Setup) (s : State) (me round : ℕ) → part_of round ≡ 3
        → s.owes_ack ≡ true →
        out c s me round (owner c.n (phase_of round)) ≡ Some (with_proper s Kind.Ack) }
    ensures locks { (c : Setup) (s : State) (me round to : ℕ) → part_of round ≡ 4 →
        out c s me round to ≡ Some (with_proper s (Kind.Locks s.locks)) }
    ensures addressed { (c : Setup) (s : State) (me round to : ℕ) (body : Body)
        → out c s me round to ≡ Some body →
        IsAddressed (part_of round) (owner c.n (phase_of round)) me to body.kind }
    ensures said { (c : Setup) (s : State) (me round to : ℕ) (body : Body) →
        out c s me round to ≡ Some body → IsSaidBy s body }
{}

/// In a listing round the owner proposes the least value that is in at least N - t of the lists heard. So a value
/// that N - t processors are heard to list makes a proposal, and at most t processors refuse what is proposed.
pub fn listing_laws()
    ensures keeps { (c : Setup) (s : State) (me round : ℕ) (heard : List Message)
        → part_of round ≡ 1 →
        ListingKeeps s (next c s me round heard) }
    ensures others { (c : Setup) (s : State) (me round : ℕ) (heard : List Message)
        → part_of round ≡ 1 →
        me ≢ owner c.n (phase_of round) → (next c s me round heard).proposal ≡ s.proposal }
    ensures proposal { (c : Setup) (s : State) (round : ℕ) (heard : List Message) → IsSetup c
        → part_of round ≡ 1 →
        IsProposal (c.n - c.t) heard (next c s (owner c.n (phase_of round)) round heard).proposal }
    ensures quorum { (c : Setup) (s : State) (round : ℕ) (heard_of : ℕ → Option Message) → IsSetup c
        → part_of round ≡ 1 →
        IsMadeByQuorum c heard_of
        (next c s (owner c.n (phase_of round)) round (heard_from c.n heard_of)).proposal }
    ensures refused { (c : Setup) (s : State) (round : ℕ) (heard_of : ℕ → Option Message)
        → IsSetup c → part_of round ≡ 1 →
        IsRefusedByFew c heard_of
        (next c s (owner c.n (phase_of round)) round (heard_from c.n heard_of)).proposal }
{}

/// In a locking round a node that hears the owner's Lock locks its value in this phase, in place of an older lock on
/// it, and owes an acknowledgement. Nothing else is locked, and no other lock goes.
pub fn locking_laws()
    ensures keeps { (c : Setup) (s : State) (me round : ℕ) (heard : List Message)
        → part_of round ≡ 2 →
        LockingKeeps s (next c s me round heard) }
    ensures locks { (c : Setup) (s : State) (me round : ℕ) (heard : List Message)
        → part_of round ≡ 2 →
        LockingLocks s (next c s me round heard) (owner c.n (phase_of round))
        (phase_of round) heard }
    ensures untold { (c : Setup) (s : State) (me round : ℕ) (heard : List Message)
        → part_of round ≡ 2 →
        ((v : ℕ) → IsToldToLock (owner c.n (phase_of round)) heard v → ⊥)
        → IsUntold s (next c s me round heard) }
    ensures told { (c : Setup) (s : State) (me round : ℕ) (heard : List Message) (v : ℕ)
        → part_of round ≡ 2 →
        IsStrictlyIncreasing (map sender_of heard)
        → IsToldToLock (owner c.n (phase_of round)) heard v →
        Obeys (next c s me round heard) v (phase_of round) }
    ensures replaced { (c : Setup) (s : State) (me round : ℕ) (heard : List Message) (v : ℕ)
        → part_of round ≡ 2 → IsRising s →
        IsStrictlyIncreasing (map sender_of heard)
        → IsToldToLock (owner c.n (phase_of round)) heard v →
        IsLockedOnce (next c s me round heard).locks v (phase_of round) }
{}

/// In an acknowledging round an owner that has a proposal and hears at least t + 1 acknowledgements has decided: its
/// earlier decision, or else its proposal. Nobody else decides.
pub fn acknowledging_laws()
    ensures keeps { (c : Setup) (s : State) (me round : ℕ) (heard : List Message)
        → part_of round ≡ 3 →
        AcknowledgingKeeps s (next c s me round heard) }
    ensures decided { (c : Setup) (s : State) (round : ℕ) (heard : List Message) (v : ℕ)
        → part_of round ≡ 3 →
        s.proposal ≡ Some v → c.t + 1 ≤ acks heard →
        (next c s (owner c.n (phase_of round)) round heard).decision ≡ Some
        (unwrap_or s.decision v) }
    ensures quorum { (c : Setup) (s : State) (round : ℕ) (heard_of : ℕ → Option Message)
        → part_of round ≡ 3 →
        IsDecidedByQuorum c s
        (next c s (owner c.n (phase_of round)) round (heard_from c.n heard_of)) heard_of }
    ensures acknowledged { (c : Setup) (s : State) (me round : ℕ) (heard_of : ℕ → Option Message)
        → part_of round ≡ 3 →
        IsAcknowledgedByQuorum c s (next c s me round (heard_from c.n heard_of)) me
        (owner c.n (phase_of round)) heard_of }
{}

/// In a lock-release round a lock goes exactly if a lock on another value, of no lower phase, is heard.
pub fn releasing_laws()
    ensures keeps { (c : Setup) (s : State) (me round : ℕ) (heard : List Message)
        → part_of round ≡ 4 →
        ReleasingKeeps s (next c s me round heard) heard }
{}
