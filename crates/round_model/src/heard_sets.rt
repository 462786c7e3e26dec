//! Tables of who heard whom.

ghost use Rattle.std.specs.Prelude.{◌≡◌, ◌≢◌, ◌≤◌, ◌<◌, ◌⊎◌, ℕ, All, IfOk, false, length};
ghost use Rattle.std.specs.Prelude.{slice_set, slice_index, slice_index_or, []};
ghost use Rattle.step_trace.specs.Processors.{has_proc, IsWithin};
ghost use Rattle.round_model.specs.HeardSets.{rows_of};

use std::alloc::{AllocError, Global};
use std::marker::Model;
use step_trace::{MAX_PROCESSORS, MIN_PROCESSORS, ProcSet};

/// How many rounds a table may have.
pub const MAX_ROUNDS: u64 = 1_000_000;

/// Who heard whom: for each processor and each round the set of the senders that it hears in that round.
/// (Section 3 of the 1988 paper: of the messages of a round that were sent to it, a processor hears some
/// subset.) Processors and rounds count from 1.
///
/// A set says which senders are heard if they send: a sender in a set that sends nothing gives nothing.
#[derive(Debug, Drop)]
pub struct Heard {
    n: u64,
    rounds: u64,
    // For each processor the sets of its rounds.
    sets: Vec<Vec<ProcSet>>,
}

impl Model for Heard {
    ghost use Rattle.round_model.specs.HeardSets.{HeardTable, IsHeardTable, rows_of};

    ghost Value = { HeardTable };

    ghost view = { λ a. record { n = a.n; rounds = a.rounds; sets = rows_of a.sets.items } };

    ghost invariant = { λ a.
        IsHeardTable (record { n = a.n; rounds = a.rounds; sets = rows_of a.sets.items }) };
}

impl Heard {
    ghost use Rattle.round_model.specs.HeardSets.{IsHeardTable, heard_set, table_of};

    /// The table of `n` processors and so many rounds in which nobody hears anybody.
    ///
    /// Asks `MIN_PROCESSORS` to `MAX_PROCESSORS` processors and at most `MAX_ROUNDS` rounds. Takes
    /// memory for each round of each processor.
    pub fn new(alloc: Global, n: u64, rounds: u64) -> Result<Self, AllocError>
        requires least { MIN_PROCESSORS ≤ n }
        requires most { n ≤ MAX_PROCESSORS }
        requires limit { rounds ≤ MAX_ROUNDS }
        ensures processors { IfOk result (λ heard. heard.n ≡ n) }
        ensures rounds { IfOk result (λ heard. heard.rounds ≡ rounds) }
        ensures empty { IfOk result
            (λ heard. (p round sender : ℕ) → table_of heard p round sender ≡ false) }
    {
        let sets = empty_table(alloc, n, rounds)?;
        Ok(Heard { n, rounds, sets })
    }

    /// The number of processors.
    pub fn n(&self) -> u64
        ensures value { result ≡ self.now.n }
        ensures sound { IsHeardTable self.now }
    {
        self.n
    }

    /// The number of rounds, and so the number of the last one.
    pub fn rounds(&self) -> u64
        ensures value { result ≡ self.now.rounds }
        ensures sound { IsHeardTable self.now }
    {
        self.rounds
    }

    /// The set of the senders that processor `proc` hears in a round. Asks a round and a processor of the
    /// table.
    pub fn get(&self, round: u64, proc: u64) -> ProcSet
        requires first { 1 ≤ round }
        requires last { round ≤ self.now.rounds }
        requires low { 1 ≤ proc }
        requires high { proc ≤ self.now.n }
        ensures value { result ≡ heard_set self.now proc round }
        ensures within { IsWithin result self.now.n }
    {
        set_at(&self.sets, (proc - 1) as usize, (round - 1) as usize)
    }

    /// Makes these the senders that processor `proc` hears in a round. Asks a round and a processor of the
    /// table, and senders that are processors of the table. Takes no memory.
    pub fn set(&mut self, round: u64, proc: u64, senders: ProcSet)
        requires first { 1 ≤ round }
        requires last { round ≤ self.old.rounds }
        requires low { 1 ≤ proc }
        requires high { proc ≤ self.old.n }
        requires within { IsWithin senders self.old.n }
        ensures set { heard_set self.new proc round ≡ senders }
        ensures others { (p r : ℕ) → (p ≢ proc) ⊎ (r ≢ round) →
            heard_set self.new p r ≡ heard_set self.old p r }
        ensures processors { self.new.n ≡ self.old.n }
        ensures rounds { self.new.rounds ≡ self.old.rounds }
    {
        put(
            &mut self.sets,
            (proc - 1) as usize,
            (round - 1) as usize,
            senders,
        );
    }
}

/// The set of processor i + 1 in round j + 1.
fn set_at(sets: &[Vec<ProcSet>], i: usize, j: usize) -> ProcSet
    requires outer { i < length sets.now }
    requires inner { j < length (slice_index_or (rows_of sets.now) i []) }
    ensures { result ≡ slice_index (slice_index_or (rows_of sets.now) i []) j }
{
    sets[i][j]
}

/// Puts another set there.
fn put(sets: &mut [Vec<ProcSet>], i: usize, j: usize, set: ProcSet)
    requires outer { i < length sets.old }
    requires inner { j < length (slice_index_or (rows_of sets.old) i []) }
    ensures { rows_of sets.new
        ≡ slice_set (rows_of sets.old) i
        (slice_set (slice_index_or (rows_of sets.old) i []) j set) }
{
    let row = &mut sets[i];
    row[j] = set;
}

/// The empty sets of so many rounds, for each of `n` processors.
fn empty_table(alloc: Global, n: u64, rounds: u64) -> Result<Vec<Vec<ProcSet>>, AllocError>
    requires { rounds ≤ MAX_ROUNDS }
    ensures processors { IfOk result (λ sets. length sets.items ≡ n) }
    ensures rounds { IfOk result (λ sets. All (λ v. length v.items ≡ rounds) sets.items) }
    ensures empty { IfOk result
        (λ sets. All (λ v. All (λ set. (p : ℕ) → has_proc set p ≡ false) v.items) sets.items) }
{
    let mut sets = Vec::new(alloc);
    for _ in 0..n {
        sets.push(vec![in alloc; ProcSet::empty(); rounds as usize]?)?;
    }
    Ok(sets)
}
