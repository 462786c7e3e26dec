//! The stairs of a piece that begins with tick 1.

ghost use Rattle.std.specs.Prelude.{◌≡◌, ◌+◌, ◌<◌, ◌≤◌, ◌↔◌, ℕ, length, Some, None};
ghost use Rattle.std.specs.Prelude.{slice_get, IfOk, OnOk, OnErr, IfErr};
ghost use Rattle.step_trace.specs.declared.rows.Gap.{Gap};
ghost use Rattle.step_trace.specs.declared.traces.TheConstants.{MAX_TICKS};
ghost use Rattle.step_trace.specs.Ticks.{IsTrace};
ghost use Rattle.step_trace.specs.Traces.{Recorded};
ghost use Rattle.suffix_staircase.specs.Analysis.{AreLevels, AreLevelsFrom};
ghost use Rattle.suffix_staircase.specs.Levels.{StandsBefore};
ghost use Rattle.chunk_join.specs.declared.summaries.Message.{Message};
ghost use Rattle.chunk_join.specs.declared.finishes.FinishError.TheVariants.{NotWhole};
ghost use Rattle.chunk_join.specs.Summaries.{Whole, IsPiece};
ghost use Rattle.chunk_join.specs.Sufficient.{Suffices};
ghost use Rattle.chunk_join.specs.Finishes.{BeginsWithFirst, AreLevelsUntil, last_at, missed, with_missed};
ghost use Rattle.chunk_join.specs.Finishes.{with_silence, KeepsMisses, IsQuietFrom};

use crate::parts::Part;
use crate::pieces::Piece;
use crate::summaries::{Fate, Message, Place, after, last_of};
use std::alloc::{AllocError, Global};
use step_trace::{Gap, Miss};
use suffix_staircase::{Level, StairBuilder, Stairs, note_gap, note_miss};

/// Why a piece has no stairs, in the order in which the reasons are tested.
#[derive(Clone, Copy, Debug, PartialEq, Eq)]
pub enum FinishError {
    /// It doesn't begin in tick 1.
    NotWhole,
    /// Out of memory for the stairs.
    Memory,
}

impl Piece {
    /// The stairs of a piece that begins with tick 1: those of `Stairs::of_trace` for the trace cut at the piece's
    /// end. The unit has no levels.
    ///
    /// It takes time that grows with the piece's ticks, messages and silences. Of pieces that were joined though they
    /// are not of one trace it gives some stairs.
    pub fn finish(&self, alloc: Global) -> Result<Stairs, FinishError>
        ensures stairs { IfOk result (λ stairs. (whole : Whole) (k : ℕ) → IsPiece whole 0 k self.now
            → AreLevelsUntil whole k stairs) }
        ensures whole { IfOk result (λ stairs. (whole : Whole)
            → IsPiece whole 0 whole.trace.last self.now → AreLevels whole.set whole.trace stairs) }
        ensures begins { OnOk result (BeginsWithFirst self.now) }
        ensures not_whole { IfErr result (λ why. (why ≡ NotWhole) ↔ ¬ BeginsWithFirst self.now) }
        ensures some { OnErr result (¬ (self.now ≡ None)) }
    {
        match &self.part {
            None => Ok(StairBuilder::new(alloc).build()),
            Some(part) => {
                if part.from != 1 {
                    return Err(FinishError::NotWhole);
                }
                match stairs_of(alloc, part, 1) {
                    Ok(stairs) => Ok(stairs),
                    Err(_) => Err(FinishError::Memory),
                }
            }
        }
    }
}

/// The levels from tick `from` on of a part that has what the levels of a whole trace need: its messages and its
/// silences are scanned from the last ones back.
pub(crate) fn stairs_of(alloc: Global, part: &Part, from: u64) -> Result<Stairs, AllocError>
    requires { 1 ≤ from }
    ensures { IfOk result (λ stairs. (set : ℕ) (trace : Recorded) → IsTrace trace
        → Suffices set trace part.now → from ≤ trace.last + 1
        → AreLevelsFrom set trace from stairs) }
{
    let mut builder = StairBuilder::new(alloc);
    let mut level = Level {
        delta: 1,
        miss: None,
        phi: 1,
        gap: None,
    };
    let mut messages = part.sent.len();
    let mut silences = part.silent.len();
    let mut next = part.to + 1;
    while next > from {
        let g = next - 1;
        messages = note_messages(&mut level, part, messages, g);
        silences = begun_by(&part.silent, silences, g);
        note_silence(&mut level, last_at(&part.silent, silences), g);
        builder.lower(level)?;
        next = quiet_from(part, from, messages, silences, level.phi, g);
        builder.repeat(g - next);
    }
    Ok(builder.build())
}

/// The least tick, but not before `from`, such that from there to tick `g` no message or silence that is left changes
/// the level of `g`, which has this processor bound.
fn quiet_from(part: &Part, from: u64, messages: usize, silences: usize, phi: u64, g: u64) -> u64
    requires from { from ≤ g }
    requires messages { messages ≤ length part.now.sent }
    requires silences { silences ≤ length part.now.silent }
    requires end { (w : Gap) → last_at part.now.silent silences ≡ Some w → w.to ≤ MAX_TICKS }
    requires here { IsQuietFrom part.now g messages silences phi }
    ensures quiet { IsQuietFrom part.now result messages silences phi }
    ensures low { from ≤ result }
    ensures high { result ≤ g }
{
    let after = after_last(&part.sent, messages, g).max(from);
    match last_at(&part.silent, silences) {
        Some(silence) => {
            let short = (silence.to + 2).saturating_sub(phi);
            after.max(silence.from).max(short)
        }
        None => after,
    }
}

/// The tick after that of the last of the first `count` messages, which comes before tick `g`; 1 if there is none.
fn after_last(sent: &[Message], count: usize, g: u64) -> u64
    requires count { count ≤ length sent.now }
    requires start { 1 ≤ g }
    requires before { (m : Message) → last_at sent.now count ≡ Some m → m.sent.tick < g }
    ensures low { 1 ≤ result }
    ensures high { result ≤ g }
    ensures after { (m : Message) → last_at sent.now count ≡ Some m → m.sent.tick < result }
{
    if count == 0 {
        1
    } else {
        u64::from(sent[count - 1].sent.tick) + 1
    }
}

/// Takes the misses of the messages of tick `g`, the last of the first `count`, into the level. Gives how many messages
/// come before them.
fn note_messages(level: &mut Level, part: &Part, count: usize, g: u64) -> usize
    requires { count ≤ length part.now.sent }
    ensures within { result ≤ count }
    ensures falling { StandsBefore level.new level.old }
    ensures phi { level.new.phi ≡ level.old.phi }
    ensures gap { level.new.gap ≡ level.old.gap }
    ensures later { (k : ℕ) (m : Message) → result ≤ k → k < count
        → slice_get part.now.sent k ≡ Some m → g ≤ m.sent.tick }
    ensures earlier { (m : Message) → last_at part.now.sent result ≡ Some m → m.sent.tick < g }
    ensures misses { KeepsMisses part.now count level.old result level.new }
{
    for k in (0..count).rev() {
        let message = &part.sent[k];
        let tick = u64::from(message.sent.tick);
        if tick < g {
            return k + 1;
        }
        note_message(level, message, missed(&part.last, message), part.to);
    }
    0
}

/// The last Receive that misses the message.
fn missed(last: &[Option<Place>], message: &Message) -> Option<Place>
    ensures { result ≡ missed last.now message.now }
{
    match message.fate {
        Fate::Open => after(message.sent, last_of(last, message.to)),
        Fate::Taken { missed } => missed,
    }
}

/// Takes this miss of the message into the level. No miss ends after tick `end`, which is the part's last.
fn note_message(level: &mut Level, message: &Message, missed: Option<Place>, end: u64)
    requires { end ≤ MAX_TICKS }
    ensures { level.new ≡ with_missed end level.old message.now missed }
{
    if let Some(place) = missed {
        let long = u64::from(place.tick)
            .min(end)
            .saturating_sub(u64::from(message.sent.tick));
        let miss = Miss {
            sent: u64::from(message.sent.no),
            missed: u64::from(place.no),
        };
        note_miss(level, miss, long);
    }
}

/// How many of the first `count` silences there are up to the last one that begins at tick `g` or before.
fn begun_by(silent: &[Gap], count: usize, g: u64) -> usize
    requires { count ≤ length silent.now }
    ensures within { result ≤ count }
    ensures later { (k : ℕ) (w : Gap) → result ≤ k → k < count → slice_get silent.now k ≡ Some w
        → g < w.from }
    ensures begun { (w : Gap) → last_at silent.now result ≡ Some w → w.from ≤ g }
{
    for k in (0..count).rev() {
        if silent[k].from <= g {
            return k + 1;
        }
    }
    0
}

/// The last of the first `count` silences.
fn last_at(silent: &[Gap], count: usize) -> Option<Gap>
    requires { count ≤ length silent.now }
    ensures { result ≡ last_at silent.now count }
{
    if count == 0 {
        None
    } else {
        Some(silent[count - 1])
    }
}

/// Takes the gap that a silence has from tick `g` on into the level.
fn note_silence(level: &mut Level, silence: Option<Gap>, g: u64)
    requires positive { 1 ≤ level.old.phi }
    requires from { 1 ≤ g }
    requires end { (w : Gap) → silence ≡ Some w → w.to ≤ MAX_TICKS }
    ensures { level.new ≡ with_silence level.old g silence }
{
    if let Some(silence) = silence {
        note_gap(level, silence.proc, g, silence.to + 1);
    }
}
