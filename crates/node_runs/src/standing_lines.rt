//! The lines in which a follower reports how synchronous a run is.

ghost use Rattle.std.specs.Prelude.{◌≡◌, ◌++◌, IfOk, OnOk, IfErr, IsTrue, string_bytes};
ghost use Rattle.std.specs.Io.KnownBytes.{Appends};
ghost use Rattle.trace_text.specs.ByteLoops.{WasFaultless};
ghost use Rattle.trace_text.specs.Faults.{inner_of, is_flushed};
ghost use Rattle.command_faults.specs.Printing.{IsUnprinted, IsUntold, IsWriteFault};
ghost use Rattle.node_runs.specs.StandingLines.{standing_line, told_standing, told_stop};

use crate::standings::{LeastBounds, Standing};
use command_faults::{Fault, print};
use std::alloc::{AllocError, Global};
use std::fmt;
use std::io::Write;
use trace_text::Counting;

/// Prints the bounds of a trace on a line of its own, and then this news.
///
/// Refuses Memory, and then nothing is written; and Write with the number of bytes that went out before.
pub fn tell_standing<W: Write>(
    alloc: Global,
    standing: Option<Standing>,
    news: &str,
    writer: &mut Counting<W>,
) -> Result<(), Fault>
    ensures told { OnOk result (Appends (W.contents (inner_of writer.old))
        (W.contents (inner_of writer.new)) (told_standing standing ++ news.now)) }
    ensures flushed { OnOk result (IsTrue (is_flushed writer.new)) }
    ensures faultless { OnOk result (WasFaultless writer.old writer.new) }
    ensures part { IfErr result
        (λ why. IsUntold why (told_standing standing ++ news.now) (W.contents (inner_of writer.old))
        (W.contents (inner_of writer.new))) }
    ensures cause { IfErr result (IsWriteFault writer.old writer.new) }
{
    let mut text = standing_text(alloc, standing)?;
    text.push_str(news)?;
    print(text.as_str(), writer)
}

/// Reports that no more is printed for a run, since it is out of memory. Takes no memory itself.
///
/// Refuses only Write, with the number of bytes that went out before.
pub fn tell_stop<W: Write>(writer: &mut Counting<W>) -> Result<(), Fault>
    ensures told { OnOk result
        (Appends (W.contents (inner_of writer.old)) (W.contents (inner_of writer.new)) told_stop) }
    ensures flushed { OnOk result (IsTrue (is_flushed writer.new)) }
    ensures faultless { OnOk result (WasFaultless writer.old writer.new) }
    ensures part { IfErr result
        (λ why. IsUnprinted why told_stop (W.contents (inner_of writer.old))
        (W.contents (inner_of writer.new))) }
    ensures cause { IfErr result (IsWriteFault writer.old writer.new) }
{
    print("synchrony: no longer followed: out of memory\n", writer)
}

/// The line of a trace's bounds, with its line feed.
fn standing_text(alloc: Global, standing: Option<Standing>) -> Result<String, AllocError>
    ensures { IfOk result (λ text. string_bytes text ≡ told_standing standing) }
{
    let mut line = StandingLine(standing).to_string(alloc)?;
    line.push_str("\n")?;
    Ok(line)
}

/// What is printed of a trace's bounds.
#[derive(Clone, Copy)]
struct StandingLine(Option<Standing>);

impl fmt::Display for StandingLine {
    ghost use Rattle.std.specs.Prelude.{Some};
    ghost use Rattle.node_runs.specs.StandingLines.{standing_line};

    ghost output = { λ line. Some (standing_line line.0) };

    fn fmt<W: fmt::Write>(&self, f: &mut fmt::Formatter<W>) -> fmt::Result {
        match self.0 {
            None => f.write_str("synchrony: tick 0: no steps"),
            Some(standing) => {
                write!(
                    f,
                    "synchrony: tick {}: {}; {}{}",
                    standing.tick,
                    BoundsWords(standing.whole),
                    BoundsWords(standing.recent),
                    SilenceWords(standing)
                )
            }
        }
    }
}

/// Two bounds, with the tick from which they hold.
#[derive(Clone, Copy)]
struct BoundsWords(LeastBounds);

impl fmt::Display for BoundsWords {
    ghost use Rattle.std.specs.Prelude.{Some};
    ghost use Rattle.node_runs.specs.StandingLines.{bounds_words};

    ghost output = { λ words. Some (bounds_words words.0) };

    fn fmt<W: fmt::Write>(&self, f: &mut fmt::Formatter<W>) -> fmt::Result {
        write!(
            f,
            "delta {}, phi {} from tick {}",
            self.0.delta, self.0.phi, self.0.from
        )
    }
}

/// Who makes no step from the recent tick on, if somebody doesn't.
#[derive(Clone, Copy)]
struct SilenceWords(Standing);

impl fmt::Display for SilenceWords {
    ghost use Rattle.std.specs.Prelude.{Some};
    ghost use Rattle.node_runs.specs.StandingLines.{silence_words};

    ghost output = { λ words. Some (silence_words words.0.silent words.0.recent.from) };

    fn fmt<W: fmt::Write>(&self, f: &mut fmt::Formatter<W>) -> fmt::Result {
        match self.0.silent {
            None => f.write_str(""),
            Some(member) => {
                write!(
                    f,
                    "; processor {} makes no step since tick {}",
                    member, self.0.recent.from
                )
            }
        }
    }
}
