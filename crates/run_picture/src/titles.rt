//! What marks say of themselves to a reader who points there.

ghost use Rattle.std.specs.Prelude.{◌≡◌, ◌++◌, OnOk};
ghost use Rattle.run_picture.specs.Titles.{corner_title, delta_text, ending_text, gap_title, message_title, miss_title};
ghost use Rattle.run_picture.specs.Titles.{missing_text, phi_text, receive_title, received_text, send_title, sent_text};
ghost use Rattle.run_picture.specs.Titles.{strip_title, subject_text, way_text};

use crate::mark_words::{Words, push_bound, push_ids, push_made, push_step_at, push_timed};
use run_words::{Clock, push_message, push_node, push_number};
use std::alloc::AllocError;
use step_tables::StepRow;
use step_trace::Gap;

/// A step: its number, its tick, and its processor.
#[derive(Clone, Copy)]
pub(crate) struct Made {
    pub no: u64,
    pub tick: u64,
    pub processor: u64,
}

/// Appends whose step this is, and when it is made.
fn push_subject(out: &mut Vec<u8>, words: Words<'_>, made: Made) -> Result<(), AllocError>
    ensures { OnOk result (out.new.items ≡ out.old.items ++ subject_text words.entry made) }
{
    push_made(out, words.said, words.clock, made.no, made.tick)?;
    out.extend_from_slice(b": ")?;
    push_node(out, words.names, made.processor)
}

/// Appends that this step is a Send to a processor.
pub(crate) fn push_send_title(
    out: &mut Vec<u8>,
    words: Words<'_>,
    made: Made,
    to: u64,
) -> Result<(), AllocError>
    ensures { OnOk result (out.new.items ≡ out.old.items ++ send_title words.entry made to) }
{
    push_subject(out, words, made)?;
    out.extend_from_slice(b" sends message ")?;
    push_message(out, words.said, made.no)?;
    out.extend_from_slice(b" to ")?;
    push_node(out, words.names, to)
}

/// Appends that this step is a Receive which takes these messages, and whether it ends its round.
pub(crate) fn push_receive_title(
    out: &mut Vec<u8>,
    words: Words<'_>,
    made: Made,
    ends: bool,
    ids: &[u64],
) -> Result<(), AllocError>
    ensures { OnOk result (out.new.items ≡ out.old.items
        ++ receive_title words.entry made ends ids.now) }
{
    push_subject(out, words, made)?;
    out.extend_from_slice(b" receives ")?;
    push_ids(out, words.said, ids)?;
    push_ending(out, ends)
}

/// Appends that a round ends, if it does.
fn push_ending(out: &mut Vec<u8>, ends: bool) -> Result<(), AllocError>
    ensures { OnOk result (out.new.items ≡ out.old.items ++ ending_text ends) }
{
    if !ends {
        return Ok(());
    }
    out.extend_from_slice(b" and ends its round")
}

/// Appends a message that was sent by this step to a processor: what it is called, from whom to whom.
#[tactic(auto, unfolding(crate::specs::Titles::way_text))]
fn push_way(
    out: &mut Vec<u8>,
    words: Words<'_>,
    no: u64,
    from: u64,
    to: u64,
) -> Result<(), AllocError>
    ensures { OnOk result (out.new.items ≡ out.old.items ++ way_text words.entry no from to) }
{
    out.extend_from_slice(b"message ")?;
    push_message(out, words.said, no)?;
    out.extend_from_slice(b" from ")?;
    push_node(out, words.names, from)?;
    out.extend_from_slice(b" to ")?;
    push_node(out, words.names, to)
}

/// Appends a message that was sent by this step to a processor, and the step that takes it, if one does, with its tick.
pub(crate) fn push_message_title(
    out: &mut Vec<u8>,
    words: Words<'_>,
    made: Made,
    to: u64,
    taken: Option<u64>,
    end: u64,
) -> Result<(), AllocError>
    ensures { OnOk result (out.new.items ≡ out.old.items
        ++ message_title words.entry made to taken end) }
{
    push_way(out, words, made.no, made.processor, to)?;
    push_sent(out, words.said, words.clock, made)?;
    push_received(out, words.said, words.clock, taken, end)
}

/// Appends by which step a message was sent.
#[tactic(auto, unfolding(crate::specs::Titles::sent_text))]
fn push_sent(
    out: &mut Vec<u8>,
    said: &[StepRow],
    clock: Option<Clock>,
    made: Made,
) -> Result<(), AllocError>
    ensures { OnOk result (out.new.items ≡ out.old.items ++ sent_text said.now clock made) }
{
    out.extend_from_slice(b": sent at ")?;
    push_made(out, said, clock, made.no, made.tick)?;
    out.extend_from_slice(b", ")
}

/// Appends by which step a message was received, in which tick.
fn push_received(
    out: &mut Vec<u8>,
    said: &[StepRow],
    clock: Option<Clock>,
    taken: Option<u64>,
    tick: u64,
) -> Result<(), AllocError>
    ensures { OnOk result (out.new.items ≡ out.old.items
        ++ received_text said.now clock taken tick) }
{
    let Some(taken) = taken else {
        return out.extend_from_slice(b"never received");
    };
    out.extend_from_slice(b"received at ")?;
    push_made(out, said, clock, taken, tick)
}

/// Appends that this step misses a message which another processor sent it, so that no bound from tick `gst` on is
/// less.
pub(crate) fn push_miss_title(
    out: &mut Vec<u8>,
    words: Words<'_>,
    missed: Made,
    sent: u64,
    from: u64,
    gst: u64,
    delta: u64,
) -> Result<(), AllocError>
    ensures { OnOk result (out.new.items ≡ out.old.items
        ++ miss_title words.entry missed sent from gst delta) }
{
    push_way(out, words, sent, from, missed.processor)?;
    push_missing(out, words.said, words.clock, missed)?;
    push_delta(out, words.clock, gst, delta)
}

/// Appends which step misses a message.
#[tactic(auto, unfolding(crate::specs::Titles::missing_text))]
fn push_missing(
    out: &mut Vec<u8>,
    said: &[StepRow],
    clock: Option<Clock>,
    missed: Made,
) -> Result<(), AllocError>
    ensures { OnOk result (out.new.items ≡ out.old.items ++ missing_text said.now clock missed) }
{
    out.extend_from_slice(b" was not yet received at ")?;
    push_step_at(out, said, clock, missed.no, missed.tick)?;
    out.extend_from_slice(b": ")
}

/// Appends that a processor takes no step in these ticks, so that no bound from tick `gst` on is less.
pub(crate) fn push_gap_title(
    out: &mut Vec<u8>,
    words: Words<'_>,
    gap: Gap,
    gst: u64,
    phi: u64,
) -> Result<(), AllocError>
    ensures { OnOk result (out.new.items ≡ out.old.items ++ gap_title words.entry gap gst phi) }
{
    push_node(out, words.names, gap.proc)?;
    out.extend_from_slice(b" takes no step from ")?;
    push_timed(out, words.clock, gap.from)?;
    out.extend_from_slice(b" to ")?;
    push_timed(out, words.clock, gap.to)?;
    out.extend_from_slice(b": ")?;
    push_phi(out, words.clock, gst, phi)
}

/// Appends the bounds that hold from a tick on, with the time of the tick.
pub(crate) fn push_corner_title(
    out: &mut Vec<u8>,
    clock: Option<Clock>,
    gst: u64,
    delta: u64,
    phi: u64,
) -> Result<(), AllocError>
    ensures { OnOk result (out.new.items ≡ out.old.items ++ corner_title clock gst delta phi) }
{
    out.extend_from_slice(b"from ")?;
    push_timed(out, clock, gst)?;
    out.extend_from_slice(" on: Δ = ".as_bytes())?;
    push_bound(out, clock, delta)?;
    out.extend_from_slice(", Φ = ".as_bytes())?;
    push_bound(out, clock, phi)
}

/// Appends whose steps a strip has.
pub(crate) fn push_strip_title(
    out: &mut Vec<u8>,
    words: Words<'_>,
    processor: u64,
) -> Result<(), AllocError>
    ensures { OnOk result (out.new.items ≡ out.old.items ++ strip_title words.entry processor) }
{
    out.extend_from_slice(b"all steps of ")?;
    push_node(out, words.names, processor)
}

/// Appends the communication bound that holds from a tick on.
fn push_delta(
    out: &mut Vec<u8>,
    clock: Option<Clock>,
    gst: u64,
    delta: u64,
) -> Result<(), AllocError>
    ensures { OnOk result (out.new.items ≡ out.old.items ++ delta_text clock gst delta) }
{
    out.extend_from_slice("Δ".as_bytes())?;
    out.extend_from_slice(b"(")?;
    push_number(out, gst)?;
    out.extend_from_slice(b") = ")?;
    push_bound(out, clock, delta)
}

/// Appends the processor bound that holds from a tick on.
fn push_phi(out: &mut Vec<u8>, clock: Option<Clock>, gst: u64, phi: u64) -> Result<(), AllocError>
    ensures { OnOk result (out.new.items ≡ out.old.items ++ phi_text clock gst phi) }
{
    out.extend_from_slice("Φ".as_bytes())?;
    out.extend_from_slice(b"(")?;
    push_number(out, gst)?;
    out.extend_from_slice(b") = ")?;
    push_bound(out, clock, phi)
}
