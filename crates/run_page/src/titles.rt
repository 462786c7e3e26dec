//! Evidence in one line.

ghost use Rattle.std.specs.Prelude.{◌≡◌, ◌-◌};

use crate::pens::Pen;
use crate::pieces::Piece::{Message, Node, Text, Ticks};
use crate::runs::Run;
use run_story::{Delay, Evidence, Stall};

/// Writes what a card is called. It has no marks of HTML, so it may be in quotes too.
pub(crate) fn put_title(pen: &mut Pen<'_>, run: &Run<'_>, evidence: &Evidence) {
    match (evidence.stall, evidence.delay) {
        (Some(stall), None) => put_stall_title(pen, stall),
        (Some(stall), Some(_)) => {
            put_stall_title(pen, stall);
            pen.text(", and messages to it waited");
        }
        (None, Some(delay)) => put_delay_title(pen, run, delay),
        (None, None) => {}
    }
}

fn put_stall_title(pen: &mut Pen<'_>, stall: Stall) {
    let gap = stall.gap;
    pen.put(&[
        Node(gap.proc),
        Text(" was silent for "),
        Ticks(gap_ticks(gap.from, gap.to)),
    ]);
}

/// How many ticks a silence has.
pub(crate) fn gap_ticks(from: u64, to: u64) -> u64
    ensures { result ≡ to - (from - 1) }
{
    to.saturating_sub(from.saturating_sub(1))
}

fn put_delay_title(pen: &mut Pen<'_>, run: &Run<'_>, delay: Delay) {
    let sent = delay.miss.sent;
    pen.put(&[
        Node(run.proc(sent)),
        Text(" → "),
        Node(delay.to),
        Text(": message "),
        Message(sent),
    ]);
    match run.taker(sent) {
        Some(_) => pen.put(&[
            Text(" was not there "),
            Ticks(delay.ticks),
            Text(" after it was sent"),
        ]),
        None => pen.text(" was not received"),
    }
}
