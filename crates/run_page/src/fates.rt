//! What became of the messages between members: which of the calm are lost, and which no Receive can miss.

use crate::runs::receiver_at;
use crate::scans::Scan;
use crate::scenes::with_node;
use picture_marks::processor_at;
use picture_marks::takers::taker_in;
use step_trace::{ProcSet, Trace};

/// What became of the messages between members.
#[derive(Clone, Copy)]
pub(crate) struct Fates {
    /// How many of those sent from the calm row on are lost.
    pub lost: u64,
    /// Whether a Receive takes one of these, or could have missed one. If not, their Δ is 1, whatever was slow.
    pub is_tested: bool,
    /// The members that never receive, though messages are sent to them; and how many messages these are.
    pub deaf: ProcSet,
    pub to_deaf: u64,
}

impl Fates {
    /// By the Receives that take messages, what a pass over the trace finds, and the tick of the calm row.
    ///
    /// Time grows with the trace.
    pub(crate) fn of(
        trace: &Trace,
        set: ProcSet,
        takers: &[Option<u64>],
        scan: &Scan,
        calm: u64,
    ) -> Self {
        let mut fates = Fates {
            lost: 0,
            is_tested: false,
            deaf: ProcSet::empty(),
            to_deaf: 0,
        };
        for i in 0..trace.len() {
            if let Some(sent) = Sent::of(trace, set, takers, scan, i as u64 + 1) {
                fates.note(sent, calm);
            }
        }
        fates
    }

    fn note(&mut self, sent: Sent, calm: u64) {
        if sent.last_look == 0 {
            self.deaf = with_node(self.deaf, sent.to);
            self.to_deaf = self.to_deaf.saturating_add(1);
        }
        if sent.tick < calm {
            return;
        }
        let is_missed = sent.tick < sent.last_look;
        if sent.is_taken || is_missed {
            self.is_tested = true;
        }
        if !sent.is_taken && is_missed {
            self.lost = self.lost.saturating_add(1);
        }
    }
}

/// A message between members.
#[derive(Clone, Copy)]
struct Sent {
    to: u64,
    tick: u64,
    is_taken: bool,
    /// The tick of its receiver's last Receive; 0 if there is none.
    last_look: u64,
}

impl Sent {
    /// The message of this number, if it goes from a member to a member.
    fn of(
        trace: &Trace,
        set: ProcSet,
        takers: &[Option<u64>],
        scan: &Scan,
        no: u64,
    ) -> Option<Self> {
        let to = receiver_at(trace, no);
        if !set.contains(processor_at(trace, no)) || !set.contains(to) {
            return None;
        }
        Some(Sent {
            to,
            tick: trace.tick_at(no),
            is_taken: taker_in(takers, no).is_some(),
            last_look: scan.last_receive_of(to),
        })
    }
}
