//! Silences that ended shortly before a message was missed.

ghost use Rattle.std.specs.Prelude.{◌≡◌};
ghost use Rattle.run_story.specs.EndedSilences.{IsFirstPlace, ended_shortly, is_much_longer};
ghost use Rattle.run_story.specs.EndedSilences.{is_of_pair, matters, may_matter};

use crate::delays::Delay;
use crate::evidence::Evidence;
use crate::messages::sender_of;
use crate::stalls::Stall;
use step_trace::Trace;

/// A silence ends shortly before a Send if it does by so many times the length of the miss at most.
const SHORTLY: u64 = 2;

/// It is much longer than a miss if it is so many times as long.
const MUCH: u64 = 4;

/// The first place, in a list of evidence, of a silence that may have made a message late: one of its sender or its
/// receiver, four times as long as the miss or longer. It ended before the Receive that misses the message, and not
/// earlier before the Send than by twice the length of the miss.
///
/// Time grows with the list.
pub fn ended_silence(trace: &Trace, list: &[Evidence], delay: Delay) -> Option<usize>
    ensures { IsFirstPlace (matters trace.now delay) list.now result }
{
    for k in 0..list.len() {
        if matters(trace, delay, &list[k]) {
            return Some(k);
        }
    }
    None
}

fn matters(trace: &Trace, delay: Delay, evidence: &Evidence) -> bool
    ensures { result ≡ matters trace.now delay evidence.now }
{
    match evidence.stall {
        Some(stall) => may_matter(trace, delay, stall),
        None => false,
    }
}

fn may_matter(trace: &Trace, delay: Delay, stall: Stall) -> bool
    ensures { result ≡ may_matter trace.now delay stall }
{
    is_of_pair(trace, delay, stall)
        && (ended_shortly(trace, delay, stall) && is_much_longer(stall, delay.ticks))
}

/// Whether a silence is one of the sender or of the receiver of a late message.
fn is_of_pair(trace: &Trace, delay: Delay, stall: Stall) -> bool
    ensures { result ≡ is_of_pair trace.now delay stall }
{
    stall.gap.proc == sender_of(trace, delay.miss.sent) || stall.gap.proc == delay.to
}

/// Whether it is much longer than so many ticks.
fn is_much_longer(stall: Stall, ticks: u64) -> bool
    ensures { result ≡ is_much_longer stall ticks }
{
    let length = stall
        .gap
        .to
        .saturating_sub(stall.gap.from.saturating_sub(1));
    u128::from(MUCH) * u128::from(ticks) <= u128::from(length)
}

/// Whether it ended shortly before the Send, or later, but before the Receive that misses the message.
fn ended_shortly(trace: &Trace, delay: Delay, stall: Stall) -> bool
    ensures { result ≡ ended_shortly trace.now delay stall }
{
    let (sent, missed) = (
        trace.tick_at(delay.miss.sent),
        trace.tick_at(delay.miss.missed),
    );
    let until = u128::from(stall.gap.to) + u128::from(SHORTLY) * u128::from(delay.ticks);
    u128::from(sent) <= until && stall.gap.to < missed
}
