//! Where ticks and processors are drawn. Lengths are tenths of a pixel.

ghost use Rattle.std.specs.Prelude.{◌≡◌, ◌≤◌, ◌<◌, ◌↔◌, ◌+◌, ◌-◌, ◌*◌, ◌/◌, ◌^◌, IsTrue, min};
ghost use Rattle.step_trace.specs.Processors.{has_proc};
ghost use Rattle.run_picture.specs.ShownLanes.{lane_number};
ghost use Rattle.run_picture.specs.Places.{half_lane, half_tick, height_at, lane_middle, left_end, left_height};
ghost use Rattle.run_picture.specs.Places.{lost_height, right_end, right_height, tick_count, tick_edge, tick_middle};

use crate::shown_lanes::lane_number;
use picture_marks::{MAX_WINDOW, Window};
use step_trace::ProcSet;

/// The left edge of what is drawn by ticks.
pub(crate) const LEFT: u64 = 900;

/// How wide it is.
pub(crate) const WIDTH: u64 = 10_000;

/// Where the lanes begin.
pub(crate) const LANES_TOP: u64 = 2_900;

/// The places of the ticks of a window and of the lanes of the processors.
#[derive(Clone, Copy)]
pub(crate) struct Frame {
    first: u64,
    to: u64,
    shown: ProcSet,
    lanes: u64,
}

/// A line from one place to another.
#[derive(Clone, Copy)]
pub(crate) struct Line {
    pub x: u64,
    pub y: u64,
    pub x_end: u64,
    pub y_end: u64,
}

impl Frame {
    /// The frame of a window and of the lanes of those of so many processors that are in the set.
    pub(crate) fn new(window: Window, shown: ProcSet, processors: u64) -> Frame
        ensures first { result.first ≡ window.first }
        ensures to { result.to ≡ window.to }
        ensures shown { result.shown ≡ shown }
        ensures lanes { result.lanes ≡ lane_number shown processors }
    {
        Frame {
            first: window.first,
            to: window.to,
            shown,
            lanes: lane_number(shown, processors),
        }
    }

    /// Whether a processor has a lane.
    pub(crate) fn has(&self, processor: u64) -> bool
        ensures { result ≡ has_proc self.now.shown processor }
    {
        self.shown.contains(processor)
    }

    /// How many ticks are drawn, at least one.
    pub(crate) fn count(&self) -> u64
        ensures value { result ≡ tick_count self.now }
        ensures low { 1 ≤ result }
        ensures high { result ≤ MAX_WINDOW }
    {
        self.to.saturating_sub(self.first).min(MAX_WINDOW - 1) + 1
    }

    /// Half of the height of a lane.
    pub(crate) fn half_lane(&self) -> u64
        ensures value { result ≡ half_lane self.now.lanes }
        ensures limit { result ≤ 220 }
    {
        if self.lanes > 16 { 110 } else { 220 }
    }

    /// The bottom of the last lane.
    pub(crate) fn lanes_end(&self) -> u64
        ensures value { result ≡ LANES_TOP + min self.now.lanes 64 * 2 * half_lane self.now.lanes }
        ensures limit { result ≤ 50_000 }
    {
        LANES_TOP + self.lanes.min(64) * 2 * self.half_lane()
    }

    /// The middle of a lane.
    pub(crate) fn y(&self, processor: u64) -> u64
        ensures value { result ≡ lane_middle self.now processor }
        ensures limit { result ≤ 50_000 }
    {
        LANES_TOP + (lane_number(self.shown, processor).clamp(1, 64) * 2 - 1) * self.half_lane()
    }

    /// The left edge of a tick of the window, or the right edge of the window, if the tick is after it.
    pub(crate) fn edge(&self, tick: u64) -> u64
        ensures value { result ≡ tick_edge self.now tick }
        ensures limit { result ≤ LEFT + WIDTH }
    {
        let count = self.count();
        let before = tick.saturating_sub(self.first).min(count);
        LEFT + before * WIDTH / count
    }

    /// The middle of a tick of the window.
    pub(crate) fn middle(&self, tick: u64) -> u64
        ensures value { result ≡ tick_middle self.now tick }
        ensures limit { result ≤ LEFT + WIDTH }
    {
        let count = self.count();
        let before = tick.saturating_sub(self.first).min(count - 1);
        LEFT + (before * 2 + 1) * WIDTH / (count * 2)
    }

    /// Half of the width of a tick.
    pub(crate) fn half(&self) -> u64
        ensures value { result ≡ half_tick self.now }
        ensures limit { result ≤ 5_000 }
    {
        WIDTH / (self.count() * 2)
    }

    /// Whether a tick is drawn.
    pub(crate) fn shows(&self, tick: u64) -> bool
        ensures { IsTrue result ↔ ((self.now.first ≤ tick) × (tick ≤ self.now.to)) }
    {
        self.first <= tick && tick <= self.to
    }

    /// The line from the middle of one tick in one lane to that of another in another, cut at the window's edges.
    pub(crate) fn line(&self, tick: u64, processor: u64, end: u64, processor_end: u64) -> Line
        ensures x { result.x ≡ left_end self.now tick }
        ensures y { result.y ≡ left_height self.now tick processor end processor_end }
        ensures x_end { result.x_end ≡ right_end self.now end }
        ensures y_end { result.y_end ≡ right_height self.now tick processor end processor_end }
    {
        let (y, y_end) = (self.y(processor), self.y(processor_end));
        let span = halves(tick, end);
        let begun = halves(tick, self.first).saturating_sub(1);
        let ended = halves(tick, self.to) + 1;
        Line {
            x: if tick < self.first {
                LEFT
            } else {
                self.middle(tick)
            },
            y: height_at(y, y_end, begun, span),
            x_end: if end > self.to {
                LEFT + WIDTH
            } else {
                self.middle(end)
            },
            y_end: height_at(y, y_end, ended, span),
        }
    }

    /// The short line of a message that nobody takes, from the middle of its Send towards the lane of its receiver. It
    /// stays within the tick and the lane.
    pub(crate) fn lost(&self, tick: u64, processor: u64, to: u64) -> Line
        ensures x { result.x ≡ tick_middle self.now tick }
        ensures y { result.y ≡ lane_middle self.now processor }
        ensures x_end { result.x_end ≡ tick_middle self.now tick + half_tick self.now * 9 / 10 }
        ensures y_end { result.y_end ≡ lost_height self.now processor to }
    {
        let (x, y) = (self.middle(tick), self.y(processor));
        let far = self.half_lane() * 7 / 10;
        Line {
            x,
            y,
            x_end: x + self.half() * 9 / 10,
            y_end: if to < processor {
                y.saturating_sub(far)
            } else {
                y + far
            },
        }
    }
}

/// How many half ticks lie from the one tick to the other, if it comes later.
fn halves(from: u64, to: u64) -> u128
    ensures value { result ≡ (to - from) * 2 }
    ensures limit { result < 2 ^ 65 }
{
    u128::from(to.saturating_sub(from)) * 2
}

/// What lies so many parts of the whole from the one height to the other.
fn height_at(y: u64, y_end: u64, part: u128, whole: u128) -> u64
    requires from { y ≤ 50_000 }
    requires to { y_end ≤ 50_000 }
    requires part { part < 2 ^ 66 }
    ensures { result ≡ height_at y y_end part whole }
{
    let whole = whole.max(1);
    let part = part.min(whole);
    if y <= y_end {
        y + share_of(y_end - y, part, whole)
    } else {
        y - share_of(y - y_end, part, whole)
    }
}

/// So many parts of a length that has `whole` of them.
pub(crate) fn share_of(length: u64, part: u128, whole: u128) -> u64
    requires length { length ≤ 50_000 }
    requires some { 1 ≤ whole }
    requires part { part ≤ whole }
    requires limit { part < 2 ^ 66 }
    ensures value { result ≡ length * part / whole }
    ensures limit { result ≤ length }
{
    (u128::from(length) * part / whole) as u64
}
