//! The plain data in which bounds and their evidence are reported.

/// A message whose Send has the number `sent`, and a Receive of its receiver, of number `missed`, by
/// which it wasn't delivered. It is evidence against each communication bound up to the ticks from the
/// one to the other, which are `missed - sent` if each tick holds one step.
#[derive(Clone, Copy, Debug, PartialEq, Eq)]
pub struct Miss {
    pub sent: u64,
    pub missed: u64,
}

/// A processor that has no step from `from` to `to`: evidence against each processor bound up to
/// `to - from + 1`.
#[derive(Clone, Copy, Debug, PartialEq, Eq)]
pub struct Gap {
    pub proc: u64,
    pub from: u64,
    pub to: u64,
}

/// A triple of a report with its witnesses. From the real-time step `gst` on, `delta` is the least
/// communication bound and `phi` the least processor bound, all in real-time steps.
#[derive(Clone, Copy, Debug, PartialEq, Eq)]
pub struct Row {
    pub gst: u64,
    pub delta: u64,
    pub phi: u64,
    pub miss: Option<Miss>,
    pub gap: Option<Gap>,
}
