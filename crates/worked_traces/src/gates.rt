//! Workers at a gate.

use std::alloc::AllocError;
use std::thread;
use step_trace::Gate;
use step_trace::meeting::MeetingGate;

#[test]
fn two_workers_meet(rt: HostRuntime) -> Result<(), AllocError> {
    let gate = MeetingGate::new();
    let (first, second) = thread::join(&rt, || gate.enter(1), || gate.enter(2));
    assert!(rt; first && second);
    assert!(rt; !gate.enter(1) && !gate.enter(2));
    Ok(())
}

/// The one who comes first goes when nobody comes; the other then finds that the first was there.
#[test]
fn one_worker_waits_in_vain(rt: HostRuntime) -> Result<(), AllocError> {
    let gate = MeetingGate::new();
    assert!(rt; !gate.enter(2));
    assert!(rt; !gate.enter(2) && !gate.enter(3));
    assert!(rt; gate.enter(1));
    Ok(())
}
