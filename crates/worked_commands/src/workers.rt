//! Reports by several workers, through gates.

use chunk_join::MAX_WORKERS;
use command_faults::{Fault, status};
use std::alloc::Global;
use std::sync::Wait;
use std::thread::Threads;
use step_trace::meeting::MeetingGate;
use step_trace::{Correct, Gate};
use test_support::texts::{NEVER_DELIVERED, NEVER_DELIVERED_REPORT};
use text_commands::run_report;
use trace_text::Counting;
use trace_text::failing_devices::{FailingWriter, WriteFailure};

/// A gate that lets in everybody but one.
#[derive(Clone, Copy)]
struct Holds(u64);

impl Gate for Holds {
    fn enter(&self, who: u64) -> bool {
        who != self.0
    }
}

/// Reports never-delivered by so many workers, for all processors.
fn reported<T: Threads + Wait + Sync, G: Gate>(
    rt: &T,
    alloc: Global,
    workers: u64,
    gate: &G,
    writer: &mut FailingWriter,
) -> Result<(), Fault> {
    if workers < 1 || workers > MAX_WORKERS {
        return Err(Fault::Memory);
    }
    let mut trace = Counting::new(NEVER_DELIVERED.as_bytes());
    let mut output = Counting::new(writer);
    run_report(
        rt,
        alloc,
        &mut trace,
        &mut output,
        Correct::All,
        workers,
        gate,
    )
}

/// Whether the report comes of two workers and this gate.
fn is_reported<T: Threads + Wait + Sync, G: Gate>(rt: &T, alloc: Global, gate: &G) -> bool {
    let mut writer = FailingWriter::new(alloc, 40, WriteFailure::Never);
    reported(rt, alloc, 2, gate, &mut writer).is_ok()
        && writer.taken() == NEVER_DELIVERED_REPORT.as_bytes()
}

#[test]
fn two_workers_meet(rt: HostRuntime) {
    assert!(rt; is_reported(&rt, rt.alloc(), &MeetingGate::new()));
}

/// Whether it is reported that one of so many workers is held, and nothing is written.
fn is_told<T: Threads + Wait + Sync>(rt: &T, alloc: Global, workers: u64, held: u64) -> bool {
    let mut writer = FailingWriter::new(alloc, 40, WriteFailure::Never);
    match reported(rt, alloc, workers, &Holds(held), &mut writer) {
        Ok(()) => false,
        Err(fault) => status(&fault) == 8 && writer.taken().is_empty(),
    }
}

/// How many workers there are, and whom the gate holds back.
const HELD: &[(u64, u64)] = &[(1, 1), (3, 1), (3, 2), (3, 3)];

#[test]
fn a_worker_is_held(rt: HostRuntime) {
    for &(workers, held) in HELD {
        assert!(rt;
            is_told(&rt, rt.alloc(), workers, held),
            "{held} of {workers}"
        );
    }
}
