//! Runs in threads, and gates that hold a thread back.

ghost use Rattle.std.specs.Prelude.{◌≡◌, IfSome};

use command_faults::{Fault, status};
use node_runs::{Follower, Limits, Pace, RunEnd, run_nodes};
use std::alloc::Global;
use std::sync::Wait;
use std::thread::Threads;
use std::time::Clock;
use step_trace::meeting::MeetingGate;
use step_trace::{Config, Gate};
use trace_text::Counting;
use trace_text::failing_devices::{FailingWriter, WriteFailure};

/// A gate that lets in everybody but one.
#[derive(Clone, Copy)]
struct Holds(u64);

impl Gate for Holds {
    fn enter(&self, who: u64) -> bool {
        who != self.0
    }
}

/// The configuration of two nodes of values 5 and 7.
fn two_nodes(alloc: Global) -> Option<Config>
    ensures { IfSome result (λ config. config.n ≡ 2) }
{
    let init = Vec::from_slice(alloc, &[5, 7]).ok()?;
    Config::new(2, 0, init).ok()
}

/// No follower.
fn nobody() -> Option<Follower<FailingWriter>> {
    None
}

/// Runs two nodes of values 5 and 7, each of four steps, if the first Receive of a round ends it.
fn run_two<R: Threads + Wait + Clock + Sync, G: Gate>(
    rt: &R,
    alloc: Global,
    gate: &G,
    writer: &mut FailingWriter,
) -> Result<(), Fault> {
    let config = two_nodes(alloc).ok_or(Fault::Memory)?;
    run_nodes(
        rt,
        alloc,
        &config,
        Limits {
            pace: Pace::Patience(1),
            end: RunEnd::Steps,
            steps: 4,
        },
        gate,
        &mut nobody(),
        &mut Counting::new(writer),
        &mut Counting::new(&mut Vec::new(alloc)),
    )
}

/// Whether a run of eight steps comes of this gate.
fn is_run<R: Threads + Wait + Clock + Sync, G: Gate>(rt: &R, alloc: Global, gate: &G) -> bool {
    let mut writer = FailingWriter::new(alloc, 10, WriteFailure::Never);
    run_two(rt, alloc, gate, &mut writer).is_ok() && writer.taken().ends_with(b"\nend,8\n")
}

/// A gate that is entered twice from one seat would refuse the second time.
#[test]
fn two_nodes_meet(rt: HostRuntime) {
    assert!(rt; is_run(&rt, rt.alloc(), &MeetingGate::new()));
}

/// Whether the run reports the thread that is held, and writes nothing.
fn is_told<R: Threads + Wait + Clock + Sync>(rt: &R, alloc: Global, held: u64) -> bool {
    let mut writer = FailingWriter::new(alloc, 10, WriteFailure::Never);
    match run_two(rt, alloc, &Holds(held), &mut writer) {
        Ok(()) => false,
        Err(fault) => status(&fault) == 8 && writer.taken().is_empty(),
    }
}

/// The first, or the last.
#[test]
fn a_thread_is_held(rt: HostRuntime) {
    assert!(rt; is_told(&rt, rt.alloc(), 1));
    assert!(rt; is_told(&rt, rt.alloc(), 2));
}
