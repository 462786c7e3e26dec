//! Calls that no command makes, of which most look at a trace: copies, lists of steps and gaps, pieces, checks of rows,
//! and the reading of texts.

use crate::joins::{are_all_joined, is_joined};
use crate::looks::{TraceCall, first_wrong_of};
use bound_witness::gaps;
use certificate_checker::{Verdict, check};
use front::{ReportError, read_report};
use std::alloc::{AllocError, Global};
use std::test::Fail;
use step_trace::{Gap, Trace};
use test_support::stair_levels::never_delivered_rows;
use test_support::texts::{NEVER_DELIVERED, NEVER_DELIVERED_REPORT};
use test_support::traces::{are_equal, both, empty_trace, step_of};
use trace_text::failing_devices::{AfterBytes, FailingReader};
use trace_text::{Counting, TextError, read_trace};

/// Processor 1 sends to 2 twice, which takes both messages together. One id takes no memory of its own.
const TAKEN_TOGETHER: &str = "dls-trace,1,2,0\ninit,5,7\n1,1,S,2\n2,1,S,2\n3,2,R,1 2\nend,3\n";

#[derive(Clone, Copy)]
enum Look {
    Copy,
    OwnSteps,
    Placed,
    Gaps,
    Check,
    JoinAfter(u64),
    JoinAll,
    ReadTrace(&'static str),
    ReadReport,
}

impl TraceCall for Look {
    fn is_right(self, alloc: Global, trace: &Trace) -> Result<bool, AllocError> {
        match self {
            Look::Copy => is_copied(alloc, trace),
            Look::OwnSteps => Ok(trace.restrict(alloc, 2)?.len() == 3),
            Look::Placed => is_placed(trace),
            Look::Gaps => are_gaps(alloc, trace),
            Look::Check => is_certified(alloc, trace),
            Look::JoinAfter(cut) => is_joined(alloc, trace, cut),
            Look::JoinAll => are_all_joined(alloc, trace),
            Look::ReadTrace(text) => is_trace_read(alloc, text, trace),
            Look::ReadReport => is_report_read(alloc),
        }
    }
}

fn is_copied(alloc: Global, trace: &Trace) -> Result<bool, AllocError> {
    Ok(are_equal(&trace.copy(alloc)?, trace))
}

/// Whether step 3 takes messages 1 and 2 in tick 3.
fn is_placed(trace: &Trace) -> Result<bool, AllocError> {
    match trace.placed(3)? {
        Some((tick, step)) => Ok(tick == 3 && step.act.ids() == [1, 2].as_slice()),
        None => Ok(false),
    }
}

/// Whether the fourth and last gap is that of processor 2 in tick 3.
fn are_gaps(alloc: Global, trace: &Trace) -> Result<bool, AllocError> {
    let set = both();
    if !set.within(trace.config().n()) {
        return Ok(false);
    }
    let last = Gap {
        proc: 2,
        from: 3,
        to: 3,
    };
    Ok(gaps(alloc, trace, set)?.as_slice().get(3) == Some(&last))
}

fn is_certified(alloc: Global, trace: &Trace) -> Result<bool, AllocError> {
    let set = both();
    if !set.within(trace.config().n()) {
        return Ok(false);
    }
    Ok(check(alloc, trace, set, &never_delivered_rows())? == Verdict::Yes)
}

fn is_trace_read(alloc: Global, text: &str, wanted: &Trace) -> Result<bool, AllocError> {
    match read_trace(alloc, text.as_bytes()) {
        Ok(trace) => Ok(are_equal(&trace, wanted)),
        Err(TextError::Memory) => Err(AllocError),
        Err(_) => Ok(false),
    }
}

/// Read in pieces, so that what was read grows again and again.
fn is_report_read(alloc: Global) -> Result<bool, AllocError> {
    let device = FailingReader::new(NEVER_DELIVERED_REPORT.as_bytes(), 7, AfterBytes::End);
    match read_report(alloc, &mut Counting::new(device)) {
        Ok(rows) => Ok(rows.as_slice() == never_delivered_rows().as_slice()),
        Err(ReportError::Memory) => Err(AllocError),
        Err(_) => Ok(false),
    }
}

const LOOKS: &[(&str, Look)] = &[
    ("Trace::restrict", Look::OwnSteps),
    ("gaps", Look::Gaps),
    ("check", Look::Check),
    ("a join before all", Look::JoinAfter(0)),
    ("a join after tick 2", Look::JoinAfter(2)),
    ("join_all", Look::JoinAll),
    ("read_trace", Look::ReadTrace(NEVER_DELIVERED)),
    ("read_report", Look::ReadReport),
];

const LOOKS_AT_IDS: &[(&str, Look)] = &[
    ("Trace::placed", Look::Placed),
    ("read_trace", Look::ReadTrace(TAKEN_TOGETHER)),
];

/// The first of these calls and of its allocations with a wrong outcome, if there was one.
fn first_wrong_of_text(
    alloc: Global,
    text: &str,
    calls: &[(&'static str, Look)],
) -> Option<(&'static str, usize)> {
    match read_trace(alloc, text.as_bytes()) {
        Ok(trace) => first_wrong_of(alloc, &trace, calls),
        Err(_) => Some(("before all", 0)),
    }
}

#[test]
fn traces_are_looked_at(rt: HostRuntime) {
    for (text, calls) in [(NEVER_DELIVERED, LOOKS), (TAKEN_TOGETHER, LOOKS_AT_IDS)] {
        let wrong = first_wrong_of_text(rt.alloc(), text, calls);
        assert!(rt; wrong.is_none(), "{wrong:?}");
    }
}

/// A trace of so many Receives that take nothing.
fn silence(alloc: Global, count: u64) -> Result<Trace, Fail> {
    let mut trace = empty_trace(alloc, 2)?;
    for _ in 0..count {
        trace.push(step_of(alloc, 1, 0, &[])?)?;
    }
    Ok(trace)
}

const COPY: &[(&str, Look)] = &[("Trace::copy", Look::Copy)];

/// A page has 256 steps.
#[test]
fn pages_are_copied(rt: HostRuntime) -> Result<(), Fail> {
    let trace = silence(rt.alloc(), 257)?;
    let wrong = first_wrong_of(rt.alloc(), &trace, COPY);
    assert!(rt; wrong.is_none(), "{wrong:?}");
    Ok(())
}
