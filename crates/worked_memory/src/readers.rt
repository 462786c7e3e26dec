//! A trace text that several threads read from a device. That one thread reads it is swept by `tests/sweeps`.

use refused_growths::{Refusal, Whose};
use shared_reading::read_trace_from;
use std::alloc::{AllocError, Global};
use std::test::Fail;
use std::thread::Threads;
use trace_text::failing_devices::{AfterBytes, FailingReader};
use trace_text::{Counting, TextError};

/// So many that the trace has several pages of them.
const STEPS: u64 = 900;

/// More allocations than they make.
const MOST_GROWTHS: usize = 10_000;

/// So many blank lines that another thread reads a piece of the text, and all steps but the first.
const BLANK_LINES_OF_A_PIECE: usize = 150_000;

/// So many that other threads read more pieces than there are workers, and all steps but the first in the last one.
const BLANK_LINES_OF_PIECES: usize = 600_000;

/// So many pieces: of 131,072 bytes behind the first 65,536, again 131,072, then 163,840, up to the end of a read, and
/// the rest.
const PIECES: usize = 4;

const WORKERS: u64 = 2;

/// A text with so many blank lines after its first step.
fn text_of(alloc: Global, blank_lines: usize) -> Result<String, AllocError> {
    let mut text = format!(in alloc; "dls-trace,1,2,0\ninit,5,7\n1,1,S,2\n")?;
    for _ in 0..blank_lines {
        text.push_str("\n")?;
    }
    for no in 2..=STEPS {
        let line = format!(in alloc; "{no},1,S,2\n")?;
        text.push_str(line.as_str())?;
    }
    let end = format!(in alloc; "end,{STEPS}\n")?;
    text.push_str(end.as_str())?;
    Ok(text)
}

/// Whether the trace of the text is read. Fails if the answer is out of memory.
fn is_read<R: Threads + Sync>(rt: &R, alloc: Global, text: &[u8]) -> Result<bool, AllocError> {
    let device = FailingReader::new(text, 65_536, AfterBytes::End);
    match read_trace_from(rt, alloc, &mut Counting::new(device), WORKERS) {
        Ok(trace) => Ok(trace.len() as u64 == STEPS),
        Err(TextError::Memory) => Err(AllocError),
        Err(_) => Ok(false),
    }
}

/// What became of a reading in which an allocation was to be refused.
#[derive(Clone, Copy)]
enum Outcome {
    /// It ended without that allocation.
    Read,
    /// It answered out of memory, and the text was read afterwards.
    Refused,
    /// The text was read without it: a thread wasn't started, and from its piece on the text was read by this one.
    ReadAlone,
    Wrong,
}

fn read_with<R: Threads + Sync>(rt: &R, alloc: Global, text: &[u8], refusal: Refusal) -> Outcome {
    refusal.begin(alloc);
    let answer = is_read(rt, alloc, text);
    let was_refused = refusal.end(alloc);
    let again = is_read(rt, alloc, text);
    match (was_refused, answer, again) {
        (false, Ok(true), Ok(true)) => Outcome::Read,
        (true, Err(_), Ok(true)) => Outcome::Refused,
        (true, Ok(true), Ok(true)) => Outcome::ReadAlone,
        _ => Outcome::Wrong,
    }
}

/// The first allocation among these with a wrong outcome, if there was one. If allocations are refused, the text is
/// read all the same without exactly so many of them, each alone.
fn first_wrong<R: Threads + Sync>(
    rt: &R,
    alloc: Global,
    text: &[u8],
    whose: Whose,
    read_alone: usize,
) -> Option<usize> {
    let mut due = read_alone;
    for growth in 1..MOST_GROWTHS {
        match read_with(rt, alloc, text, Refusal::among(growth, whose)) {
            // (the first one ends without it if none is refused)
            Outcome::Read if growth == 1 || due == 0 => return None,
            Outcome::Refused => {}
            Outcome::ReadAlone if due > 0 => due -= 1,
            Outcome::Read | Outcome::ReadAlone | Outcome::Wrong => return Some(growth),
        }
    }
    Some(MOST_GROWTHS)
}

/// How many blank lines the text has; which threads' allocations are refused; without how many of them the text is read
/// all the same: one for each thread that is started. This thread makes the same allocations in each reading. The
/// number that the others make varies, so they are counted apart.
const READ_BY_THREADS: &[(usize, Whose, usize)] = &[
    (BLANK_LINES_OF_A_PIECE, Whose::Own, 1),
    (BLANK_LINES_OF_A_PIECE, Whose::Others, 0),
    (BLANK_LINES_OF_PIECES, Whose::Own, PIECES),
    (BLANK_LINES_OF_PIECES, Whose::Others, 0),
];

#[test]
fn threads_read_pieces(rt: HostRuntime) -> Result<(), Fail> {
    for &(blank_lines, whose, read_alone) in READ_BY_THREADS {
        let text = text_of(rt.alloc(), blank_lines)?;
        let wrong = first_wrong(&rt, rt.alloc(), text.as_bytes(), whose, read_alone);
        assert!(rt;
            wrong.is_none(),
            "{blank_lines} lines, {whose:?}: {wrong:?}"
        );
    }
    Ok(())
}
