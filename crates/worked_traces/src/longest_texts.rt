//! Texts of the greatest size, by calls that no command makes: what no clause says is that memory is enough for them.

use front::{ReportError, read_report, write_report};
use std::alloc::{AllocError, Global};
use std::test::Fail;
use step_trace::{Gap, Miss, Row};
use trace_text::{Counting, MAX_TEXT_BYTES, read_trace, write_trace};

/// Whether a text is read, and has no header.
fn has_no_header(alloc: Global, text: &[u8]) -> bool {
    matches!(
        &read_report(alloc, &mut Counting::new(text)),
        Err(ReportError::BadHeader)
    )
}

#[test]
fn the_longest_text(rt: HostRuntime) -> Result<(), AllocError> {
    let text = vec![in rt.alloc(); b'x'; MAX_TEXT_BYTES]?;
    assert!(rt; has_no_header(rt.alloc(), &text));
    Ok(())
}

/// A row of large numbers, with each kind of evidence or without.
fn large_row(no: u64) -> Row {
    let number = u64::MAX - no;
    Row {
        gst: no,
        delta: number,
        phi: number / 2,
        miss: (no % 2 == 0).then_some(Miss {
            sent: number,
            missed: no,
        }),
        gap: (no % 3 == 0).then_some(Gap {
            proc: no,
            from: number,
            to: 0,
        }),
    }
}

/// So many rows.
fn many_rows(alloc: Global, count: u64) -> Result<Vec<Row>, AllocError> {
    let mut rows = Vec::new(alloc);
    for no in 0..count {
        rows.push(large_row(no))?;
    }
    Ok(rows)
}

/// Whether these rows are read of a text.
fn are_read(alloc: Global, text: &[u8], rows: &[Row]) -> bool {
    match read_report(alloc, &mut Counting::new(text)) {
        Ok(read) => read.as_slice() == rows,
        Err(_) => false,
    }
}

/// Whether these rows are read of the text that is written of them.
fn are_read_again(alloc: Global, rows: &[Row]) -> bool {
    let mut text = Vec::new(alloc);
    write_report(alloc, rows, &mut Counting::new(&mut text)).is_ok() && are_read(alloc, &text, rows)
}

#[test]
fn many_rows_are_read_as_they_were_written(rt: HostRuntime) -> Result<(), Fail> {
    let rows = many_rows(rt.alloc(), 100_001)?;
    assert!(rt; are_read_again(rt.alloc(), &rows));
    Ok(())
}

/// A text of so many empty Receives, which names 1,000,000 as their number.
fn empty_receives(alloc: Global, steps: u64) -> Result<String, AllocError> {
    let mut text = String::from_str(alloc, "dls-trace,1,2,0\ninit,5,7\n")?;
    for no in 0..steps {
        let number = no.saturating_add(1).to_string(alloc)?;
        text.push_str(number.as_str())?;
        text.push_str(",1,R,\n")?;
    }
    text.push_str("end,1000000\n")?;
    Ok(text)
}

/// Whether the trace that a text encodes is written as that text.
fn is_written_again(alloc: Global, text: &[u8]) -> bool {
    let Ok(trace) = read_trace(alloc, text) else {
        return false;
    };
    let mut written = Vec::new(alloc);
    write_trace(alloc, &trace, &mut Counting::new(&mut written)).is_ok()
        && written.as_slice() == text
}

#[test]
fn a_full_trace(rt: HostRuntime) -> Result<(), Fail> {
    let text = empty_receives(rt.alloc(), 1_000_000)?;
    assert!(rt; is_written_again(rt.alloc(), text.as_bytes()));
    Ok(())
}
