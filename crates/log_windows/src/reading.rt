//! A window of a log, read from a device.

ghost use Rattle.std.specs.Prelude.{◌≡◌, IfErr, IfOk, IfSome, OnOk};
ghost use Rattle.std.specs.Io.KnownBytes.{IsAtEnd};
ghost use Rattle.trace_text.specs.Faults.{inner_of, faults_of};
ghost use Rattle.log_windows.specs.Devices.{faults_after_rows};
ghost use Rattle.log_windows.specs.LogWindows.{IsKeptOf, IsUnkept, IsWindowOf, IsWindowRefusal};

use crate::devices::{WindowError, take_rows_from};
use crate::kept_names::names_kept;
use crate::windows::{Reading, WindowRows};
use event_log::{LogEnd, LogError, TimeUnit};
use std::alloc::Global;
use std::io::Read;
use trace_text::Counting;

/// A window of a log.
#[derive(Drop)]
pub struct LogWindow {
    /// The log of the events in the window, as a text.
    pub text: Vec<u8>,
    /// Where these events are in the whole log, by their places among all events.
    pub places: Vec<u32>,
    /// How many events are outside the window.
    pub outside: u64,
    /// How many received messages no record of the window sends to their node. They are left out.
    pub unsent: u64,
}

/// Reads the window of a log that a device has left: its events from a time on, to another if there is one. If a unit
/// is given, times are whole numbers of it. The log may be of any length; what is outside the window takes no memory.
///
/// Refuses Read at the first fault. Else the first record that is refused decides: for what its header lacks; for an
/// event beyond `MAX_LOGGED`; for a time that can't be read; for a start or an end that doesn't fit the times, or a
/// start after the end; for a window whose text is too large. TooLarge also decides if more than `MAX_TEXT_BYTES` were
/// read of a record, and not its end. Memory may come at any step.
pub fn read_window<R: Read>(
    alloc: Global,
    reader: &mut Counting<R>,
    unit: Option<TimeUnit>,
    from: LogEnd,
    until: Option<LogEnd>,
) -> Result<LogWindow, WindowError>
    ensures window { IfOk result (IsWindowOf unit from until (R.remaining (inner_of reader.old))) }
    ensures end { OnOk result (IsAtEnd (R.remaining (inner_of reader.new))) }
    ensures refused { IfErr result
        (λ e. IfSome (R.remaining (inner_of reader.old)) (IsWindowRefusal unit from until e)) }
    ensures faults { faults_of reader.new ≡ faults_after_rows result (faults_of reader.old) }
{
    let Ok(mut reading) = Reading::new(alloc, unit, from, until) else {
        return Err(WindowError::Log(LogError::Memory));
    };
    take_rows_from(alloc, reader, &mut reading)?;
    Ok(window_of(alloc, reading)?)
}

/// The window that was read, without the received messages that it doesn't send.
fn window_of(alloc: Global, reading: Reading) -> Result<LogWindow, LogError>
    ensures window { IfOk result (IsKeptOf reading) }
    ensures refused { IfErr result (IsUnkept reading) }
{
    let WindowRows {
        text,
        places,
        sent,
        outside,
    } = reading.rows;
    let kept = names_kept(alloc, &text, sent)?;
    Ok(LogWindow {
        text: kept.text,
        places,
        outside,
        unsent: kept.unsent,
    })
}
