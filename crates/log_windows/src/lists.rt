//! A log whose sends are each to one node: a record that lists several becomes a record for each of them.

ghost use Rattle.std.specs.Prelude.{◌≡◌, ◌≤◌, IfOk, IfErr, OnOk, MatchBool, Err, ⊤, length};
ghost use Rattle.csv.specs.Records.{fields_of};
ghost use Rattle.event_log.specs.Naming.{is_memory};
ghost use Rattle.trace_text.specs.Records.{ReachesUnless};
ghost use Rattle.log_windows.specs.Lists.{may_list, nothing_spread, spread_event, spread_header};
ghost use Rattle.log_windows.specs.LogWindows.{IsSpreadOf, IsUnspread};

use crate::reading::LogWindow;
use crate::windows::{MAX_LOGGED, WindowRows};
use csv::ByteRecord;
use event_log::{Columns, LogError, TakeRows, columns_of, take_rows};
use std::alloc::{AllocError, Global};
use trace_text::MAX_TEXT_BYTES;

/// How far the records of a log were gone through.
#[derive(Drop)]
pub(crate) struct Spreading {
    /// Where the columns are, once the header was read.
    columns: Option<Columns>,
    /// How many events were read.
    count: u32,
    rows: WindowRows,
}

/// Whether a log may list several nodes in a record: it has a semicolon.
pub(crate) fn may_list(text: &[u8]) -> bool
    ensures { result ≡ may_list text.now }
{
    text.contains(&b';')
}

/// The log in which each send is to one node: a record that lists several, with semicolons between them, becomes one
/// for each, in that order. All events are in this window.
///
/// Refuses TooLarge; what its header is refused for; an event beyond `MAX_LOGGED`; and TooLarge for the text that this
/// makes. The first record that is refused decides. Memory may come at any step, but only for a text that isn't too
/// large.
pub(crate) fn spread_log(alloc: Global, text: &[u8]) -> Result<LogWindow, LogError>
    ensures log { IfOk result (IsSpreadOf text.now) }
    ensures refused { IfErr result (λ why. MatchBool (is_memory why) ⊤ (IsUnspread text.now why)) }
    ensures small { OnOk result (length text.now ≤ MAX_TEXT_BYTES) }
    ensures more { result ≡ Err LogError.Memory → length text.now ≤ MAX_TEXT_BYTES }
{
    if text.len() > MAX_TEXT_BYTES {
        return Err(LogError::TooLarge);
    }
    let Ok(mut spreading) = Spreading::new(alloc) else {
        return Err(LogError::Memory);
    };
    take_rows(alloc, text, &mut spreading)?;
    let WindowRows { text, places, .. } = spreading.rows;
    Ok(LogWindow {
        text,
        places,
        outside: 0,
        unsent: 0,
    })
}

impl Spreading {
    fn new(alloc: Global) -> Result<Spreading, AllocError>
        ensures { IfOk result (λ s. s ≡ nothing_spread) }
    {
        Ok(Spreading {
            columns: None,
            count: 0,
            rows: WindowRows::new(alloc)?,
        })
    }

    /// Takes in the header.
    fn take_header(&mut self, alloc: Global, fields: &ByteRecord) -> Result<(), LogError>
        ensures { ReachesUnless is_memory result self.new
            (spread_header self.old (fields_of fields.now)) }
    {
        let columns = columns_of(fields)?;
        self.rows.push_header(alloc, fields)?;
        self.columns = Some(columns);
        Ok(())
    }

    /// Takes in an event.
    ///
    /// Refuses TooManyEvents and TooLarge.
    fn take_event(
        &mut self,
        alloc: Global,
        columns: &Columns,
        fields: &ByteRecord,
    ) -> Result<(), LogError>
        ensures { ReachesUnless is_memory result self.new
            (spread_event columns.now self.old (fields_of fields.now)) }
    {
        if self.count >= MAX_LOGGED {
            return Err(LogError::TooManyEvents);
        }
        self.rows.take_event(alloc, columns, self.count, fields)?;
        self.count += 1;
        Ok(())
    }
}

impl TakeRows for Spreading {
    ghost use Rattle.log_windows.specs.Lists.{next_spread};

    ghost next = { next_spread };

    /// Takes in one more record: the header, or an event.
    fn take(&mut self, alloc: Global, fields: &ByteRecord) -> Result<(), LogError>
        ensures { ReachesUnless is_memory result self.new
            (next_spread self.old (fields_of fields.now)) }
    {
        match self.columns {
            None => self.take_header(alloc, fields),
            Some(columns) => self.take_event(alloc, &columns, fields),
        }
    }
}
