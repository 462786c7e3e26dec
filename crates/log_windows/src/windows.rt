//! Which records of a log are in a window, and what is kept of them.

ghost use Rattle.std.specs.Prelude.{◌≡◌, ◌+◌, IfOk, IfErr, OnOk};
ghost use Rattle.csv.specs.Records.{fields_of};
ghost use Rattle.event_log.specs.Naming.{is_memory};
ghost use Rattle.trace_text.specs.Records.{ReachesUnless};
ghost use Rattle.log_windows.specs.KeptRows.{begun, key_of, keys_after, needs_point, next_part, pointed};
ghost use Rattle.log_windows.specs.KeptRows.{rows_after, with_event, with_header, with_row};
ghost use Rattle.log_windows.specs.Windows.{event_after, header_after, nothing_read};

use crate::bounds::{Times, is_within, kind_of, times_by};
use crate::rows::{push_row, with_field};
use csv::ByteRecord;
use event_log::{
    Columns, LogEnd, LogError, Moment, NameSet, TakeRows, TimeKind, TimeUnit, columns_of,
    moment_as, settled,
};
use std::alloc::{AllocError, Global};
use std::marker::Model;
use trace_text::MAX_TEXT_BYTES;
use trace_text::records::{field, field_is, number};

/// The greatest number of events of a log of which a window is read.
pub const MAX_LOGGED: u32 = 4_000_000_000;

/// What is kept of a log: the header, and the records in the window.
#[derive(Drop)]
pub(crate) struct WindowRows {
    pub(crate) text: Vec<u8>,
    /// Where the events are in the log.
    pub(crate) places: Vec<u32>,
    /// The messages that they send.
    pub(crate) sent: NameSet,
    /// How many events are outside the window.
    pub(crate) outside: u64,
}

impl Model for WindowRows {
    ghost use Rattle.log_windows.specs.KeptRows.{Rows};

    ghost Value = { Rows };

    ghost view = { λ rows.
        record {
          text = rows.text.items;
          places = rows.places.items;
          sent = rows.sent;
          outside = rows.outside;
        } };
}

/// How far a log was read.
#[derive(Drop)]
pub(crate) struct Reading {
    /// Where the columns are, once the header was read.
    pub(crate) columns: Option<Columns>,
    /// The unit of the times, if they are whole numbers of one.
    pub(crate) unit: Option<TimeUnit>,
    pub(crate) from: LogEnd,
    pub(crate) until: Option<LogEnd>,
    /// What the times are, once a record has settled it.
    pub(crate) times: Option<Times>,
    /// How many events were read.
    pub(crate) count: u32,
    pub(crate) rows: WindowRows,
}

impl Reading {
    /// Nothing was read yet.
    pub(crate) fn new(
        alloc: Global,
        unit: Option<TimeUnit>,
        from: LogEnd,
        until: Option<LogEnd>,
    ) -> Result<Reading, AllocError>
        ensures { IfOk result (λ r. r ≡ nothing_read unit from until) }
    {
        Ok(Reading {
            columns: None,
            unit,
            from,
            until,
            times: None,
            count: 0,
            rows: WindowRows::new(alloc)?,
        })
    }
}

impl TakeRows for Reading {
    ghost use Rattle.log_windows.specs.Windows.{next_row};

    ghost next = { next_row };

    /// Takes in one more record: the header, or an event.
    fn take(&mut self, alloc: Global, fields: &ByteRecord) -> Result<(), LogError>
        ensures { ReachesUnless is_memory result self.new
            (next_row self.old (fields_of fields.now)) }
    {
        match self.columns {
            None => self.take_header(alloc, fields),
            Some(columns) => self.take_event(alloc, &columns, fields),
        }
    }
}

impl Reading {
    /// Takes in the header.
    fn take_header(&mut self, alloc: Global, fields: &ByteRecord) -> Result<(), LogError>
        ensures { ReachesUnless is_memory result self.new
            (header_after self.old (fields_of fields.now)) }
    {
        let columns = columns_of(fields)?;
        self.rows.push_header(alloc, fields)?;
        self.columns = Some(columns);
        Ok(())
    }

    /// Takes in an event. One outside the window needs a time alone.
    ///
    /// Refuses TooManyEvents; BadTime; FromUnfit and UntilUnfit, if its time settles what the times are; and TooLarge.
    fn take_event(
        &mut self,
        alloc: Global,
        columns: &Columns,
        fields: &ByteRecord,
    ) -> Result<(), LogError>
        ensures { ReachesUnless is_memory result self.new
            (event_after columns.now self.old (fields_of fields.now)) }
    {
        if self.count >= MAX_LOGGED {
            return Err(LogError::TooManyEvents);
        }
        let kind = settled(self.unit, kind_of(self.times));
        let Some(moment) = moment_as(kind, field(fields, columns.time)) else {
            return Err(LogError::BadTime(u64::from(self.count) + 2));
        };
        let times = times_by(self.times, self.from, self.until, moment.kind)?;
        let place = self.count;
        self.rows
            .take(alloc, columns, times, place, moment.time, fields)?;
        self.times = Some(times);
        self.count += 1;
        Ok(())
    }
}

impl WindowRows {
    /// No records. The line feed keeps csv from taking a byte order mark off the header.
    pub(crate) fn new(alloc: Global) -> Result<WindowRows, AllocError>
        ensures { IfOk result (λ rows. rows ≡ begun) }
    {
        let text = Vec::from_slice(alloc, b"\n")?;
        Ok(WindowRows {
            text,
            places: Vec::new(alloc),
            sent: NameSet::new(alloc),
            outside: 0,
        })
    }

    /// Keeps the header.
    pub(crate) fn push_header(&mut self, alloc: Global, fields: &ByteRecord) -> Result<(), LogError>
        ensures rows { OnOk result (self.new ≡ with_header (fields_of fields.now) self.old) }
        ensures memory { IfErr result (λ e. e ≡ LogError.Memory) }
    {
        match push_row(alloc, &mut self.text, fields) {
            Ok(()) => Ok(()),
            Err(_) => Err(LogError::Memory),
        }
    }

    /// Keeps the record of the event at a place of the log, if its time is in the window.
    ///
    /// Refuses TooLarge.
    fn take(
        &mut self,
        alloc: Global,
        columns: &Columns,
        times: Times,
        place: u32,
        time: i128,
        fields: &ByteRecord,
    ) -> Result<(), LogError>
        ensures { ReachesUnless is_memory result self.new
            (rows_after columns.now times place time (fields_of fields.now) self.old) }
    {
        if !is_within(times.bounds, time) {
            return self.leave_out();
        }
        if !needs_point(times.kind, field(fields, columns.time)) {
            return self.take_event(alloc, columns, place, fields);
        }
        let Ok(told) = with_point(alloc, columns, fields) else {
            return Err(LogError::Memory);
        };
        self.take_event(alloc, columns, place, &told)
    }

    /// Counts an event that is outside the window.
    fn leave_out(&mut self) -> Result<(), LogError>
        ensures left { OnOk result (self.new ≡ record self.old { outside = self.old.outside + 1 }) }
        ensures memory { IfErr result (λ e. e ≡ LogError.Memory) }
    {
        let Some(outside) = self.outside.checked_add(1) else {
            return Err(LogError::Memory);
        };
        self.outside = outside;
        Ok(())
    }

    /// Keeps the records of the event at a place of the log: one for each node that it sends to.
    ///
    /// Refuses TooLarge.
    pub(crate) fn take_event(
        &mut self,
        alloc: Global,
        columns: &Columns,
        place: u32,
        fields: &ByteRecord,
    ) -> Result<(), LogError>
        ensures { ReachesUnless is_memory result self.new
            (with_event columns.now place (fields_of fields.now) self.old) }
    {
        if !field_is(fields, columns.event, b"send") {
            return self.take_part(alloc, columns, place, fields);
        }
        for node in field(fields, columns.to).split(|byte| *byte == b';') {
            let Ok(row) = with_field(alloc, fields, columns.to, node) else {
                return Err(LogError::Memory);
            };
            self.take_part(alloc, columns, place, &row)?;
        }
        Ok(())
    }

    /// Keeps one record of the event at a place of the log.
    ///
    /// Refuses TooLarge.
    fn take_part(
        &mut self,
        alloc: Global,
        columns: &Columns,
        place: u32,
        fields: &ByteRecord,
    ) -> Result<(), LogError>
        ensures { ReachesUnless is_memory result self.new
            (next_part columns.now place self.old (fields_of fields.now)) }
    {
        let Ok(()) = self.push(alloc, columns, place, fields) else {
            return Err(LogError::Memory);
        };
        if self.text.len() > MAX_TEXT_BYTES {
            return Err(LogError::TooLarge);
        }
        Ok(())
    }

    /// Puts last a record of the event at a place of the log.
    fn push(
        &mut self,
        alloc: Global,
        columns: &Columns,
        place: u32,
        fields: &ByteRecord,
    ) -> Result<(), AllocError>
        ensures { OnOk result
            (self.new ≡ with_row columns.now place (fields_of fields.now) self.old) }
    {
        push_row(alloc, &mut self.text, fields)?;
        self.places.push(place)?;
        push_key(alloc, &mut self.sent, columns, fields)
    }
}

/// A record whose time, of whole seconds among decimal ones, has a point.
fn with_point(
    alloc: Global,
    columns: &Columns,
    fields: &ByteRecord,
) -> Result<ByteRecord, AllocError>
    ensures { IfOk result (λ row. fields_of row ≡ pointed columns.now (fields_of fields.now)) }
{
    let mut time = Vec::from_slice(alloc, field(fields, columns.time))?;
    time.extend_from_slice(b".0")?;
    with_field(alloc, fields, columns.time, &time)
}

/// Whether a time is a whole number among decimal seconds.
fn needs_point(kind: TimeKind, time: &[u8]) -> bool
    ensures { result ≡ needs_point kind time.now }
{
    match kind {
        TimeKind::Decimal => number(time).is_some(),
        _ => false,
    }
}

/// Puts the key of a record's message among those that are sent, if the record is a send.
fn push_key(
    alloc: Global,
    sent: &mut NameSet,
    columns: &Columns,
    fields: &ByteRecord,
) -> Result<(), AllocError>
    ensures { OnOk result (sent.new ≡ keys_after columns.now (fields_of fields.now) sent.old) }
{
    if !field_is(fields, columns.event, b"send") {
        return Ok(());
    }
    let key = key_of(
        alloc,
        field(fields, columns.message),
        field(fields, columns.to),
    )?;
    sent.add(alloc, &key)?;
    Ok(())
}

/// By what a message is known: its name, and the node that it is for.
pub(crate) fn key_of(alloc: Global, name: &[u8], node: &[u8]) -> Result<Vec<u8>, AllocError>
    ensures { IfOk result (λ key. key.items ≡ key_of name.now node.now) }
{
    let mut key = Vec::from_slice(alloc, name)?;
    key.push(b' ')?;
    key.extend_from_slice(node)?;
    Ok(key)
}
