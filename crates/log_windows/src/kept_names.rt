//! Receives in a window without the messages that were sent outside it.

ghost use Rattle.std.specs.Prelude.{◌≡◌, IfOk, IfErr, OnOk, Ok};
ghost use Rattle.csv.specs.Records.{fields_of};
ghost use Rattle.event_log.specs.Naming.{is_memory};
ghost use Rattle.trace_text.specs.Records.{GivesUnless, ReachesUnless};
ghost use Rattle.log_windows.specs.KeptTexts.{is_receive, kept_event, kept_names, next_name, with_kept, with_word};
ghost use Rattle.log_windows.specs.KeptNames.{names_kept, next_kept};

use crate::rows::{push_row, with_field};
use crate::windows::key_of;
use csv::ByteRecord;
use event_log::{Columns, LogError, NameSet, TakeRows, are_message_names, columns_of, take_rows};
use std::alloc::{AllocError, Global};
use std::marker::Model;
use trace_text::records::{field, field_is};

/// A log whose receives have only messages that it sends.
#[derive(Drop)]
pub(crate) struct KeptText {
    pub(crate) text: Vec<u8>,
    /// How many received messages were left out.
    pub(crate) unsent: u64,
}

impl Model for KeptText {
    ghost use Rattle.log_windows.specs.KeptTexts.{Kept};

    ghost Value = { Kept };

    ghost view = { λ kept. record { text = kept.text.items; unsent = kept.unsent } };
}

/// How far the records of a window were gone through.
#[derive(Drop)]
pub(crate) struct Keeping {
    /// Where the columns are, once the header was read.
    columns: Option<Columns>,
    /// The keys of the messages that are sent.
    sent: NameSet,
    kept: KeptText,
}

/// A log without the received messages that none of its records sends to the node.
///
/// Refuses what its header is refused for. Memory may come at any step.
pub(crate) fn names_kept(alloc: Global, text: &[u8], sent: NameSet) -> Result<KeptText, LogError>
    ensures { GivesUnless is_memory (λ kept. kept) result (names_kept sent text.now) }
{
    let Ok(begun) = Vec::from_slice(alloc, b"\n") else {
        return Err(LogError::Memory);
    };
    let mut keeping = Keeping {
        columns: None,
        sent,
        kept: KeptText {
            text: begun,
            unsent: 0,
        },
    };
    take_rows(alloc, text, &mut keeping)?;
    Ok(keeping.kept)
}

impl TakeRows for Keeping {
    ghost use Rattle.log_windows.specs.KeptNames.{next_kept};

    ghost next = { next_kept };

    /// Takes in one more record: the header, or an event.
    fn take(&mut self, alloc: Global, fields: &ByteRecord) -> Result<(), LogError>
        ensures { ReachesUnless is_memory result self.new
            (next_kept self.old (fields_of fields.now)) }
    {
        let Some(columns) = self.columns else {
            let columns = columns_of(fields)?;
            self.kept.push(alloc, fields, 0)?;
            self.columns = Some(columns);
            return Ok(());
        };
        self.kept.take(alloc, &columns, &self.sent, fields)
    }
}

impl KeptText {
    /// Keeps the record of an event.
    fn take(
        &mut self,
        alloc: Global,
        columns: &Columns,
        sent: &NameSet,
        fields: &ByteRecord,
    ) -> Result<(), LogError>
        ensures { ReachesUnless is_memory result self.new
            (Ok (kept_event columns.now sent.now (fields_of fields.now) self.old)) }
    {
        if !is_receive(columns, fields) {
            return self.push(alloc, fields, 0);
        }
        let Ok(names) = kept_names(
            alloc,
            sent,
            field(fields, columns.node),
            field(fields, columns.message),
        ) else {
            return Err(LogError::Memory);
        };
        let Ok(row) = with_field(alloc, fields, columns.message, &names.text) else {
            return Err(LogError::Memory);
        };
        self.push(alloc, &row, names.unsent)
    }

    /// Puts a message last that a node receives, with a space before it if there are others; or counts it, if none of
    /// these sends is of it.
    fn take_name(
        &mut self,
        alloc: Global,
        sent: &NameSet,
        node: &[u8],
        name: &[u8],
    ) -> Result<(), AllocError>
        ensures { OnOk result (self.new ≡ next_name sent.now node.now self.old name.now) }
    {
        let key = key_of(alloc, name, node)?;
        if sent.place_of(&key).is_none() {
            let Some(unsent) = self.unsent.checked_add(1) else {
                return Err(AllocError);
            };
            self.unsent = unsent;
            return Ok(());
        }
        push_name(&mut self.text, name)
    }

    /// Puts a record last, of which so many messages were left out.
    fn push(&mut self, alloc: Global, fields: &ByteRecord, unsent: u64) -> Result<(), LogError>
        ensures rows { OnOk result (self.new ≡ with_kept (fields_of fields.now) unsent self.old) }
        ensures memory { IfErr result (λ e. e ≡ LogError.Memory) }
    {
        let Some(all) = self.unsent.checked_add(unsent) else {
            return Err(LogError::Memory);
        };
        let Ok(()) = push_row(alloc, &mut self.text, fields) else {
            return Err(LogError::Memory);
        };
        self.unsent = all;
        Ok(())
    }
}

/// Whether a record is a receive of messages: else it is refused later, and stays as it is.
fn is_receive(columns: &Columns, fields: &ByteRecord) -> bool
    ensures { result ≡ is_receive columns.now (fields_of fields.now) }
{
    if !field_is(fields, columns.event, b"receive") {
        return false;
    }
    are_message_names(field(fields, columns.message))
}

/// Those of the messages in a field that are sent to the node that received them.
fn kept_names(
    alloc: Global,
    sent: &NameSet,
    node: &[u8],
    field: &[u8],
) -> Result<KeptText, AllocError>
    ensures { IfOk result (λ names. names ≡ kept_names sent.now node.now field.now) }
{
    let mut names = KeptText {
        text: Vec::new(alloc),
        unsent: 0,
    };
    if field.len() == 0 {
        return Ok(names);
    }
    for name in field.split(|byte| *byte == b' ') {
        names.take_name(alloc, sent, node, name)?;
    }
    Ok(names)
}

/// Puts a name last, with a space before it if there are others.
fn push_name(text: &mut Vec<u8>, name: &[u8]) -> Result<(), AllocError>
    ensures { OnOk result (text.new.items ≡ with_word text.old.items name.now) }
{
    if text.len() > 0 {
        text.push(b' ')?;
    }
    text.extend_from_slice(name)?;
    Ok(())
}
