//! What a record of a log says about an event.

ghost use Rattle.std.specs.Prelude.{◌≡◌, Ok, Err, IfOk, MatchBool, MatchResult, ⊤};
ghost use Rattle.event_log.specs.LogRecords.{are_messages, are_nodes, bad_node, is_node, moment_as};
ghost use Rattle.event_log.specs.LogRecords.{name_in, said, said_of, verb_of};
ghost use Rattle.event_log.specs.Naming.{IsUnless, is_memory};

use crate::columns::Columns;
use crate::fields::Fields;
use crate::name_keys::are_same;
use crate::names::{Name, NameSet, are_message_names};
use crate::refusals::LogError;
use crate::times::{Moment, TimeKind, moment_in, read_moment};
use std::alloc::{AllocError, Global};
use trace_text::names::{is_message_name, is_node_name};

/// What happened, as the column `event` says it.
#[derive(Clone, Copy)]
pub(crate) enum Verb {
    Send,
    Receive,
}

/// What a record says about an event, with the names as the record has them.
#[derive(Clone, Copy)]
pub(crate) struct Told<'a> {
    pub(crate) moment: Moment,
    pub(crate) verb: Verb,
    pub(crate) node: &'a [u8],
    /// The node that a send is for. Ignored in a receive.
    pub(crate) to: &'a [u8],
    /// The name of the message, or those of the messages with one space between them.
    pub(crate) messages: &'a [u8],
}

/// By what the records of a log are judged.
#[derive(Clone, Copy)]
pub(crate) struct Rules<'a> {
    pub(crate) columns: Columns,
    /// The kind of the times, once a record has settled it.
    pub(crate) kind: Option<TimeKind>,
    /// The nodes that may be named, if they are listed.
    pub(crate) listed: Option<&'a NameSet>,
}

/// What the record of this number says, under these rules.
///
/// Refuses BadFields, BadTime, BadEvent, BadNode and BadMessage with the number, in this order. Memory may come in
/// place of BadNode, which has the name.
pub(crate) fn told_of<'a, F: Fields>(
    alloc: Global,
    rules: &Rules<'_>,
    no: u64,
    fields: &'a F,
) -> Result<Told<'a>, LogError>
    ensures { MatchResult result
        (λ told. said_of rules.now no (F.fields fields.now) ≡ Ok (said told))
        (λ e. MatchBool (is_memory e) ⊤ (said_of rules.now no (F.fields fields.now) ≡ Err e)) }
{
    let columns = rules.columns;
    if fields.count() != columns.fields {
        return Err(LogError::BadFields(no));
    }
    let Some(moment) = moment_as(rules.kind, fields.field(columns.time)) else {
        return Err(LogError::BadTime(no));
    };
    let Some(verb) = verb_of(fields.field(columns.event)) else {
        return Err(LogError::BadEvent(no));
    };
    let told = Told {
        moment,
        verb,
        node: fields.field(columns.node),
        to: fields.field(columns.to),
        messages: fields.field(columns.message),
    };
    if !are_nodes(rules.listed, &told) {
        return Err(node_refusal(alloc, no, rules.listed, &told));
    }
    if !are_messages(&told) {
        return Err(LogError::BadMessage(no));
    }
    Ok(told)
}

/// The time that a field gives: of the kind of the times, if that is settled.
pub fn moment_as(kind: Option<TimeKind>, field: &[u8]) -> Option<Moment>
    ensures { result ≡ moment_as kind field.now }
{
    match kind {
        None => read_moment(field),
        Some(kind) => moment_in(kind, field),
    }
}

fn verb_of(field: &[u8]) -> Option<Verb>
    ensures { result ≡ verb_of field.now }
{
    if are_same(field, b"send") {
        return Some(Verb::Send);
    }
    if are_same(field, b"receive") {
        return Some(Verb::Receive);
    }
    None
}

/// Whether the nodes of an event may be named.
fn are_nodes(listed: Option<&NameSet>, told: &Told<'_>) -> bool
    ensures { result ≡ are_nodes listed.entry (said told.now) }
{
    match told.verb {
        Verb::Send => is_node(listed, told.node) && is_node(listed, told.to),
        Verb::Receive => is_node(listed, told.node),
    }
}

/// Whether a node may be named: if the nodes are listed, it is one of them.
fn is_node(listed: Option<&NameSet>, name: &[u8]) -> bool
    ensures { result ≡ is_node listed.entry name.now }
{
    match listed {
        Some(nodes) => nodes.place_of(name).is_some(),
        None => is_node_name(name),
    }
}

/// The refusal of an event whose nodes may not be named, or Memory.
fn node_refusal(alloc: Global, no: u64, listed: Option<&NameSet>, told: &Told<'_>) -> LogError
    ensures { IsUnless is_memory result
        (LogError.BadNode no (bad_node listed.entry (said told.now))) }
{
    match name_in(alloc, bad_node(listed, told)) {
        Ok(name) => LogError::BadNode(no, name),
        Err(_) => LogError::Memory,
    }
}

/// The node that a refusal is for: the event's own, or, if that may be named, the one that it sends to.
fn bad_node<'a>(listed: Option<&NameSet>, told: &Told<'a>) -> &'a [u8]
    ensures { name_in result.now ≡ bad_node listed.entry (said told.now) }
{
    match told.verb {
        Verb::Send if is_node(listed, told.node) => told.to,
        _ => told.node,
    }
}

/// The name that a node has; None if it is none of a node.
fn name_in(alloc: Global, node: &[u8]) -> Result<Option<Name>, AllocError>
    ensures { IfOk result (λ name. name ≡ name_in node.now) }
{
    if !is_node_name(node) {
        return Ok(None);
    }
    Ok(Some(Name::new(alloc, node)?))
}

/// Whether what an event names as its messages are names.
fn are_messages(told: &Told<'_>) -> bool
    ensures { result ≡ are_messages (said told.now) }
{
    match told.verb {
        Verb::Send => is_message_name(told.messages),
        Verb::Receive => are_message_names(told.messages),
    }
}
