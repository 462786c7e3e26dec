//! How a log is read, as texts give it.

ghost use Rattle.std.specs.Prelude.{◌≡◌, ◌<◌, ◌^◌, ◌∷◌, [], ◌++◌, Err, IfErr, IfOk, IfSome};
ghost use Rattle.std.specs.Prelude.{IsSome, OnOk, option_map, true, false, None};
ghost use Rattle.event_log.specs.Options.{AreNodes, AreNodesIn, AreOptions, HasBadNodes, HasBadTick, HasBadUnit};
ghost use Rattle.event_log.specs.Options.{HasBadUntil, IsIdleIn, IsNodeFault, IsOptionFault, IsTimeFault, IsUnitIn};
ghost use Rattle.event_log.specs.Options.{IsUntilIn, IsWidthIn, is_next_node, parts_between_commas, told_options};
ghost use Rattle.event_log.specs.Times.{nanoseconds_of};

use crate::names::{AddedName, MAX_NODES, NameSet};
use crate::options::{OptionError, Options};
use crate::results::both;
use crate::times::{LogEnd, TimeUnit, Width, read_end, read_unit, read_width};
use std::alloc::Global;
use trace_text::names::is_node_name;

/// How a log is read: texts that are still to be read themselves, and flags.
#[derive(Clone, Copy)]
pub struct OptionTexts<'a> {
    /// The nodes, with one comma between each two.
    pub nodes: Option<&'a str>,
    /// The unit of the times, if they are whole numbers of one.
    pub unit: Option<&'a str>,
    /// The length of a tick, which is 1 if it is left out.
    pub tick: Option<&'a str>,
    /// When the log ends.
    pub until: Option<&'a str>,
    /// The longest time without an event that is filled.
    pub idle: Option<&'a str>,
    /// This and the other flags as `Options` has them.
    pub spread: bool,
    pub align: bool,
    pub drop_lost: bool,
    pub merge: bool,
}

/// The options that texts and flags give.
///
/// Refuses in the order of `OptionError`. Memory comes only if nodes are listed.
pub fn read_options(alloc: Global, given: &OptionTexts<'_>) -> Result<Options, OptionError>
    ensures options { IfOk result (AreOptions (told_options given.now)) }
    ensures refused { IfErr result (IsOptionFault (told_options given.now)) }
    ensures more { result ≡ Err OptionError.Memory → IsSome given.now.nodes }
{
    let nodes = listed_nodes(alloc, given.nodes);
    let times = told_times(given.unit, given.tick, given.until, given.idle);
    let (nodes, told) = both(nodes, times)?;
    Ok(Options {
        nodes,
        unit: told.unit,
        width: told.width,
        until: told.until,
        idle: told.idle,
        spread: given.spread,
        align: given.align,
        drop_lost: given.drop_lost,
        merge: given.merge,
    })
}

/// The nodes that a text lists, if there is one.
fn listed_nodes(alloc: Global, text: Option<&str>) -> Result<Option<NameSet>, OptionError>
    ensures listed { IfOk result (λ nodes. AreNodesIn (option_map (λ t. t.now) text.entry) nodes) }
    ensures refused { IfErr result
        (IsNodeFault (HasBadNodes (option_map (λ t. t.now) text.entry))) }
    ensures more { result ≡ Err OptionError.Memory → IsSome text.entry }
{
    let Some(text) = text else {
        return Ok(None);
    };
    let nodes = node_list(alloc, text.as_bytes())?;
    Ok(Some(nodes))
}

/// What texts say about the times of a log, as `Options` has it.
#[derive(Clone, Copy)]
struct ToldTimes {
    unit: Option<TimeUnit>,
    width: Width,
    until: Option<LogEnd>,
    idle: Option<Width>,
}

/// The unit of the times, the length of a tick, the end of the log and the longest time without an event that texts
/// give.
///
/// Refuses Unit, Tick, Until and Idle, in this order.
fn told_times(
    unit: Option<&str>,
    tick: Option<&str>,
    until: Option<&str>,
    idle: Option<&str>,
) -> Result<ToldTimes, OptionError>
    ensures unit { IfOk result (λ t. IsUnitIn (option_map (λ t. t.now) unit.entry) t.unit) }
    ensures width { IfOk result (λ t. IsWidthIn (option_map (λ t. t.now) tick.entry) t.width) }
    ensures short { IfOk result (λ t. nanoseconds_of t.width < 2 ^ 94) }
    ensures until { IfOk result (λ t. IsUntilIn (option_map (λ t. t.now) until.entry) t.until) }
    ensures idle { IfOk result (λ t. IsIdleIn (option_map (λ t. t.now) idle.entry) t.idle) }
    ensures refused { IfErr result
        (IsTimeFault (option_map (λ t. t.now) unit.entry) (option_map (λ t. t.now) tick.entry)
        (option_map (λ t. t.now) until.entry) (option_map (λ t. t.now) idle.entry)) }
{
    let Some(unit) = told_unit(unit) else {
        return Err(OptionError::Unit);
    };
    let Some(width) = told_width(tick) else {
        return Err(OptionError::Tick);
    };
    let Some(until) = told_end(until) else {
        return Err(OptionError::Until);
    };
    let Some(idle) = told_idle(idle) else {
        return Err(OptionError::Idle);
    };
    Ok(ToldTimes {
        unit,
        width,
        until,
        idle,
    })
}

/// The unit that a text names, if there is one.
fn told_unit(text: Option<&str>) -> Option<Option<TimeUnit>>
    ensures unit { IfSome result (IsUnitIn (option_map (λ t. t.now) text.entry)) }
    ensures refused { result ≡ None → HasBadUnit (option_map (λ t. t.now) text.entry) }
{
    let Some(text) = text else {
        return Some(None);
    };
    match read_unit(text.as_bytes()) {
        Some(unit) => Some(Some(unit)),
        None => None,
    }
}

/// The length of a tick that a text gives; 1 if there is none.
fn told_width(text: Option<&str>) -> Option<Width>
    ensures width { IfSome result (IsWidthIn (option_map (λ t. t.now) text.entry)) }
    ensures short { IfSome result (λ width. nanoseconds_of width < 2 ^ 94) }
    ensures refused { result ≡ None → HasBadTick (option_map (λ t. t.now) text.entry) }
{
    match text {
        Some(text) => read_width(text),
        None => Some(Width::Units(1)),
    }
}

/// The end of the log that a text gives, if there is one.
fn told_end(text: Option<&str>) -> Option<Option<LogEnd>>
    ensures end { IfSome result (IsUntilIn (option_map (λ t. t.now) text.entry)) }
    ensures refused { result ≡ None → HasBadUntil (option_map (λ t. t.now) text.entry) }
{
    let Some(text) = text else {
        return Some(None);
    };
    match read_end(text) {
        Some(end) => Some(Some(end)),
        None => None,
    }
}

/// The longest time without an event that a text gives, if there is one.
fn told_idle(text: Option<&str>) -> Option<Option<Width>>
    ensures idle { IfSome result (IsIdleIn (option_map (λ t. t.now) text.entry)) }
    ensures refused { result ≡ None → HasBadTick (option_map (λ t. t.now) text.entry) }
{
    let Some(text) = text else {
        return Some(None);
    };
    match read_width(text) {
        Some(width) => Some(Some(width)),
        None => None,
    }
}

/// The nodes whose names are the parts of a text between its commas.
fn node_list(alloc: Global, text: &[u8]) -> Result<NameSet, OptionError>
    ensures listed { IfOk result (λ nodes. AreNodes (parts_between_commas text.now)
        × (nodes ≡ parts_between_commas text.now)) }
    ensures refused { IfErr result (IsNodeFault (¬ AreNodes (parts_between_commas text.now))) }
{
    let mut nodes = NameSet::new(alloc);
    for name in text.split(|byte| *byte == b',') {
        list_node(alloc, &mut nodes, name)?;
    }
    if nodes.len() < 2 {
        return Err(OptionError::Nodes);
    }
    Ok(nodes)
}

/// Puts one more node last.
fn list_node(alloc: Global, nodes: &mut NameSet, name: &[u8]) -> Result<(), OptionError>
    ensures nodes { OnOk result (nodes.new ≡ nodes.old ++ name.now ∷ []) }
    ensures next { OnOk result (is_next_node nodes.old name.now ≡ true) }
    ensures refused { IfErr result (IsNodeFault (is_next_node nodes.old name.now ≡ false)) }
{
    if !is_node_name(name) {
        return Err(OptionError::Nodes);
    }
    if nodes.len() >= MAX_NODES {
        return Err(OptionError::Nodes);
    }
    let Ok(AddedName { is_new, .. }) = nodes.add(alloc, name) else {
        return Err(OptionError::Memory);
    };
    if !is_new {
        return Err(OptionError::Nodes);
    }
    Ok(())
}
