//! What a table says about a trace, to be looked up.

ghost use Rattle.std.specs.Prelude.{◌≡◌, ◌-◌, IfOk, [], map};
ghost use Rattle.step_tables.specs.Records.{message_at, source_at, time_at};

use std::alloc::{AllocError, Global};
use std::marker::Model;

/// What a table says about a step.
#[derive(Debug, Drop)]
pub struct StepRow {
    /// The number of its record in the log, if it has one.
    pub source: Option<u64>,
    /// What its message is called, in UTF-8, if it is a Send.
    pub message: Vec<u8>,
    /// When its tick begins, in what the times of the table are counted in, if that is a number of 64 bits.
    pub begins: Option<u64>,
    /// When it was made by the clock, counted alike, if that is a number of 64 bits.
    pub time: Option<u64>,
}

impl Model for StepRow {
    ghost use Rattle.step_tables.specs.Told.{Said};

    ghost Value = { Said };

    ghost view = { λ row.
        record {
          source = row.source;
          message = row.message.items;
          begins = row.begins;
          time = row.time;
        } };
}

impl StepRow {
    fn source(&self) -> Option<u64>
        ensures { result ≡ self.now.source }
    {
        self.source
    }

    fn message(&self) -> &[u8]
        ensures { result.now ≡ self.now.message }
    {
        self.message.as_slice()
    }

    pub(crate) fn begins(&self) -> Option<u64>
        ensures { result ≡ self.now.begins }
    {
        self.begins
    }

    pub(crate) fn time(&self) -> Option<u64>
        ensures { result ≡ self.now.time }
    {
        self.time
    }
}

/// What a table says about a trace: the names of its processors, and a row for each step.
#[derive(Debug, Drop)]
pub struct StepTable {
    pub(crate) nodes: Vec<String>,
    pub(crate) rows: Vec<StepRow>,
}

impl Model for StepTable {
    ghost use Rattle.std.specs.Prelude.{map, string_bytes};
    ghost use Rattle.step_tables.specs.Told.{Told};

    ghost Value = { Told };

    ghost view = { λ table.
        record { nodes = map string_bytes table.nodes.items; rows = table.rows.items } };
}

impl StepTable {
    /// What the processors are called, in their order; nothing for one that no record names.
    pub fn names(&self, alloc: Global) -> Result<Vec<&str>, AllocError>
        ensures { IfOk result (λ names. map (λ name. name.now) names.items ≡ self.now.nodes) }
    {
        let mut names = Vec::new(alloc);
        for node in &self.nodes {
            names.push(node.as_str())?;
        }
        Ok(names)
    }

    /// What it says about each step, in their order.
    pub fn rows(&self) -> &[StepRow]
        ensures { result.now ≡ self.now.rows }
    {
        &self.rows
    }
}

/// The place of the step of this number, from 0.
fn place_of(no: u64) -> usize
    ensures { result ≡ no - 1 }
{
    no.saturating_sub(1) as usize
}

/// The number of a step's record in the log, by what a table says about the steps; None if the step has none, or there
/// is no such step.
pub fn source_at(rows: &[StepRow], no: u64) -> Option<u64>
    ensures { result ≡ source_at rows.now no }
{
    match rows.get(place_of(no)) {
        Some(row) => row.source(),
        None => None,
    }
}

/// When a step was made by the clock, in what the times of the table are counted in, by what a table says about the
/// steps; None if the table doesn't say it, or there is no such step.
pub fn time_at(rows: &[StepRow], no: u64) -> Option<u64>
    ensures { result ≡ time_at rows.now no }
{
    match rows.get(place_of(no)) {
        Some(row) => row.time(),
        None => None,
    }
}

/// What the message of this number is called, in UTF-8, by what a table says about the steps; nothing if there is no
/// such message.
pub fn message_at(rows: &[StepRow], no: u64) -> &[u8]
    ensures { result.now ≡ message_at rows.now no }
{
    match rows.get(place_of(no)) {
        Some(row) => row.message(),
        None => &[],
    }
}
