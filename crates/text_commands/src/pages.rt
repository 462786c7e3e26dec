//! The page about a trace as HTML: the command `page`.

ghost use Rattle.std.specs.Prelude.{IfErr, OnOk};
ghost use Rattle.step_trace.specs.Processors.{IsWithin};
ghost use Rattle.text_commands.specs.Pages.{IsTellable, IsUntellable};

use crate::answers::Answer;
use crate::log_tables::{nanoseconds_in, table_for};
use crate::names::names_for;
use crate::report_parts::{report_of, test_at};
use crate::traces::set_of;
use command_faults::Fault;
use command_options::Page;
use run_page::page_text;
use run_words::LogWords;
use std::alloc::Global;
use step_tables::StepTable;
use step_trace::{ProcSet, Trace};

/// What a page is asked for, with the text of the table of the trace's steps, if there is one: then nodes and messages
/// have the names that it gives.
#[derive(Debug, Drop)]
pub struct ToldPage {
    pub page: Page,
    pub table: Option<Vec<u8>>,
}

/// A page: what holds in a run, for the correct processors, who is to blame, and the evidence.
///
/// Declines a trace, in this order, by:
/// - Set if a correct processor is above its number of processors;
/// - Table with the first refusal of the table;
/// - Picture for the names;
/// - Report if it hasn't the tick from which on it counts as calm.
impl Answer for ToldPage {
    ghost use Rattle.text_commands.specs.Pages.{IsNoPage, IsPageOf};

    ghost Gives = { λ p. IsPageOf p };

    ghost Declines = { λ p. IsNoPage p };

    fn answer(&self, alloc: Global, trace: &mut Trace) -> Result<Vec<u8>, Fault> {
        let set = set_of(self.page.correct, trace)?;
        let table = table_for(alloc, &self.table, trace)?;
        told(alloc, trace, set, &self.page, &table)
    }
}

/// The page about a trace, by what a table says about it.
fn told(
    alloc: Global,
    trace: &Trace,
    set: ProcSet,
    page: &Page,
    table: &Option<StepTable>,
) -> Result<Vec<u8>, Fault>
    requires within { IsWithin set trace.now.config.n }
    ensures tellable { OnOk result (IsTellable page.now trace.now) }
    ensures refused { IfErr result (IsUntellable page.now trace.now) }
{
    let listed = names_for(alloc, &page.names, trace.config().n())?;
    test_at(trace, page.at)?;
    let report = report_of(alloc, trace, set)?;
    let rows = report.rows();
    let unit = nanoseconds_in(page.unit);
    let text = match table {
        Some(table) => {
            let names = table.names(alloc)?;
            let words = LogWords {
                names: &names,
                said: table.rows(),
                unit,
            };
            page_text(alloc, trace, set, rows, &words, page.at)
        }
        None => {
            let words = LogWords {
                names: &listed,
                said: &[],
                unit: None,
            };
            page_text(alloc, trace, set, rows, &words, page.at)
        }
    };
    Ok(text?)
}
