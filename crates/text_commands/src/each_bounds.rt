//! The bounds of each processor and of each link from a tick on: the command `each`.

ghost use Rattle.std.specs.Prelude.{IfOk, IfErr};
ghost use Rattle.step_trace.specs.Processors.{IsWithin};
ghost use Rattle.text_commands.specs.EachBounds.{AreRowsFrom};
ghost use Rattle.text_commands.specs.ReportParts.{IsAtFault};

use crate::answers::Answer;
use crate::report_parts::{cut_to, has_tick, outside};
use crate::traces::set_of;
use command_faults::{Fault, ReportOption};
use command_options::Each;
use link_bounds::{BoundRow, bound_rows, bounds_text_of};
use std::alloc::Global;
use step_trace::{ProcSet, Trace};

/// The bounds of each.
///
/// Declines a trace, in this order, by:
/// - Set if a correct processor is above its number of processors;
/// - Report for a tick that it hasn't: first the one up to which it is taken, then, up to there, the one from which on
///   the bounds hold.
impl Answer for Each {
    ghost use Rattle.text_commands.specs.EachBounds.{IsEachOf, IsNoEach};

    ghost Gives = { λ e. IsEachOf e };

    ghost Declines = { λ e. IsNoEach e };

    fn answer(&self, alloc: Global, trace: &mut Trace) -> Result<Vec<u8>, Fault> {
        let set = set_of(self.correct, trace)?;
        cut_to(alloc, trace, self.until)?;
        let rows = rows_from(alloc, trace, set, self.at)?;
        Ok(bounds_text_of(alloc, &rows)?)
    }
}

/// The rows from this tick on; from tick 1 if there is none.
fn rows_from(
    alloc: Global,
    trace: &Trace,
    set: ProcSet,
    at: Option<u64>,
) -> Result<Vec<BoundRow>, Fault>
    requires within { IsWithin set trace.now.config.n }
    ensures rows { IfOk result (λ rows. AreRowsFrom set trace.now at rows.items) }
    ensures refused { IfErr result (IsAtFault at trace.now) }
{
    let Some(tick) = at else {
        return Ok(bound_rows(alloc, trace, set, 1)?);
    };
    if !has_tick(trace, tick) {
        return Err(outside(ReportOption::At, trace, tick));
    }
    Ok(bound_rows(alloc, trace, set, tick)?)
}
