//! How long the followers of a leader have to wait for its next message: the command `timeouts`.

ghost use Rattle.std.specs.Prelude.{◌≤◌, IfOk, IfErr, OnOk};
ghost use Rattle.step_trace.specs.declared.processors.TheConstants.{MAX_MEMBER};
ghost use Rattle.step_trace.specs.Processors.{IsWithin};
ghost use Rattle.text_commands.specs.ReportParts.{IsAtFault};
ghost use Rattle.text_commands.specs.TimeoutTables.{AreFollowersOf, HasLink, IsLinkFault, IsTableOf};

use crate::answers::Answer;
use crate::report_parts::{cut_to, test_at};
use command_faults::{Fault, MemberOutside, SetOption, correct_set};
use command_options::TimeoutTable;
use front_timeouts::{receivers_of, timeouts_text_of};
use std::alloc::Global;
use step_trace::{ProcSet, Trace};
use timeouts::Turns;

/// A table of timeouts.
///
/// Declines a trace, in this order, by:
/// - Set if the leader is above its number of processors, or else a follower that is named;
/// - Report for a tick that it hasn't: first the one up to which it counts, then, up to there, the one whose row is
///   asked for.
impl Answer for TimeoutTable {
    ghost use Rattle.text_commands.specs.TimeoutTables.{AreTimeoutsOf, IsNoTable};

    ghost Gives = { λ o. AreTimeoutsOf o };

    ghost Declines = { λ o. IsNoTable o };

    fn answer(&self, alloc: Global, trace: &mut Trace) -> Result<Vec<u8>, Fault> {
        test_link(self, trace.config().n())?;
        cut_to(alloc, trace, self.until)?;
        table_of(alloc, self, trace)
    }
}

/// Tests whether there are the leader and the followers that are named, if there are `n` processors.
///
/// Refuses only Set, for the leader, or else for the least follower that is above `n`.
fn test_link(table: &TimeoutTable, n: u64) -> Result<(), Fault>
    requires { n ≤ MAX_MEMBER }
    ensures link { OnOk result (HasLink table.now n) }
    ensures refused { IfErr result (IsLinkFault table.now n) }
{
    let member = table.from;
    if member > n {
        return Err(Fault::Set(SetOption::From, MemberOutside { member, count: n }));
    }
    if let Some(followers) = table.to {
        correct_set(SetOption::To, followers, n)?;
    }
    Ok(())
}

/// The table, by this trace.
fn table_of(alloc: Global, table: &TimeoutTable, trace: &Trace) -> Result<Vec<u8>, Fault>
    requires link { HasLink table.now trace.now.config.n }
    ensures table { IfOk result (λ out. IsTableOf table.now trace.now out.items) }
    ensures refused { IfErr result (IsAtFault table.now.at trace.now) }
{
    test_at(trace, table.at)?;
    let followers = followers_of(table, trace);
    let turns = Turns {
        every: table.every.unwrap_or(0),
        polls: table.polls.unwrap_or(0),
    };
    Ok(timeouts_text_of(alloc, trace, table.from, followers, turns, table.at)?)
}

/// The followers that are named, or all to which the leader sends.
fn followers_of(table: &TimeoutTable, trace: &Trace) -> ProcSet
    requires link { HasLink table.now trace.now.config.n }
    ensures are { AreFollowersOf table.now.to table.now.from trace.now result }
    ensures within { IsWithin result trace.now.config.n }
{
    match table.to {
        Some(followers) => followers.named(trace.config().n()),
        None => receivers_of(trace, table.from),
    }
}
