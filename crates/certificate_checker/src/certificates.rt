//! The check of a report.

ghost use Rattle.std.specs.Prelude.{◌≡◌, ◌<◌, ◌≤◌, length, IfOk, OnErr};
ghost use Rattle.step_trace.specs.Processors.{IsWithin};
ghost use Rattle.step_trace.specs.Fronts.{IsReport};
ghost use Rattle.certificate_checker.specs.declared.verdicts.Verdict.TheVariants.{Yes};
ghost use Rattle.certificate_checker.specs.Certificates.{Certifies};
ghost use Rattle.certificate_checker.specs.Verdicts.{IsVerdict, Stands, place_of};
ghost use Rattle.certificate_checker.specs.declared.verdicts.Reason.{Reason};

use crate::closings::closings;
use crate::first_reasons::{order_reason, step_reason};
use crate::receives::Receives;
use crate::silences::silences;
use crate::verdicts::Verdict;
use std::alloc::{AllocError, Global};
use step_trace::{ProcSet, Row, Trace};

/// Whether rows are a certificate of a trace if the members of a set count as correct, or the first reason against
/// them, in the order of `Reason` and then by row. Asks that the set is within the processors.
///
/// The answer is Yes only for rows that certify themselves: they are the front, and their witnesses refute every
/// smaller positive bound from every tick that they apply to. It is Yes for the report.
///
/// Time grows with the steps, the ids, the ticks and the rows, and for each row with the logarithm of the number of
/// steps; memory grows with the steps and the ticks. Fails only if out of memory, and only if there are rows
/// against which none of the first six reasons holds.
pub fn check(
    alloc: Global,
    trace: &Trace,
    set: ProcSet,
    rows: &[Row],
) -> Result<Verdict, AllocError>
    requires { IsWithin set trace.now.config.n }
    ensures verdict { IfOk result (λ v. IsVerdict set trace.now rows.now v) }
    ensures more { OnErr result ((0 < length rows.now)
        × ((why : Reason) → place_of why ≤ 6 → ¬ Stands set trace.now rows.now why)) }
    ensures certifies { IfOk result (λ v. v ≡ Yes → Certifies set trace.now rows.now) }
    ensures accepts { IsReport set trace.now rows.now → IfOk result (λ v. v ≡ Yes) }
{
    verdict_on(alloc, trace, set, rows)
}

/// The verdict by the list of reasons.
fn verdict_on(
    alloc: Global,
    trace: &Trace,
    set: ProcSet,
    rows: &[Row],
) -> Result<Verdict, AllocError>
    requires { IsWithin set trace.now.config.n }
    ensures verdict { IfOk result (λ v. IsVerdict set trace.now rows.now v) }
    ensures more { OnErr result ((0 < length rows.now)
        × ((why : Reason) → place_of why ≤ 6 → ¬ Stands set trace.now rows.now why)) }
{
    if let Some(why) = order_reason(rows, trace.last_tick()) {
        return Ok(Verdict::No(why));
    }
    if rows.len() == 0 {
        return Ok(Verdict::Yes);
    }
    let receives = Receives::of_trace(alloc, trace)?;
    let silences = silences(alloc, trace, set)?;
    let closings = closings(alloc, trace, set, &silences)?;
    match step_reason(trace, set, &receives, &silences, &closings, rows) {
        Some(why) => Ok(Verdict::No(why)),
        None => Ok(Verdict::Yes),
    }
}
