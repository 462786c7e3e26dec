//! Whether rows show, all over their stretches, that no smaller bounds hold.

ghost use Rattle.std.specs.Prelude.{◌≡◌, ◌+◌, ◌<◌, ◌↔◌, length, IsTrue};
ghost use Rattle.step_trace.specs.declared.traces.TheConstants.{MAX_TICKS};
ghost use Rattle.step_trace.specs.Processors.{IsWithin};
ghost use Rattle.certificate_checker.specs.Certificates.{after_stretch, ShowsDelta, ShowsPhi};
ghost use Rattle.certificate_checker.specs.Verdicts.{HasRow};
ghost use Rattle.certificate_checker.specs.Searches.{IsFirst};
ghost use Rattle.certificate_checker.specs.Receives.{KnowsReceives};
ghost use Rattle.certificate_checker.specs.Silences.{AreSilences};

use crate::gaps::is_gap;
use crate::receives::Receives;
use crate::silences::Silence;
use step_trace::{ProcSet, Row, Trace};

/// The tick after the stretch of row `k`, where `last` is the last tick.
fn after_stretch(rows: &[Row], last: u64, k: usize) -> u64
    requires { last < MAX_TICKS + 1 }
    ensures { result ≡ after_stretch rows.now last k }
{
    if k < rows.len() {
        rows[k].gst
    } else {
        last + 1
    }
}

/// Whether a row's miss shows that no smaller communication bound holds from each tick before `after`.
fn shows_delta(trace: &Trace, set: ProcSet, receives: &Receives, after: u64, row: &Row) -> bool
    requires set { IsWithin set trace.now.config.n }
    requires known { KnowsReceives trace.now (length trace.now.steps) receives.now }
    ensures { IsTrue result ↔ ShowsDelta set trace.now after row.now.delta row.now.miss }
{
    let Some(miss) = row.miss else {
        return row.delta == 1;
    };
    if row.delta <= 1 || !receives.is_miss(trace, set, miss) {
        return false;
    }
    let sent = trace.tick(miss.sent);
    trace.tick(miss.missed) - sent == row.delta - 1 && after <= sent + 1
}

/// Whether a row's gap shows that no smaller processor bound holds from each tick before `after`.
fn shows_phi(trace: &Trace, set: ProcSet, silences: &[Silence], after: u64, row: &Row) -> bool
    requires set { IsWithin set trace.now.config.n }
    requires known { AreSilences set trace.now silences.now }
    ensures { IsTrue result ↔ ShowsPhi set trace.now after row.now.phi row.now.gap }
{
    let Some(gap) = row.gap else {
        return row.phi == 1;
    };
    if row.phi <= 1 || !is_gap(trace, set, silences, gap) {
        return false;
    }
    gap.to - gap.from == row.phi - 2 && after <= gap.from + 1
}

/// The first row whose miss doesn't show its bound.
pub(crate) fn first_bad_miss(
    trace: &Trace,
    set: ProcSet,
    receives: &Receives,
    rows: &[Row],
) -> Option<u64>
    requires set { IsWithin set trace.now.config.n }
    requires known { KnowsReceives trace.now (length trace.now.steps) receives.now }
    ensures { IsFirst (λ k. (a : HasRow rows.now k)
        × ¬ ShowsDelta set trace.now (after_stretch rows.now trace.now.last k) a.row.delta
        a.row.miss) result }
{
    for k in 0..rows.len() {
        let after = after_stretch(rows, trace.last_tick(), k + 1);
        if !shows_delta(trace, set, receives, after, &rows[k]) {
            return Some(k as u64 + 1);
        }
    }
    None
}

/// The first row whose gap doesn't show its bound.
pub(crate) fn first_bad_gap(
    trace: &Trace,
    set: ProcSet,
    silences: &[Silence],
    rows: &[Row],
) -> Option<u64>
    requires set { IsWithin set trace.now.config.n }
    requires known { AreSilences set trace.now silences.now }
    ensures { IsFirst (λ k. (a : HasRow rows.now k)
        × ¬ ShowsPhi set trace.now (after_stretch rows.now trace.now.last k) a.row.phi
        a.row.gap) result }
{
    for k in 0..rows.len() {
        let after = after_stretch(rows, trace.last_tick(), k + 1);
        if !shows_phi(trace, set, silences, after, &rows[k]) {
            return Some(k as u64 + 1);
        }
    }
    None
}
