//! What the verdict on rows means.

ghost use Rattle.std.specs.Prelude.{ℕ, ◌≡◌, ◌↔◌, List};
ghost use Rattle.step_trace.specs.Traces.{Recorded};
ghost use Rattle.step_trace.specs.Ticks.{IsTrace};
ghost use Rattle.step_trace.specs.Fronts.{IsReport};
ghost use Rattle.step_trace.specs.declared.rows.Row.{Row};
ghost use Rattle.certificate_checker.specs.declared.verdicts.Verdict.{Verdict as RowsVerdict};
ghost use Rattle.certificate_checker.specs.declared.verdicts.Verdict.TheVariants.{Yes};
ghost use Rattle.certificate_checker.specs.Certificates.{Certifies, NamesNothingBesideOne};
ghost use Rattle.certificate_checker.specs.Verdicts.{IsVerdict};

/// The laws of the verdict. It is Yes only for rows that certify themselves: their triples are the front, and their
/// witnesses show, from each tick that a row applies to, that no smaller positive bound holds. It is Yes for the
/// report, and for every other certificate that names nothing beside the bound 1. And rows have one verdict.
///
/// These are theorems over the definitions. The contract quantifies over every set of processors, all recorded
/// steps (but `one` is about traces) and every list of rows. Calling it does nothing.
pub fn certificate_laws()
    ensures sound { (set : ℕ) (trace : Recorded) (rows : List Row) → IsVerdict set trace rows Yes
        → Certifies set trace rows }
    ensures complete { (set : ℕ) (trace : Recorded) (rows : List Row) → IsReport set trace rows
        → IsVerdict set trace rows Yes }
    ensures exact { (set : ℕ) (trace : Recorded) (rows : List Row)
        → IsVerdict set trace rows Yes ↔ (Certifies set trace rows × NamesNothingBesideOne rows) }
    ensures one { (set : ℕ) (trace : Recorded) (rows : List Row) (a b : RowsVerdict) → IsTrace trace
        → IsVerdict set trace rows a → IsVerdict set trace rows b → a ≡ b }
{}
