//! Prefixes of a recorder's trace, with what was decided in them.

ghost use Rattle.std.specs.Prelude.{◌≡◌, Some, IfOk, IfErr, OnErr, IfSome};
ghost use Rattle.step_trace.specs.Extensions.{Extends};
ghost use Rattle.deciding_runs.specs.Decisions.{decisions};
ghost use Rattle.locked_recorder.specs.Prefixes.{IsRunOf, IsPrefixRefusal};

use crate::errors::PrefixError;
use crate::prefixes::show;
use crate::recorders::{Recorder, is_world_of};
use crate::views::View;
use deciding_runs::{Decision, decisions_of};
use std::alloc::{AllocError, Global};
use std::sync::Wait;
use step_trace::Trace;

/// A recorder's trace at one moment, and the decisions of the run so far, in the order of their steps.
#[derive(Debug, Drop)]
pub struct DecidedPrefix {
    pub trace: Trace,
    pub decisions: Vec<Decision>,
}

impl Recorder {
    /// The current trace, shown to a view as `prefix` does, with the decisions in it. A refusal leaves the view
    /// unchanged.
    ///
    /// Refuses in the order of `PrefixError`. Waits for the lock, and scans the steps once under it. Takes memory for
    /// two copies, the decisions, and a number of each processor.
    pub fn decided_prefix<R: Wait>(
        &self,
        rt: &R,
        alloc: Global,
        view: &mut View,
    ) -> Result<DecidedPrefix, PrefixError>
        ensures run { IfOk result (λ prefix. IsRunOf self.now.config prefix.trace) }
        ensures decided { IfOk result
            (λ prefix. prefix.decisions.items ≡ decisions self.now.config prefix.trace.steps) }
        ensures extends { IfOk result
            (λ prefix. IfSome view.old (λ seen. Extends prefix.trace seen)) }
        ensures seen { IfOk result (λ prefix. view.new ≡ Some prefix.trace) }
        ensures refused { IfErr result (λ e. IsPrefixRefusal self.now.config view.old e) }
        ensures err { OnErr result (view.new ≡ view.old) }
    {
        let prefix = match self.decided_now(rt, alloc) {
            Ok(Some(prefix)) => prefix,
            Ok(None) => return Err(PrefixError::NotAnExtension { at: 0, found: None }),
            Err(_) => return Err(PrefixError::Memory),
        };
        show(alloc, &prefix.trace, view)?;
        Ok(prefix)
    }

    /// A copy of the trace with its decisions, both made under the lock; none if the World isn't the recorder's own.
    fn decided_now<R: Wait>(
        &self,
        rt: &R,
        alloc: Global,
    ) -> Result<Option<DecidedPrefix>, AllocError>
        ensures run { IfOk result
            (λ shown. IfSome shown (λ prefix. IsRunOf self.now.config prefix.trace)) }
        ensures decided { IfOk result
            (λ shown. IfSome shown
            (λ prefix. prefix.decisions.items ≡ decisions self.now.config prefix.trace.steps)) }
    {
        let world = self.world.lock(rt);
        if !is_world_of(&world, &self.config, self.limit) {
            return Ok(None);
        }
        let decisions = decisions_of(alloc, &world)?;
        let trace = world.trace().copy(alloc)?;
        Ok(Some(DecidedPrefix { trace, decisions }))
    }
}
