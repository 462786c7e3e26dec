//! Prefixes of a recorder's trace, for views and for seats.

ghost use Rattle.std.specs.Prelude.{◌≡◌, Some, IfOk, IfErr, OnOk, OnErr, IfSome, All};
ghost use Rattle.step_trace.specs.Extensions.{Extends};
ghost use Rattle.locked_recorder.specs.Prefixes.{IsRunOf, IsPrefixRefusal, IsMineRefusal, Stands};

use crate::errors::{MineError, PrefixError};
use crate::missing_steps::least_missing;
use crate::recorders::{Recorder, is_world_of};
use crate::seats::Seat;
use crate::views::View;
use std::alloc::{AllocError, Global};
use std::sync::Wait;
use step_trace::Trace;

impl Recorder {
    /// The current trace, shown to a view: it extends what the view had seen, and the view has then seen it. A refusal
    /// leaves the view unchanged.
    ///
    /// Refuses in the order of `PrefixError`. Waits for the lock. Takes memory for two copies.
    pub fn prefix<R: Wait>(
        &self,
        rt: &R,
        alloc: Global,
        view: &mut View,
    ) -> Result<Trace, PrefixError>
        ensures run { IfOk result (λ trace. IsRunOf self.now.config trace) }
        ensures extends { IfOk result (λ trace. IfSome view.old (λ seen. Extends trace seen)) }
        ensures seen { IfOk result (λ trace. view.new ≡ Some trace) }
        ensures refused { IfErr result (λ e. IsPrefixRefusal self.now.config view.old e) }
        ensures err { OnErr result (view.new ≡ view.old) }
    {
        let trace = match self.shown(rt, alloc) {
            Ok(Some(trace)) => trace,
            Ok(None) => return Err(PrefixError::NotAnExtension { at: 0, found: None }),
            Err(_) => return Err(PrefixError::Memory),
        };
        show(alloc, &trace, view)?;
        Ok(trace)
    }

    /// The current trace, with all that a seat did.
    ///
    /// Refuses in the order of `MineError`. Waits for the lock. Takes memory for the copy.
    pub fn prefix_mine<R: Wait>(
        &self,
        rt: &R,
        alloc: Global,
        seat: &Seat,
    ) -> Result<Trace, MineError>
        ensures tag { OnOk result (seat.now.tag ≡ self.now.tag) }
        ensures run { IfOk result (λ trace. IsRunOf self.now.config trace) }
        ensures mine { IfOk result (λ trace. All (λ done. Stands trace.steps done) seat.now.done) }
        ensures refused { IfErr result (λ e. IsMineRefusal self.now seat.now e) }
    {
        if seat.tag != self.tag {
            return Err(MineError::ForeignSeat);
        }
        let trace = match self.shown(rt, alloc) {
            Ok(Some(trace)) => trace,
            Ok(None) => return Err(MineError::ForeignSeat),
            Err(_) => return Err(MineError::Memory),
        };
        match least_missing(&trace, seat.done()) {
            Some(no) => Err(MineError::NotMine(no)),
            None => Ok(trace),
        }
    }

    /// A copy of the trace, made under the lock; none if the World isn't the recorder's own.
    pub(crate) fn shown<R: Wait>(&self, rt: &R, alloc: Global) -> Result<Option<Trace>, AllocError>
        ensures { IfOk result (λ shown. IfSome shown (λ trace. IsRunOf self.now.config trace)) }
    {
        let world = self.world.lock(rt);
        if !is_world_of(&world, &self.config, self.limit) {
            return Ok(None);
        }
        Ok(Some(world.trace().copy(alloc)?))
    }
}

/// Shows a trace to a view, if it extends what that had seen. A refusal leaves the view unchanged. Takes memory for a
/// copy.
pub(crate) fn show(alloc: Global, trace: &Trace, view: &mut View) -> Result<(), PrefixError>
    requires { IsRunOf trace.now.config trace.now }
    ensures extends { OnOk result (IfSome view.old (λ seen. Extends trace.now seen)) }
    ensures seen { OnOk result (view.new ≡ Some trace.now) }
    ensures refused { IfErr result (λ e. IsPrefixRefusal trace.now.config view.old e) }
    ensures err { OnErr result (view.new ≡ view.old) }
{
    if let Some(seen) = view.seen() {
        compare(trace, seen)?;
    }
    let Ok(copy) = trace.copy(alloc) else {
        return Err(PrefixError::Memory);
    };
    view.see(copy);
    Ok(())
}

/// Whether a trace extends what was seen; else the first difference, with a copy of what the trace has there.
fn compare(trace: &Trace, seen: &Trace) -> Result<(), PrefixError>
    requires { IsRunOf trace.now.config trace.now }
    ensures extends { OnOk result (Extends trace.now seen.now) }
    ensures refused { IfErr result (λ e. IsPrefixRefusal trace.now.config (Some seen.now) e) }
{
    if trace.begins(seen) {
        return Ok(());
    }
    if !trace.config().is_same(seen.config()) {
        return Err(PrefixError::NotAnExtension { at: 0, found: None });
    }
    let at = trace.first_difference(seen);
    match trace.placed(at) {
        Ok(found) => Err(PrefixError::NotAnExtension { at, found }),
        Err(_) => Err(PrefixError::Memory),
    }
}
