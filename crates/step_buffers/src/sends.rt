//! A Send.

ghost use Rattle.std.specs.Prelude.{vec_len, vec_capacity, ◌≡◌, ◌<◌, length, IfOk, OnOk, OnErr, ◌+◌, ◌≤◌, IsSome};
ghost use Rattle.step_trace.specs.Configurations.{IsProc};
ghost use Rattle.lock_phases.specs.NodeFunctions.{out};
ghost use Rattle.step_buffers.specs.HeardTables.{passed};
ghost use Rattle.step_buffers.specs.Runs.{node_at};
ghost use Rattle.step_buffers.specs.NextSteps.{sending, IsNext, IsGrown};
ghost use Rattle.step_buffers.specs.Worlds.{IsSaid, IsPlaceOf, Serve, HasRoom, IsWorld};

use crate::appends::append;
use crate::letters::{Letter, Place};
use crate::processors::Processor;
use std::alloc::{AllocError, Global};
use step_trace::{Act, Config, Step, Trace};

/// Sends what processor `p` has to send to its next destination.
pub(crate) fn send(
    alloc: Global,
    trace: &mut Trace,
    letters: &mut Vec<Place>,
    processors: &mut Vec<Processor>,
    p: u64,
    to: u64,
) -> Result<(), AllocError>
    requires world { IsWorld trace.old letters.old.items processors.old.items }
    requires next { IsNext trace.old (sending p to) }
    ensures world { IsWorld trace.new letters.new.items processors.new.items }
    ensures grown { OnOk result (IsGrown trace.old trace.new (sending p to)) }
    ensures err { OnErr result (trace.new ≡ trace.old) }
{
    let sender = &processors[(p - 1) as usize];
    let place = said_to(alloc, trace.config(), sender, p, to)?;
    post(trace, letters, processors, p, to, place)
}

/// What `p` says to a processor to which it sends anything: what it said before in its round, if it did.
fn said_to(
    alloc: Global,
    config: &Config,
    sender: &Processor,
    p: u64,
    to: u64,
) -> Result<Place, AllocError>
    requires processor { IsProc config.now p }
    requires receiver { IsProc config.now to }
    requires positive { 1 ≤ sender.now.round }
    requires sends { IsSome (out config.now sender.now.node p sender.now.round to) }
    requires said { IsSaid config.now p sender.now.node sender.now.round sender.now.said }
    ensures { IfOk result (IsPlaceOf config.now p sender.now.node sender.now.round to) }
{
    if sender.said.has_letter() {
        return sender.said.share();
    }
    let round = sender.round;
    let Some(body) = sender.node.out(alloc, config, p, round, to)? else {
        unreachable!();
    };
    Place::of(
        alloc,
        Letter {
            sender: p,
            round,
            body,
        },
    )
}

/// Sends a message of `p`, which has this place, to its next destination.
fn post(
    trace: &mut Trace,
    letters: &mut Vec<Place>,
    processors: &mut Vec<Processor>,
    p: u64,
    to: u64,
    place: Place,
) -> Result<(), AllocError>
    requires world { IsWorld trace.old letters.old.items processors.old.items }
    requires next { IsNext trace.old (sending p to) }
    requires place { IsPlaceOf trace.old.config p (node_at trace.old.config trace.old.steps p)
        (passed trace.old.steps p + 1) to place }
    ensures world { IsWorld trace.new letters.new.items processors.new.items }
    ensures grown { OnOk result (IsGrown trace.old trace.new (sending p to)) }
    ensures err { OnErr result (trace.new ≡ trace.old) }
{
    let said = place.share()?;
    make_room(letters, processors, to)?;
    append(
        trace,
        Step {
            proc: p,
            act: Act::Send { to },
        },
    )?;
    let receiver = &mut processors[(to - 1) as usize];
    receiver.buffer.push_reserved(trace.len() as u64);
    letters.push_reserved(place);
    let sender = &mut processors[(p - 1) as usize];
    sender.last = to;
    sender.said = said;
    Ok(())
}

/// Makes room for one more message, and for its id in the buffer of the processor that it goes to.
fn make_room(
    letters: &mut Vec<Place>,
    processors: &mut Vec<Processor>,
    to: u64,
) -> Result<(), AllocError>
    requires low { 1 ≤ to }
    requires high { to ≤ length processors.old.items }
    ensures letters { letters.new.items ≡ letters.old.items }
    ensures processors { Serve processors.old.items processors.new.items }
    ensures count { length processors.new.items ≡ length processors.old.items }
    ensures place { OnOk result (vec_len letters.new < vec_capacity letters.new) }
    ensures room { OnOk result (HasRoom processors.new.items to) }
{
    letters.reserve(1)?;
    let receiver = &mut processors[(to - 1) as usize];
    receiver.buffer.reserve()
}
