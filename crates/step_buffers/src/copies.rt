//! Copies of what a World keeps.

ghost use Rattle.std.specs.Prelude.{◌≡◌, IfOk};
ghost use Rattle.step_buffers.specs.Worlds.{Serves, Serve};

use crate::letters::Place;
use crate::processors::Processor;
use std::alloc::{AllocError, Global};

/// The same messages.
pub(crate) fn copied_letters(alloc: Global, letters: &[Place]) -> Result<Vec<Place>, AllocError>
    ensures { IfOk result (λ copy. copy.items ≡ letters.now) }
{
    let mut copy = Vec::with_capacity(alloc, letters.len())?;
    for letter in letters {
        copy.push(letter.share()?)?;
    }
    Ok(copy)
}

/// Copies that are right for the same processors of the same traces.
pub(crate) fn copied_processors(
    alloc: Global,
    processors: &[Processor],
) -> Result<Vec<Processor>, AllocError>
    ensures { IfOk result (λ copy. Serve processors.now copy.items) }
{
    let mut copy = Vec::with_capacity(alloc, processors.len())?;
    for processor in processors {
        copy.push(copied_processor(alloc, processor)?)?;
    }
    Ok(copy)
}

fn copied_processor(alloc: Global, processor: &Processor) -> Result<Processor, AllocError>
    ensures { IfOk result (λ copy. Serves processor.now copy) }
{
    Ok(Processor {
        round: processor.round,
        last: processor.last,
        node: processor.node.copy(alloc)?,
        since: processor.since,
        buffer: processor.buffer.copy(alloc)?,
        inbox: processor.inbox.copy(alloc)?,
        said: processor.said.share()?,
    })
}
