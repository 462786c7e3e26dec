//! Digests of the first ticks of a trace, which take in more of its ticks.

ghost use Rattle.std.specs.Prelude.{◌≡◌, ◌≢◌, ◌+◌, ◌-◌, ◌≤◌, None, OnOk, OnErr};
ghost use Rattle.chunk_join.specs.Analysts.{IsDigestUpTo};
ghost use Rattle.chunk_join.specs.Digests.{joined_digests};

use crate::digests::Digest;
use crate::joins::Joined;
use std::alloc::{AllocError, Global};
use std::mem;
use step_trace::{ProcSet, Trace};

/// Takes the ticks `from` to `to` of a trace into the digest of its ticks before. If it is out of memory, the digest is
/// as before; no tick takes any.
pub(crate) fn take_in(
    digest: &mut Digest,
    alloc: Global,
    trace: &Trace,
    set: ProcSet,
    from: u64,
    to: u64,
) -> Result<(), AllocError>
    requires low { 1 ≤ from }
    requires order { from ≤ to + 1 }
    requires high { to ≤ trace.now.last }
    requires before { IsDigestUpTo set trace.now (from - 1) digest.old }
    ensures ok { OnOk result (IsDigestUpTo set trace.now to digest.new) }
    ensures err { OnErr result (digest.new ≡ digest.old) }
    ensures more { OnErr result (from ≤ to) }
{
    let more = Digest::of(alloc, trace, set, from, to)?;
    append(digest, more)
}

/// Joins a digest with that of the ticks that follow. If it is refused, it is as before.
fn append(digest: &mut Digest, more: Digest) -> Result<(), AllocError>
    ensures ok { OnOk result (digest.new ≡ joined_digests digest.old more) }
    ensures err { OnErr result (digest.new ≡ digest.old) }
    ensures more { OnErr result (more ≢ None) }
{
    match mem::replace(digest, Digest::unit()).join(more) {
        Ok(both) => {
            *digest = both;
            Ok(())
        }
        Err(refused) => {
            *digest = refused.left;
            Err(AllocError)
        }
    }
}
