//! What is done with results of any types. A function that leaves early drops what it owns in its own body, arm by arm.
//! Here a value is dropped by its type, so that the proofs of callers stay short.

ghost use Rattle.std.specs.Prelude.{◌≡◌, Err};
ghost use Rattle.event_log.specs.Results.{both};

/// Both values, or the first error.
pub(crate) fn both<A: Drop, B: Drop, E: Drop>(a: Result<A, E>, b: Result<B, E>) -> Result<(A, B), E>
    ensures { result ≡ both a b }
{
    Ok((a?, b?))
}

/// Puts an error in place of what was there.
pub(crate) fn put_error<T: Drop, E: Drop>(slot: &mut Result<T, E>, why: E)
    ensures { slot.new ≡ Err why }
{
    *slot = Err(why);
}
