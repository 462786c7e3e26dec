//! The index of the messages that were taken: a flag for each step, so that no step is looked for.

ghost use Rattle.std.specs.Prelude.{◌≡◌, ◌++◌, ◌∷◌, [], ◌<◌, ◌≤◌, ◌||◌, ◌==◌, ◌+◌};
ghost use Rattle.std.specs.Prelude.{ℕ, length, All, false, vec_len, vec_capacity};
ghost use Rattle.std.specs.List.{list_any};
ghost use Rattle.step_trace.specs.DeliveryIndex.{flag_of};

/// Whether message `s` was taken.
pub(crate) fn is_taken(taken: &[bool], s: u64) -> bool
    ensures { result ≡ flag_of taken.now s }
{
    0 < s && s as usize <= taken.len() && taken[s as usize - 1]
}

/// Appends the flag of a step for which there is room, and marks the messages that it takes.
pub(crate) fn append_flag(taken: &mut Vec<bool>, ids: &[u64])
    requires room { vec_len taken.old < vec_capacity taken.old }
    requires known { All (λ s. (0 < s) × (s ≤ length taken.old.items)) ids.now }
    ensures len { length taken.new.items ≡ length taken.old.items + 1 }
    ensures flags { (s : ℕ) → flag_of taken.new.items s
        ≡ (flag_of (taken.old.items ++ false ∷ []) s || list_any (λ i. i == s) ids.now) }
{
    taken.push_reserved(false);
    mark(taken, ids);
}

/// Sets the flags of these messages.
fn mark(taken: &mut Vec<bool>, ids: &[u64])
    requires { All (λ s. (0 < s) × (s ≤ length taken.old.items)) ids.now }
    ensures len { length taken.new.items ≡ length taken.old.items }
    ensures flags { (s : ℕ) → flag_of taken.new.items s
        ≡ (flag_of taken.old.items s || list_any (λ i. i == s) ids.now) }
{
    for s in ids {
        taken[*s as usize - 1] = true;
    }
}
