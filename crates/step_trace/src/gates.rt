//! Gates that workers enter before their work.

ghost use Rattle.std.specs.Prelude.{◌≡◌, ℕ, Bool, true};

/// What a worker enters before its work. A program's gate is open; a test's may hold workers back, or
/// see that they run at the same time.
pub trait Gate: Sync {
    /// The answers that a worker may get, by its number. A gate that doesn't say may give any.
    ghost lets: { Self → ℕ → Bool → Type 0 } = { λ _ _ _. Unit {0} };

    /// Whether worker `who` may begin.
    fn enter(&self, who: u64) -> bool
        ensures lets { lets self.now who result };
}

/// The gate that is open to every worker.
#[derive(Clone, Copy, Debug)]
pub struct OpenGate;

impl Gate for OpenGate {
    ghost lets = { λ _ _ answer. answer ≡ true };

    fn enter(&self, _who: u64) -> bool
        ensures open { result ≡ true }
    {
        true
    }
}
