//! The parts of a formula, of which the first needs no memory.

ghost use Rattle.std.specs.Prelude.{◌≡◌, ◌≢◌, ◌∷◌, [], ◌++◌, MatchOption, OnOk, OnErr, IfOk};

use crate::formulas::Part;
use std::alloc::{AllocError, Global};
use std::marker::Model;

/// Some parts of a formula.
#[derive(Debug, Drop)]
pub(crate) struct Parts {
    first: Option<Part>,
    rest: Vec<Part>,
}

impl Model for Parts {
    ghost use Rattle.std.specs.Prelude.{◌≡◌, ◌++◌, [], List, None, option_to_list};
    ghost use Rattle.decision_claims.specs.declared.formulas.Part.{Part};

    ghost Value = { List Part };

    ghost view = { λ p. option_to_list p.first ++ p.rest.items };

    ghost invariant = { λ p. p.first ≡ None → p.rest.items ≡ [] };
}

impl Parts {
    /// No parts.
    pub(crate) fn new(alloc: Global) -> Parts
        ensures { result ≡ [] }
    {
        Parts {
            first: None,
            rest: Vec::new(alloc),
        }
    }

    /// One part alone.
    pub(crate) fn of(alloc: Global, part: Part) -> Parts
        ensures { result ≡ part ∷ [] }
    {
        Parts {
            first: Some(part),
            rest: Vec::new(alloc),
        }
    }

    /// The first part, and the further ones; None if there is none.
    pub(crate) fn split(&self) -> Option<(Part, &[Part])>
        ensures { MatchOption result (self.now ≡ []) (λ parts. self.now ≡ parts.0 ∷ parts.1.now) }
    {
        match self.first {
            None => None,
            Some(first) => Some((first, &self.rest)),
        }
    }

    /// Appends a part. Memory may be refused only if there is one already.
    pub(crate) fn push(&mut self, part: Part) -> Result<(), AllocError>
        ensures ok { OnOk result (self.new ≡ self.old ++ part ∷ []) }
        ensures more { OnErr result (self.old ≢ []) }
    {
        match self.first {
            None => {
                self.first = Some(part);
                Ok(())
            }
            Some(_) => {
                self.rest.push(part)?;
                Ok(())
            }
        }
    }

    /// The same parts again.
    pub(crate) fn copy(&self, alloc: Global) -> Result<Parts, AllocError>
        ensures { IfOk result (λ parts. parts ≡ self.now) }
    {
        let rest = Vec::from_slice(alloc, &self.rest)?;
        Ok(Parts {
            first: self.first,
            rest,
        })
    }
}
