//! Lists that nobody changes once they are made.

use std::alloc::{AllocError, Global};
use std::marker::Model;
use std::sync::Arc;

/// A list that its clones share.
#[derive(Debug, Drop)]
pub(crate) struct SharedList<T> {
    // (none if the list is empty, so that an empty list takes no memory)
    items: Option<Arc<Vec<T>>>,
}

impl<T> Model for SharedList<T> {
    ghost use Rattle.std.specs.Prelude.{List, [], ◌<◌, length, unwrap_or, option_map, vec_items, IfSome};
    ghost use Rattle.std.specs.Arc.{arc_value};

    ghost Value = { List T };

    ghost view = { λ a. unwrap_or (option_map vec_items (option_map arc_value a.items)) [] };

    ghost invariant = { λ a. IfSome a.items (λ items. 0 < length (arc_value items).items) };
}

impl<T: Drop> SharedList<T> {
    ghost use Rattle.std.specs.Prelude.{◌≡◌, ◌<◌, [], length, IfOk, OnErr};

    /// The list of no items.
    pub(crate) fn empty() -> Self
        ensures { result ≡ [] }
    {
        SharedList { items: None }
    }

    /// The list of these items, in this order. Takes no memory for an empty one.
    pub(crate) fn new(alloc: Global, items: Vec<T>) -> Result<Self, AllocError>
        ensures ok { IfOk result (λ list. list ≡ items.items) }
        ensures more { OnErr result (0 < length items.items) }
    {
        if items.is_empty() {
            return Ok(SharedList::empty());
        }
        Ok(SharedList {
            items: Some(Arc::new(alloc, items)?),
        })
    }

    /// The items, in their order.
    pub(crate) fn as_slice(&self) -> &[T]
        ensures { result.now ≡ self.now }
    {
        match &self.items {
            Some(items) => items.as_slice(),
            None => &[],
        }
    }
}

impl<T: Drop> Clone for SharedList<T> {
    ghost use Rattle.std.specs.Prelude.{◌≡◌, []};

    ghost is_clone = { λ a b. b ≡ a };

    ghost is_infallible = { λ a. a ≡ [] };

    fn clone(&self) -> Result<Self, AllocError> {
        Ok(SharedList {
            items: self.items.clone()?,
        })
    }
}
