//! Lists in pages, of which the full ones are shared by copies.

ghost use Rattle.std.specs.Prelude.{◌≡◌, ◌++◌, ◌∷◌, [], ◌≤◌, ◌<◌, ◌+◌, ◌%◌, length, option_copied, ◌⊎◌};
ghost use Rattle.std.specs.Prelude.{OnOk, OnErr, IfOk, IfSome, slice_get, vec_len, vec_capacity};
ghost use Rattle.step_trace.specs.Pages.{IsPage};
ghost use Rattle.step_trace.specs.declared.paged_lists.TheConstants.{PAGE_LEN};
ghost use Rattle.step_trace.specs.declared.traces.TheConstants.{MAX_STEPS};

use std::alloc::{AllocError, Global};
use std::marker::Model;
use std::mem;
use std::sync::Arc;

/// How many items a full page has.
pub(crate) const PAGE_LEN: usize = 256;

/// A list of at most `MAX_STEPS` items: full pages, which copies share and nobody changes, and the page that is
/// being filled. That has fewer than `PAGE_LEN` items, and each copy has its own.
#[derive(Debug, Drop)]
pub(crate) struct PagedList<T> {
    pages: Vec<Arc<Vec<T>, Global>>,
    last: Vec<T>,
}

impl<T> Model for PagedList<T> {
    ghost use Rattle.std.specs.Prelude.{List};

    ghost Value = { List T };

    ghost use Rattle.step_trace.specs.Pages.{page_items, all_items, AreInPages};

    ghost view = { λ a. all_items (λ p. page_items p) a.pages.items a.last.items };

    ghost invariant = { λ a. AreInPages (λ p. page_items p) a.pages.items a.last.items };
}

impl<T: Drop> PagedList<T> {
    /// The list of no items. Takes no memory.
    pub(crate) fn new(alloc: Global) -> Self
        ensures { result ≡ [] }
    {
        PagedList {
            pages: Vec::new(alloc),
            last: Vec::new(alloc),
        }
    }

    /// The number of its items.
    pub(crate) fn len(&self) -> usize
        ensures value { result ≡ length self.now }
        ensures limit { result ≤ MAX_STEPS }
    {
        self.pages.len() * PAGE_LEN + self.last.len()
    }

    /// The item at this place, from 0, if there is one.
    pub(crate) fn get(&self, i: usize) -> Option<&T>
        ensures { option_copied result ≡ slice_get self.now i }
    {
        match item_at(&self.pages, i / PAGE_LEN) {
            Some(page) => item_at(page, i % PAGE_LEN),
            None => item_at(&self.last, i - self.pages.len() * PAGE_LEN),
        }
    }

    /// The items of a full page, by its number from 0, if there are so many.
    pub(crate) fn page(&self, q: usize) -> Option<&[T]>
        ensures { IfSome result (λ page. IsPage page.now self.now q) }
    {
        match item_at(&self.pages, q) {
            Some(page) => Some(page.as_slice()),
            None => None,
        }
    }

    /// Appends an item, if the list has fewer than `MAX_STEPS`. A page that is full with it is shared from then on.
    ///
    /// Fails only if out of memory, and then the item is gone.
    pub(crate) fn push(&mut self, item: T) -> Result<(), AllocError>
        requires { length self.old < MAX_STEPS }
        ensures ok { OnOk result (self.new ≡ self.old ++ item ∷ []) }
        ensures err { OnErr result (self.new ≡ self.old) }
    {
        make_room(&mut self.pages, &mut self.last)?;
        if self.last.len() + 1 < PAGE_LEN {
            self.last.push_reserved(item);
            return Ok(());
        }
        let alloc = *self.last.allocator();
        let mut page = mem::replace(&mut self.last, Vec::new(alloc));
        page.push_reserved(item);
        match Arc::new(alloc, page) {
            Ok(full) => {
                self.pages.push_reserved(full);
                Ok(())
            }
            Err(refused) => {
                let mut page = refused.value;
                let _item = page.pop();
                self.last = page;
                Err(AllocError)
            }
        }
    }

    /// Appends a full page where a page of the list ends. It is shared from then on.
    ///
    /// Fails only if out of memory, and then the items are gone.
    pub(crate) fn push_page(&mut self, page: Vec<T>) -> Result<(), AllocError>
        requires full { vec_len page ≡ PAGE_LEN }
        requires ends { length self.old % PAGE_LEN ≡ 0 }
        requires room { length self.old + PAGE_LEN ≤ MAX_STEPS }
        ensures ok { OnOk result (self.new ≡ self.old ++ page.items) }
        ensures err { OnErr result (self.new ≡ self.old) }
    {
        self.pages.reserve(1)?;
        let alloc = *self.last.allocator();
        match Arc::new(alloc, page) {
            Ok(full) => {
                self.pages.push_reserved(full);
                Ok(())
            }
            Err(_) => Err(AllocError),
        }
    }
}

impl<T: Clone + Drop> PagedList<T> {
    /// An equal list, which shares the full pages.
    pub(crate) fn copy(&self) -> Result<Self, AllocError>
        ensures { ((x y : T) → T.is_clone x y → y ≡ x) → IfOk result (λ copy. copy ≡ self.now) }
    {
        Ok(PagedList {
            pages: self.pages.clone()?,
            last: self.last.clone()?,
        })
    }
}

/// Makes room for one page more and for one item in the last, which gets room for a whole page at once if there are
/// full ones before it. Refuses only if one of them has none.
fn make_room<P, T>(pages: &mut Vec<P>, last: &mut Vec<T>) -> Result<(), AllocError>
    ensures pages { pages.new.items ≡ pages.old.items }
    ensures last { last.new.items ≡ last.old.items }
    ensures pages_room { OnOk result (vec_len pages.new < vec_capacity pages.new) }
    ensures last_room { OnOk result (vec_len last.new < vec_capacity last.new) }
    ensures more { OnErr result ((vec_capacity pages.old ≤ vec_len pages.old)
        ⊎ (vec_capacity last.old ≤ vec_len last.old)) }
{
    pages.reserve(1)?;
    if pages.is_empty() || last.capacity() > 0 {
        last.reserve(1)
    } else {
        last.reserve(PAGE_LEN)
    }
}

/// The item at this place, if there is one.
pub(crate) fn item_at<T>(items: &[T], i: usize) -> Option<&T>
    ensures { option_copied result ≡ slice_get items.now i }
{
    items.get(i)
}
