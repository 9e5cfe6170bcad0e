// Making a list, emptying and reading it, and adding to its end.
ghost use Rattle.std.specs.Prelude.{◌≡◌, ◌+◌, ◌<◌, ◌≤◌, [], ◌∷◌, ◌++◌, length, IfOk};
ghost use Rattle.session.specs.Reserveds.{items_of, places};

use super::Reserved;
use std::alloc::{AllocError, Global};

impl<T, const ROOM: usize> Reserved<T, ROOM> {
    // An empty list.
    pub(crate) fn new(heap: Global) -> Result<Self, AllocError>
        ensures { IfOk result (λ r. (items_of r ≡ []) × (places r ≡ 0)) }
    {
        let items = Vec::with_capacity(heap, ROOM)?;
        Ok(Reserved { items })
    }

    // Its elements.
    pub(crate) fn as_slice(&self) -> &[T]
        ensures value { result.now ≡ items_of self.now }
        ensures len { length result.now ≡ places self.now }
    {
        self.items.as_slice()
    }
}

impl<T: Drop, const ROOM: usize> Reserved<T, ROOM> {
    // Takes all elements off the list.
    pub(crate) fn clear(&mut self)
        ensures items { items_of self.new ≡ [] }
        ensures len { places self.new ≡ 0 }
    {
        self.items.clear();
    }

    // One more element.
    pub(crate) fn push(&mut self, item: T)
        requires { places self.old < ROOM }
        ensures items { items_of self.new ≡ items_of self.old ++ item ∷ [] }
        ensures len { places self.new ≡ places self.old + 1 }
    {
        self.items.push_reserved(item);
    }
}

impl<T: Copy, const ROOM: usize> Reserved<T, ROOM> {
    // Some more elements. There is room for them, so the library gets no memory, and cannot fail.
    pub(crate) fn extend_from_slice(&mut self, more: &[T])
        requires { places self.old + length more.now ≤ ROOM }
        ensures items { items_of self.new ≡ items_of self.old ++ more.now }
        ensures len { places self.new ≡ places self.old + length more.now }
    {
        self.items.extend_from_slice(more).unwrap();
    }
}
