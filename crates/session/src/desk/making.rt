// Making a desk.
ghost use Rattle.std.specs.Prelude.{IfOk};
ghost use Rattle.session.specs.Desks.{Unbegun};

use super::super::page::Page;
use super::Desk;
use super::shelf::Shelf;
use std::alloc::{AllocError, Global};

// The bytes of rule memory.
const RULES: usize = 65_536;

impl Desk {
    // No sizes stored, and no book made.
    pub(crate) fn new(heap: Global) -> Result<Desk, AllocError>
        ensures { IfOk result Unbegun }
    {
        let shelf = Shelf::new(heap)?;
        let rules = vec![in heap; 0; RULES]?;
        let page = Page::new(heap)?;
        Ok(Desk {
            stored: None,
            shelf,
            rules,
            page,
        })
    }
}
