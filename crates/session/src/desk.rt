// The desk: the sizes that an `F` line stored, the book that a `T` line made, and the page that a line is answered on.
ghost use Rattle.std.specs.Prelude.{◌≡◌, vec_len};

use super::page::Page;
use arrayvec::ArrayVec;
use model::Refusal;
use shelf::Shelf;

// The most features that a shape has.
const MOST_FEATURES: usize = 8;

// All memory is got when the desk is made, so that no line can fail for want of it.
#[derive(Drop)]
pub(crate) struct Desk {
    // the sizes of the last `F` line, or the refusal of a list that is too long for any shape, until a `T` line uses them up
    stored: Option<Result<ArrayVec<u16, MOST_FEATURES>, Refusal>>,
    shelf: Shelf,
    rules: Vec<u8>,
    pub(crate) page: Page,
    ghost memory: { vec_len rules ≡ 65536 },
}

mod doing;
mod making;
mod shelf;
