// The sizes of the features, or of the targets, of a shape.
ghost use Rattle.model.specs.Sizes.{Filled};

// At least one size, each 2 to 8; the places past the count hold 0.
// A table and a count, since a shape is copied and made without an allocator; a ghost field, which lemmas about shapes read, and no model, which would hide it.
#[derive(Clone, Copy)]
pub struct Sizes {
    values: [u8; 8],
    count: usize,
    ghost filled: { Filled values count },
}

mod calls;
