// A list that keeps to memory which was reserved when it was made.
ghost use Rattle.std.specs.Prelude.{◌≤◌, vec_capacity};

// The memory is got at the start, so that no call fails for want of it.
#[derive(Drop)]
pub(crate) struct Reserved<T, const ROOM: usize> {
    items: Vec<T>,
    ghost room: { ROOM ≤ vec_capacity items },
}

mod calls;
