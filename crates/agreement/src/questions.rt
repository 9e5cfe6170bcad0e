// Questions to two books.
use model::{Head, Sense};

// A question, and whether the two answered it alike: a bool beside it, since yes or no is all that is told.
#[derive(Clone, Copy)]
pub enum Asked<'a> {
    List {
        head: Head,
        sense: Sense,
        alike: bool,
    },
    Forecast {
        head: Head,
        state: &'a [u16],
        alike: bool,
    },
}
