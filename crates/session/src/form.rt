// The forms that a line may have.
use model::{Head, Sense};

// What a line says, with its lists where they were read.
#[derive(Clone, Copy)]
pub(crate) enum Form<'a> {
    // `F` and the sizes of the features
    Features(&'a [u16]),
    // `T` and the sizes of the targets
    Targets(&'a [u16]),
    // `N`, class, day and cells, as a book is asked to note them
    Note {
        class: u16,
        day: u16,
        cells: &'a [u16],
    },
    // `L`, target, value and sense
    Listing {
        head: Head,
        sense: Sense,
    },
    // `P`, target, value and state
    Forecast {
        head: Head,
        state: &'a [u16],
    },
}
