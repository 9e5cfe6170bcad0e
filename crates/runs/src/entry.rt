// A call on a book, and the answer that it got.
use model::{Head, Refusal, Sense};

// None where the call has not been made.
#[derive(Clone, Copy)]
pub enum Entry<'a> {
    // answered by the number of rows then shown; class, day and cells as the public call takes them
    Note {
        class: u16,
        day: u16,
        cells: &'a [u16],
        answer: Option<Result<usize, Refusal>>,
    },
    // answered by the number of rules
    List {
        head: Head,
        sense: Sense,
        answer: Option<Result<u32, Refusal>>,
    },
    // answered by for, against and the percentage
    Forecast {
        head: Head,
        state: &'a [u16],
        answer: Option<Result<(u32, u32, u32), Refusal>>,
    },
}
