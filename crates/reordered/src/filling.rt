// Noting the exchange's messages in a run of calls.
use book::Book;
use exchange::{CLASS, DAY};
use logs::PackedLog;
use model::Kind;
use runs::{Entry, run};

fn is_accepted(note: &Entry<'_>) -> bool {
    matches!(
        note,
        Entry::Note {
            answer: Some(Ok(_)),
            ..
        }
    )
}

// Notes messages in their order, and answers how many were accepted. An array, so that no memory is got for it.
pub(crate) fn fill<K: Kind + Drop>(
    book: &mut Book<K, PackedLog>,
    messages: &[[u16; 3]; 6],
) -> usize {
    let mut notes = messages.each_ref().map(|cells| Entry::Note {
        class: CLASS,
        day: DAY,
        cells,
        answer: None,
    });
    run(book, &mut notes, &mut []);
    notes.iter().filter(|note| is_accepted(note)).count()
}
