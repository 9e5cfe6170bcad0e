// Making a list of calls on a book, one by one.
ghost use Rattle.std.specs.Prelude.{◌≡◌, ◌-◌, ◌++◌, map, length};
ghost use Rattle.std.specs.List.{flat_map};
ghost use Rattle.model.specs.declared.row.Row.{Row};
ghost use Rattle.runs.specs.Runs.{call_of, taken_in, Answered, Ran};
ghost use Rattle.runs.specs.Told.{NotedStatesTold};

use super::entry::Entry;
use book::Book;
use model::{Intake, Kind};

// Makes the call of an entry, and puts its answer there.
fn make<K: Kind + Drop, I: Intake + Drop>(
    book: &mut Book<K, I>,
    entry: &mut Entry<'_>,
    rules: &mut [u8],
)
    ensures shape { book.new.shape ≡ book.old.shape }
    ensures call { call_of entry.new ≡ call_of entry.old }
    ensures rows { I.Log.rows book.new.log ≡ I.Log.rows book.old.log ++ taken_in book.old.shape entry.new }
    ensures free { I.Intake.free book.new.log ≡ I.Intake.free book.old.log - length (taken_in book.old.shape entry.new) }
    ensures admits { (x : Row) → I.Intake.admits book.new.log x ≡ I.Intake.admits book.old.log x }
    ensures answer { Answered K.Kind.meaning book.old.shape (I.Intake.admits book.old.log) (I.Intake.free book.old.log) (I.Log.rows book.old.log) rules.old rules.new entry.new }
{
    match entry {
        Entry::Note {
            class,
            day,
            cells,
            answer,
        } => *answer = Some(book.note(*class, *day, cells)),
        Entry::List {
            head,
            sense,
            answer,
        } => *answer = Some(book.list(*head, *sense, rules)),
        Entry::Forecast {
            head,
            state,
            answer,
        } => *answer = Some(book.forecast(*head, state)),
    }
}

// Makes the calls in their order, and puts beside each the answer that it got.
pub fn run<K: Kind + Drop, I: Intake + Drop>(
    book: &mut Book<K, I>,
    entries: &mut [Entry<'_>],
    rules: &mut [u8],
)
    ensures shape { book.new.shape ≡ book.old.shape }
    ensures calls { map call_of entries.new ≡ map call_of entries.old }
    ensures rows { I.Log.rows book.new.log ≡ I.Log.rows book.old.log ++ flat_map (taken_in book.old.shape) entries.new }
    ensures free { I.Intake.free book.new.log ≡ I.Intake.free book.old.log - length (flat_map (taken_in book.old.shape) entries.new) }
    ensures admits { (x : Row) → I.Intake.admits book.new.log x ≡ I.Intake.admits book.old.log x }
    ensures answers { Ran K.Kind.meaning book.old.shape (I.Intake.admits book.old.log) (I.Intake.free book.old.log) (I.Log.rows book.old.log) rules.old entries.new rules.new }
    ensures told { NotedStatesTold K.Kind.meaning book.old.shape (I.Log.rows book.old.log) entries.new (I.Log.rows book.new.log) }
{
    // By index, so that an edit of the code shows that each call is made on its own entry.
    'calls: for i in 0..entries.len() {
        make(book, &mut entries[i], rules);
    }
}
