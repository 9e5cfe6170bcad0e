// Putting the same questions to two books.
ghost use Rattle.std.specs.Prelude.{◌≡◌, map, length};
ghost use Rattle.std.specs.List.{AllByRecursion};
ghost use Rattle.book.specs.Keeps.{Keeps};
ghost use Rattle.agreement.specs.Asking.{question_of, Leaves, Leave, Right, Law};

use super::answers::same_listing;
use super::questions::Asked;
use book::Book;
use model::{Kind, Log};

// Puts a question to both books, each with a rule memory of its own, and notes in its entry whether they answered alike.
// Four `&mut`, since a struct that holds them gets no generated proof in the loop of `compare`.
fn ask<K: Kind + Drop, L: Log + Drop, M: Log + Drop>(
    first: &mut Book<K, L>,
    second: &mut Book<K, M>,
    asked: &mut Asked<'_>,
    left: &mut [u8],
    right: &mut [u8],
)
    ensures first { Keeps first.old first.new }
    ensures second { Keeps second.old second.new }
    ensures question { question_of asked.new ≡ question_of asked.old }
    ensures left { Leaves K.Kind.meaning first.old.shape (L.Log.rows first.old.log) asked.new left.old left.new }
    ensures right { Leaves K.Kind.meaning second.old.shape (M.Log.rows second.old.log) asked.new right.old right.new }
    ensures alike { Right K.Kind.meaning first.old.shape second.old.shape (L.Log.rows first.old.log) (M.Log.rows second.old.log) (length left.old) (length right.old) asked.new }
{
    match asked {
        Asked::List { head, sense, alike } => {
            let one = first.list(*head, *sense, left);
            let other = second.list(*head, *sense, right);
            *alike = same_listing(one, other, left, right);
        }
        Asked::Forecast { head, state, alike } => {
            let one = first.forecast(*head, state);
            let other = second.forecast(*head, state);
            *alike = one == other;
        }
    }
}

// Puts each question to both books, and tells of each whether they answered it alike. Books over lawful rows that show
// the same set of observations answer every question alike, in whatever order and however often they were noted.
pub fn compare<K: Kind + Drop, L: Log + Drop, M: Log + Drop>(
    first: &mut Book<K, L>,
    second: &mut Book<K, M>,
    questions: &mut [Asked<'_>],
    left: &mut [u8],
    right: &mut [u8],
)
    ensures first { Keeps first.old first.new }
    ensures second { Keeps second.old second.new }
    ensures questions { map question_of questions.new ≡ map question_of questions.old }
    ensures left { Leave K.Kind.meaning first.old.shape (L.Log.rows first.old.log) questions.new left.old left.new }
    ensures right { Leave K.Kind.meaning second.old.shape (M.Log.rows second.old.log) questions.new right.old right.new }
    ensures alike { AllByRecursion (Right K.Kind.meaning first.old.shape second.old.shape (L.Log.rows first.old.log) (M.Log.rows second.old.log) (length left.old) (length right.old)) questions.new }
    ensures law { Law K.Kind.meaning first.old.shape second.old.shape (L.Log.rows first.old.log) (M.Log.rows second.old.log) (length left.old) (length right.old) questions.new }
{
    // By index, so that an edit of the code shows that no question is left out.
    'questions: for i in 0..questions.len() {
        ask(first, second, &mut questions[i], left, right);
    }
}
