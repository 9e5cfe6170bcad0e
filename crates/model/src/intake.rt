// What an intake is: a log that also takes rows.
// An `impl` says how many places are free and which rows it admits, and proves what `append` does to each part of the meaning.
ghost use Rattle.std.specs.Prelude.{◌≡◌, ℕ, ◌-◌, Bool, [], ◌∷◌, ◌++◌, length, is_ok, if◌then◌else◌};
ghost use Rattle.model.specs.Rows.{Twelve};
ghost use Rattle.model.specs.Appending.{verdict};
ghost use Rattle.model.specs.declared.row.Row.{Row};

use super::log::Log;
use super::refusal::Refusal;
use super::row::Row;

pub trait Intake: Log {
    // the places not used
    ghost free: { Self → ℕ };

    ghost admits: { Self → Row → Bool };

    // The row at the end of the list; or a refusal, which changes no part of the meaning: first a row that is not
    // admitted, then any row where no place is free.
    fn append(&mut self, row: Row) -> Result<(), Refusal>
        ensures verdict { result ≡ verdict (admits self.old row) (free self.old) }
        ensures rows { Self.Log.rows self.new ≡ (if is_ok result then Self.Log.rows self.old ++ row ∷ [] else Self.Log.rows self.old) }
        ensures free { free self.new ≡ (if is_ok result then free self.old - 1 else free self.old) }
        ensures admits { (x : Row) → admits self.new x ≡ admits self.old x };
}
