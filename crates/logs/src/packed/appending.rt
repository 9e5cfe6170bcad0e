// Appending a row to a packed log.
ghost use Rattle.std.specs.Prelude.{◌≡◌, ◌-◌, [], ◌∷◌, ◌++◌, is_ok, if◌then◌else◌};
ghost use Rattle.model.specs.Appending.{verdict};
ghost use Rattle.model.specs.declared.row.Row.{Row as any_row};
ghost use Rattle.logs.specs.Images.{StaysImage};
ghost use Rattle.logs.specs.Packed.{admitted, free_in, shown, written};

use super::{PackedLog, writing};
use model::{Intake, Refusal, Row};

// Admits every row; its free places are those not used.
impl Intake for PackedLog {
    ghost free = { λ l. free_in l.bytes.items };

    ghost admits = { λ l row. admitted l.bytes.items row };

    // The row in the first unused place, in place; what every byte then is stands in `after`.
    fn append(&mut self, row: Row) -> Result<(), Refusal>
        ensures verdict { result ≡ verdict (admitted self.old.bytes.items row) (free_in self.old.bytes.items) }
        ensures rows { shown self.new.bytes.items ≡ (if is_ok result then shown self.old.bytes.items ++ row ∷ [] else shown self.old.bytes.items) }
        ensures free { free_in self.new.bytes.items ≡ (if is_ok result then free_in self.old.bytes.items - 1 else free_in self.old.bytes.items) }
        ensures admits { (x : any_row) → admitted self.new.bytes.items x ≡ admitted self.old.bytes.items x }
        ensures after { self.new.bytes.items ≡ (if is_ok result then written self.old.bytes.items row else self.old.bytes.items) }
        ensures image { StaysImage self.old.bytes.items self.new.bytes.items (if is_ok result then 1 else 0) }
    {
        writing::append(self.bytes.as_mut_slice(), row)
    }
}
