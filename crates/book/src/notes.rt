// Noting an observation.
ghost use Rattle.std.specs.Prelude.{◌≡◌, ◌-◌, ◌++◌, take, is_ok, if◌then◌else◌, MatchOption};
ghost use Rattle.model.specs.Notes.{Notable, noted_row, Noted};
ghost use Rattle.model.specs.declared.row.Row.{Row as LogRow};

use super::book::Book;
use model::{Intake, Kind, Refusal, Row, Shape};

// Twelve cells: a state in 0 to 7, an outcome in 8 to 11.
fn cells_of(state: &[u8; 8], outcome: &[u8; 8]) -> [u8; 12]
    ensures { result ≡ state.now ++ take 4 outcome.now }
{
    let mut cells = [0; 12];
    cells[8..].copy_from_slice(&outcome[..4]);
    cells[..8].copy_from_slice(state);
    cells
}

// The row of an observation, with 0 in the cells beyond the shape; none where it may not be noted. Its class, day and cells
// stand apart, as the public call takes them.
fn row_of(shape: &Shape, class: u16, day: u16, cells: &[u16]) -> Option<Row>
    ensures { MatchOption result (Notable shape.now class day cells.now → ⊥) (λ row. Notable shape.now class day cells.now × (row ≡ noted_row shape.now class day cells.now)) }
{
    let class = u8::try_from(class).ok()?;
    if !(1..=3).contains(&class) {
        return None;
    }
    let (front, back) = cells.split_at_checked(shape.feature_count())?;
    let state = shape.state(front)?;
    let outcome = shape.outcome(back)?;
    Some(Row {
        class,
        day,
        cells: cells_of(&state, &outcome),
    })
}

impl<K: Kind + Drop, I: Intake + Drop> Book<K, I> {
    // Appends the row of an observation, and answers the number of rows then shown.
    pub fn note(&mut self, class: u16, day: u16, cells: &[u16]) -> Result<usize, Refusal>
        ensures shape { self.new.shape ≡ self.old.shape }
        ensures free { I.Intake.free self.new.log ≡ (if is_ok result then I.Intake.free self.old.log - 1 else I.Intake.free self.old.log) }
        ensures admits { (x : LogRow) → I.Intake.admits self.new.log x ≡ I.Intake.admits self.old.log x }
        ensures answer { Noted self.old.shape class day cells.now (I.Intake.admits self.old.log (noted_row self.old.shape class day cells.now)) (I.Intake.free self.old.log) (I.Log.rows self.old.log) (I.Log.rows self.new.log) result }
    {
        let row = row_of(&self.shape, class, day, cells).ok_or(Refusal::Observation)?;
        self.log.append(row)?;
        Ok(self.log.count())
    }
}
