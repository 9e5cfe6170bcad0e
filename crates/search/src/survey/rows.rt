// Reading one row of a log.
ghost use Rattle.std.specs.Prelude.{◌≡◌, ℕ, ◌<◌, length, take, MatchResult, slice_index_or};
ghost use Rattle.model.specs.Memory.{place};
ghost use Rattle.model.specs.Rows.{no_row};
ghost use Rattle.model.specs.Shapes.{features};
ghost use Rattle.model.specs.Strays.{Astray};
ghost use Rattle.search.specs.Scans.{StrayIn};

use super::super::bodies::State;
use model::{Log, Shape, Stray};

// The cells of a row, read once. A loop, since no proof was found of `array::from_fn` over the calls of a log.
pub(crate) fn cells_of<L: Log>(log: &L, row: usize) -> [u8; 12]
    requires { row < length (L.Log.rows log.now) }
    ensures { result ≡ (slice_index_or (L.Log.rows log.now) row no_row).cells }
{
    let mut cells = [0u8; 12];
    'cells: for (cell, value) in cells.iter_mut().enumerate() {
        *value = log.cell(row, cell);
    }
    cells
}

// The first cell of the shape that is not below its size is a fault.
pub(crate) fn scan(shape: &Shape, row: usize, cells: &[u8; 12]) -> Result<(), Stray>
    requires { row < 65535 }
    ensures { MatchResult result (λ _. (j : ℕ) → j < 12 → Astray shape.now cells.now j → ⊥) (λ e. StrayIn shape.now row cells.now e) }
{
    'cells: for (cell, value) in cells.iter().enumerate() {
        let size = shape.cell_size(cell);
        if size > 0 && *value >= size {
            return Err(Stray {
                row: row as u16,
                cell: cell as u8,
            });
        }
    }
    Ok(())
}

// The feature cells of a row as a state, with 0 beyond the shape.
pub(crate) fn state_of(shape: &Shape, cells: &[u8; 12]) -> State
    ensures { result ≡ place (take (length (features shape.now)) cells.now) }
{
    let mut state = [0u8; 8];
    let count = shape.feature_count();
    state[0..count].copy_from_slice(&cells[0..count]);
    state
}
