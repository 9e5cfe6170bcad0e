// What a log is: a list of at most 65,535 rows, and questions about it.
// An `impl` says which rows it shows, and proves the two laws of the list and the answer of each question.
ghost use Rattle.std.specs.Prelude.{◌≡◌, ℕ, ◌≤◌, List, length, get_or, slice_index_or};
ghost use Rattle.std.specs.List.{AllByRecursion};
ghost use Rattle.model.specs.Rows.{no_row, Twelve};
ghost use Rattle.model.specs.declared.row.Row.{Row};

pub trait Log {
    // the rows shown, in order
    ghost rows: { Self → List Row };

    // How many rows are shown.
    fn count(&self) -> usize
        ensures { result ≡ length (rows self.now) };

    // A row's class, or 255 outside the list.
    fn class(&self, row: usize) -> u8
        ensures { result ≡ (get_or (rows self.now) row no_row).class };

    // A row's day, or 0 outside the list.
    fn day(&self, row: usize) -> u16
        ensures { result ≡ (get_or (rows self.now) row no_row).day };

    // One cell of a row, or 255 outside the list or the twelve cells.
    fn cell(&self, row: usize, cell: usize) -> u8
        ensures { result ≡ slice_index_or (get_or (rows self.now) row no_row).cells cell 255 };

    ghost few: { (l : Self) → length (rows l) ≤ 65535 };

    ghost twelve: { (l : Self) → AllByRecursion Twelve (rows l) };
}
