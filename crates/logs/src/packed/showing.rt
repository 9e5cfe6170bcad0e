// The rows that a packed log shows, and the questions about them.
ghost use Rattle.std.specs.Prelude.{◌≡◌, length, MatchOption, slice_index_or};
ghost use Rattle.model.specs.Rows.{no_row};
ghost use Rattle.logs.specs.Packed.{count_in, row_of, shown};
ghost use Rattle.logs.specs.Shown.{few_shown, twelve_shown};

use super::super::image::places::{places, used};
use super::super::image::{HEADER, ROW};
use super::PackedLog;
use model::Log;

impl PackedLog {
    // The sixteen bytes of a row of the list.
    fn find(&self, row: usize) -> Option<&[u8]>
        ensures { MatchOption result (slice_index_or (shown self.now.bytes.items) row no_row ≡ no_row) (λ p. (length p.now ≡ 16) × (slice_index_or (shown self.now.bytes.items) row no_row ≡ row_of p.now)) }
    {
        let bytes = self.bytes.as_slice();
        if row < self.count() {
            let at = HEADER + ROW * row;
            Some(&bytes[at..at + ROW])
        } else {
            None
        }
    }
}

impl Log for PackedLog {
    ghost rows = { λ l. shown l.bytes.items };

    ghost few = { λ l. few_shown l.bytes.items };

    ghost twelve = { λ l. twelve_shown l.bytes.items };

    fn count(&self) -> usize
        ensures rows { result ≡ length (shown self.now.bytes.items) }
        ensures within { result ≡ count_in self.now.bytes.items }
    {
        if self.bytes.len() < HEADER {
            return 0;
        }
        usize::from(used(&self.bytes)).min(places(&self.bytes))
    }

    fn class(&self, row: usize) -> u8 {
        self.find(row).map_or(255, |p| p[0])
    }

    fn day(&self, row: usize) -> u16 {
        self.find(row)
            .map_or(0, |p| u16::from_be_bytes([p[2], p[3]]))
    }

    fn cell(&self, row: usize, cell: usize) -> u8 {
        self.find(row)
            .and_then(|p| p[4..].get(cell))
            .copied()
            .unwrap_or(255)
    }
}
