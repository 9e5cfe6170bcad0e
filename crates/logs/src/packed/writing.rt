// Writing a row into packed bytes.
ghost use Rattle.std.specs.Prelude.{◌≡◌, ◌+◌, ◌≤◌, true, length, is_ok, if◌then◌else◌};
ghost use Rattle.model.specs.Appending.{verdict};
ghost use Rattle.logs.specs.Packed.{bytes_of, counted, free_in, put, start, written};

use super::super::image::places::{places, used};
use super::super::image::{HEADER, ROW};
use model::{Refusal, Row};

// The sixteen bytes of a row: the class, a 0, the day, and the cells. No From: a row and an array are both of other crates.
fn packed(row: Row) -> [u8; ROW]
    ensures { result ≡ bytes_of row }
{
    let mut p = [0u8; ROW];
    p[0] = row.class;
    p[2..4].copy_from_slice(&row.day.to_be_bytes());
    p[4..].copy_from_slice(&row.cells);
    p
}

// Writes a row in a place.
fn write(bytes: &mut [u8], slot: usize, row: Row)
    requires { start slot + 16 ≤ length bytes.old }
    ensures { bytes.new ≡ put bytes.old slot (bytes_of row) }
{
    let at = HEADER + ROW * slot;
    bytes[at..at + ROW].copy_from_slice(&packed(row));
}

// Writes how many rows are used.
fn recount(bytes: &mut [u8], rows: u16)
    requires { 32 ≤ length bytes.old }
    ensures { bytes.new ≡ counted bytes.old rows }
{
    bytes[8..10].copy_from_slice(&rows.to_be_bytes());
}

// Writes the row in the first unused place and counts it; refused where no place is free.
// Over a slice and no method, so that each write is proved without the Vec around it.
pub(crate) fn append(bytes: &mut [u8], row: Row) -> Result<(), Refusal>
    ensures verdict { result ≡ verdict true (free_in bytes.old) }
    ensures after { bytes.new ≡ (if is_ok result then written bytes.old row else bytes.old) }
{
    if bytes.len() < HEADER {
        return Err(Refusal::Full);
    }
    let used = used(bytes);
    if usize::from(used) >= places(bytes) {
        return Err(Refusal::Full);
    }
    write(bytes, usize::from(used), row);
    recount(bytes, used + 1);
    Ok(())
}
