// The lengths that an image may have, its places for rows, and how many are used.
ghost use Rattle.std.specs.Prelude.{◌≡◌, ◌≤◌, length};
ghost use Rattle.logs.specs.Images.{places_in, sized, used_in};

use super::{HEADER, ROW};

// Whether an image may have this length.
pub(crate) fn sized(len: usize) -> bool
    ensures { result ≡ sized len }
{
    (HEADER..=65536).contains(&len)
}

// How many whole rows fit after the header, at most 4,094.
pub(crate) fn places(bytes: &[u8]) -> usize
    ensures { result ≡ places_in bytes.now }
{
    (bytes.len().saturating_sub(HEADER) / ROW).min(4094)
}

// The rows used, as bytes 8 and 9 say.
pub(crate) fn used(bytes: &[u8]) -> u16
    requires { 32 ≤ length bytes.now }
    ensures { result ≡ used_in bytes.now }
{
    u16::from_be_bytes([bytes[8], bytes[9]])
}
