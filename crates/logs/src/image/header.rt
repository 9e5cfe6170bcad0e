// The header that an image of a shape has.
ghost use Rattle.std.specs.Prelude.{◌≡◌};
ghost use Rattle.logs.specs.Images.{front_of, header_of, padded};

use super::HEADER;
use model::Shape;
use std::array;

// The sizes, with 0 for each place beyond them. `model` has one of its own, for numbers that become bytes.
fn padded<const N: usize>(sizes: &[u8]) -> [u8; N]
    ensures { result ≡ padded N sizes.now }
{
    array::from_fn(|i| match sizes.get(i) {
        Some(size) => *size,
        None => 0
    })
}

// The first half: the letters OBS, the version 1, the two counts, and the rows used; the other bytes are 0.
fn front(shape: &Shape, used: u16) -> [u8; 16]
    ensures { result ≡ front_of shape.now used }
{
    let mut bytes = [0u8; 16];
    bytes[..3].copy_from_slice(b"OBS");
    bytes[4] = 1;
    bytes[5] = shape.feature_count() as u8;
    bytes[6] = shape.target_count() as u8;
    bytes[8..10].copy_from_slice(&used.to_be_bytes());
    bytes
}

// The header: its first half, the sizes, and four bytes that are 0.
pub(crate) fn header(shape: &Shape, used: u16) -> [u8; HEADER]
    ensures { result ≡ header_of shape.now used }
{
    let mut bytes = [0u8; HEADER];
    bytes[..16].copy_from_slice(&front(shape, used));
    bytes[16..24].copy_from_slice(&padded::<8>(shape.feature_sizes()));
    bytes[24..28].copy_from_slice(&padded::<4>(shape.target_sizes()));
    bytes
}
