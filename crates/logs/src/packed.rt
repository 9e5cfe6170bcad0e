// The packed log: an intake over the bytes of an image.
pub mod appending;
pub mod calls;
pub mod showing;
pub mod writing;

// Owns the bytes, which may be any bytes at all. It shows as many rows as bytes 8 and 9 say, at most its places, and over
// fewer than 32 bytes none.
#[derive(Drop)]
pub struct PackedLog {
    bytes: Vec<u8>,
}
