// Writing an empty image.
ghost use Rattle.std.specs.Prelude.{◌≡◌, length, if◌then◌else◌};
ghost use Rattle.logs.specs.Images.{blank, formatted, sized as may_have};

use super::HEADER;
use super::header::header;
use super::places::sized;
use model::{Refusal, Shape};

// Writes the header of an empty image, and zeroes the rest; a length that no image has is refused and changes nothing.
pub fn format(bytes: &mut [u8], shape: &Shape) -> Result<(), Refusal>
    ensures verdict { result ≡ formatted (length bytes.old) }
    ensures after { bytes.new ≡ (if may_have (length bytes.old) then blank shape.now (length bytes.old) else bytes.old) }
{
    if !sized(bytes.len()) {
        return Err(Refusal::Image);
    }
    bytes.fill(0);
    bytes[0..HEADER].copy_from_slice(&header(shape, 0));
    Ok(())
}
