// Checking that bytes are an image, and reading its shape.
ghost use Rattle.std.specs.Prelude.{◌≡◌, ◌+◌, ◌≤◌, length, take, drop, MatchResult};
ghost use Rattle.model.specs.declared.refusal.Refusal.TheVariants.{Image as refused_image};
ghost use Rattle.model.specs.declared.shape.Shape.{Shape as any_shape};
ghost use Rattle.logs.specs.Images.{ImageOf};

use super::header::header;
use super::places::{places, sized, used};
use model::{Refusal, Shape};
use std::array;

// The eight bytes from a place on, as sizes.
fn sizes(bytes: &[u8], at: usize) -> [u16; 8]
    requires { at + 8 ≤ length bytes.now }
    ensures { result ≡ take 8 (drop at bytes.now) }
{
    array::from_fn(|i| u16::from(bytes[at + i]))
}

// The shape of an image; refused where the length, the header or the shape is broken, or more rows are used than there
// are places. Reads no row.
pub fn check(bytes: &[u8]) -> Result<Shape, Refusal>
    ensures { MatchResult result (λ s. ImageOf bytes.now s) (λ e. (e ≡ refused_image) × ((s : any_shape) → ImageOf bytes.now s → ⊥)) }
{
    if !sized(bytes.len()) {
        return Err(Refusal::Image);
    }
    let used = used(bytes);
    let features = usize::from(bytes[5]);
    let targets = usize::from(bytes[6]);
    if usize::from(used) > places(bytes) || features > 8 || targets > 4 {
        return Err(Refusal::Image);
    }
    // `map_err` would be no shorter, and every refusal of an image is this one.
    let Ok(shape) = Shape::new(&sizes(bytes, 16)[..features], &sizes(bytes, 24)[..targets]) else {
        return Err(Refusal::Image);
    };
    if bytes.starts_with(&header(&shape, used)) {
        Ok(shape)
    } else {
        Err(Refusal::Image)
    }
}
