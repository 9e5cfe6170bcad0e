// The call that the static library calls_c exports.
ghost use Rattle.std.specs.Prelude.{if◌then◌else◌};
ghost use Rattle.model.specs.Band.{band as band_kind};
ghost use Rattle.model.specs.Exact.{exact as exact_kind};
ghost use Rattle.calls.specs.Answers.{Answered};
ghost use Rattle.calls.specs.Called.{head_of, sense_of};

use super::answer::Answer;
use super::listing::list_image;
use model::{Band, Exact, Head, Sense};
use std::alloc::Global;

// Lists the optimal rules of a head and a sense over an image, by band or by exact conditions. Its parameters are plain
// numbers and bools, one by one, since a C program passes them.
pub fn rulebook_list(
    heap: Global,
    band: bool,
    image: &[u8],
    target: u16,
    value: u16,
    cannot: bool,
    rules: &mut [u8],
) -> Answer
    ensures { Answered (if band then band_kind else exact_kind) image.now (head_of target value) (sense_of cannot) rules.old rules.new result }
{
    let head = Head { target, value };
    let sense = if cannot { Sense::Cannot } else { Sense::Can };
    let listed = if band {
        list_image::<Band>(heap, image, head, sense, rules)
    } else {
        list_image::<Exact>(heap, image, head, sense, rules)
    };
    listed.into()
}
