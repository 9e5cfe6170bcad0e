// The static library that a program in C or Rust links: each of its calls is that of the crate calls.
#![tactic(auto)]

ghost use Rattle.std.specs.Prelude.{if◌then◌else◌};
ghost use Rattle.model.specs.Band.{band as band_kind};
ghost use Rattle.model.specs.Exact.{exact as exact_kind};
ghost use Rattle.calls.specs.Answers.{Answered};
ghost use Rattle.calls.specs.Called.{head_of, sense_of};

use calls::Answer;
use std::alloc::Global;

// Lists the optimal rules of a head and a sense over an image, by band or by exact conditions. Its parameters are plain
// numbers and bools, since a C program passes them, and it stands beside the call of `calls`, which Rattle code links. In C:
//   struct answer rulebook_list(bool band, const uint8_t *image, size_t image_length, uint16_t target, uint16_t value,
//                               bool cannot, uint8_t *rules, size_t rules_length);
#[unsafe(no_mangle)]
pub extern "C" fn rulebook_list(
    heap: Global,
    band: bool,
    image: &[u8],
    target: u16,
    value: u16,
    cannot: bool,
    rules: &mut [u8],
) -> Answer
    ensures { Answered (if band then band_kind else exact_kind) image.now (head_of target value) (sense_of cannot) rules.old rules.new result }
{
    calls::rulebook_list(heap, band, image, target, value, cannot, rules)
}
