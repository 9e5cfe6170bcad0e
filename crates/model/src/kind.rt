// What a condition kind is: for each size from 2 up to a largest, conditions on one value, coded from 0.
// An `impl` gives its meaning and proves that it keeps the four laws, and that each call answers as the meaning has it.
// Sizes, codes and values are plain numbers, as they stand in images and in rule memory.
ghost use Rattle.std.specs.Prelude.{◌≡◌, ◌&&◌, nat_le};
ghost use Rattle.model.specs.Kinds.{Meaning, Laws};

pub trait Kind {
    // the largest size that the kind takes
    const LARGEST: u8;

    ghost meaning: { Meaning };

    // The largest size that the kind takes, with a clause for code over any kind, since a constant has none.
    fn widest() -> u8
        ensures { result ≡ meaning.largest };

    // How many conditions there are at a size.
    fn conditions(size: u8) -> u8
        ensures { result ≡ meaning.conditions size };

    // Whether a condition holds of a value.
    fn holds(size: u8, code: u8, value: u8) -> bool
        ensures { result ≡ meaning.holds size code value };

    // Whether one condition is weaker than another, or equal to it.
    fn weaker(size: u8, code: u8, other: u8) -> bool
        ensures { result ≡ meaning.weaker size code other };

    // The condition that holds of a value only.
    fn pin(size: u8, value: u8) -> u8
        ensures { result ≡ meaning.pin size value };

    ghost lawful: { Laws meaning };
}

// Whether a size is one of 2 up to the largest.
pub(crate) fn takes(largest: u8, size: u8) -> bool
    ensures { result ≡ (nat_le 2 size && nat_le size largest) }
{
    (2..=largest).contains(&size)
}
