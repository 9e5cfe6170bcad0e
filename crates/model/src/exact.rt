// The exact kind: any value, or equality with one value.
ghost use Rattle.model.specs.Exact.{exact};
ghost use Rattle.model.specs.Exacts.{exact_laws};

use super::kind::{Kind, takes};

// Code 0 is any value, and 1 + v is equality with v.
#[derive(Clone, Copy)]
pub struct Exact;

impl Kind for Exact {
    const LARGEST: u8 = 8;

    ghost meaning = { exact };

    ghost lawful = { exact_laws };

    fn widest() -> u8 {
        Self::LARGEST
    }

    fn conditions(size: u8) -> u8 {
        if takes(Self::LARGEST, size) {
            size + 1
        } else {
            0
        }
    }

    fn holds(size: u8, code: u8, value: u8) -> bool {
        takes(Self::LARGEST, size) && value < size && (code == 0 || code == value + 1)
    }

    fn weaker(size: u8, code: u8, other: u8) -> bool {
        takes(Self::LARGEST, size) && code <= size && other <= size && (code == 0 || code == other)
    }

    fn pin(size: u8, value: u8) -> u8 {
        if takes(Self::LARGEST, size) && value < size {
            value + 1
        } else {
            0
        }
    }
}
