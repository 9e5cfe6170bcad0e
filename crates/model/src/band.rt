// The band kind: ranges of values, ends included.
ghost use Rattle.std.specs.Prelude.{◌≡◌, ◌+◌, ◌*◌, ◌/◌, ◌<◌, ◌≤◌};
ghost use Rattle.model.specs.Band.{band, ranges, first, last, Paired};
ghost use Rattle.model.specs.Bands.{band_laws};

use super::kind::{Kind, takes};

// With k = size - (b - a + 1) the range from a to b has code k * (k + 1) / 2 + a.
#[derive(Clone, Copy)]
pub struct Band;

// The pair (k, a) of each code: how many of the size's values the range lacks, and its first value.
const PAIRS: [(u8, u8); 36] = [
    (0, 0),
    (1, 0),
    (1, 1),
    (2, 0),
    (2, 1),
    (2, 2),
    (3, 0),
    (3, 1),
    (3, 2),
    (3, 3),
    (4, 0),
    (4, 1),
    (4, 2),
    (4, 3),
    (4, 4),
    (5, 0),
    (5, 1),
    (5, 2),
    (5, 3),
    (5, 4),
    (5, 5),
    (6, 0),
    (6, 1),
    (6, 2),
    (6, 3),
    (6, 4),
    (6, 5),
    (6, 6),
    (7, 0),
    (7, 1),
    (7, 2),
    (7, 3),
    (7, 4),
    (7, 5),
    (7, 6),
    (7, 7),
];

// The first code of the ranges that lack so many of the values.
fn first_code(lacks: u8) -> u8
    requires { lacks ≤ 8 }
    ensures { result ≡ lacks * (lacks + 1) / 2 }
{
    lacks * (lacks + 1) / 2
}

// The pair of a code.
fn pair(code: u8) -> (u8, u8)
    requires { code < 36 }
    ensures { Paired code result }
{
    PAIRS[usize::from(code)]
}

// The first and the last value of a range.
fn ends(size: u8, code: u8) -> (u8, u8)
    requires { code < ranges size }
    ensures low { result.0 ≡ first code }
    ensures high { result.1 ≡ last size code }
{
    let (lacks, first) = pair(code);
    (first, first + size - lacks - 1)
}

impl Kind for Band {
    const LARGEST: u8 = 8;

    ghost meaning = { band };

    ghost lawful = { band_laws };

    fn widest() -> u8 {
        Self::LARGEST
    }

    fn conditions(size: u8) -> u8 {
        if takes(Self::LARGEST, size) {
            first_code(size)
        } else {
            0
        }
    }

    fn holds(size: u8, code: u8, value: u8) -> bool {
        if code < Self::conditions(size) {
            let (first, last) = ends(size, code);
            first <= value && value <= last
        } else {
            false
        }
    }

    fn weaker(size: u8, code: u8, other: u8) -> bool {
        let codes = Self::conditions(size);
        if code < codes && other < codes {
            let (first, last) = ends(size, code);
            let (inner_first, inner_last) = ends(size, other);
            first <= inner_first && inner_last <= last
        } else {
            false
        }
    }

    fn pin(size: u8, value: u8) -> u8 {
        if takes(Self::LARGEST, size) && value < size {
            first_code(size - 1) + value
        } else {
            0
        }
    }
}
