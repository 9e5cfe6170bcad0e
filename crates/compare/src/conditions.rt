// What the conditions of the two kinds mean, written from the definitions alone.
use model::{Band, Exact};
use std::ops::RangeInclusive;

// The conditions of a kind. Code that has no other bound cannot ask the library what they mean.
pub(crate) trait Conditions {
    // How many conditions there are at a size.
    fn count(size: u16) -> usize;

    // Whether a condition holds of a value.
    fn holds(size: u8, code: usize, value: u8) -> bool;
}

impl Conditions for Exact {
    fn count(size: u16) -> usize {
        usize::from(size) + 1
    }

    fn holds(_size: u8, code: usize, value: u8) -> bool {
        code == 0 || code - 1 == usize::from(value)
    }
}

impl Conditions for Band {
    fn count(size: u16) -> usize {
        let values = usize::from(size);
        values * (values + 1) / 2
    }

    fn holds(size: u8, code: usize, value: u8) -> bool {
        range(usize::from(size), code).is_some_and(|range| range.contains(&usize::from(value)))
    }
}

// The values of a range. One range lacks no value, two lack one, three lack two, and so on: they are coded in this order,
// and those of one length by their first value.
fn range(size: usize, code: usize) -> Option<RangeInclusive<usize>> {
    let mut left = code;
    for lacking in 0..size {
        if left <= lacking {
            return Some(left..=left + (size - lacking - 1));
        }
        left -= lacking + 1;
    }
    None
}
