// Bodies of rules, each condition with the values that it holds of.
use super::conditions::Conditions;
use model::Shape;
use std::alloc::{AllocError, Global};

// A value for each feature, 0 beyond them.
pub(crate) type State = [u8; 8];

// What stands for a value in a set of values.
fn bit(value: u8) -> u8 {
    1 << (value % 8)
}

// A condition's code, and the set of the values that it holds of.
#[derive(Clone, Copy, PartialEq, Eq)]
struct Condition {
    code: u8,
    values: u8,
}

impl Condition {
    // The condition of every value.
    const NONE: Condition = Condition {
        code: 0,
        values: 255,
    };

    fn new<C: Conditions>(size: u8, code: usize) -> Condition {
        Condition {
            code: (code % 256) as u8,
            values: (0..size.min(8))
                .filter(|value| C::holds(size, code, *value))
                .fold(0, |set, value| set | bit(value)),
        }
    }

    fn holds(self, value: u8) -> bool {
        self.values & bit(value) != 0
    }

    // Whether it holds wherever the other does.
    fn is_weaker(self, other: Condition) -> bool {
        self.values | other.values == self.values
    }
}

// A condition on each feature, and none beyond them.
#[derive(Clone, Copy, PartialEq, Eq)]
pub(crate) struct Body {
    conditions: [Condition; 8],
}

impl Body {
    // The body whose codes are the digits of a number, the last feature's the lowest.
    fn numbered<C: Conditions>(shape: &Shape, number: usize) -> Body {
        let mut conditions = [Condition::NONE; 8];
        let mut left = number;
        for (condition, size) in conditions.iter_mut().zip(shape.feature_sizes()).rev() {
            let base = C::count(u16::from(*size)).max(1);
            *condition = Condition::new::<C>(*size, left % base);
            left /= base;
        }
        Body { conditions }
    }

    // Its eight codes.
    pub(crate) fn codes(&self) -> [u8; 8] {
        self.conditions.map(|condition| condition.code)
    }

    // Whether each condition holds of the state's value.
    pub(crate) fn matches(&self, state: &State) -> bool {
        self.conditions
            .iter()
            .zip(state)
            .all(|(condition, value)| condition.holds(*value))
    }

    // Whether each condition holds wherever the other body's does.
    pub(crate) fn dominates(&self, other: &Body) -> bool {
        self.conditions
            .iter()
            .zip(&other.conditions)
            .all(|(mine, others)| mine.is_weaker(*others))
    }
}

// Every body of a shape, in rising order.
pub(crate) fn all_bodies<C: Conditions>(
    heap: Global,
    shape: &Shape,
) -> Result<Vec<Body>, AllocError> {
    let count = shape.feature_sizes().iter().fold(1usize, |product, size| {
        product.saturating_mul(C::count(u16::from(*size)))
    });
    (0..count)
        .map(|number| Body::numbered::<C>(shape, number))
        .collect(heap)
}
