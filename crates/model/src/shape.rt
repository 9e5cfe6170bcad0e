// Shapes: how many features and targets there are, and how many values each has.
ghost use Rattle.std.specs.Prelude.{◌≤◌};

use super::sizes::Sizes;

// 1 to 8 features and 1 to 4 targets, each of size 2 to 8, numbered from 0.
#[derive(Clone, Copy)]
pub struct Shape {
    features: Sizes,
    targets: Sizes,
    ghost few: { targets.count ≤ 4 },
}

mod calls;
