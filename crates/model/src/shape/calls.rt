// Making a shape, and reading it.
ghost use Rattle.std.specs.Prelude.{◌≡◌, ◌≤◌, [], ◌∷◌, length, MatchResult, slice_index};
ghost use Rattle.model.specs.Sizes.{Lawful, Ranges};
ghost use Rattle.model.specs.Shapes.{features, targets, cell_size};
ghost use Rattle.model.specs.Values.{Decoded};
ghost use Rattle.model.specs.declared.refusal.Refusal.TheVariants.{Shape as refused_shape};

use super::super::refusal::Refusal;
use super::super::sizes::Sizes;
use super::Shape;

impl Shape {
    // The shape with these sizes; refused where a count or a size is outside its range.
    pub fn new(feature_sizes: &[u16], target_sizes: &[u16]) -> Result<Shape, Refusal>
        ensures { MatchResult result (λ s. Ranges feature_sizes.now target_sizes.now × (features s ≡ feature_sizes.now) × (targets s ≡ target_sizes.now)) (λ e. (e ≡ refused_shape) × (Ranges feature_sizes.now target_sizes.now → ⊥)) }
    {
        if target_sizes.len() > 4 {
            return Err(Refusal::Shape);
        }
        let features = Sizes::new(feature_sizes)?;
        let targets = Sizes::new(target_sizes)?;
        Ok(Shape { features, targets })
    }

    // The smallest shape there is: one feature and one target, of two values each.
    pub fn smallest() -> Shape
        ensures features { features result ≡ 2 ∷ [] }
        ensures targets { targets result ≡ 2 ∷ [] }
    {
        Shape {
            features: Sizes::single(),
            targets: Sizes::single(),
        }
    }

    // How many features there are, 1 to 8.
    pub fn feature_count(&self) -> usize
        ensures value { result ≡ length (features self.now) }
        ensures bound { (1 ≤ result) × (result ≤ 8) }
    {
        self.features.count()
    }

    // How many targets there are, 1 to 4.
    pub fn target_count(&self) -> usize
        ensures value { result ≡ length (targets self.now) }
        ensures bound { (1 ≤ result) × (result ≤ 4) }
    {
        self.targets.count()
    }

    // The sizes of the features, in order.
    pub fn feature_sizes(&self) -> &[u8]
        ensures value { result.now ≡ features self.now }
        ensures lawful { Lawful 8 result.now }
    {
        self.features.as_slice()
    }

    // The sizes of the targets, in order.
    pub fn target_sizes(&self) -> &[u8]
        ensures value { result.now ≡ targets self.now }
        ensures lawful { Lawful 8 result.now }
        ensures few { length result.now ≤ 4 }
    {
        self.targets.as_slice()
    }

    // The size of a feature, or 0 where there is none.
    pub fn feature_size(&self, feature: usize) -> u8
        ensures { result ≡ slice_index (features self.now) feature }
    {
        self.features.at(feature)
    }

    // The size of a target, or 0 where there is none.
    pub fn target_size(&self, target: usize) -> u8
        ensures { result ≡ slice_index (targets self.now) target }
    {
        self.targets.at(target)
    }

    // How many values a cell of a row may have: features in cells 0 to 7, targets in 8 to 11; 0 beyond the shape.
    pub fn cell_size(&self, cell: usize) -> u8
        ensures { result ≡ cell_size self.now cell }
    {
        if cell < 8 {
            self.features.at(cell)
        } else {
            self.targets.at(cell - 8)
        }
    }

    // A state: one value for each feature, with 0 beyond them; none where the numbers are not the values of one.
    pub fn state(&self, numbers: &[u16]) -> Option<[u8; 8]>
        ensures { Decoded (features self.now) numbers.now result }
    {
        self.features.values(numbers)
    }

    // An outcome: one value for each target, with 0 beyond them; none where the numbers are not the values of one.
    pub fn outcome(&self, numbers: &[u16]) -> Option<[u8; 8]>
        ensures { Decoded (targets self.now) numbers.now result }
    {
        self.targets.values(numbers)
    }
}
