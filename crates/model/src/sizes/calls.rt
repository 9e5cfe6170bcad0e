// Making sizes from numbers, and reading them.
ghost use Rattle.std.specs.Prelude.{◌≡◌, ◌<◌, ◌≤◌, [], ◌∷◌, length, MatchResult, IsTrue, ◌↔◌, slice_index, EachIndex};
ghost use Rattle.model.specs.Memory.{place};
ghost use Rattle.model.specs.Sizes.{Size, Lawful};
ghost use Rattle.model.specs.Shapes.{sizes_of};
ghost use Rattle.model.specs.Values.{Decoded};
ghost use Rattle.model.specs.declared.refusal.Refusal.TheVariants.{Shape as refused_shape};

use super::super::refusal::Refusal;
use super::Sizes;
use std::array;

// Whether each number is a size, 2 to 8.
fn sized(numbers: &[u16]) -> bool
    ensures { IsTrue result ↔ EachIndex numbers.now (λ k. Size (slice_index numbers.now k)) }
{
    numbers.iter().all(|n| (2..=8).contains(n))
}

// The numbers as bytes, with 0 beyond the last.
fn padded(numbers: &[u16]) -> [u8; 8]
    requires few { length numbers.now ≤ 8 }
    requires small { EachIndex numbers.now (λ k. slice_index numbers.now k < 256) }
    ensures { result ≡ place numbers.now }
{
    array::from_fn(|i| match numbers.get(i) {
        Some(n) => *n as u8,
        None => 0
    })
}

impl Sizes {
    // The numbers as sizes, where there are one to eight of them and each is 2 to 8.
    pub(crate) fn new(numbers: &[u16]) -> Result<Sizes, Refusal>
        ensures { MatchResult result (λ s. Lawful 8 numbers.now × (sizes_of s ≡ numbers.now)) (λ e. (e ≡ refused_shape) × (Lawful 8 numbers.now → ⊥)) }
    {
        if numbers.is_empty() || numbers.len() > 8 || !sized(numbers) {
            return Err(Refusal::Shape);
        }
        Ok(Sizes {
            values: padded(numbers),
            count: numbers.len(),
        })
    }

    // One size, of two values.
    pub(crate) fn single() -> Sizes
        ensures value { sizes_of result ≡ 2 ∷ [] }
        ensures count { result.count ≡ 1 }
    {
        Sizes {
            values: [2, 0, 0, 0, 0, 0, 0, 0],
            count: 1,
        }
    }

    // How many there are.
    pub(crate) fn count(&self) -> usize
        ensures value { result ≡ length (sizes_of self.now) }
        ensures bound { (1 ≤ result) × (result ≤ 8) × (result ≡ self.now.count) }
    {
        self.count
    }

    // The size at a place, or 0 beyond the last.
    pub(crate) fn at(&self, i: usize) -> u8
        ensures { result ≡ slice_index (sizes_of self.now) i }
    {
        self.as_slice().get(i).copied().unwrap_or(0)
    }

    // All of them, in order.
    pub(crate) fn as_slice(&self) -> &[u8]
        ensures value { result.now ≡ sizes_of self.now }
        ensures lawful { Lawful 8 result.now }
    {
        &self.values[..self.count]
    }

    // One value for each size, as bytes with 0 beyond the last; none where their number or one of them does not fit.
    pub(crate) fn values(&self, numbers: &[u16]) -> Option<[u8; 8]>
        ensures { Decoded (sizes_of self.now) numbers.now result }
    {
        let fit = |(n, size): (&u16, &u8)| *n < u16::from(*size);
        if numbers.len() != self.count || !numbers.iter().zip(self.as_slice()).all(fit) {
            return None;
        }
        Some(padded(numbers))
    }
}
