// A fixed sequence of numbers, the same in every run.
ghost use Rattle.std.specs.Prelude.{◌<◌};

#[derive(Drop)]
pub(crate) struct Random {
    last: u32,
}

impl Random {
    pub(crate) fn new(seed: u32) -> Random {
        Random { last: seed }
    }

    // The next number, below a bound that is not 0.
    pub(crate) fn below(&mut self, bound: u8) -> u8
        ensures { 0 < bound → result < bound }
    {
        self.last = self.last.wrapping_mul(1_103_515_245).wrapping_add(12_345);
        if bound == 0 {
            return 0;
        }
        ((self.last >> 16) % u32::from(bound)) as u8
    }

    // One of the items, of which there are few; none where there are none.
    pub(crate) fn pick<'a, T>(&mut self, items: &'a [T]) -> Option<&'a T> {
        let bound = u8::try_from(items.len()).unwrap_or(u8::MAX);
        items.get(usize::from(self.below(bound)))
    }
}
