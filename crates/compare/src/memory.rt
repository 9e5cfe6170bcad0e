// Rule memory, and what a listing left there.
use super::bodies::Body;
use std::alloc::{AllocError, Global};

// What a byte holds before a listing.
const UNTOUCHED: u8 = 255;

#[derive(Drop)]
pub(crate) struct Memory {
    bytes: Vec<u8>,
}

impl Memory {
    // Room for so many rules.
    pub(crate) fn new(heap: Global, rules: u16) -> Result<Memory, AllocError> {
        Ok(Memory {
            bytes: vec![in heap; UNTOUCHED; 8 * usize::from(rules)]?,
        })
    }

    // All of it, as it is before a listing.
    pub(crate) fn wiped(&mut self) -> &mut [u8] {
        self.bytes.fill(UNTOUCHED);
        self.bytes.as_mut_slice()
    }

    // Whether so many rules in it are just the optimal bodies, and the rest of it is as it was.
    pub(crate) fn holds_just(&self, rules: u32, optimal: &[Body]) -> bool {
        let Some((listed, rest)) = self.bytes.split_at_checked(8 * rules as usize) else {
            return false;
        };
        let (places, _) = listed.as_chunks::<8>();
        let same = places.iter().copied().eq(optimal.iter().map(Body::codes));
        same && rest.iter().all(|byte| *byte == UNTOUCHED)
    }
}
