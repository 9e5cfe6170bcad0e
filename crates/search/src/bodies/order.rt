// Bodies in rising order of their codes, feature 0 first.
ghost use Rattle.std.specs.Prelude.{◌≡◌, ℕ, ◌-◌, ◌<◌, ◌≤◌, ◌++◌, length, take, drop, replicate, slice_index, IfSome, MatchOption, Some};
ghost use Rattle.model.specs.Bodies.{Body};
ghost use Rattle.search.specs.Rest.{Advanced, Depth, Last, Reach};
ghost use Rattle.search.specs.Walks.{Standing, alike, left};

use super::{Bodies, Codes};
use model::Kind;

// The next body in rising order; after the last one false, with every condition open again. A bool, and no Option of a
// body, since it goes by the ends of one slice, which it leaves in place.
fn advance<K: Kind>(sizes: &[u8], body: &mut [u8]) -> bool
    requires { Body K.Kind.meaning sizes.now body.old }
    ensures { Advanced K.Kind.meaning sizes.now body.old body.new result }
{
    if sizes.is_empty() {
        return false;
    }
    let code = body[0];
    if advance::<K>(&sizes[1..], &mut body[1..]) {
        return true;
    }
    if code + 1 < K::conditions(sizes[0]) {
        body[0] = code + 1;
        true
    } else {
        body[0] = 0;
        false
    }
}

// The last condition that is not open.
fn last(body: &[u8]) -> Option<usize>
    ensures { MatchOption result ((k : ℕ) → k < length body.now → slice_index body.now k ≡ 0) (Last body.now) }
{
    body.iter().rposition(|code| *code != 0)
}

// How many conditions there are up to the last one that is not open.
fn depth(body: &[u8]) -> usize
    ensures { Depth body.now result }
{
    match last(body) {
        Some(last) => last + 1,
        None => 0,
    }
}

impl<'a, K: Kind> Bodies<'a, K> {
    // How many conditions to step on in. All that differ from a clear body only after its depth are dominated by it.
    pub(crate) fn reach(&self, clear: bool, body: &Codes) -> usize
        ensures { Reach clear (take (length self.now.sizes.now) body.now) result }
    {
        let body = &body[..self.sizes.len()];
        if clear { depth(body) } else { body.len() }
    }

    // The next body that differs in the first conditions, so many as are reached; after them all are open.
    pub(crate) fn after(&self, body: Codes, reach: usize) -> Option<Codes>
        requires standing { Standing K.Kind.meaning self.now.sizes.now body }
        requires within { reach ≤ length self.now.sizes.now }
        requires zeros { drop reach (take (length self.now.sizes.now) body) ≡ replicate (length self.now.sizes.now - reach) 0 }
        ensures standing { IfSome result (Standing K.Kind.meaning self.now.sizes.now) }
        ensures passed { left K.Kind.meaning self.now.sizes.now (Some body) ≡ alike K.Kind.meaning self.now.sizes.now reach body ++ left K.Kind.meaning self.now.sizes.now result }
    {
        let mut next = body;
        if advance::<K>(&self.sizes[..reach], &mut next[..reach]) {
            Some(next)
        } else {
            None
        }
    }
}
