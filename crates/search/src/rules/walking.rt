// Walking over the bodies from one optimal rule to the next.
ghost use Rattle.std.specs.Prelude.{◌≡◌};
ghost use Rattle.std.specs.Iterator.{YieldsFirst, item_count};
ghost use Rattle.search.specs.Walks.{to_find, places};

use super::super::bodies::{Bodies, Codes, State};
use super::Rules;
use model::Kind;

impl<'a, K: Kind> Bodies<'a, K> {
    // The optimal rules, from the rule without conditions on.
    pub(crate) fn rules<'b>(&'b self, opposed: &'b [State]) -> Rules<'b, 'a, K>
        ensures { to_find K.Kind.meaning result.bodies.now.sizes.now result.opposed.now result.next ≡ places K.Kind.meaning self.now.sizes.now opposed.now }
    {
        Rules {
            bodies: self,
            opposed,
            next: Some([0; 8]),
        }
    }
}

impl<'b, 'a, K: Kind> Iterator for Rules<'b, 'a, K> {
    type Item = Codes;

    ghost next_gives = { YieldsFirst (λ s. to_find K.Kind.meaning s.bodies.now.sizes.now s.opposed.now s.next) };

    ghost remaining = { item_count (λ s. to_find K.Kind.meaning s.bodies.now.sizes.now s.opposed.now s.next) };

    fn next(&mut self) -> Option<Codes> {
        'bodies: while let Some(body) = self.next {
            let clear = self.bodies.is_clear(self.opposed, &body);
            let reach = self.bodies.reach(clear, &body);
            self.next = self.bodies.after(body, reach);
            if clear && self.bodies.is_tight(self.opposed, &body) {
                return Some(body);
            }
        }
        None
    }
}
