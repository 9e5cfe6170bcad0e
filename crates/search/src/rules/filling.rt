// The optimal rules counted, and written to rule memory.
ghost use Rattle.std.specs.Prelude.{◌≡◌, ◌*◌, ◌≤◌, ◌++◌, length, drop};
ghost use Rattle.std.specs.List.{flat_map};
ghost use Rattle.search.specs.Walks.{places};

use super::super::bodies::{Bodies, State};
use model::Kind;

impl<'a, K: Kind> Bodies<'a, K> {
    // How many optimal rules there are.
    pub(crate) fn count(&self, opposed: &[State]) -> u32
        ensures { result ≡ length (places K.Kind.meaning self.now.sizes.now opposed.now) }
    {
        self.rules(opposed).count() as u32
    }

    // The optimal rules from the front of rule memory on, eight bytes each; the bytes after them stay as they were.
    pub(crate) fn write(&self, opposed: &[State], rules: &mut [u8])
        requires { 8 * length (places K.Kind.meaning self.now.sizes.now opposed.now) ≤ length rules.old }
        ensures { rules.new ≡ flat_map (λ p. p) (places K.Kind.meaning self.now.sizes.now opposed.now) ++ drop (8 * length (places K.Kind.meaning self.now.sizes.now opposed.now)) rules.old }
    {
        // A place by its offset: over `chunks_exact_mut` zipped with the rules, no proof was found of what memory then holds.
        let mut at = 0;
        'rules: for rule in self.rules(opposed) {
            rules[at..at + 8].copy_from_slice(&rule);
            at += 8;
        }
    }
}
